//! A frame that has begun.
ghost use Rattle.std.specs.Prelude.{◌≡◌, ◌+◌, ◌-◌, ◌≤◌, ◌<◌, ◌^◌, [], ◌++◌, min, nat_eq, ℕ, length, slice_index, OnOk, OnErr, IfOk};
ghost use Rattle.byteorder.specs.Endian.{big_number};
ghost use Rattle.psi_frames.specs.Feeds.{table_of};
ghost use Rattle.psi_frames.specs.Cuts.{IsFront};
ghost use Rattle.psi_frames.specs.FrontFrames.{front_frame};

use crate::body::Body;
use crate::frame::Frame;
use crate::front::{Front, front_of};
use crate::head::Head;
use byteorder::{BigEndian, ByteOrder};
use std::alloc::{AllocError, Global};
use std::marker::Model;

/// The bytes that have come of a frame: its first eleven bytes, and then its body.
#[derive(Drop)]
pub(crate) struct Begun {
    head: Head,
    body: Vec<u8>,
}

impl Model for Begun {
    ghost use Rattle.std.specs.Prelude.{List, ℕ, ◌++◌};
    ghost use Rattle.psi_frames.specs.Parts.{AreParts};

    ghost Value = { List ℕ };

    ghost view = { λ b. b.head ++ b.body.items };

    ghost invariant = { λ b. AreParts b.head b.body.items };
}

impl Begun {
    /// No byte.
    pub(crate) fn new(alloc: Global) -> Begun
        ensures { result ≡ [] }
    {
        Begun {
            head: Head::new(),
            body: Vec::new(alloc),
        }
    }

    /// These bytes.
    pub(crate) fn of(alloc: Global, bytes: &[u8]) -> Result<Begun, AllocError>
        ensures { IfOk result (λ begun. begun ≡ bytes.now) }
    {
        let mut begun = Begun::new(alloc);
        begun.extend(bytes)?;
        Ok(begun)
    }

    /// How many bytes have come.
    pub(crate) fn len(&self) -> usize
        requires { length self.now < 2 ^ 32 }
        ensures { result ≡ length self.now }
    {
        self.head.len() + self.body.len()
    }

    /// Whether no byte has come.
    pub(crate) fn is_empty(&self) -> bool
        ensures { result ≡ nat_eq (length self.now) 0 }
    {
        self.head.len() == 0
    }

    /// What stands at the front of these bytes and a piece behind them.
    pub(crate) fn front(&self, replies: bool, piece: &[u8]) -> Front
        requires { length self.now < 2 ^ 32 }
        ensures { IsFront (table_of replies) (self.now ++ piece.now) result }
    {
        let head = self.head.with(&piece[..self.head.room(piece)]);
        front_of(replies, head.items(), self.len() + piece.len())
    }

    /// Appends bytes. An `Err` changes nothing.
    pub(crate) fn extend(&mut self, piece: &[u8]) -> Result<(), AllocError>
        ensures ok { OnOk result (self.new ≡ self.old ++ piece.now) }
        ensures err { OnErr result (self.new ≡ self.old) }
    {
        let (first, more) = piece.split_at(self.head.room(piece));
        self.body.extend_from_slice(more)?;
        self.head = self.head.with(first);
        Ok(())
    }

    /// The frame that the bytes are.
    pub(crate) fn into_frame(self) -> Frame
        requires head { 11 ≤ length self }
        requires whole { 4 + big_number 4 self ≡ length self }
        ensures frame { result ≡ front_frame self }
        ensures bytes { (i : ℕ) → slice_index self i < 256 }
    {
        let Begun { head, body } = self;
        frame_of(head.items(), body)
    }
}

// The frame with these eleven bytes before its body.
fn frame_of(head: &[u8], body: Vec<u8>) -> Frame
    requires eleven { length head.now ≡ 11 }
    requires whole { 4 + big_number 4 (head.now ++ body.items) ≡ length (head.now ++ body.items) }
    ensures { result ≡ front_frame (head.now ++ body.items) }
{
    Frame {
        kind: head[4],
        session: BigEndian::read_u16(&head[5..]),
        number: BigEndian::read_u32(&head[7..]),
        body: Body::of(body),
    }
}
