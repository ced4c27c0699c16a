//! The round that has begun.
ghost use Rattle.std.specs.Prelude.{◌≡◌, ◌||◌, nat_eq, nat_le, [], ◌∷◌, ◌++◌, length, OnOk, OnErr};
ghost use Rattle.psi_frames.specs.Frames.{frame_bytes};
ghost use Rattle.psi_frames.specs.Rounds.{bytes_of_round, frames_of_round, is_full};

use crate::frame::{Frame, GO, HEAD_BYTES};
use std::alloc::{AllocError, Global};
use std::marker::Model;
use std::mem;

// A round ends after this many frames.
const FRAMES_OF_ROUND: usize = 4096;

// A round ends after the frame that brings its bytes to so many.
const BYTES_OF_ROUND: u64 = 1 << 28;

/// The frames of the round that has begun, in the order in which they came, with their size.
///
/// Contracts see the list of the frames.
#[derive(Drop)]
pub struct OpenRound {
    frames: Vec<Frame>,
    has_go: bool,
    bytes: u64,
}

impl Model for OpenRound {
    ghost use Rattle.std.specs.Prelude.{List};
    ghost use Rattle.psi_frames.specs.declared.frame.Frame.{Frame};
    ghost use Rattle.psi_frames.specs.RoundSizes.{HasSize};

    ghost Value = { List Frame };

    ghost view = { λ r. r.frames.items };

    ghost invariant = { λ r. HasSize r.has_go r.bytes r.frames.items };
}

impl OpenRound {
    /// A round of no frames.
    pub fn new(alloc: Global) -> OpenRound
        ensures { result ≡ [] }
    {
        OpenRound {
            frames: Vec::new(alloc),
            has_go: false,
            bytes: 0,
        }
    }

    /// Appends a frame, whether or not the round is full. An `Err` tells that memory ran out, and changes nothing.
    pub fn push(&mut self, frame: Frame) -> Result<(), AllocError>
        ensures pushed { OnOk result (self.new ≡ self.old ++ frame ∷ []) }
        ensures kept { OnErr result (self.new ≡ self.old) }
    {
        let has_go = self.has_go || frame.kind == GO;
        let bytes = self.bytes.saturating_add(frame_length(&frame));
        self.frames.push(frame)?;
        self.has_go = has_go;
        self.bytes = bytes;
        Ok(())
    }

    /// Whether the round ends here: one of its frames is a Go frame, or they are 4096, or they have 2^28 bytes.
    pub fn is_full(&self) -> bool
        ensures { result ≡ is_full self.now }
    {
        is_full_size(self.has_go, self.frames.len(), self.bytes)
    }

    /// Whether it has no frames.
    pub fn is_empty(&self) -> bool
        ensures { result ≡ nat_eq (length self.now) 0 }
    {
        self.frames.is_empty()
    }

    /// Its frames, given away: the next round has none.
    pub fn take(&mut self, alloc: Global) -> Vec<Frame>
        ensures frames { result.items ≡ self.old }
        ensures none_left { self.new ≡ [] }
    {
        let OpenRound { frames, .. } = mem::replace(self, OpenRound::new(alloc));
        frames
    }
}

// Whether a round of this size is full.
fn is_full_size(has_go: bool, frames: usize, bytes: u64) -> bool
    ensures { result ≡ (has_go || (nat_le frames_of_round frames || nat_le bytes_of_round bytes)) }
{
    has_go || frames >= FRAMES_OF_ROUND || bytes >= BYTES_OF_ROUND
}

// The bytes of a frame.
fn frame_length(frame: &Frame) -> u64
    ensures { result ≡ length (frame_bytes frame.now) }
{
    (4 + HEAD_BYTES) as u64 + frame.body.items().len() as u64
}
