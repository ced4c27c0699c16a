//! What stands at the front of bytes: a frame that has begun, a whole one, or a fault.
ghost use Rattle.std.specs.Prelude.{◌≡◌, ◌≤◌, ◌<◌, ◌^◌, List, ℕ, take, length};
ghost use Rattle.psi_frames.specs.Frames.{is_frame_length};
ghost use Rattle.psi_frames.specs.Feeds.{table_of};
ghost use Rattle.psi_frames.specs.declared.front.Front.TheVariants.{Faulty};
ghost use Rattle.psi_frames.specs.declared.front.HeadFault.TheVariants.{Length};
ghost use Rattle.psi_frames.specs.Cuts.{IsFront};

use crate::frame::{GO, GREATEST_LENGTH, HEAD_BYTES, PUT};
use crate::reply::{ADDED, REFUSED};
use byteorder::{BigEndian, ByteOrder};

/// The bytes of a frame before its body: the length word and the head.
pub(crate) const BEFORE_BODY: usize = 4 + HEAD_BYTES;

/// A fault that a frame's first bytes decide.
#[derive(Clone, Copy)]
pub(crate) enum HeadFault {
    /// A length word that no frame of the table has, or that no Go frame has.
    Length { n: u32 },
    /// A kind that is none of the table.
    Kind { k: u8 },
}

/// What stands at the front of bytes.
#[derive(Clone, Copy)]
pub(crate) enum Front {
    /// A frame that is not whole, or nothing.
    Begun,
    /// A whole frame, which ends before this place.
    Whole { end: usize },
    /// No frame.
    Faulty { fault: HeadFault },
}

/// What stands at the front of so many bytes, by the first eleven of them.
#[tactic(auto, unfolding(crate::specs::Frames::front_fault))]
pub(crate) fn front_of(replies: bool, head: &[u8], count: usize) -> Front
    ensures { (bytes : List ℕ) → take 11 bytes ≡ head.now → length bytes ≡ count
        → IsFront (table_of replies) bytes result }
{
    if head.len() < 4 {
        return Front::Begun;
    }
    let n = BigEndian::read_u32(head);
    if !is_frame_length(replies, n) {
        return faulty_length(n);
    }
    if head.len() < 5 {
        return Front::Begun;
    }
    let k = head[4];
    if !has_kind(replies, k) {
        return Front::Faulty {
            fault: HeadFault::Kind { k },
        };
    }
    if k == GO && n as usize != HEAD_BYTES {
        return faulty_length(n);
    }
    let end = 4 + n as usize;
    if count < end {
        Front::Begun
    } else {
        Front::Whole { end }
    }
}

// A length word that no frame has.
fn faulty_length(n: u32) -> Front
    ensures { result ≡ Faulty (Length n) }
{
    Front::Faulty {
        fault: HeadFault::Length { n },
    }
}

// Whether a frame of the table may have this length word.
fn is_frame_length(replies: bool, n: u32) -> bool
    ensures { result ≡ is_frame_length (table_of replies) n }
{
    let least = if replies { HEAD_BYTES + 1 } else { HEAD_BYTES };
    least <= n as usize && n as usize <= GREATEST_LENGTH
}

// Whether the table has this kind.
fn has_kind(replies: bool, k: u8) -> bool
    ensures { result ≡ (table_of replies).has_kind k }
{
    if replies {
        ADDED <= k && k <= REFUSED
    } else {
        PUT <= k && k <= GO
    }
}
