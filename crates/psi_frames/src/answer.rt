//! Replies, read from their frames.
ghost use Rattle.std.specs.Prelude.{◌≡◌, ◌≤◌, ◌+◌, ◌↔◌, Some, IfOk, IfSome, IsSome, IsTrue, length, drop, slice_index};
ghost use Rattle.byteorder.specs.Endian.{big_number};
ghost use Rattle.psi_frames.specs.declared.reply.Reply.{Reply};
ghost use Rattle.psi_frames.specs.ReplyFrames.{Tells, is_reply_row, told_reply};

use crate::body::Body;
use crate::frame::Frame;
use crate::reply::{
    ABSENT, ADDED, ANSWER, FULL, FULL_BYTES, MOVED, MOVED_BYTES, PLACE_BYTES, REFUSED,
    REFUSED_BYTES, REMOVED, REPACKED, REPACKED_BYTES, REPLACED, Reply,
};
use byteorder::{BigEndian, ByteOrder};
use std::alloc::{AllocError, Global};

/// The reply that a frame tells. `None` comes exactly where the frame is in no row of the table of replies: its kind is none
/// of 129 to 137, or its body has a wrong length; the body of an Answer has any length from 8 bytes on. The only error is
/// memory that runs out.
pub fn read_answer(alloc: Global, frame: &Frame) -> Result<Option<Reply>, AllocError>
    ensures row { IfOk result (λ found.
        IsSome found ↔ IsTrue (is_reply_row frame.now.kind (length frame.now.body))) }
    ensures tells { IfOk result (λ found. IfSome found (Tells frame.now.kind frame.now.body)) }
    ensures only { IfOk result (λ found.
        (r : Reply) → Tells frame.now.kind frame.now.body r → found ≡ Some r) }
{
    read_reply(alloc, frame.kind, frame.body.items())
}

// The reply that a frame of this kind and body tells.
fn read_reply(alloc: Global, kind: u8, body: &[u8]) -> Result<Option<Reply>, AllocError>
    ensures row { IfOk result (λ found.
        IsSome found ↔ IsTrue (is_reply_row kind (length body.now))) }
    ensures tells { IfOk result (λ found. IfSome found (Tells kind body.now)) }
    ensures only { IfOk result (λ found. (r : Reply) → Tells kind body.now r → found ≡ Some r) }
{
    if is_reply_row(kind, body.len()) {
        Ok(Some(told_reply(alloc, kind, body)?))
    } else {
        Ok(None)
    }
}

// Whether a kind and the length of a body are those of a reply.
fn is_reply_row(kind: u8, bytes: usize) -> bool
    ensures { result ≡ is_reply_row kind bytes }
{
    match kind {
        ADDED..=ABSENT => bytes == PLACE_BYTES,
        FULL => bytes == FULL_BYTES,
        ANSWER => PLACE_BYTES <= bytes,
        REPACKED => bytes == REPACKED_BYTES,
        MOVED => bytes == MOVED_BYTES,
        REFUSED => bytes == REFUSED_BYTES,
        _ => false,
    }
}

// The reply of a kind, from its body.
#[tactic(auto, unfolding(crate::specs::ReplyFrames::told_reply))]
fn told_reply(alloc: Global, kind: u8, body: &[u8]) -> Result<Reply, AllocError>
    requires { IsTrue (is_reply_row kind (length body.now)) }
    ensures { IfOk result (λ reply. reply ≡ told_reply kind body.now) }
{
    match kind {
        ADDED => Ok(Reply::Added { place: place(body) }),
        REPLACED => Ok(Reply::Replaced { place: place(body) }),
        REMOVED => Ok(Reply::Removed { place: place(body) }),
        ABSENT => Ok(Reply::Absent { place: place(body) }),
        FULL => Ok(Reply::Full {
            place: place(body),
            planes: BigEndian::read_u32(&body[8..]),
            cells: BigEndian::read_u32(&body[12..]),
        }),
        ANSWER => Ok(Reply::Answer {
            place: place(body),
            body: Body::of(Vec::from_slice(alloc, &body[8..])?),
        }),
        REPACKED => Ok(Reply::Repacked {
            place: place(body),
            from: BigEndian::read_u64(&body[8..]),
            before: BigEndian::read_u16(&body[16..]),
            after: BigEndian::read_u16(&body[18..]),
        }),
        MOVED => Ok(Reply::Moved {
            place: place(body),
            from: BigEndian::read_u64(&body[8..]),
            stamp: BigEndian::read_u64(&body[16..]),
        }),
        _ => Ok(Reply::Refused { code: body[0] }),
    }
}

// The place of a reply, which its body begins with.
fn place(body: &[u8]) -> u64
    requires { 8 ≤ length body.now }
    ensures { result ≡ big_number 8 body.now }
{
    BigEndian::read_u64(body)
}
