//! Bytes as replies.
ghost use Rattle.std.specs.Prelude.{◌≡◌, ◌+◌, [], ◌∷◌, ◌++◌, true, false, List, None, Some, length, IfOk, IfErr};
ghost use Rattle.psi_frames.specs.declared.reply.Reply.{Reply};
ghost use Rattle.psi_frames.specs.Feeds.{HasFed, end_fault};
ghost use Rattle.psi_frames.specs.Frames.{Fault, frame_bytes};
ghost use Rattle.psi_frames.specs.ReplyFrames.{Tells};
ghost use Rattle.psi_frames.specs.ReplyTexts.{AreReplies};
ghost use Rattle.psi_frames.specs.Served.{Sent};
ghost use Rattle.psi_demo.specs.Replies.{IsReadFault, replies_of};

use crate::fault::SumFault;
use psi_frames::{Feed, Frame, FrameFault, Reply, read_answer};
use std::alloc::{AllocError, Global};

// The bytes of a frame before its body.
const BEFORE_BODY: u64 = 11;

/// The replies whose frames the bytes are, one after another: they are read so in one way. `Torn` comes exactly where the bytes are no list of whole
/// reply frames, with the offset of the first part that begins none; the only other error is memory that runs out.
pub fn read_replies(alloc: Global, bytes: &[u8]) -> Result<Vec<Reply>, SumFault>
    ensures read { IfOk result (λ replies.
        (sents : List Sent) × AreReplies bytes.now sents × (replies.items ≡ replies_of sents)) }
    ensures fault { IfErr result (IsReadFault bytes.now) }
{
    let mut feed = fed(alloc, bytes)?;
    let mut replies = Vec::new(alloc);
    let mut offset = 0;
    while let Some(frame) = feed.next() {
        let end = offset + frame_bytes(&frame);
        if !add_reply(alloc, &frame, &mut replies)? {
            return Err(SumFault::Torn { offset });
        }
        offset = end;
    }
    if !may_end(&feed) {
        return Err(SumFault::Torn { offset });
    }
    Ok(replies)
}

// A feed of replies that the bytes were fed to.
fn fed(alloc: Global, bytes: &[u8]) -> Result<Feed, AllocError>
    ensures fed { IfOk result (λ feed. HasFed feed bytes.now []) }
    ensures replies { IfOk result (λ feed. feed.replies ≡ true) }
{
    let mut feed = Feed::replies(alloc)?;
    match feed.feed(alloc, bytes) {
        Ok(()) => Ok(feed),
        Err(fault) => match fault {
            FrameFault::NoMemory => Err(AllocError),
            _ => Ok(feed),
        },
    }
}

// Appends the reply that a frame tells, if it tells one, and answers whether it does.
fn add_reply(alloc: Global, frame: &Frame, replies: &mut Vec<Reply>) -> Result<bool, AllocError>
    ensures told { IfOk result (λ told. told ≡ true → (r : Reply)
        × Tells frame.now.kind frame.now.body r × (replies.new.items ≡ replies.old.items
        ++ r ∷ [])) }
    ensures untold { IfOk result (λ told.
        told ≡ false → (r : Reply) → Tells frame.now.kind frame.now.body r → ⊥) }
{
    match read_answer(alloc, frame)? {
        Some(reply) => {
            replies.push(reply)?;
            Ok(true)
        }
        None => Ok(false),
    }
}

// Whether the bytes that were fed may end where they do.
fn may_end(feed: &Feed) -> bool
    ensures ended { result ≡ true → end_fault feed.now.fault feed.now.rest ≡ None }
    ensures faulty { result ≡ false → (fault : Fault) × (end_fault feed.now.fault feed.now.rest
        ≡ Some fault) }
{
    match feed.finish() {
        Ok(()) => true,
        Err(_) => false,
    }
}

// The bytes of a frame.
fn frame_bytes(frame: &Frame) -> u64
    ensures { result ≡ length (frame_bytes frame.now) }
{
    BEFORE_BODY + frame.body.items().len() as u64
}
