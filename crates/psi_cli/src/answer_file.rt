//! Files with an answer.
ghost use Rattle.std.specs.Prelude.{◌≡◌, ◌≤◌, ◌∷◌, [], ℕ, List, None, length, IfOk, OnOk, IfSome};
ghost use Rattle.std.specs.Option.{option_and_then};
ghost use Rattle.psi_frames.specs.declared.frame.Frame.{Frame};
ghost use Rattle.psi_frames.specs.declared.fault.FrameFault.TheVariants.{NoMemory};
ghost use Rattle.psi_frames.specs.Served.{body_of};
ghost use Rattle.psi_cli.specs.AnswerFiles.{IsAnswerFile, IsOneReply, most_answer};

use psi_frames::{Body, Feed, Frame, FrameFault, Reply, read_answer};
use std::alloc::{AllocError, Global};

/// The reply body of a file with one answer. None comes exactly where the bytes are not one reply frame of kind Answer.
pub(crate) fn answer_body(alloc: Global, file: &[u8]) -> Result<Option<Body>, AllocError>
    requires few { length file.now ≤ most_answer }
    ensures found { IfOk result (λ found. IfSome found (IsAnswerFile file.now)) }
    ensures none { IfOk result (λ found. found ≡ None
        → (body : List ℕ) → IsAnswerFile file.now body → ⊥) }
{
    match one_reply(alloc, file)? {
        Some(frame) => Ok(body_of(read_answer(alloc, &frame)?)),
        None => Ok(None),
    }
}

// The body of an Answer.
fn body_of(reply: Option<Reply>) -> Option<Body>
    ensures { result ≡ option_and_then body_of reply }
{
    match reply {
        Some(Reply::Answer { body, .. }) => Some(body),
        _ => None,
    }
}

// The one reply frame that the bytes are. None comes exactly where they are not one.
fn one_reply(alloc: Global, bytes: &[u8]) -> Result<Option<Frame>, AllocError>
    ensures found { IfOk result (λ found. IfSome found (IsOneReply bytes.now)) }
    ensures none { IfOk result (λ found. found ≡ None
        → (frame : Frame) → IsOneReply bytes.now frame → ⊥) }
{
    let mut feed = Feed::replies(alloc)?;
    match feed.feed(alloc, bytes) {
        Ok(()) => Ok(only_frame(feed)),
        Err(fault) => {
            only_memory(fault)?;
            Ok(None)
        }
    }
}

// Hands on want of memory, and no fault of the bytes.
fn only_memory(fault: FrameFault) -> Result<(), AllocError>
    ensures { OnOk result (fault ≡ NoMemory → ⊥) }
{
    match fault {
        FrameFault::NoMemory => Err(AllocError),
        _ => Ok(()),
    }
}

// The frame of a feed that has one, and nothing else.
fn only_frame(feed: Feed) -> Option<Frame>
    requires { feed.fault ≡ None }
    ensures found { IfSome result (λ frame. (feed.ready ≡ frame ∷ []) × (feed.rest ≡ [])) }
    ensures none { result ≡ None
        → (frame : Frame) → feed.ready ≡ frame ∷ [] → feed.rest ≡ [] → ⊥ }
{
    let mut feed = feed;
    let ended = feed.finish().is_ok();
    match (feed.next(), feed.next()) {
        (Some(frame), None) if ended => Some(frame),
        _ => None,
    }
}
