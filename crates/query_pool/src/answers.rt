//! What the book answers to each call, as a reply.
ghost use Rattle.std.specs.Prelude.{◌≡◌, ◌≤◌, ◌^◌, ℕ, List, None, Some, length, IfOk, OnOk};
ghost use Rattle.psi_bundle.specs.declared.history.Answer.TheVariants.{Seen};
ghost use Rattle.psi_frames.specs.Frames.{answer_fits};
ghost use Rattle.psi_frames.specs.OneLane.{reply_telling};
ghost use Rattle.psi_frames.specs.Served.{answer_of, body_of, from_of, place_of};
ghost use Rattle.psi_frames.specs.declared.reply.Reply.TheVariants.{Refused};
ghost use Rattle.sender_core.specs.Answers.{answer_of_put, answer_of_drop, answer_of_repack, cause_at};
ghost use Rattle.query_pool.specs.Rounds.{longest_body};

use psi_frames::{Body, Reply};
use sender_core::{DropAnswer, Put, Refusal, RepackAnswer};
use std::alloc::AllocError;

// The code of a request that met a full journal.
const JOURNAL_FULL: u8 = 7;

/// The reply that tells what a Put did, at the place of its entry.
pub(crate) fn of_put(answer: Put, place: u64) -> Reply
    ensures place { place_of result ≡ Some place }
    ensures answer { answer_of result ≡ Some (answer_of_put answer) }
    ensures from { from_of result ≡ None }
    ensures body { body_of result ≡ None }
    ensures alone { (body : List ℕ) → result ≡ reply_telling (answer_of_put answer) place body }
    ensures fits { answer_fits result }
{
    match answer {
        Put::Added => Reply::Added { place },
        Put::Replaced => Reply::Replaced { place },
        Put::Full { planes, cells } => Reply::Full {
            place,
            planes,
            cells,
        },
    }
}

/// The reply that tells what a Drop did, at the place of its entry.
pub(crate) fn of_drop(answer: DropAnswer, place: u64) -> Reply
    ensures place { place_of result ≡ Some place }
    ensures answer { answer_of result ≡ Some (answer_of_drop answer) }
    ensures from { from_of result ≡ None }
    ensures body { body_of result ≡ None }
    ensures alone { (body : List ℕ) → result ≡ reply_telling (answer_of_drop answer) place body }
    ensures fits { answer_fits result }
{
    match answer {
        DropAnswer::Removed => Reply::Removed { place },
        DropAnswer::Absent => Reply::Absent { place },
    }
}

/// The reply to a query, with its body, at the place of its entry. The body is no longer than that of 64 planes.
pub(crate) fn of_ask(place: u64, body: Body) -> Reply
    requires short { length body ≤ longest_body }
    ensures place { place_of result ≡ Some place }
    ensures answer { answer_of result ≡ Some Seen }
    ensures from { from_of result ≡ None }
    ensures body { body_of result ≡ Some body }
    ensures alone { result ≡ reply_telling Seen place body }
    ensures fits { answer_fits result }
{
    Reply::Answer { place, body }
}

/// The reply that tells what a Repack did to the row as it stood after `from` entries, at the place of its entry.
pub(crate) fn of_repack(answer: RepackAnswer, place: u64, from: u64) -> Reply
    ensures place { place_of result ≡ Some place }
    ensures answer { answer_of result ≡ Some (answer_of_repack answer) }
    ensures from { from_of result ≡ Some from }
    ensures body { body_of result ≡ None }
    ensures alone { from ≡ place → (body : List ℕ)
        → result ≡ reply_telling (answer_of_repack answer) place body }
    ensures fits { answer_fits result }
{
    match answer {
        RepackAnswer::Done { before, after } => Reply::Repacked {
            place,
            from,
            before,
            after,
        },
        RepackAnswer::Moved { stamp } => Reply::Moved { place, from, stamp },
    }
}

/// The reply to a call that a full journal refused.
///
/// # Errors
///
/// If it was refused for want of memory.
pub(crate) fn refused(refusal: Refusal) -> Result<Reply, AllocError>
    ensures code { IfOk result (λ reply. reply ≡ Refused 7) }
    ensures full { OnOk result ((entries : ℕ) → refusal ≡ cause_at entries → 2 ^ 20 ≤ entries) }
    ensures fits { IfOk result answer_fits }
{
    match refusal {
        Refusal::JournalFull { .. } => Ok(Reply::Refused { code: JOURNAL_FULL }),
        Refusal::NoMemory => Err(AllocError),
    }
}
