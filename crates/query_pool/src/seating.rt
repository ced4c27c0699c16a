//! The seats of a round.
ghost use Rattle.std.specs.Prelude.{◌≡◌, ◌≤◌, IfOk, length, map};
ghost use Rattle.std.specs.List.{All};
ghost use Rattle.query_pool.specs.Seats.{AreCut, AreMet, doubled};

use crate::jobs::{Job, Work};
use crate::lane::Done;
use bundle_cache::Cache;
use live_sender::{Seat, Sender};
use psi_frames::Reply;
use std::alloc::{AllocError, Global};

/// A job for each work, each with a seat that is split off the given one.
///
/// The seat is of the sender, and has a share for so many splits.
///
/// # Errors
///
/// If memory runs out.
pub(crate) fn cut(
    alloc: Global,
    sender: &Sender<Cache>,
    seat: &mut Seat<Cache>,
    works: Vec<Work>,
) -> Result<Vec<Job>, AllocError>
    requires here { seat.old.turnstile ≡ sender.now }
    requires share { doubled (length works.items) ≤ seat.old.knows.share }
    ensures here { seat.new.turnstile ≡ seat.old.turnstile }
    ensures each_here { IfOk result
        (λ jobs. All (λ job. job.seat.turnstile ≡ sender.now) jobs.items) }
    ensures works { IfOk result (λ jobs. map (λ job. job.work) jobs.items ≡ works.items) }
    ensures seats { IfOk result (λ jobs.
        AreCut seat.old.knows seat.new.knows (map (λ job. job.seat.knows) jobs.items)) }
{
    let mut jobs = Vec::with_capacity(alloc, works.len())?;
    for work in works {
        let own = sender.split(seat);
        jobs.push(Job { seat: own, work })?;
    }
    Ok(jobs)
}

/// The replies of each job that is done. Its seat is taken in by the given one.
///
/// All seats are of the sender.
///
/// # Errors
///
/// If memory runs out.
pub(crate) fn meet(
    alloc: Global,
    sender: &Sender<Cache>,
    seat: &mut Seat<Cache>,
    dones: Vec<Done>,
) -> Result<Vec<Vec<Reply>>, AllocError>
    requires here { seat.old.turnstile ≡ sender.now }
    requires each_here { All (λ done. done.seat.turnstile ≡ sender.now) dones.items }
    ensures here { seat.new.turnstile ≡ seat.old.turnstile }
    ensures seats { IfOk result (λ replies.
        AreMet seat.old.knows seat.new.knows (map (λ done. done.seat.knows) dones.items)) }
    ensures replies { IfOk result (λ replies.
        replies.items ≡ map (λ done. done.replies) dones.items) }
{
    let mut replies = Vec::with_capacity(alloc, dones.len())?;
    for done in dones {
        let Done {
            seat: note,
            replies: own,
        } = done;
        sender.meet(seat, note);
        replies.push(own)?;
    }
    Ok(replies)
}
