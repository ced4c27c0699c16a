//! The threads of a round: what each has to do, and that they do it.
ghost use Rattle.std.specs.Prelude.{◌≡◌, ◌≤◌, ◌<◌, ℕ, Some, Ok, IfOk, [], length, map, slice_index_or};
ghost use Rattle.std.specs.List.{All, AllZip};
ghost use Rattle.std.specs.Thread.{IsSync};
ghost use Rattle.noise_ledger.specs.Verdicts.{ArePassed, parameters_of};
ghost use Rattle.bundle_cache.specs.Caches.{IsBundleBlock};
ghost use Rattle.live_sender.specs.declared.origin.Origin.{Origin};
ghost use Rattle.live_sender.specs.Turns.{IsSeated, GoesOn};
ghost use Rattle.query_pool.specs.Jobs.{HasRun, IsReadyJob};

use crate::lane::{Done, Lane, Numbered, run_lane};
use bundle_cache::{Cache, Scratch};
use live_sender::{Seat, Sender};
use noise_ledger::Params;
use psi_outside::Gate;
use psi_rebuilder::{Built, build_some};
use row_block::Shelf;
use std::alloc::{AllocError, Global};
use std::sync::Wait;
use std::thread;
use std::thread::Threads;

/// What a thread of a round does.
#[derive(Drop)]
pub(crate) enum Work {
    /// A lane answers its requests in their order.
    Lane {
        scratch: Scratch,
        requests: Vec<Numbered>,
    },
    /// A builder builds caches, so many at the most, from a bundle of its own number on.
    Builder {
        shelf: Shelf,
        number: u16,
        budget: u32,
    },
}

/// A thread of a round, which has a seat of its own.
#[derive(Drop)]
pub(crate) struct Job {
    pub(crate) seat: Seat<Cache>,
    pub(crate) work: Work,
}

/// Runs the jobs beside each other, each in a thread of its own where one can be made. What they leave is in their order.
///
/// The parameters are passed ones, and each job can be done under them and has a seat of the sender.
///
/// # Errors
///
/// If memory runs out, in a lane or for the threads.
pub(crate) fn run_jobs<R: Threads + Wait + Sync, G: Gate>(
    rt: &R,
    alloc: Global,
    params: &Params,
    sender: &Sender<Cache>,
    jobs: Vec<Job>,
    gate: &G,
) -> Result<Vec<Done>, AllocError>
    requires passed { ArePassed (parameters_of params.now) }
    requires ready { All (IsReadyJob (parameters_of params.now) sender.now) jobs.items }
    ensures ran { IfOk result (λ dones. AllZip HasRun jobs.items dones.items) }
{
    let results = run_each(rt, alloc, params, sender, jobs, gate)?;
    all_done(alloc, results)
}

// What each job gives.
fn run_each<R: Threads + Wait + Sync, G: Gate>(
    rt: &R,
    alloc: Global,
    params: &Params,
    sender: &Sender<Cache>,
    jobs: Vec<Job>,
    gate: &G,
) -> Result<Vec<Result<Done, AllocError>>, AllocError>
    requires passed { ArePassed (parameters_of params.now) }
    requires ready { All (IsReadyJob (parameters_of params.now) sender.now) jobs.items }
    ensures count { IfOk result (λ results. length results.items ≡ length jobs.items) }
    ensures ran { IfOk result (λ results. (i : ℕ) (j : Job) (r : _) → i < length jobs.items
        → IfOk (slice_index_or results.items i r) (HasRun (slice_index_or jobs.items i j))) }
{
    thread::map_vec(
        rt,
        jobs,
        &|job: Job| -> Result<Done, AllocError>
            requires { IsSync R.row × ArePassed (parameters_of params.now)
                × IsReadyJob (parameters_of params.now) sender.now job }
            ensures { IfOk result (HasRun job) }
        { run_job(rt, alloc, params, sender, job, gate) },
    )
}

// Each job is done, or else memory ran out.
fn all_done(alloc: Global, results: Vec<Result<Done, AllocError>>) -> Result<Vec<Done>, AllocError>
    ensures { IfOk result (λ dones. map Ok dones.items ≡ results.items) }
{
    let mut dones = Vec::with_capacity(alloc, results.len())?;
    for result in results {
        dones.push(result?)?;
    }
    Ok(dones)
}

// One thread.
fn run_job<R: Threads + Wait + Sync, G: Gate>(
    rt: &R,
    alloc: Global,
    params: &Params,
    sender: &Sender<Cache>,
    job: Job,
    gate: &G,
) -> Result<Done, AllocError>
    requires passed { ArePassed (parameters_of params.now) }
    requires ready { IsReadyJob (parameters_of params.now) sender.now job }
    ensures ran { IfOk result (HasRun job) }
{
    let Job { seat, work } = job;
    match work {
        Work::Lane { scratch, requests } => {
            let lane = Lane {
                seat,
                scratch,
                requests,
            };
            run_lane(rt, alloc, params, sender, lane, gate)
        }
        Work::Builder {
            shelf,
            number,
            budget,
        } => Ok(build(rt, alloc, params, sender, seat, shelf, number, budget, gate)),
    }
}

// A builder's thread. Where memory runs out, it builds no more; the round does not need what it builds.
fn build<R: Threads + Wait + Sync, G: Gate>(
    rt: &R,
    alloc: Global,
    params: &Params,
    sender: &Sender<Cache>,
    seat: Seat<Cache>,
    shelf: Shelf,
    number: u16,
    budget: u32,
    gate: &G,
) -> Done
    requires passed { ArePassed (parameters_of params.now) }
    requires here { seat.turnstile ≡ sender.now }
    requires under { (z : Origin) → seat.knows.base ≡ Some z
        → z.parameters ≡ parameters_of params.now }
    requires shelf { All (IsBundleBlock (parameters_of params.now)) shelf }
    requires budget { budget ≤ 1024 }
    ensures here { result.seat.turnstile ≡ seat.turnstile }
    ensures went { (z : Origin) → IsSeated z seat.knows → GoesOn z seat.knows result.seat.knows }
    ensures own { result.seat.knows.own ≡ seat.knows.own }
    ensures none { result.replies.items ≡ [] }
{
    let mut seat = seat;
    let mut shelf = shelf;
    let _built: Result<Built, AllocError> = build_some(
        rt, alloc, sender, &mut seat, &mut shelf, params, number, budget, gate,
    );
    Done {
        seat,
        replies: Vec::new(alloc),
    }
}
