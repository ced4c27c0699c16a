//! The evaluation of a query on the set that a follower's entries lead to.
ghost use Rattle.std.specs.Prelude.{◌≡◌, length, IfOk};
ghost use Rattle.noise_ledger.specs.Verdicts.{ArePassed, ciphertexts_of, parameters_of};
ghost use Rattle.psi_bundle.specs.Histories.{replay};
ghost use Rattle.bundle_cache.specs.Caches.{IsCacheable};
ghost use Rattle.query_codec.specs.Replies.{reply_body};
ghost use Rattle.sender_core.specs.Kept.{start_of};
ghost use Rattle.sender_core.specs.Given.{IsJobOf};
ghost use Rattle.sender_core.specs.Tries.{job_of};
ghost use Rattle.psi_follower.specs.Inner.Warming.{HasOtherCaches};

use bundle_cache::{Cache, Scratch, open_block};
use noise_ledger::Params;
use psi_frames::Body;
use query_codec::Ciphertext;
use query_pool::evaluate;
use sender_core::{Bare, Book, Task};
use std::alloc::{AllocError, Global};
use std::thread::Threads;

// The most bundles of a set.
const BUNDLES: u8 = 64;

/// The body of the reply to a query from the set as it stands. Caches are built first, as far as there is memory, and stay
/// beside their bundles.
pub(crate) fn evaluated<R: Threads + Sync>(
    rt: &R,
    alloc: Global,
    params: &Params,
    book: &mut Book<Cache>,
    query: Vec<Ciphertext>,
) -> Result<Body, AllocError>
    requires passed { ArePassed (parameters_of params.now) }
    requires same { book.old.parameters ≡ parameters_of params.now }
    requires powers { length query.items ≡ ciphertexts_of (parameters_of params.now) }
    ensures body { IfOk result (λ body. body ≡ reply_body (parameters_of params.now)
        (replay (start_of book.old) book.old.journal).rows query.items) }
    ensures kept { HasOtherCaches book.old book.new }
{
    // A bundle that has no cache is evaluated all the same.
    let _ = warm_all(rt, alloc, params, book);
    let shown = book.shown(alloc)?;
    let mut scratch = Scratch::open(alloc, params)?;
    evaluate(rt, alloc, params, &shown, query, &mut scratch)
}

// Builds the caches that are missing, one after another.
fn warm_all<R: Threads + Sync>(
    rt: &R,
    alloc: Global,
    params: &Params,
    book: &mut Book<Cache>,
) -> Result<(), AllocError>
    requires passed { ArePassed (parameters_of params.now) }
    requires same { book.old.parameters ≡ parameters_of params.now }
    ensures kept { HasOtherCaches book.old book.new }
{
    for _ in 0..BUNDLES {
        match book.fetch_bare(alloc, 0)? {
            Bare::All { .. } => return Ok(()),
            Bare::One { task } => warm(rt, alloc, params, book, &task)?,
        }
    }
    Ok(())
}

// Builds the cache of a task's bundle, and puts it beside the bundle.
fn warm<R: Threads + Sync>(
    rt: &R,
    alloc: Global,
    params: &Params,
    book: &mut Book<Cache>,
    task: &Task,
) -> Result<(), AllocError>
    requires passed { ArePassed (parameters_of params.now) }
    requires same { book.old.parameters ≡ parameters_of params.now }
    requires of_history { IsJobOf (start_of book.old) book.old.journal (job_of task.now) }
    requires cacheable { IsCacheable (parameters_of params.now) (job_of task.now).bins }
    ensures kept { HasOtherCaches book.old book.new }
{
    let cache = built(rt, alloc, params, task)?;
    book.install(alloc, task, cache)?;
    Ok(())
}

// The cache of a task's bundle.
fn built<R: Threads + Sync>(
    rt: &R,
    alloc: Global,
    params: &Params,
    task: &Task,
) -> Result<Cache, AllocError>
    requires passed { ArePassed (parameters_of params.now) }
    requires cacheable { IsCacheable (parameters_of params.now) (job_of task.now).bins }
    ensures bins { IfOk result (λ cache. cache.bins ≡ (job_of task.now).bins) }
    ensures parameters { IfOk result (λ cache. cache.parameters ≡ parameters_of params.now) }
{
    let bundle = task.bundle.clone()?;
    let block = open_block(alloc, params)?;
    match Cache::build(rt, alloc, params, bundle, block) {
        Ok(cache) => Ok(cache),
        Err(_) => Err(AllocError),
    }
}
