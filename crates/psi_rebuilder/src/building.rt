ghost use Rattle.std.specs.Prelude.{◌≡◌, ◌⊎◌, ◌<◌, ◌≤◌, ◌-◌, [], length, max, IfOk, IfSome, OnErr, OnOk, Some};
ghost use Rattle.std.specs.Arc.{arc_value};
ghost use Rattle.std.specs.List.{All, fold};
ghost use Rattle.noise_ledger.specs.Verdicts.{ArePassed, parameters_of};
ghost use Rattle.row_block.specs.Shelves.{shelf_room};
ghost use Rattle.bundle_cache.specs.Caches.{IsBundleBlock, IsCacheable};
ghost use Rattle.sender_core.specs.Given.{IsJobOf};
ghost use Rattle.sender_core.specs.Tries.{job_of};
ghost use Rattle.live_sender.specs.declared.origin.Origin.{Origin};
ghost use Rattle.live_sender.specs.Histories.{first_version};
ghost use Rattle.live_sender.specs.Turns.{GoesOn, IsSeated};
ghost use Rattle.psi_rebuilder.specs.Building.{EndsBy, HasTurned, IsFetched, IsLeftByFault, IsLeftByTries, IsOfJob, NamesUnlessStale, RiseWithin, ShowsAll, left_by, moments, shelved};
ghost use Rattle.psi_rebuilder.specs.Outcomes.{IsCacheOf, IsOutcome, IsReceipt, shelved_after};

use crate::built::Built;
use bundle_cache::{BuildRefused, Cache, open_block};
use live_sender::{Seat, Sender};
use noise_ledger::Params;
use psi_outside::{Gate, Point};
use row_block::{RowBlock, Shelf};
use sender_core::{Bare, Install, Receipt, Snapshot, Task};
use std::alloc::{AllocError, Global};
use std::sync::Wait;
use std::thread::Threads;

// What one unit of the budget gives.
#[derive(Drop)]
enum Outcome {
    // A cache was built and brought.
    Tried { receipt: Receipt },
    // Each bundle has a cache.
    Done { shown: Snapshot<Cache> },
}

/// Builds caches for bundles without one, so many at the most, and installs them. Each unit of the budget is one turn that
/// fetches a bundle, the bundle's cache, built outside of any turn, and one turn that tries to install it. Room for all
/// receipts is taken first. The gate is passed at `BeforeInstall`, with the number `skip`, before each install; every fetch
/// takes the bundle with the number `skip`, modulo their number, of those that have no cache.
///
/// It ends with as many receipts as the budget, and then `all` is None; or with fewer, where a fetch found that each bundle
/// has a cache: then `all` is what that fetch showed. A receipt whose `now` is None is of a cache that was put in, and names
/// a bundle of the set as it stood after the receipt's `at` entries. In some book with a history that the seat had seen when it
/// fetched, a receipt's bundle was, of those without a cache, the one with the number `skip` modulo their number. A cache is built
/// in a block of the shelf, or in a new one where the shelf has none; the block of a cache that came too late goes to the shelf.
/// A builder makes no entry.
///
/// Conditions: the parameters are passed ones, and those of the sender's book. The seat is of this sender. The shelf holds
/// only blocks of the size of a bundle's cache: `(1 + units)·(capacity + 1)` rows of 8192 words. The budget is at most 1024.
///
/// # Errors
///
/// If memory runs out. The caches that were installed stay, the seat has made no entry and goes on, and the shelf holds only
/// blocks of that size. They are as many as the tries before left there, or one less where a cache could not be put in, which is
/// dropped with its block; the block of a cache that could not be built is on the shelf. Where there is no room for the receipts
/// nothing was done.
pub fn build_some<R: Threads + Wait + Sync, G: Gate>(
    rt: &R,
    alloc: Global,
    sender: &Sender<Cache>,
    seat: &mut Seat<Cache>,
    shelf: &mut Shelf,
    params: &Params,
    skip: u16,
    budget: u32,
    gate: &G,
) -> Result<Built, AllocError>
    requires passed { ArePassed (parameters_of params.now) }
    requires here { seat.old.turnstile ≡ sender.now }
    requires under { (z : Origin) → seat.old.knows.base ≡ Some z → z.parameters
        ≡ parameters_of params.now }
    requires shelf { All (IsBundleBlock (parameters_of params.now)) shelf.old }
    requires budget { budget ≤ 1024 }
    ensures ends { IfOk result (EndsBy budget) }
    ensures moments { IfOk result
        (λ built. RiseWithin (length seat.old.knows.seen) (length seat.new.knows.seen)
        (moments built)) }
    ensures named { (z : Origin) → seat.old.knows.base ≡ Some z →
        IfOk result (λ built. All (NamesUnlessStale z seat.new.knows.seen) built.receipts.items) }
    ensures all { (z : Origin) → seat.old.knows.base ≡ Some z →
        IfOk result (λ built. IfSome built.all (ShowsAll z seat.new.knows.seen)) }
    ensures fetched { (z : Origin) → seat.old.knows.base ≡ Some z →
        IfOk result (λ built. All (IsFetched z skip seat.new.knows.seen) built.receipts.items) }
    ensures blocks { length shelf.old ≤ shelf_room →
        IfOk result (λ built. length shelf.new
        ≡ fold shelved (length shelf.old) built.receipts.items) }
    ensures refused { length shelf.old ≤ shelf_room →
        OnErr result (IsLeftByTries budget (length shelf.old) (length shelf.new)) }
    ensures here { seat.new.turnstile ≡ seat.old.turnstile }
    ensures own { seat.new.knows.own ≡ seat.old.knows.own }
    ensures turned { HasTurned seat.old.knows seat.new.knows }
    ensures went { (z : Origin) → IsSeated z seat.old.knows →
        GoesOn z seat.old.knows seat.new.knows }
    ensures shelf { All (IsBundleBlock (parameters_of params.now)) shelf.new }
{
    let mut receipts = Vec::with_capacity(alloc, budget as usize)?;
    for _ in 0..budget {
        match try_one(rt, alloc, sender, seat, shelf, params, skip, gate)? {
            Outcome::Tried { receipt } => receipts.push_reserved(receipt),
            Outcome::Done { shown } => {
                let all = Some(shown);
                return Ok(Built { receipts, all });
            }
        }
    }
    let all = None;
    Ok(Built { receipts, all })
}

// One unit of the budget: a bundle without a cache is fetched, its cache is built, and it is brought. Where there is no such
// bundle it is all bundles.
fn try_one<R: Threads + Wait + Sync, G: Gate>(
    rt: &R,
    alloc: Global,
    sender: &Sender<Cache>,
    seat: &mut Seat<Cache>,
    shelf: &mut Shelf,
    params: &Params,
    skip: u16,
    gate: &G,
) -> Result<Outcome, AllocError>
    requires passed { ArePassed (parameters_of params.now) }
    requires here { seat.old.turnstile ≡ sender.now }
    requires under { (z : Origin) → seat.old.knows.base ≡ Some z → z.parameters
        ≡ parameters_of params.now }
    requires shelf { All (IsBundleBlock (parameters_of params.now)) shelf.old }
    ensures outcome { IfOk result (IsOutcome skip seat.old.knows seat.new.knows) }
    ensures blocks { length shelf.old ≤ shelf_room →
        IfOk result (λ outcome. length shelf.new ≡ shelved_after (length shelf.old) outcome) }
    ensures refused { length shelf.old ≤ shelf_room →
        OnErr result (IsLeftByFault (length shelf.old) (length shelf.new)) }
    ensures here { seat.new.turnstile ≡ seat.old.turnstile }
    ensures own { seat.new.knows.own ≡ seat.old.knows.own }
    ensures turned { HasTurned seat.old.knows seat.new.knows }
    ensures shelf { All (IsBundleBlock (parameters_of params.now)) shelf.new }
{
    let given = sender.fetch_bare(rt, alloc, seat, skip)?;
    match given {
        Bare::All { shown } => Ok(Outcome::Done { shown }),
        Bare::One { task } => {
            let cache = build_cache(rt, alloc, shelf, params, &task)?;
            gate.pass(rt, Point::BeforeInstall, u32::from(skip));
            let receipt = bring(rt, alloc, sender, seat, shelf, &task, cache)?;
            Ok(Outcome::Tried { receipt })
        }
    }
}

// Brings the cache of a task, and leaves its block on the shelf where it is stale.
fn bring<R: Threads + Wait + Sync>(
    rt: &R,
    alloc: Global,
    sender: &Sender<Cache>,
    seat: &mut Seat<Cache>,
    shelf: &mut Shelf,
    task: &Task,
    cache: Cache,
) -> Result<Receipt, AllocError>
    requires here { seat.old.turnstile ≡ sender.now }
    requires under { (z : Origin) → seat.old.knows.base ≡ Some z → z.parameters ≡ cache.parameters }
    requires of_history { (z : Origin) → seat.old.knows.base ≡ Some z →
        IsJobOf (first_version z) seat.old.knows.seen (job_of task.now) }
    requires passed { ArePassed cache.parameters }
    requires bins { cache.bins ≡ (job_of task.now).bins }
    requires block { IsBundleBlock cache.parameters cache.block }
    requires shelf { All (IsBundleBlock cache.parameters) shelf.old }
    ensures receipt { IfOk result (IsReceipt seat.old.knows seat.new.knows) }
    ensures job { IfOk result (IsOfJob (job_of task.now)) }
    ensures blocks { length shelf.old < shelf_room →
        IfOk result (λ receipt. length shelf.new ≡ left_by receipt.instead (length shelf.old)) }
    ensures refused { OnErr result (length shelf.new ≡ length shelf.old) }
    ensures here { seat.new.turnstile ≡ seat.old.turnstile }
    ensures own { seat.new.knows.own ≡ seat.old.knows.own }
    ensures turned { HasTurned seat.old.knows seat.new.knows }
    ensures shelf { All (IsBundleBlock cache.parameters) shelf.new }
{
    match sender.install(rt, alloc, seat, task, cache)? {
        Install::Installed { receipt } => Ok(receipt),
        Install::Stale { receipt, cache } => {
            let _ = shelf.give(cache.into_block());
            Ok(receipt)
        }
    }
}

// The cache of a task's bundle, in a block of the shelf or a new one. The block comes to the shelf where there is no memory.
fn build_cache<R: Threads + Sync>(
    rt: &R,
    alloc: Global,
    shelf: &mut Shelf,
    params: &Params,
    task: &Task,
) -> Result<Cache, AllocError>
    requires passed { ArePassed (parameters_of params.now) }
    requires cacheable { IsCacheable (parameters_of params.now) (arc_value task.now.bundle) }
    requires shelf { All (IsBundleBlock (parameters_of params.now)) shelf.old }
    ensures cache { IfOk result (IsCacheOf (parameters_of params.now) (job_of task.now)) }
    ensures blocks { OnOk result (length shelf.new ≡ length shelf.old - 1) }
    ensures refused { length shelf.old ≤ shelf_room →
        OnErr result ((length shelf.new ≡ length shelf.old) ⊎
        (length shelf.new ≡ max (length shelf.old) 1)) }
    ensures shelf { All (IsBundleBlock (parameters_of params.now)) shelf.new }
{
    let bundle = task.bundle.clone()?;
    let block = take_block(alloc, shelf, params)?;
    match Cache::build(rt, alloc, params, bundle, block) {
        Ok(cache) => Ok(cache),
        Err(BuildRefused { block }) => {
            let _ = shelf.give(block);
            Err(AllocError)
        }
    }
}

// A block without rows, of the size of a bundle's cache: from the shelf, or a new one where the shelf has none. Only a new
// one takes memory.
fn take_block(alloc: Global, shelf: &mut Shelf, params: &Params) -> Result<RowBlock, AllocError>
    requires passed { ArePassed (parameters_of params.now) }
    requires shelf { All (IsBundleBlock (parameters_of params.now)) shelf.old }
    ensures block { IfOk result (λ block. IsBundleBlock (parameters_of params.now) block
        × (block.held ≡ [])) }
    ensures served { OnErr result (length shelf.old ≡ 0) }
    ensures blocks { length shelf.new ≡ length shelf.old - 1 }
    ensures shelf { All (IsBundleBlock (parameters_of params.now)) shelf.new }
{
    match shelf.take() {
        Some(block) => Ok(block),
        None => open_block(alloc, params),
    }
}
