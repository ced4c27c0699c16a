//! A round that lanes serve beside each other.
ghost use Rattle.std.specs.Prelude.{◌≡◌, ◌≤◌, [], ◌∷◌, ℕ, List, IfOk, length};
ghost use Rattle.std.specs.List.{All};
ghost use Rattle.noise_ledger.specs.Verdicts.{ArePassed, parameters_of};
ghost use Rattle.psi_bundle.specs.Histories.{replay};
ghost use Rattle.psi_frames.specs.Frames.{answer_fits};
ghost use Rattle.psi_frames.specs.Requests.{IsFit, count_asks};
ghost use Rattle.psi_frames.specs.Served.{Exchange, IsOneLane, IsServed, addressed, exchanges};
ghost use Rattle.sender_core.specs.Kept.{start_of, version_of};
ghost use Rattle.live_sender.specs.Histories.{origin_of};
ghost use Rattle.query_pool.specs.Dealing.{listed};
ghost use Rattle.query_pool.specs.Joined.{AreJoined, ArePartsOf, list_at};
ghost use Rattle.query_pool.specs.Jobs.{IsWork, request_lists};
ghost use Rattle.query_pool.specs.Seats.{IsBegun};

use crate::dealing::{Dealt, deal, merge};
use crate::jobs::{Work, run_jobs};
use crate::round::Round;
use crate::seating::{cut, meet};
use crate::shape::Shape;
use crate::works::works_of;
use bundle_cache::Cache;
use live_sender::{OpenRefused, Seat, Sender};
use noise_ledger::Params;
use psi_frames::{Reply, Request};
use psi_outside::Gate;
use sender_core::Book;
use std::alloc::{AllocError, Global};
use std::sync::Wait;
use std::thread::Threads;

/// Serves a round by workers beside each other, each in a thread of its own where one can be made, while builders make
/// caches. A session's requests are answered by one worker, in their order.
///
/// The replies, one for each request in the requests' order, serve the round from the given book: each tells its answer at
/// the place of its entry in one history, which begins with the book's journal and is that of the new book. Places follow on
/// behind it, each once, and rise in each session; a query is answered from the set at its own place. With one worker the
/// replies are those of one lane. The book keeps its parameters and its start.
///
/// The parameters are passed ones, and the book's own. There are at most 4096 requests, of which at most 32 are Asks. A Put's
/// label has `10·units` bytes, an Ask's query has `rows·capacity` ciphertexts, a Repack's row is below `rows`, and a Bad's
/// code is from 1 to 6. There are 1 to 8 workers, and at most 4 builders.
///
/// # Errors
///
/// If memory runs out, but for what a builder wants. Then the book is given up.
pub fn run_round<R: Threads + Wait + Sync, G: Gate>(
    rt: &R,
    alloc: Global,
    params: &Params,
    book: Book<Cache>,
    requests: Vec<Request>,
    shape: Shape,
    gate: &G,
) -> Result<Round, AllocError>
    requires passed { ArePassed (parameters_of params.now) }
    requires same { book.parameters ≡ parameters_of params.now }
    requires few { length requests.items ≤ 4096 }
    requires asks { count_asks requests.items ≤ 32 }
    requires fit { All (IsFit (parameters_of params.now)) requests.items }
    requires workers { (1 ≤ shape.workers) × (shape.workers ≤ 8) }
    requires builders { shape.builders ≤ 4 }
    ensures one_each { IfOk result (λ round. length round.replies.items ≡ length requests.items) }
    ensures served { IfOk result (λ round.
        IsServed (parameters_of params.now) (start_of book) book.journal round.book.journal
        (requests.items ∷ []) (addressed requests.items round.replies.items)) }
    ensures one_lane { shape.workers ≡ 1
        → IfOk result (λ round. IsOneLane
        (exchanges (requests.items ∷ []) (addressed requests.items round.replies.items))) }
    ensures parameters { IfOk result (λ round. round.book.parameters ≡ book.parameters) }
    ensures start { IfOk result (λ round. round.book.start ≡ book.start) }
    ensures leads { IfOk result (λ round.
        replay (start_of book) round.book.journal ≡ version_of round.book) }
    ensures fits { IfOk result (λ round. All answer_fits round.replies.items) }
{
    let entries = requests.len() as u32;
    let Dealt { lanes, order } = deal(alloc, requests, shape.workers)?;
    let works = works_of(alloc, params, lanes, shape.builders)?;
    let Ran { book, replies } = run_works(rt, alloc, params, book, works, entries, gate)?;
    let replies = merge(alloc, order, replies)?;
    Ok(Round { book, replies })
}

// What the threads of a round leave: the book, and the replies of each.
#[derive(Drop)]
struct Ran {
    book: Book<Cache>,
    replies: Vec<Vec<Reply>>,
}

// Runs the works beside each other on a book, with room for so many entries more.
fn run_works<R: Threads + Wait + Sync, G: Gate>(
    rt: &R,
    alloc: Global,
    params: &Params,
    book: Book<Cache>,
    works: Vec<Work>,
    entries: u32,
    gate: &G,
) -> Result<Ran, AllocError>
    requires passed { ArePassed (parameters_of params.now) }
    requires same { book.parameters ≡ parameters_of params.now }
    requires ready { All (IsWork (parameters_of params.now)) works.items }
    requires few { length works.items ≤ 12 }
    requires entries { entries ≤ 4096 }
    ensures joined { IfOk result (λ ran. (workers : ℕ) (es : List Exchange) → 1 ≤ workers
        → workers ≤ length works.items → ArePartsOf workers es (request_lists works.items)
        (listed ran.replies.items) → AreJoined (origin_of book) book.journal ran.book.journal
        workers es) }
    ensures one_each { IfOk result (λ ran. (l : ℕ)
        → length (list_at (listed ran.replies.items) l) ≡ length
        (list_at (request_lists works.items) l)) }
    ensures fits { IfOk result (λ ran. (l : ℕ)
        → All answer_fits (list_at (listed ran.replies.items) l)) }
    ensures origin { IfOk result (λ ran. origin_of ran.book ≡ origin_of book) }
    ensures leads { IfOk result (λ ran.
        replay (start_of book) ran.book.journal ≡ version_of ran.book) }
{
    let Begun { sender, seat } = begin(rt, alloc, book, entries)?;
    let mut seat = seat;
    let jobs = cut(alloc, &sender, &mut seat, works)?;
    let dones = run_jobs(rt, alloc, params, &sender, jobs, gate)?;
    let replies = meet(alloc, &sender, &mut seat, dones)?;
    let book = sender.close(seat);
    Ok(Ran { book, replies })
}

// A sender over the book of a round, and its first seat.
#[derive(Drop)]
struct Begun {
    sender: Sender<Cache>,
    seat: Seat<Cache>,
}

// Opens a sender over the book, with room for so many entries more.
fn begin<R: Threads + Wait + Sync>(
    rt: &R,
    alloc: Global,
    book: Book<Cache>,
    entries: u32,
) -> Result<Begun, AllocError>
    requires { entries ≤ 4096 }
    ensures here { IfOk result (λ begun. begun.seat.turnstile ≡ begun.sender) }
    ensures begun { IfOk result (λ begun. IsBegun (origin_of book) book.journal begun.seat.knows) }
{
    match Sender::open(alloc, book) {
        Ok((sender, seat)) => {
            let mut seat = seat;
            sender.reserve(rt, alloc, &mut seat, entries)?;
            Ok(Begun { sender, seat })
        }
        Err(OpenRefused { book: _ }) => Err(AllocError),
    }
}
