//! Serving an input: its rounds, from a set.
ghost use Rattle.std.specs.Prelude.{◌≡◌, ◌≤◌, true, nat_eq, [], IfOk, IfSome};
ghost use Rattle.noise_ledger.specs.Verdicts.{ArePassed, parameters_of};
ghost use Rattle.psi_bundle.specs.Versions.{empty_version};
ghost use Rattle.psi_outside.specs.Ends.{ends};
ghost use Rattle.query_pool.specs.Inputs.{AreBadFrames, AreGoodFrames};
ghost use Rattle.sender_core.specs.Kept.{start_of};
ghost use Rattle.psi_serve.specs.Rounds.{HasAnsweredRound, IsAsked};
ghost use Rattle.psi_serve.specs.Serving.{HasServed};

use crate::one_set::OneSet;
use bundle_cache::Cache;
use noise_ledger::Params;
use psi_frames::Request;
use psi_outside::{Gate, Sink, Source};
use query_pool::{Round, Served, Shape, round_alone, run_round, serve_frames};
use sender_core::Book;
use std::alloc::{AllocError, Global};
use std::sync::Wait;
use std::thread::Threads;

// What is left where there was no memory for a set.
const NO_MEMORY: Served = Served {
    status: 7,
    entries: 0,
    replies: 0,
};

/// Serves the requests of a source by the workers and builders of a shape, from the empty set: rounds of frames in, the text of
/// their replies out. Each round is answered as soon as it was read, and its replies are written and flushed before the next
/// round begins. After a write or a flush that failed, and where memory ran out, nothing more is read. The threads of a round
/// pass the gate at their points.
///
/// The parameters pass the check. There are 1 to 8 workers and at most 4 builders.
///
/// | Status | Comes | What was written |
/// |---|---|---|
/// | 0 | the input is whole frames to its end | the replies to all of them |
/// | 4 | a frame has a bad length or kind, or the input ends within a frame, or it has more than 2^40 bytes | the replies to the whole frames before |
/// | 5 | only where a read failed | the replies to the whole frames read before |
/// | 6 | only where a write or a flush failed | the replies of earlier rounds, and a front of those of this round |
/// | 7 | memory ran out | the replies of earlier rounds |
///
/// The replies serve the requests along one history: each request has one reply, each accepted call one place, and each answer is
/// that of the set at its place. With one worker they are exactly those of one lane, whatever the builders do. `entries` and
/// `replies` count the places and the replies of the rounds that were written and flushed whole.
pub fn serve<R: Threads + Wait + Sync, S: Source, K: Sink, G: Gate>(
    rt: &R,
    alloc: Global,
    params: &Params,
    shape: Shape,
    source: &mut S,
    sink: &mut K,
    gate: &G,
) -> Served
    requires passed { ArePassed (parameters_of params.now) }
    requires workers { (1 ≤ shape.workers) × (shape.workers ≤ 8) }
    requires builders { shape.builders ≤ 4 }
    ensures served { HasServed (empty_version (parameters_of params.now)) (nat_eq shape.workers 1)
        (ends (S.told source.old) (K.told sink.old)) (ends (S.told source.new) (K.told sink.new))
        result }
    ensures good { IfSome (S.told source.old).left (λ bytes. AreGoodFrames bytes → result.status ≡ 4
        → ⊥) }
    ensures bad { IfSome (S.told source.old).left (λ bytes. AreBadFrames bytes → result.status ≡ 0
        → ⊥) }
{
    match Book::open(alloc, params) {
        Ok(book) => serve_book(rt, alloc, params, book, shape, source, sink, gate),
        Err(_) => NO_MEMORY,
    }
}

// The same from the set of a book, whose journal is empty.
fn serve_book<R: Threads + Wait + Sync, S: Source, K: Sink, G: Gate>(
    rt: &R,
    alloc: Global,
    params: &Params,
    book: Book<Cache>,
    shape: Shape,
    source: &mut S,
    sink: &mut K,
    gate: &G,
) -> Served
    requires passed { ArePassed (parameters_of params.now) }
    requires same { book.parameters ≡ parameters_of params.now }
    requires none_entered { book.journal ≡ [] }
    requires workers { (1 ≤ shape.workers) × (shape.workers ≤ 8) }
    requires builders { shape.builders ≤ 4 }
    ensures served { HasServed (start_of book) (nat_eq shape.workers 1)
        (ends (S.told source.old) (K.told sink.old)) (ends (S.told source.new) (K.told sink.new))
        result }
    ensures good { IfSome (S.told source.old).left (λ bytes. AreGoodFrames bytes → result.status ≡ 4
        → ⊥) }
    ensures bad { IfSome (S.told source.old).left (λ bytes. AreBadFrames bytes → result.status ≡ 0
        → ⊥) }
{
    let round = |book: Book<Cache>, requests: Vec<Request>| -> Result<Round, AllocError>
        requires passed { ArePassed (parameters_of params.now) }
        requires workers { (1 ≤ shape.workers) × (shape.workers ≤ 8) }
        requires builders { shape.builders ≤ 4 }
        requires asked { IsAsked (parameters_of params.now) book requests.items }
        ensures { IfOk result (λ round.
            HasAnsweredRound (parameters_of params.entry.now) (nat_eq shape.workers 1) book
            round.book requests.items round.replies.items) }
    { run_round(rt, alloc, params, book, requests, shape, gate) };
    let set = OneSet::new(alloc, book, shape.workers == 1, round);
    serve_frames(alloc, params, set, source, sink)
}

/// The same by one lane, without builders and without waiting. The parameters pass the check.
///
/// The replies are exactly those of one lane: places number the accepted requests in input order, and a Repack is never answered
/// Moved. The statuses, and what is written and counted, are those of `serve`.
pub fn serve_alone<R: Threads + Sync, S: Source, K: Sink>(
    rt: &R,
    alloc: Global,
    params: &Params,
    source: &mut S,
    sink: &mut K,
) -> Served
    requires passed { ArePassed (parameters_of params.now) }
    ensures served { HasServed (empty_version (parameters_of params.now)) true
        (ends (S.told source.old) (K.told sink.old)) (ends (S.told source.new) (K.told sink.new))
        result }
    ensures good { IfSome (S.told source.old).left (λ bytes. AreGoodFrames bytes → result.status ≡ 4
        → ⊥) }
    ensures bad { IfSome (S.told source.old).left (λ bytes. AreBadFrames bytes → result.status ≡ 0
        → ⊥) }
{
    match Book::open(alloc, params) {
        Ok(book) => serve_book_alone(rt, alloc, params, book, source, sink),
        Err(_) => NO_MEMORY,
    }
}

// The same from the set of a book, whose journal is empty.
fn serve_book_alone<R: Threads + Sync, S: Source, K: Sink>(
    rt: &R,
    alloc: Global,
    params: &Params,
    book: Book<Cache>,
    source: &mut S,
    sink: &mut K,
) -> Served
    requires passed { ArePassed (parameters_of params.now) }
    requires same { book.parameters ≡ parameters_of params.now }
    requires none_entered { book.journal ≡ [] }
    ensures served { HasServed (start_of book) true
        (ends (S.told source.old) (K.told sink.old)) (ends (S.told source.new) (K.told sink.new))
        result }
    ensures good { IfSome (S.told source.old).left (λ bytes. AreGoodFrames bytes → result.status ≡ 4
        → ⊥) }
    ensures bad { IfSome (S.told source.old).left (λ bytes. AreBadFrames bytes → result.status ≡ 0
        → ⊥) }
{
    let round = |book: Book<Cache>, requests: Vec<Request>| -> Result<Round, AllocError>
        requires passed { ArePassed (parameters_of params.now) }
        requires asked { IsAsked (parameters_of params.now) book requests.items }
        ensures { IfOk result (λ round.
            HasAnsweredRound (parameters_of params.entry.now) true book round.book requests.items
            round.replies.items) }
    { answer_alone(rt, alloc, params, book, requests) };
    let set = OneSet::new(alloc, book, true, round);
    serve_frames(alloc, params, set, source, sink)
}

// Answers a round by one lane.
fn answer_alone<R: Threads + Sync>(
    rt: &R,
    alloc: Global,
    params: &Params,
    book: Book<Cache>,
    requests: Vec<Request>,
) -> Result<Round, AllocError>
    requires passed { ArePassed (parameters_of params.now) }
    requires asked { IsAsked (parameters_of params.now) book requests.items }
    ensures { IfOk result (λ round.
        HasAnsweredRound (parameters_of params.now) true book round.book requests.items
        round.replies.items) }
{
    round_alone(rt, alloc, params, book, requests)
}
