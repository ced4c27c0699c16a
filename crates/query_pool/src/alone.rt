//! A round that one lane serves, each request on the book that the one before left.
ghost use Rattle.std.specs.Prelude.{◌≡◌, ◌≤◌, ◌<◌, ◌++◌, ◌*◌, ℕ, List, IfOk, length};
ghost use Rattle.std.specs.List.{All, fold};
ghost use Rattle.noise_ledger.specs.Verdicts.{ArePassed, ciphertexts_of, parameters_of};
ghost use Rattle.psi_bundle.specs.Versions.{HasLabelLength};
ghost use Rattle.psi_bundle.specs.declared.history.Call.TheVariants as Call;
ghost use Rattle.psi_frames.specs.Frames.{answer_fits};
ghost use Rattle.psi_frames.specs.OneLane.{lane_history, lane_next, lane_replies};
ghost use Rattle.psi_frames.specs.Served.{addressed};
ghost use Rattle.query_codec.specs.Replies.{reply_body};
ghost use Rattle.sender_core.specs.Kept.{version_of};
ghost use Rattle.query_pool.specs.Alone.{IsAnsweredAlone, IsCalled};
ghost use Rattle.query_pool.specs.Caching.{IsScratch};
ghost use Rattle.psi_frames.specs.Requests.{IsFit, count_asks};
ghost use Rattle.query_pool.specs.Rounds.{IsNoMoved};

use crate::answers::{of_ask, of_drop, of_put, of_repack, refused};
use crate::evaluation::evaluate;
use crate::round::Round;
use bundle_cache::{Cache, Scratch};
use item_slots::Tag;
use noise_ledger::Params;
use psi_bundle::Label;
use psi_frames::{Reply, Request};
use psi_packer::pack_row;
use query_codec::Ciphertext;
use sender_core::Book;
use std::alloc::{AllocError, Global};
use std::thread::Threads;

/// Serves a round by one lane: the book takes the requests in their order, and each is answered from the set as it then
/// stands. The replies are those of the one-thread sender, in the requests' order. A Repack packs the row as it stands, so no
/// reply is `Moved`. The book keeps its parameters and its start, and its journal has the round's entries behind the old ones.
/// The journal's room for the round is taken before the first request.
///
/// The parameters are passed ones, and the book's own. There are at most 4096 requests, of which at most 32 are Asks. A Put's
/// label has `10·units` bytes, an Ask's query has `rows·capacity` ciphertexts, a Repack's row is below `rows`, and a Bad's
/// code is from 1 to 6.
///
/// # Errors
///
/// If memory runs out. Then the book is given up.
pub fn round_alone<R: Threads + Sync>(
    rt: &R,
    alloc: Global,
    params: &Params,
    book: Book<Cache>,
    requests: Vec<Request>,
) -> Result<Round, AllocError>
    requires passed { ArePassed (parameters_of params.now) }
    requires same { book.parameters ≡ parameters_of params.now }
    requires few { length requests.items ≤ 4096 }
    requires asks { count_asks requests.items ≤ 32 }
    requires fit { All (IsFit (parameters_of params.now)) requests.items }
    ensures one_each { IfOk result (λ round. length round.replies.items ≡ length requests.items) }
    ensures replies { IfOk result (λ round.
        addressed requests.items round.replies.items ≡ lane_replies (parameters_of params.now)
        (version_of book) requests.items) }
    ensures entries { IfOk result (λ round.
        round.book.journal ≡ book.journal ++ lane_history (version_of book) requests.items) }
    ensures version { IfOk result (λ round.
        version_of round.book ≡ fold lane_next (version_of book) requests.items) }
    ensures parameters { IfOk result (λ round. round.book.parameters ≡ book.parameters) }
    ensures start { IfOk result (λ round. round.book.start ≡ book.start) }
    ensures unmoved { IfOk result (λ round. All IsNoMoved round.replies.items) }
    ensures fits { IfOk result (λ round. All answer_fits round.replies.items) }
{
    let mut book = book;
    book.reserve(alloc, requests.len() as u32)?;
    answer_all(rt, alloc, params, book, requests)
}

// The same where the journal has room for its requests.
fn answer_all<R: Threads + Sync>(
    rt: &R,
    alloc: Global,
    params: &Params,
    book: Book<Cache>,
    requests: Vec<Request>,
) -> Result<Round, AllocError>
    requires passed { ArePassed (parameters_of params.now) }
    requires same { book.parameters ≡ parameters_of params.now }
    requires few { length requests.items ≤ 4096 }
    requires fit { All (IsFit (parameters_of params.now)) requests.items }
    ensures one_each { IfOk result (λ round. length round.replies.items ≡ length requests.items) }
    ensures replies { IfOk result (λ round.
        addressed requests.items round.replies.items ≡ lane_replies (parameters_of params.now)
        (version_of book) requests.items) }
    ensures entries { IfOk result (λ round.
        round.book.journal ≡ book.journal ++ lane_history (version_of book) requests.items) }
    ensures version { IfOk result (λ round.
        version_of round.book ≡ fold lane_next (version_of book) requests.items) }
    ensures parameters { IfOk result (λ round. round.book.parameters ≡ book.parameters) }
    ensures start { IfOk result (λ round. round.book.start ≡ book.start) }
    ensures unmoved { IfOk result (λ round. All IsNoMoved round.replies.items) }
    ensures fits { IfOk result (λ round. All answer_fits round.replies.items) }
{
    let mut book = book;
    let mut scratch = Scratch::open(alloc, params)?;
    let mut replies = Vec::with_capacity(alloc, requests.len())?;
    for request in requests {
        replies.push(reply_to(rt, alloc, params, &mut book, &mut scratch, request)?)?;
    }
    Ok(Round { book, replies })
}

// The reply to one request.
fn reply_to<R: Threads + Sync>(
    rt: &R,
    alloc: Global,
    params: &Params,
    book: &mut Book<Cache>,
    scratch: &mut Scratch,
    request: Request,
) -> Result<Reply, AllocError>
    requires passed { ArePassed (parameters_of params.now) }
    requires same { book.old.parameters ≡ parameters_of params.now }
    requires fit { IsFit (parameters_of params.now) request }
    requires scratch { IsScratch (parameters_of params.now) scratch.old }
    ensures answered { IfOk result (IsAnsweredAlone (parameters_of params.now) book.old book.new
        request) }
    ensures unmoved { IfOk result IsNoMoved }
    ensures fits { IfOk result answer_fits }
    ensures scratch { scratch.new ≡ scratch.old }
{
    match request {
        Request::Put { tag, label, .. } => put(alloc, book, tag, label),
        Request::Drop { tag, .. } => drop_tag(alloc, book, tag),
        Request::Ask { query, .. } => ask(rt, alloc, params, book, scratch, query.into_vec()),
        Request::Repack { row, .. } => repack(alloc, params, book, row),
        Request::Bad { code, .. } => Ok(Reply::Refused { code }),
    }
}

// Puts a tag with its label.
fn put(alloc: Global, book: &mut Book<Cache>, tag: Tag, label: Label) -> Result<Reply, AllocError>
    requires length { HasLabelLength book.old.parameters label }
    ensures called { IfOk result (λ reply. (body : List ℕ)
        → IsCalled book.old book.new (Call.Put tag label) body reply) }
    ensures unmoved { IfOk result IsNoMoved }
    ensures fits { IfOk result answer_fits }
{
    let place = book.count();
    match book.put(alloc, tag, label) {
        Ok(placed) => Ok(of_put(placed.answer, place)),
        Err(refusal) => refused(refusal),
    }
}

// Takes a tag out.
fn drop_tag(alloc: Global, book: &mut Book<Cache>, tag: Tag) -> Result<Reply, AllocError>
    ensures called { IfOk result (λ reply. (body : List ℕ)
        → IsCalled book.old book.new (Call.Drop tag) body reply) }
    ensures unmoved { IfOk result IsNoMoved }
    ensures fits { IfOk result answer_fits }
{
    let place = book.count();
    match book.drop_tag(alloc, tag) {
        Ok(placed) => Ok(of_drop(placed.answer, place)),
        Err(refusal) => refused(refusal),
    }
}

// Answers a query from the set as it stands.
fn ask<R: Threads + Sync>(
    rt: &R,
    alloc: Global,
    params: &Params,
    book: &mut Book<Cache>,
    scratch: &mut Scratch,
    query: Vec<Ciphertext>,
) -> Result<Reply, AllocError>
    requires passed { ArePassed (parameters_of params.now) }
    requires same { book.old.parameters ≡ parameters_of params.now }
    requires powers { length query.items ≡ ciphertexts_of (parameters_of params.now) }
    requires scratch { IsScratch (parameters_of params.now) scratch.old }
    ensures called { IfOk result (IsCalled book.old book.new Call.Ask
        (reply_body (parameters_of params.now) (version_of book.old).rows query.items)) }
    ensures unmoved { IfOk result IsNoMoved }
    ensures fits { IfOk result answer_fits }
    ensures scratch { scratch.new ≡ scratch.old }
{
    let place = book.count();
    match book.ask(alloc) {
        Ok(placed) => {
            let body = evaluate(rt, alloc, params, &placed.answer, query, scratch)?;
            Ok(of_ask(place, body))
        }
        Err(refusal) => refused(refusal),
    }
}

// Packs a row anew, as it stands.
fn repack(
    alloc: Global,
    params: &Params,
    book: &mut Book<Cache>,
    row: u8,
) -> Result<Reply, AllocError>
    requires passed { ArePassed (parameters_of params.now) }
    requires same { book.old.parameters ≡ parameters_of params.now }
    requires row { row < params.now.rows }
    ensures called { IfOk result (λ reply. (body : List ℕ)
        → IsCalled book.old book.new (Call.Repack row (length book.old.journal)) body reply) }
    ensures unmoved { IfOk result IsNoMoved }
    ensures fits { IfOk result answer_fits }
{
    let place = book.count();
    let view = book.fetch_row(alloc, row)?;
    let packed = pack_row(alloc, view.bundles(), params.capacity)?;
    match book.repack(alloc, &view, packed) {
        Ok(placed) => Ok(of_repack(placed.answer, place, view.from())),
        Err(refusal) => refused(refusal),
    }
}
