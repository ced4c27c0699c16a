//! Each request of a lane, in its turn at the sender that the lanes share.
ghost use Rattle.std.specs.Prelude.{◌≡◌, ◌<◌, IfOk, Some, None, IsSome, length};
ghost use Rattle.noise_ledger.specs.Verdicts.{ArePassed, ciphertexts_of, parameters_of};
ghost use Rattle.psi_bundle.specs.Versions.{HasLabelLength};
ghost use Rattle.psi_bundle.specs.declared.history.Call.TheVariants as Call;
ghost use Rattle.psi_frames.specs.Frames.{answer_fits};
ghost use Rattle.psi_frames.specs.Served.{body_of, from_of, from_or_zero, place_of};
ghost use Rattle.live_sender.specs.declared.origin.Origin.{Origin};
ghost use Rattle.query_pool.specs.Caching.{IsScratch};
ghost use Rattle.query_pool.specs.Exchanges.{HasGoneOn, IsBodyAt, IsToldFrom, Tells};

use crate::answers::{of_ask, of_drop, of_put, of_repack, refused};
use crate::evaluation::evaluate;
use bundle_cache::{Cache, Scratch};
use item_slots::Tag;
use live_sender::{Seat, Sender};
use noise_ledger::Params;
use psi_bundle::Label;
use psi_frames::Reply;
use psi_outside::{Gate, Point};
use psi_packer::pack_row;
use query_codec::Ciphertext;
use std::alloc::{AllocError, Global};
use std::sync::Wait;
use std::thread::Threads;

/// Puts a tag with its label, in one turn. The gate is passed before and after it, with the request's index.
///
/// The seat is of the sender, and the label has the length of the labels of the seat's base.
///
/// # Errors
///
/// If memory runs out.
pub(crate) fn put<R: Threads + Wait + Sync, G: Gate>(
    rt: &R,
    alloc: Global,
    sender: &Sender<Cache>,
    seat: &mut Seat<Cache>,
    tag: Tag,
    label: Label,
    index: u32,
    gate: &G,
) -> Result<Reply, AllocError>
    requires here { seat.old.turnstile ≡ sender.now }
    requires length { (z : Origin) → seat.old.knows.base ≡ Some z
        → HasLabelLength z.parameters label }
    ensures here { seat.new.turnstile ≡ seat.old.turnstile }
    ensures went { HasGoneOn seat.old.knows seat.new.knows }
    ensures told { IfOk result (Tells seat.old.knows seat.new.knows (Call.Put tag label)) }
    ensures from { IfOk result (λ reply. from_of reply ≡ None) }
    ensures body { IfOk result (λ reply. body_of reply ≡ None) }
    ensures fits { IfOk result answer_fits }
{
    gate.pass(rt, Point::BeforeTurn, index);
    let turn = sender.put(rt, alloc, seat, tag, label);
    gate.pass(rt, Point::AfterTurn, index);
    match turn {
        Ok(placed) => Ok(of_put(placed.answer, placed.place)),
        Err(refusal) => refused(refusal),
    }
}

/// Takes a tag out, in one turn. The gate is passed before and after it, with the request's index.
///
/// The seat is of the sender.
///
/// # Errors
///
/// If memory runs out.
pub(crate) fn drop_tag<R: Threads + Wait + Sync, G: Gate>(
    rt: &R,
    alloc: Global,
    sender: &Sender<Cache>,
    seat: &mut Seat<Cache>,
    tag: Tag,
    index: u32,
    gate: &G,
) -> Result<Reply, AllocError>
    requires here { seat.old.turnstile ≡ sender.now }
    ensures here { seat.new.turnstile ≡ seat.old.turnstile }
    ensures went { HasGoneOn seat.old.knows seat.new.knows }
    ensures told { IfOk result (Tells seat.old.knows seat.new.knows (Call.Drop tag)) }
    ensures from { IfOk result (λ reply. from_of reply ≡ None) }
    ensures body { IfOk result (λ reply. body_of reply ≡ None) }
    ensures fits { IfOk result answer_fits }
{
    gate.pass(rt, Point::BeforeTurn, index);
    let turn = sender.drop_tag(rt, alloc, seat, tag);
    gate.pass(rt, Point::AfterTurn, index);
    match turn {
        Ok(placed) => Ok(of_drop(placed.answer, placed.place)),
        Err(refusal) => refused(refusal),
    }
}

/// Answers a query: it takes its snapshot in one turn, and evaluates outside, behind the gate's `AfterTurn`. The body is
/// that of the set as it stood at the reply's place.
///
/// The parameters are passed ones, and those of the seat's base. The seat is of the sender. The query has `rows·capacity`
/// ciphertexts. The scratch is of these parameters and has its block; it stays as it was.
///
/// # Errors
///
/// If memory runs out.
pub(crate) fn ask<R: Threads + Wait + Sync, G: Gate>(
    rt: &R,
    alloc: Global,
    params: &Params,
    sender: &Sender<Cache>,
    seat: &mut Seat<Cache>,
    scratch: &mut Scratch,
    query: Vec<Ciphertext>,
    index: u32,
    gate: &G,
) -> Result<Reply, AllocError>
    requires passed { ArePassed (parameters_of params.now) }
    requires here { seat.old.turnstile ≡ sender.now }
    requires under { (z : Origin) → seat.old.knows.base ≡ Some z
        → z.parameters ≡ parameters_of params.now }
    requires powers { length query.items ≡ ciphertexts_of (parameters_of params.now) }
    requires scratch { IsScratch (parameters_of params.now) scratch.old }
    ensures here { seat.new.turnstile ≡ seat.old.turnstile }
    ensures went { HasGoneOn seat.old.knows seat.new.knows }
    ensures told { IfOk result (Tells seat.old.knows seat.new.knows Call.Ask) }
    ensures evaluated { (z : Origin) → seat.old.knows.base ≡ Some z
        → IfOk result (IsBodyAt z seat.new.knows.seen query.items) }
    ensures from { IfOk result (λ reply. from_of reply ≡ None) }
    ensures fits { IfOk result answer_fits }
    ensures scratch { scratch.new ≡ scratch.old }
{
    gate.pass(rt, Point::BeforeTurn, index);
    let turn = sender.ask(rt, alloc, seat);
    gate.pass(rt, Point::AfterTurn, index);
    match turn {
        Ok(placed) => {
            let body = evaluate(rt, alloc, params, &placed.answer, query, scratch)?;
            Ok(of_ask(placed.place, body))
        }
        Err(refusal) => refused(refusal),
    }
}

/// Packs a row anew: it views the row in one turn, packs outside, and commits in another turn. The gate is passed before
/// the first turn, before the commit and after it, with the request's index.
///
/// The parameters are passed ones, and those of the seat's base. The seat is of the sender. The row is one of the
/// parameters' rows.
///
/// # Errors
///
/// If memory runs out.
pub(crate) fn repack<R: Threads + Wait + Sync, G: Gate>(
    rt: &R,
    alloc: Global,
    params: &Params,
    sender: &Sender<Cache>,
    seat: &mut Seat<Cache>,
    row: u8,
    index: u32,
    gate: &G,
) -> Result<Reply, AllocError>
    requires passed { ArePassed (parameters_of params.now) }
    requires here { seat.old.turnstile ≡ sender.now }
    requires under { (z : Origin) → seat.old.knows.base ≡ Some z
        → z.parameters ≡ parameters_of params.now }
    requires row { row < params.now.rows }
    ensures here { seat.new.turnstile ≡ seat.old.turnstile }
    ensures went { HasGoneOn seat.old.knows seat.new.knows }
    ensures told { IfOk result (λ reply.
        Tells seat.old.knows seat.new.knows (Call.Repack row (from_or_zero reply)) reply) }
    ensures from { IfOk result (IsToldFrom seat.old.knows) }
    ensures tells_from { IfOk result (λ reply. IsSome (place_of reply) → IsSome (from_of reply)) }
    ensures body { IfOk result (λ reply. body_of reply ≡ None) }
    ensures fits { IfOk result answer_fits }
{
    gate.pass(rt, Point::BeforeTurn, index);
    let view = sender.fetch_row(rt, alloc, seat, row)?;
    let packed = pack_row(alloc, view.bundles(), params.capacity)?;
    gate.pass(rt, Point::BeforeCommit, index);
    let turn = sender.repack(rt, alloc, seat, &view, packed);
    gate.pass(rt, Point::AfterTurn, index);
    match turn {
        Ok(placed) => Ok(of_repack(placed.answer, placed.place, view.from())),
        Err(refusal) => refused(refusal),
    }
}
