//! One lane of a round: its requests, one after another, through its own seat.
ghost use Rattle.std.specs.Prelude.{◌≡◌, IfOk, Some, length};
ghost use Rattle.std.specs.List.{All};
ghost use Rattle.noise_ledger.specs.Verdicts.{ArePassed, parameters_of};
ghost use Rattle.psi_frames.specs.Frames.{answer_fits};
ghost use Rattle.psi_frames.specs.Requests.{IsFit};
ghost use Rattle.live_sender.specs.declared.origin.Origin.{Origin};
ghost use Rattle.query_pool.specs.Caching.{IsScratch};
ghost use Rattle.query_pool.specs.Exchanges.{IsOne, lane_exchange};
ghost use Rattle.live_sender.specs.Turns.{IsSeated};
ghost use Rattle.query_pool.specs.Lanes.{IsLane, asked, lane_exchanges};

use crate::in_turn::{ask, drop_tag, put, repack};
use bundle_cache::{Cache, Scratch};
use live_sender::{Seat, Sender};
use noise_ledger::Params;
use psi_frames::{Reply, Request};
use psi_outside::Gate;
use std::alloc::{AllocError, Global};
use std::sync::Wait;
use std::thread::Threads;

/// A request with its number in its round, from 0.
#[derive(Drop)]
pub struct Numbered {
    /// Its number.
    pub index: u32,
    /// The request.
    pub request: Request,
}

/// What a lane begins with.
#[derive(Drop)]
pub(crate) struct Lane {
    pub(crate) seat: Seat<Cache>,
    pub(crate) scratch: Scratch,
    pub(crate) requests: Vec<Numbered>,
}

/// What a lane leaves: the replies are in the order of its requests.
#[derive(Drop)]
pub(crate) struct Done {
    pub(crate) seat: Seat<Cache>,
    pub(crate) replies: Vec<Reply>,
}

/// Answers the requests of a lane one after another, each in its turn, while other lanes make entries of their own. The
/// gate is passed at the points of each request that takes a turn, with the request's number in its round.
///
/// The parameters are passed ones, and those of the seat's base. The seat is of the sender, and the scratch is of these
/// parameters and has its block. A Put's label has `10·units` bytes, an Ask's query has `rows·capacity` ciphertexts, a
/// Repack's row is below `rows`, and a Bad's code is from 1 to 6.
///
/// # Errors
///
/// If memory runs out. Then the seat is gone, and with it its share.
pub(crate) fn run_lane<R: Threads + Wait + Sync, G: Gate>(
    rt: &R,
    alloc: Global,
    params: &Params,
    sender: &Sender<Cache>,
    lane: Lane,
    gate: &G,
) -> Result<Done, AllocError>
    requires passed { ArePassed (parameters_of params.now) }
    requires here { lane.seat.turnstile ≡ sender.now }
    requires under { (z : Origin) → lane.seat.knows.base ≡ Some z
        → z.parameters ≡ parameters_of params.now }
    requires scratch { IsScratch (parameters_of params.now) lane.scratch }
    requires fit { All (IsFit (parameters_of params.now)) (asked lane.requests.items) }
    ensures here { IfOk result (λ done. done.seat.turnstile ≡ lane.seat.turnstile) }
    ensures ran { (z : Origin) → IsSeated z lane.seat.knows
        → IfOk result (λ done. IsLane z lane.seat.knows done.seat.knows
        (lane_exchanges (asked lane.requests.items) done.replies.items)) }
    ensures one_each { IfOk result (λ done.
        length done.replies.items ≡ length lane.requests.items) }
    ensures fits { IfOk result (λ done. All answer_fits done.replies.items) }
{
    let Lane {
        mut seat,
        mut scratch,
        requests,
    } = lane;
    let mut replies = Vec::with_capacity(alloc, requests.len())?;
    for numbered in requests {
        replies.push(answer(
            rt,
            alloc,
            params,
            sender,
            &mut seat,
            &mut scratch,
            numbered,
            gate,
        )?)?;
    }
    Ok(Done { seat, replies })
}

// The reply to one request.
fn answer<R: Threads + Wait + Sync, G: Gate>(
    rt: &R,
    alloc: Global,
    params: &Params,
    sender: &Sender<Cache>,
    seat: &mut Seat<Cache>,
    scratch: &mut Scratch,
    numbered: Numbered,
    gate: &G,
) -> Result<Reply, AllocError>
    requires passed { ArePassed (parameters_of params.now) }
    requires here { seat.old.turnstile ≡ sender.now }
    requires under { (z : Origin) → seat.old.knows.base ≡ Some z
        → z.parameters ≡ parameters_of params.now }
    requires scratch { IsScratch (parameters_of params.now) scratch.old }
    requires fit { IsFit (parameters_of params.now) numbered.request }
    ensures here { seat.new.turnstile ≡ seat.old.turnstile }
    ensures base { seat.new.knows.base ≡ seat.old.knows.base }
    ensures one { (z : Origin) → IsSeated z seat.old.knows
        → IfOk result (λ reply. IsOne z seat.old.knows seat.new.knows
        (lane_exchange numbered.request reply)) }
    ensures fits { IfOk result answer_fits }
    ensures scratch { scratch.new ≡ scratch.old }
{
    let Numbered { index, request } = numbered;
    match request {
        Request::Put { tag, label, .. } => { put(rt, alloc, sender, seat, tag, label, index, gate) }
        Request::Drop { tag, .. } => drop_tag(rt, alloc, sender, seat, tag, index, gate),
        Request::Ask { query, .. } => ask(
            rt,
            alloc,
            params,
            sender,
            seat,
            scratch,
            query.into_vec(),
            index,
            gate,
        ),
        Request::Repack { row, .. } => { repack(rt, alloc, params, sender, seat, row, index, gate) }
        Request::Bad { code, .. } => Ok(Reply::Refused { code }),
    }
}
