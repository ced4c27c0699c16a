//! The requests of a round, dealt to its lanes, and the lanes' replies in the order of the round.
ghost use Rattle.std.specs.Prelude.{◌≡◌, ◌++◌, ◌%◌, ◌<◌, ◌≤◌, ℕ, [], ◌∷◌, IfOk, length, map, nat_eq, count_by, replicate};
ghost use Rattle.psi_frames.specs.Requests.{session_of};
ghost use Rattle.query_pool.specs.Joined.{lane_of, lane_requests, list_at, picked};
ghost use Rattle.query_pool.specs.Dealing.{asked_lists, listed};

use crate::lane::Numbered;
use psi_frames::{Reply, Request};
use std::alloc::{AllocError, Global};

/// Requests by lane, and the lane of each.
#[derive(Drop)]
pub struct Dealt {
    /// The requests of each lane, in their order.
    pub lanes: Vec<Vec<Numbered>>,
    /// The lanes of the requests, in the requests' order.
    pub order: Vec<u8>,
}

/// Deals the requests to so many lanes, with their numbers in the round: each to the lane with the number of its session modulo
/// the number of lanes.
///
/// There are at most 4096 requests, and one lane at least.
///
/// # Errors
///
/// If memory runs out.
pub fn deal(alloc: Global, requests: Vec<Request>, workers: u8) -> Result<Dealt, AllocError>
    requires some { 1 ≤ workers }
    requires few { length requests.items ≤ 4096 }
    ensures number { IfOk result (λ dealt. length dealt.lanes.items ≡ workers) }
    ensures order { IfOk result (λ dealt.
        dealt.order.items ≡ map (lane_of workers) requests.items) }
    ensures lanes { IfOk result (λ dealt. (l : ℕ)
        → list_at (asked_lists dealt.lanes.items) l ≡ lane_requests workers requests.items l) }
{
    let mut lanes = no_lists(alloc, workers)?;
    let mut order = Vec::with_capacity(alloc, requests.len())?;
    let mut index = 0;
    for request in requests {
        let lane = lane_number(&request, workers);
        order.push(lane)?;
        add(&mut lanes, lane, Numbered { index, request })?;
        index += 1;
    }
    Ok(Dealt { lanes, order })
}

// So many empty lists.
fn no_lists(alloc: Global, number: u8) -> Result<Vec<Vec<Numbered>>, AllocError>
    ensures { IfOk result (λ lists. asked_lists lists.items ≡ replicate number []) }
{
    let mut lists = Vec::with_capacity(alloc, usize::from(number))?;
    for _ in 0..number {
        lists.push(Vec::new(alloc))?;
    }
    Ok(lists)
}

// The lane of a request.
fn lane_number(request: &Request, workers: u8) -> u8
    requires some { 1 ≤ workers }
    ensures lane { result ≡ lane_of workers request.now }
    ensures within { result < workers }
{
    (session(request) % u16::from(workers)) as u8
}

// The session of a request.
fn session(request: &Request) -> u16
    ensures { result ≡ session_of request.now }
{
    match request {
        Request::Put { session, .. }
        | Request::Drop { session, .. }
        | Request::Ask { session, .. }
        | Request::Repack { session, .. }
        | Request::Bad { session, .. } => *session,
    }
}

// One request more for a lane.
fn add(lanes: &mut Vec<Vec<Numbered>>, lane: u8, numbered: Numbered) -> Result<(), AllocError>
    requires within { lane < length lanes.old.items }
    ensures number { IfOk result (λ _. length lanes.new.items ≡ length lanes.old.items) }
    ensures added { IfOk result (λ _. (l : ℕ)
        → list_at (asked_lists lanes.new.items) l ≡ list_at (asked_lists lanes.old.items)
        l ++ picked l (lane ∷ []) (numbered.request ∷ [])) }
{
    lanes[usize::from(lane)].push(numbered)?;
    Ok(())
}

/// The replies of the lanes in the order of the requests, of which `order` has the lanes.
///
/// Each lane has as many replies as `order` has its number.
///
/// # Errors
///
/// If memory runs out.
pub fn merge(
    alloc: Global,
    order: Vec<u8>,
    replies: Vec<Vec<Reply>>,
) -> Result<Vec<Reply>, AllocError>
    requires counts { (l : ℕ) → length (list_at (listed replies.items) l) ≡ count_by
        (λ k. nat_eq k l) order.items }
    ensures number { IfOk result (λ merged. length merged.items ≡ length order.items) }
    ensures merged { IfOk result (λ merged. (l : ℕ)
        → list_at (listed replies.items) l ≡ picked l order.items merged.items) }
{
    let mut order = order;
    let mut replies = replies;
    let mut merged = Vec::with_capacity(alloc, order.len())?;
    while let Some(lane) = order.pop() {
        merged.push(take_last(&mut replies, lane))?;
    }
    merged.reverse();
    Ok(merged)
}

// The last reply of a lane, which has some.
fn take_last(replies: &mut Vec<Vec<Reply>>, lane: u8) -> Reply
    requires some { 0 < length (list_at (listed replies.old.items) lane) }
    ensures taken { (l : ℕ) → list_at (listed replies.old.items) l ≡ list_at
        (listed replies.new.items) l ++ picked l (lane ∷ []) (result ∷ []) }
{
    replies[usize::from(lane)].pop().unwrap()
}
