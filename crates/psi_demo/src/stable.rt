//! The stable items that answers open to.
ghost use Rattle.std.specs.Prelude.{◌≡◌, ◌<◌, ◌≤◌, ◌+◌, ◌^◌, ◌∷◌, [], ◌++◌, length, IfOk, OnOk, IfErr};
ghost use Rattle.std.specs.List.{list_any};
ghost use Rattle.psi_frames.specs.Served.{body_of};
ghost use Rattle.psi_demo.specs.Items.{asked_tags};
ghost use Rattle.psi_demo.specs.Opening.{IsBodiesFault, IsBodyFault, IsNextFault, OpensNext};
ghost use Rattle.psi_demo.specs.Summaries.{AreStable, IsStable, bodies_of, is_own, opened_answers, stable_found};

use crate::fault::SumFault;
use crate::items::{STABLE, STEP, asked_tags, demo_params, label, seed};
use item_slots::Tag;
use psi_frames::Reply;
use psi_receiver::{Found, OpenFault, open_tags};
use std::alloc::{AllocError, Global};
use std::thread::Threads;

// The answers that are opened, at most.
const OPENED: usize = 3;

/// The numbers of the line `stable`: how many stable items each of the first three answers opens to, with their own labels.
/// Where the asked items have no placement, none is opened, and each number is 0. `Codec` comes exactly where they have one
/// and the codec refuses a body among these; it has the fault of the first such body. The only other error is memory
/// that runs out.
pub fn open_answers<R: Threads + Sync>(
    rt: &R,
    alloc: Global,
    number: u64,
    replies: &[Reply],
) -> Result<Vec<u32>, SumFault>
    ensures stable { IfOk result (λ stable. AreStable number (bodies_of replies.now) stable.items) }
    ensures fault { IfErr result (IsBodiesFault number (bodies_of replies.now)) }
{
    let tags = asked_tags(alloc, number)?;
    let mut stable = Vec::new(alloc);
    for reply in replies {
        if stable.len() == OPENED {
            return Ok(stable);
        }
        open_next(rt, alloc, number, &tags, reply, &mut stable)?;
    }
    Ok(stable)
}

// Appends the number of an answer, if the reply is one. Fewer than three were opened before.
fn open_next<R: Threads + Sync>(
    rt: &R,
    alloc: Global,
    number: u64,
    tags: &[Tag],
    reply: &Reply,
    stable: &mut Vec<u32>,
) -> Result<(), SumFault>
    requires tags { tags.now ≡ asked_tags number }
    requires few { length stable.old.items < opened_answers }
    ensures opened { OnOk result (OpensNext number (body_of reply.now) stable.old.items
        stable.new.items) }
    ensures fault { IfErr result (IsNextFault number (body_of reply.now)) }
{
    match reply {
        Reply::Answer { body, .. } => {
            let ask = stable.len() as u8;
            let count = open_answer(rt, alloc, number, ask, tags, body.items())?;
            Ok(push_count(stable, count)?)
        }
        _ => Ok(()),
    }
}

// Appends a number.
fn push_count(stable: &mut Vec<u32>, count: u32) -> Result<(), AllocError>
    ensures { OnOk result (stable.new.items ≡ stable.old.items ++ count ∷ []) }
{
    stable.push(count)?;
    Ok(())
}

// How many stable items the body of an answer opens to with their own labels; 0 where the tags have no placement.
pub(crate) fn open_answer<R: Threads + Sync>(
    rt: &R,
    alloc: Global,
    number: u64,
    ask: u8,
    tags: &[Tag],
    body: &[u8],
) -> Result<u32, SumFault>
    requires numbered { length tags.now < 2 ^ 32 }
    ensures stable { IfOk result (IsStable number ask tags.now body.now) }
    ensures fault { IfErr result (IsBodyFault tags.now body.now) }
{
    match open_tags(rt, alloc, &demo_params(), &seed(number, ask), tags, body) {
        Ok(found) => Ok(count_stable(number, &found)),
        Err(OpenFault::Crowded { .. }) => Ok(0),
        Err(OpenFault::Codec(fault)) => Err(SumFault::Codec(fault)),
        Err(OpenFault::TooLong { .. }) => unreachable!(),
        Err(OpenFault::NoMemory) => Err(SumFault::NoMemory),
    }
}

// How many stable items are found with their own labels.
fn count_stable(number: u64, found: &[Found]) -> u32
    ensures { result ≡ stable_found number found.now }
{
    let mut count = 0;
    for k in 0..STABLE {
        if is_found(number, k, found) {
            count += 1;
        }
    }
    count
}

// Whether stable item `k` is found with its own label.
fn is_found(number: u64, k: u32, found: &[Found]) -> bool
    requires { k < 38 }
    ensures { result ≡ list_any (is_own number k) found.now }
{
    let label = label(number, STEP * k);
    found.iter().any(|one| one.item == k && one.label.bytes() == label.as_slice())
}
