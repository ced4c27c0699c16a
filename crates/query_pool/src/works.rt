//! What the threads of a round have beside their seats.
ghost use Rattle.std.specs.Prelude.{◌≡◌, ◌≤◌, ◌++◌, [], IfOk, length, map, replicate};
ghost use Rattle.std.specs.List.{All};
ghost use Rattle.noise_ledger.specs.Verdicts.{ArePassed, parameters_of};
ghost use Rattle.psi_frames.specs.Requests.{IsFit};
ghost use Rattle.query_pool.specs.Dealing.{asked_lists};
ghost use Rattle.query_pool.specs.Jobs.{IsWork, budget_of, request_lists, requests_of_work};

use crate::jobs::Work;
use crate::lane::Numbered;
use bundle_cache::Scratch;
use noise_ledger::Params;
use row_block::Shelf;
use std::alloc::{AllocError, Global};

// What the caches that a builder makes in a round have, in rows.
const ROWS_OF_BUILDER: u32 = 1024;

/// The work of each lane, with a scratch of its own, and then that of so many builders, each with a shelf of its own.
///
/// The parameters are passed ones, and the requests fit them.
///
/// # Errors
///
/// If memory runs out.
pub(crate) fn works_of(
    alloc: Global,
    params: &Params,
    lanes: Vec<Vec<Numbered>>,
    builders: u8,
) -> Result<Vec<Work>, AllocError>
    requires passed { ArePassed (parameters_of params.now) }
    requires fit { All (All (IsFit (parameters_of params.now))) (asked_lists lanes.items) }
    ensures lists { IfOk result (λ works.
        request_lists works.items ≡ asked_lists lanes.items ++ replicate builders []) }
    ensures ready { IfOk result (λ works. All (IsWork (parameters_of params.now)) works.items) }
{
    let mut works = works_of_lanes(alloc, params, lanes)?;
    for number in 0..builders {
        works.push(builder(params, number))?;
    }
    Ok(works)
}

// The work of each lane.
fn works_of_lanes(
    alloc: Global,
    params: &Params,
    lanes: Vec<Vec<Numbered>>,
) -> Result<Vec<Work>, AllocError>
    requires passed { ArePassed (parameters_of params.now) }
    requires fit { All (All (IsFit (parameters_of params.now))) (asked_lists lanes.items) }
    ensures lists { IfOk result (λ works. request_lists works.items ≡ asked_lists lanes.items) }
    ensures ready { IfOk result (λ works. All (IsWork (parameters_of params.now)) works.items) }
{
    let mut works = Vec::with_capacity(alloc, lanes.len())?;
    for requests in lanes {
        let scratch = Scratch::open(alloc, params)?;
        works.push(Work::Lane { scratch, requests })?;
    }
    Ok(works)
}

// The work of the builder with this number.
fn builder(params: &Params, number: u8) -> Work
    ensures none { requests_of_work result ≡ [] }
    ensures ready { IsWork (parameters_of params.now) result }
{
    Work::Builder {
        shelf: Shelf::open(),
        number: u16::from(number),
        budget: budget(params),
    }
}

// The caches that a builder makes in a round at the most.
fn budget(params: &Params) -> u32
    ensures { result ≡ budget_of (parameters_of params.now) }
{
    (ROWS_OF_BUILDER / params.block_rows() as u32).max(1)
}
