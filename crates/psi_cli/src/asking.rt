//! The command `ask`.
ghost use Rattle.std.specs.Prelude.{◌≡◌, ◌<◌, ◌^◌, map, length, IfOk, OnOk, IfErr};
ghost use Rattle.item_slots.specs.Tags.{tag_of};
ghost use Rattle.noise_ledger.specs.Verdicts.{ArePassed, parameters_of};
ghost use Rattle.query_codec.specs.Queries.{query_length};
ghost use Rattle.psi_frames.specs.Frames.{ask_kind, spelled};
ghost use Rattle.psi_cli.specs.Outcomes.{AskMakes, AsksText};
ghost use Rattle.psi_outside.specs.Ends.{FilesTold};
ghost use Rattle.psi_cli.specs.AskAndOpen.{asking};
ghost use Rattle.psi_cli.specs.Readers.{ReadsNothing};
ghost use Rattle.psi_cli.specs.Reading.{HasNoItems, IsEnded};
ghost use Rattle.psi_cli.specs.Worlds.{given};

use crate::outcome::Outcome;
use crate::reading::{read_items, tags_of};
use crate::status::Status;
use crate::texts::crowded_text;
use noise_ledger::{Params, check};
use psi_frames::{ASK, Body, Frame, write_request};
use psi_outside::Source;
use psi_receiver::{AskFault, ask_tags};
use std::alloc::{AllocError, Global};
use std::thread::Threads;

/// The address of a request: its session and its number.
#[derive(Clone, Copy)]
pub struct Address {
    /// The session.
    pub session: u16,
    /// The number.
    pub number: u32,
}

/// What `ask` comes to: one frame with the query of the items that the source has left, or the crowded items. Nothing is read
/// where the parameters are refused.
pub(crate) fn ask_items<R: Threads + Sync, S: Source>(
    rt: &R,
    alloc: Global,
    params: &Params,
    seed: &[u8; 32],
    address: Address,
    input: &mut S,
) -> Result<Outcome, Status>
    ensures passed { OnOk result (ArePassed (parameters_of params.now)) }
    ensures made { IfOk result (λ outcome.
        AsksText (parameters_of params.now) seed.now address.session address.number
        (S.told input.old).left outcome.status outcome.text.items) }
    ensures ended { OnOk result (IsEnded (S.told input.old) (S.told input.new)) }
    ensures no_read_failed { OnOk result ((S.told input.new).faults ≡ (S.told input.old).faults) }
    ensures fault { (files : FilesTold) → IfErr result (ReadsNothing
        (asking (parameters_of params.now) seed.now address.session address.number)
        (given (S.told input.old) files) (given (S.told input.new) files)) }
{
    match check(params) {
        Ok(_) => ask_passed(rt, alloc, params, seed, address, input),
        Err(_) => Err(Status::Parameters),
    }
}

// The same, with parameters that pass the check.
fn ask_passed<R: Threads + Sync, S: Source>(
    rt: &R,
    alloc: Global,
    params: &Params,
    seed: &[u8; 32],
    address: Address,
    input: &mut S,
) -> Result<Outcome, Status>
    requires passed { ArePassed (parameters_of params.now) }
    ensures made { IfOk result (λ outcome.
        AsksText (parameters_of params.now) seed.now address.session address.number
        (S.told input.old).left outcome.status outcome.text.items) }
    ensures ended { OnOk result (IsEnded (S.told input.old) (S.told input.new)) }
    ensures no_read_failed { OnOk result ((S.told input.new).faults ≡ (S.told input.old).faults) }
    ensures fault { IfErr result (HasNoItems (S.told input.old) (S.told input.new)) }
{
    let items = read_items(alloc, input)?;
    Ok(ask(rt, alloc, params, seed, address, &items)?)
}

// The frame of the items' query, or the crowded items.
fn ask<R: Threads + Sync>(
    rt: &R,
    alloc: Global,
    params: &Params,
    seed: &[u8; 32],
    address: Address,
    items: &[Vec<u8>],
) -> Result<Outcome, AllocError>
    requires passed { ArePassed (parameters_of params.now) }
    requires numbered { length items.now < 2 ^ 32 }
    ensures { IfOk result (λ outcome.
        AskMakes (parameters_of params.now) seed.now address.session address.number
        (map (λ item. item.items) items.now) outcome.status outcome.text.items) }
{
    let tags = tags_of(alloc, items)?;
    match ask_tags(rt, alloc, params, seed, &tags) {
        Ok(query) => Ok(Outcome {
            status: Status::Done,
            text: query_frame(alloc, params, address, query)?,
        }),
        Err(AskFault::Crowded { items: crowded }) => Ok(Outcome {
            status: Status::Crowded,
            text: crowded_text(alloc, items, &crowded)?.into_bytes(),
        }),
        Err(AskFault::TooLong { .. }) => unreachable!(),
        Err(AskFault::NoMemory) => Err(AllocError),
    }
}

// The frame of an Ask with a query's body.
fn query_frame(
    alloc: Global,
    params: &Params,
    address: Address,
    query: Vec<u8>,
) -> Result<Vec<u8>, AllocError>
    requires passed { ArePassed (parameters_of params.now) }
    requires sized { length query.items ≡ query_length (parameters_of params.now) }
    ensures { IfOk result (λ text.
        text.items ≡ spelled ask_kind address.session address.number query.items) }
{
    let frame = Frame {
        kind: ASK,
        session: address.session,
        number: address.number,
        body: Body::of(query),
    };
    write_request(alloc, &frame)
}
