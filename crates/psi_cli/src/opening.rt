//! The command `open`.
ghost use Rattle.std.specs.Prelude.{◌≡◌, ◌⊎◌, ◌<◌, ◌^◌, map, length, IfOk, OnOk, IfErr, IfSome};
ghost use Rattle.noise_ledger.specs.Verdicts.{ArePassed, parameters_of};
ghost use Rattle.psi_outside.specs.Names.{file_at};
ghost use Rattle.psi_cli.specs.AnswerFiles.{IsAnswerFile};
ghost use Rattle.psi_cli.specs.Outcomes.{HasAnswer, OpenMakes, OpensText};
ghost use Rattle.psi_cli.specs.AskAndOpen.{opening};
ghost use Rattle.psi_cli.specs.Inner.Opening.{HasNoFile, IsUnopened};
ghost use Rattle.psi_cli.specs.Readers.{ReadsNothing};
ghost use Rattle.psi_cli.specs.Reading.{IsEnded};
ghost use Rattle.psi_cli.specs.Worlds.{given};

use crate::answer_file::answer_body;
use crate::outcome::Outcome;
use crate::reading::{read_items, tags_of};
use crate::status::Status;
use crate::texts::{crowded_text, found_text};
use noise_ledger::{Params, check};
use psi_frames::Body;
use psi_outside::{FileFault, Files, Source};
use psi_receiver::{OpenFault, open_tags};
use std::alloc::Global;
use std::thread::Threads;

// The most bytes of a file.
const MOST_ANSWER: u64 = 5242915;

/// What `open` comes to: the items that the source has left and that the file's answer shows, or the crowded items. The
/// items are read before the file; the answer's body is looked at last. Nothing is read where the parameters are refused.
pub(crate) fn open_file<R: Threads + Sync, S: Source, F: Files>(
    rt: &R,
    alloc: Global,
    params: &Params,
    seed: &[u8; 32],
    name: &str,
    input: &mut S,
    files: &mut F,
) -> Result<Outcome, Status>
    ensures passed { OnOk result (ArePassed (parameters_of params.now)) }
    ensures made { IfOk result (λ outcome.
        OpensText (parameters_of params.now) seed.now name.now
        (S.told input.old).left (F.told files.old).files outcome.status outcome.text.items) }
    ensures ended { OnOk result (IsEnded (S.told input.old) (S.told input.new)) }
    ensures no_read_failed { OnOk result ((S.told input.new).faults ≡ (S.told input.old).faults) }
    ensures no_file_failed { OnOk result ((F.told files.new).faults ≡ (F.told files.old).faults) }
    ensures fault { IfErr result (ReadsNothing
        (opening (parameters_of params.now) seed.now name.now)
        (given (S.told input.old) (F.told files.old))
        (given (S.told input.new) (F.told files.new))) }
{
    match check(params) {
        Ok(_) => open_passed(rt, alloc, params, seed, name, input, files),
        Err(_) => Err(Status::Parameters),
    }
}

// The same, with parameters that pass the check.
fn open_passed<R: Threads + Sync, S: Source, F: Files>(
    rt: &R,
    alloc: Global,
    params: &Params,
    seed: &[u8; 32],
    name: &str,
    input: &mut S,
    files: &mut F,
) -> Result<Outcome, Status>
    requires passed { ArePassed (parameters_of params.now) }
    ensures made { IfOk result (λ outcome.
        OpensText (parameters_of params.now) seed.now name.now
        (S.told input.old).left (F.told files.old).files outcome.status outcome.text.items) }
    ensures ended { OnOk result (IsEnded (S.told input.old) (S.told input.new)) }
    ensures no_read_failed { OnOk result ((S.told input.new).faults ≡ (S.told input.old).faults) }
    ensures no_file_failed { OnOk result ((F.told files.new).faults ≡ (F.told files.old).faults) }
    ensures fault { IfErr result (ReadsNothing
        (opening (parameters_of params.now) seed.now name.now)
        (given (S.told input.old) (F.told files.old))
        (given (S.told input.new) (F.told files.new))) }
{
    let items = read_items(alloc, input)?;
    let body = read_answer_file(alloc, name, files)?;
    open(rt, alloc, params, seed, &items, body.items())
}

// The reply body of the answer in a file.
fn read_answer_file<F: Files>(alloc: Global, name: &str, files: &mut F) -> Result<Body, Status>
    ensures answer { IfOk result (λ body.
        IfSome (F.told files.old).files (λ map. HasAnswer map name.now body)) }
    ensures no_file_failed { OnOk result ((F.told files.new).faults ≡ (F.told files.old).faults) }
    ensures fault { IfErr result (HasNoFile (F.told files.old) (F.told files.new) name.now) }
{
    match files.read_file(alloc, name, MOST_ANSWER) {
        Ok(file) => match answer_body(alloc, &file)? {
            Some(body) => Ok(body),
            None => Err(Status::BadInput),
        },
        Err(FileFault::Failed) => Err(Status::ReadFault),
        Err(FileFault::TooLong { .. }) => Err(Status::BadInput),
        Err(FileFault::NoMemory) => Err(Status::NoMemory),
    }
}

// The found items of a reply body, or the crowded items.
fn open<R: Threads + Sync>(
    rt: &R,
    alloc: Global,
    params: &Params,
    seed: &[u8; 32],
    items: &[Vec<u8>],
    body: &[u8],
) -> Result<Outcome, Status>
    requires passed { ArePassed (parameters_of params.now) }
    requires numbered { length items.now < 2 ^ 32 }
    ensures made { IfOk result (λ outcome.
        OpenMakes (parameters_of params.now) seed.now (map (λ item. item.items) items.now)
        body.now outcome.status outcome.text.items) }
    ensures fault { IfErr result
        (IsUnopened (parameters_of params.now) (map (λ item. item.items) items.now) body.now) }
{
    let tags = tags_of(alloc, items)?;
    match open_tags(rt, alloc, params, seed, &tags, body) {
        Ok(found) => Ok(Outcome {
            status: Status::Done,
            text: found_text(alloc, items, &found)?.into_bytes(),
        }),
        Err(OpenFault::Crowded { items: crowded }) => Ok(Outcome {
            status: Status::Crowded,
            text: crowded_text(alloc, items, &crowded)?.into_bytes(),
        }),
        Err(OpenFault::TooLong { .. }) => unreachable!(),
        Err(OpenFault::Codec(_)) => Err(Status::BadInput),
        Err(OpenFault::NoMemory) => Err(Status::NoMemory),
    }
}
