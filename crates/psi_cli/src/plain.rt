//! The commands that one thread does without waiting.
ghost use Rattle.std.specs.Prelude.{◌≡◌, true, IfOk, IfErr};
ghost use Rattle.noise_ledger.specs.Verdicts.{parameters_of};
ghost use Rattle.psi_outside.specs.Ends.{ends};
ghost use Rattle.psi_cli.specs.declared.status.Status.TheVariants.{NoMemory, Words};
ghost use Rattle.psi_cli.specs.Kinds.{command_kind, kind_by};
ghost use Rattle.psi_cli.specs.Leaving.{Finishes, HasHelp};
ghost use Rattle.psi_cli.specs.Runs.{GivesNoPlain, RunsPlain, RunsRounds};
ghost use Rattle.psi_cli.specs.Statuses.{Ended, IsStatus};
ghost use Rattle.psi_cli.specs.Worlds.{world};

use crate::asking::{Address, ask_items};
use crate::opening::open_file;
use crate::outcome::Outcome;
use crate::params::{judge, word_parameters};
use crate::status::Status;
use noise_ledger::{Params, check};
use psi_outside::{Files, Sink, Source, write_all};
use psi_serve::serve_alone;
use psi_words::{Command, WordFault, help_text, read_words};
use std::alloc::Global;
use std::thread::Threads;

/// All that the program does on one thread, without waiting: every command but `serve` and `demo`, whose words are not
/// understood here.
pub fn run_plain<R: Threads + Sync, S: Source, F: Files, K: Sink>(
    rt: &R,
    alloc: Global,
    words: &[String],
    input: &mut S,
    files: &mut F,
    output: &mut K,
) -> u8
    ensures statuses { IsStatus result }
    ensures words { (Ended Words result → GivesNoPlain (kind_by words.now))
        × (GivesNoPlain (kind_by words.now) → Ended Words result) }
    ensures runs { RunsPlain (kind_by words.now)
        (world (S.told input.old) (F.told files.old) (K.told output.old))
        (world (S.told input.new) (F.told files.new) (K.told output.new)) result }
{
    run_words(rt, alloc, words, input, files, output)
}

// The same, by all that a run leaves.
fn run_words<R: Threads + Sync, S: Source, F: Files, K: Sink>(
    rt: &R,
    alloc: Global,
    words: &[String],
    input: &mut S,
    files: &mut F,
    output: &mut K,
) -> u8
    ensures runs { RunsPlain (kind_by words.now)
        (world (S.told input.old) (F.told files.old) (K.told output.old))
        (world (S.told input.new) (F.told files.new) (K.told output.new)) result }
{
    match read_words(alloc, words) {
        Ok(command) => run_command(rt, alloc, command, input, files, output),
        Err(WordFault::NoMemory) => Status::NoMemory.number(),
        Err(_) => Status::Words.number(),
    }
}

// Does a command, if it is one of these.
fn run_command<R: Threads + Sync, S: Source, F: Files, K: Sink>(
    rt: &R,
    alloc: Global,
    command: Command,
    input: &mut S,
    files: &mut F,
    output: &mut K,
) -> u8
    ensures runs { RunsPlain (command_kind command)
        (world (S.told input.old) (F.told files.old) (K.told output.old))
        (world (S.told input.new) (F.told files.new) (K.told output.new)) result }
{
    match command {
        Command::Serve { .. } | Command::Demo { .. } => Status::Words.number(),
        Command::Replay {
            rows,
            capacity,
            units,
            drop,
            counted,
        } => {
            let params = word_parameters(rows, capacity, units, drop, counted);
            replay(rt, alloc, &params, input, output)
        }
        Command::Params {
            rows,
            capacity,
            units,
            drop,
            counted,
        } => {
            let params = word_parameters(rows, capacity, units, drop, counted);
            finish(judge(alloc, &params), output).number()
        }
        Command::Ask {
            rows,
            capacity,
            units,
            drop,
            counted,
            seed,
            session,
            number,
        } => {
            let params = word_parameters(rows, capacity, units, drop, counted);
            let address = Address { session, number };
            let made = ask_items(rt, alloc, &params, &seed, address, input);
            finish(made, output).number()
        }
        Command::Open {
            rows,
            capacity,
            units,
            drop,
            counted,
            seed,
            file,
        } => {
            let params = word_parameters(rows, capacity, units, drop, counted);
            let made = open_file(rt, alloc, &params, &seed, file.text(), input, files);
            finish(made, output).number()
        }
        Command::Help => finish(help(alloc), output).number(),
    }
}

// The command `replay`: the rounds of the input, served by one lane.
fn replay<R: Threads + Sync, S: Source, K: Sink>(
    rt: &R,
    alloc: Global,
    params: &Params,
    input: &mut S,
    output: &mut K,
) -> u8
    ensures { RunsRounds (parameters_of params.now) true
        (ends (S.told input.old) (K.told output.old))
        (ends (S.told input.new) (K.told output.new)) result }
{
    match check(params) {
        Ok(_) => serve_alone(rt, alloc, params, input, output).status,
        Err(_) => Status::Parameters.number(),
    }
}

// The text of `help`.
fn help(alloc: Global) -> Result<Outcome, Status>
    ensures made { IfOk result (λ made. HasHelp made.status made.text.items) }
    ensures fault { IfErr result (λ why. why ≡ NoMemory) }
{
    Ok(Outcome {
        status: Status::Done,
        text: Vec::from_slice(alloc, help_text().as_bytes())?,
    })
}

/// Writes what was made, if anything was, and ends with its status.
pub(crate) fn finish<K: Sink>(made: Result<Outcome, Status>, output: &mut K) -> Status
    ensures { Finishes made (K.told output.old) (K.told output.new) result }
{
    match made {
        Ok(made) => match write_all(output, &made.text) {
            Ok(()) => made.status,
            Err(_) => Status::WriteFault,
        },
        Err(status) => status,
    }
}
