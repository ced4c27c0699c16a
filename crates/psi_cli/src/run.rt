//! The top call: all that the program does.
ghost use Rattle.std.specs.Prelude.{◌≡◌, ◌≤◌, ℕ, List};
ghost use Rattle.std.specs.Io.KnownBytes.{Appends};
ghost use Rattle.noise_ledger.specs.Verdicts.{parameters_of};
ghost use Rattle.psi_outside.specs.Causes.{Rose};
ghost use Rattle.psi_outside.specs.Ends.{ends};
ghost use Rattle.psi_words.specs.Texts.{help_lines};
ghost use Rattle.psi_cli.specs.declared.status.Status.TheVariants.{BadInput, Crowded, Done, Parameters, ReadFault, Words, WriteFault};
ghost use Rattle.psi_cli.specs.Answered.{AreRefused, IfCrowded, IfDemo, IfFigures, IfHelp, IfNoReading, IfNoRounds, IfOneLane, IfReads, IfRounds, IsBadInput, IsReading, IsToldBad, IsToldCrowded, IsToldGood};
ghost use Rattle.psi_cli.specs.Demonstrations.{IsDemonstration};
ghost use Rattle.psi_cli.specs.Headline.{AnswersInput, AnswersOnOneLane, Headline};
ghost use Rattle.psi_cli.specs.Kinds.{Lanes, is_alone, kind_by};
ghost use Rattle.psi_cli.specs.Outcomes.{AreFigures, IsRefusal};
ghost use Rattle.psi_cli.specs.Reading.{IsEnded, IsTested};
ghost use Rattle.psi_cli.specs.Inner.Threads.{IsAllowed, RunsThreads};
ghost use Rattle.psi_cli.specs.Runs.{GivesNone, Runs, RunsRounds, Shows};
ghost use Rattle.psi_cli.specs.Statuses.{Ended, IsEmptyNumber, IsOrFails, IsReadWhole, IsRefusedOrFails, IsStatus, IsUnreadStatus};
ghost use Rattle.psi_cli.specs.Worlds.{IsFlushedSo, NoReadFailed, NothingRead, ReadFailed, given, world};

use crate::demonstration::demo;
use crate::plain::run_plain;
use crate::status::Status;
use crate::threaded::{Threaded, threaded_by};
use noise_ledger::{Params, check};
use psi_outside::{Files, Gate, Sink, Source};
use psi_serve::serve;
use query_pool::Shape;
use std::alloc::Global;
use std::sync::Wait;
use std::thread::Threads;

/// All that the program does on the words of its command line. The words are looked at first, then the parameters, and only then
/// is anything read; `open` reads its items before its file, and a text of items that is too long is refused with the piece that
/// goes past its limit. `params`, `help` and `demo` read nothing. The result is the number that the program ends with:
///
/// | Status | Comes | What was written |
/// |---|---|---|
/// | 0 | all that was asked for is done | the command's text, or a reply for each request, flushed |
/// | 2 | exactly where the words give no command | nothing |
/// | 3 | only where the parameters are refused | for `params` why they are refused; else nothing |
/// | 4 | only where the input or the file is none of the command | of rounds the replies to the whole frames before; else nothing |
/// | 5 | only where a read failed | of rounds the replies to the whole frames before; else nothing |
/// | 6 | only where a write or a flush failed | a front of the text |
/// | 7 | memory ran out | of rounds the replies of earlier rounds; else nothing |
/// | 8 | only where the items have no placement | of `ask` and `open` the items that have none; of `demo` nothing |
///
/// Of input that is told and none of the command, the status is 4, or 5 to 7 for a fault or want of memory; so it is of 3, of 8 and, of
/// good input, of 0. Each answer that `serve` and `replay` write to a receiver's query opens to exactly what is found in the set at the
/// query's place. `serve` answers by the workers and builders that the words ask for, whose threads pass the gate at their points;
/// with one worker its text is the one-lane text, as that of `replay` is. `demo` makes the script of its number, serves it in memory
/// by the workers that the words ask for and one builder, and writes the summary of the replies; it reads nothing.
pub fn psi_run<R: Threads + Wait + Sync, S: Source, F: Files, K: Sink, G: Gate>(
    rt: &R,
    alloc: Global,
    words: &[String],
    input: &mut S,
    files: &mut F,
    output: &mut K,
    gate: &G,
) -> u8
    ensures statuses { IsStatus result }
    ensures runs { Runs (kind_by words.now)
        (world (S.told input.old) (F.told files.old) (K.told output.old))
        (world (S.told input.new) (F.told files.new) (K.told output.new)) result }
    ensures words { (Ended Words result → GivesNone (kind_by words.now))
        × (GivesNone (kind_by words.now) → Ended Words result) }
    ensures headline { Ended Done result
        → IfRounds (kind_by words.now) (λ p alone. Headline p alone
        (world (S.told input.old) (F.told files.old) (K.told output.old))
        (world (S.told input.new) (F.told files.new) (K.told output.new))) }
    ensures answered { Ended Done result
        → IfRounds (kind_by words.now) (λ p alone. AnswersInput p alone
        (S.told input.old) (K.told output.old) (K.told output.new)) }
    ensures one_lane { Ended Done result
        → IfOneLane (kind_by words.now) (λ p. AnswersOnOneLane p
        (S.told input.old) (K.told output.old) (K.told output.new)) }
    ensures served { IfRounds (kind_by words.now) (λ p alone. RunsRounds p alone
        (ends (S.told input.old) (K.told output.old))
        (ends (S.told input.new) (K.told output.new)) result) }
    ensures refused { Ended Parameters result → AreRefused (kind_by words.now) }
    ensures refused_only { AreRefused (kind_by words.now) → IsRefusedOrFails result }
    ensures refusal { Ended Parameters result → IfFigures (kind_by words.now) (λ p.
        (text : List ℕ) × IsRefusal p text
        × Appends (K.told output.old).written (K.told output.new).written text) }
    ensures figures { Ended Done result → IfFigures (kind_by words.now) (λ p.
        (text : List ℕ) × AreFigures p text
        × Appends (K.told output.old).written (K.told output.new).written text) }
    ensures helped { Ended Done result → IfHelp (kind_by words.now)
        (Appends (K.told output.old).written (K.told output.new).written help_lines) }
    ensures made { Ended Done result → IfReads (kind_by words.now) (λ reader.
        (text : List ℕ) × reader.makes (given (S.told input.old) (F.told files.old)) Done text
        × Appends (K.told output.old).written (K.told output.new).written text) }
    ensures demonstrated { Ended Done result → IfDemo (kind_by words.now) (λ number workers.
        (text : List ℕ) × IsDemonstration number workers text
        × Appends (K.told output.old).written (K.told output.new).written text) }
    ensures shown { IfDemo (kind_by words.now) (λ number workers. Shows number workers
        (ends (S.told input.old) (K.told output.old))
        (ends (S.told input.new) (K.told output.new)) result) }
    ensures ended { Ended Done result → IsReading (kind_by words.now)
        → IsEnded (S.told input.old) (S.told input.new) }
    ensures complete { IsToldGood (kind_by words.now) (given (S.told input.old) (F.told files.old))
        → IsOrFails Done result }
    ensures bad { Ended BadInput result
        → IsBadInput (kind_by words.now) (given (S.told input.old) (F.told files.old)) }
    ensures bad_only { IsToldBad (kind_by words.now) (given (S.told input.old) (F.told files.old))
        → IsOrFails BadInput result }
    ensures bad_soon { Ended BadInput result → IfReads (kind_by words.now) (λ reader.
        IsTested reader.most (S.told input.old) (S.told input.new)) }
    ensures crowded { Ended Crowded result
        → IfCrowded (kind_by words.now) (given (S.told input.old) (F.told files.old))
        (Appends (K.told output.old).written (K.told output.new).written) }
    ensures crowded_only { IsToldCrowded (kind_by words.now)
        (given (S.told input.old) (F.told files.old))
        → IsOrFails Crowded result }
    ensures read { Ended ReadFault result → ReadFailed
        (given (S.told input.old) (F.told files.old))
        (given (S.told input.new) (F.told files.new)) }
    ensures write { Ended WriteFault result
        → Rose (K.told output.old).faults (K.told output.new).faults }
    ensures flushed { Ended Done result → IsFlushedSo (K.told output.old) (K.told output.new) }
    ensures no_write_failed { Ended Done result
        → (K.told output.new).faults ≡ (K.told output.old).faults }
    ensures no_read_failed { IsReadWhole result → NoReadFailed
        (given (S.told input.old) (F.told files.old))
        (given (S.told input.new) (F.told files.new)) }
    ensures unread { IsUnreadStatus result → NothingRead
        (given (S.told input.old) (F.told files.old))
        (given (S.told input.new) (F.told files.new)) }
    ensures no_reading { IfNoReading (kind_by words.now) (NothingRead
        (given (S.told input.old) (F.told files.old))
        (given (S.told input.new) (F.told files.new))) }
    ensures unwritten { IsEmptyNumber result → IfNoRounds (kind_by words.now)
        ((K.told output.new).written ≡ (K.told output.old).written) }
{
    run_words(rt, alloc, words, input, files, output, gate)
}

// The same, by all that a run leaves.
fn run_words<R: Threads + Wait + Sync, S: Source, F: Files, K: Sink, G: Gate>(
    rt: &R,
    alloc: Global,
    words: &[String],
    input: &mut S,
    files: &mut F,
    output: &mut K,
    gate: &G,
) -> u8
    ensures runs { Runs (kind_by words.now)
        (world (S.told input.old) (F.told files.old) (K.told output.old))
        (world (S.told input.new) (F.told files.new) (K.told output.new)) result }
{
    match threaded_by(alloc, words) {
        Some(asked) => run_threads(rt, alloc, &asked, input, output, gate),
        None => run_plain(rt, alloc, words, input, files, output),
    }
}

// Does what words ask of several threads.
fn run_threads<R: Threads + Wait + Sync, S: Source, K: Sink, G: Gate>(
    rt: &R,
    alloc: Global,
    asked: &Threaded,
    input: &mut S,
    output: &mut K,
    gate: &G,
) -> u8
    requires allowed { IsAllowed asked.now }
    ensures { RunsThreads asked.now
        (ends (S.told input.old) (K.told output.old))
        (ends (S.told input.new) (K.told output.new)) result }
{
    match asked {
        Threaded::Serve { params, shape } => serve_rounds(
            rt, alloc, params, *shape, input, output, gate,
        ),
        Threaded::Demo { number, workers } => demo(rt, alloc, *number, *workers, output, gate),
    }
}

// The command `serve`: the rounds of the input, answered by the workers and builders that the words ask for.
fn serve_rounds<R: Threads + Wait + Sync, S: Source, K: Sink, G: Gate>(
    rt: &R,
    alloc: Global,
    params: &Params,
    shape: Shape,
    input: &mut S,
    output: &mut K,
    gate: &G,
) -> u8
    requires workers { (1 ≤ shape.workers) × (shape.workers ≤ 8) }
    requires builders { shape.builders ≤ 4 }
    ensures { RunsRounds (parameters_of params.now)
        (is_alone (Lanes.Threads shape.workers shape.builders))
        (ends (S.told input.old) (K.told output.old))
        (ends (S.told input.new) (K.told output.new)) result }
{
    match check(params) {
        Ok(_) => serve(rt, alloc, params, shape, input, output, gate).status,
        Err(_) => Status::Parameters.number(),
    }
}
