//! The demonstration: a script that is served in memory, and the summary of its replies.
ghost use Rattle.std.specs.Prelude.{◌≡◌, ◌≤◌, List, None, IfOk, IfErr};
ghost use Rattle.psi_frames.specs.declared.frame.Frame.{Frame};
ghost use Rattle.psi_frames.specs.Frames.{AreWholeFrames, request_table};
ghost use Rattle.psi_demo.specs.Scripts.{IsScriptText};
ghost use Rattle.psi_demo.specs.Summaries.{ForTally};
ghost use Rattle.psi_demo.specs.Texts.{IsSummary};
ghost use Rattle.psi_cli.specs.Demonstrations.{Demonstrates, IsDemonstration, ServesFrames, ShowsNothing};
ghost use Rattle.psi_cli.specs.declared.status.Status.TheVariants.{Done, NoMemory};

use crate::outcome::Outcome;
use crate::plain::finish;
use crate::status::Status;
use psi_demo::{DemoFault, SumFault, demo_params, script, summary};
use psi_outside::{Gate, MemorySink, MemorySource, Sink};
use psi_serve::serve;
use query_pool::Shape;
use std::alloc::Global;
use std::sync::Wait;
use std::thread::Threads;

// The most bytes that one read of the script gives.
const PIECE: usize = 65536;

// The room for replies. Those to a script have fewer than 2^24 bytes.
const ROOM: u64 = 1 << 24;

// The builders beside the workers.
const BUILDERS: u8 = 1;

/// The command `demo`: makes the script of a number, serves it in memory by so many workers, and writes the summary of the
/// replies. There are 1 to 8 workers. Where the asked items have no placement, the status is 8 and nothing is written.
pub(crate) fn demo<R: Threads + Wait + Sync, K: Sink, G: Gate>(
    rt: &R,
    alloc: Global,
    number: u64,
    workers: u8,
    output: &mut K,
    gate: &G,
) -> u8
    requires workers { (1 ≤ workers) × (workers ≤ 8) }
    ensures { Demonstrates number workers (K.told output.old) (K.told output.new) result }
{
    let made = demonstrate(rt, alloc, number, workers, gate);
    finish(made, output).number()
}

// The summary of replies to the script.
fn demonstrate<R: Threads + Wait + Sync, G: Gate>(
    rt: &R,
    alloc: Global,
    number: u64,
    workers: u8,
    gate: &G,
) -> Result<Outcome, Status>
    requires workers { (1 ≤ workers) × (workers ≤ 8) }
    ensures made { IfOk result (λ made. (made.status ≡ Done)
        × IsDemonstration number workers made.text.items) }
    ensures fault { IfErr result (ShowsNothing number) }
{
    let script = made_script(rt, alloc, number)?;
    let replies = served_script(rt, alloc, script, workers, gate)?;
    let text = summed(rt, alloc, number, replies.bytes())?;
    Ok(Outcome {
        status: Status::Done,
        text,
    })
}

// The script of a number.
fn made_script<R: Threads + Sync>(rt: &R, alloc: Global, number: u64) -> Result<Vec<u8>, Status>
    ensures script { IfOk result (λ text. IsScriptText number text.items) }
    ensures fault { IfErr result (ShowsNothing number) }
{
    match script(rt, alloc, number) {
        Ok(text) => Ok(text),
        Err(DemoFault::Crowded { .. }) => Err(Status::Crowded),
        Err(DemoFault::NoMemory) => Err(Status::NoMemory),
    }
}

// The replies to a script, in memory. The source and the sink fail no call, the script is whole frames, and there is room for its
// replies, so that another status than 0 comes where memory ran out.
fn served_script<R: Threads + Wait + Sync, G: Gate>(
    rt: &R,
    alloc: Global,
    script: Vec<u8>,
    workers: u8,
    gate: &G,
) -> Result<MemorySink, Status>
    requires workers { (1 ≤ workers) × (workers ≤ 8) }
    ensures served { (frames : List Frame) → AreWholeFrames request_table script.items frames None
        → IfOk result (λ sink. ServesFrames workers frames sink.written) }
    ensures fault { IfErr result (λ why. why ≡ NoMemory) }
{
    let mut source = MemorySource::open(script, PIECE, Vec::new(alloc));
    let mut sink = MemorySink::open(alloc, ROOM, Vec::new(alloc))?;
    let params = demo_params();
    let shape = Shape {
        workers,
        builders: BUILDERS,
    };
    match serve(rt, alloc, &params, shape, &mut source, &mut sink, gate).status {
        0 => Ok(sink),
        _ => Err(Status::NoMemory),
    }
}

// The text of the summary of replies. Replies to a script are whole frames, and the bodies of their answers are replies under
// the parameters of the demonstration, so that there is no summary only where memory ran out.
fn summed<R: Threads + Sync>(
    rt: &R,
    alloc: Global,
    number: u64,
    replies: &[u8],
) -> Result<Vec<u8>, Status>
    ensures text { IfOk result (λ text. ForTally replies.now (λ tally.
        IsSummary number tally text.items)) }
    ensures fault { IfErr result (λ why. why ≡ NoMemory) }
{
    match summary(rt, alloc, number, replies) {
        Ok(text) => Ok(text.into_bytes()),
        Err(SumFault::NoMemory | SumFault::Torn { .. } | SumFault::Codec(_)) => {
            Err(Status::NoMemory)
        }
    }
}
