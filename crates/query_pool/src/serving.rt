//! Serving an input by what answers its rounds.
ghost use Rattle.std.specs.Prelude.{◌≡◌, IfSome};
ghost use Rattle.noise_ledger.specs.Verdicts.{ArePassed, parameters_of};
ghost use Rattle.psi_outside.specs.Ends.{ends};
ghost use Rattle.query_pool.specs.Inner.Runs.{status_of};
ghost use Rattle.query_pool.specs.Inputs.{AreBadFrames, AreGoodFrames};
ghost use Rattle.query_pool.specs.Servers.{IsBeginning};
ghost use Rattle.query_pool.specs.Serving.{HasServedBy, LeavesNoMemory, Rule};

use crate::round::Served;
use crate::run::Run;
use crate::server::Server;
use crate::stop::Stop;
use noise_ledger::Params;
use psi_outside::{Sink, Source};
use std::alloc::Global;

// The status of a run that found no memory.
const NO_MEMORY: u8 = 7;

/// Serves the frames of a source by a server that has answered none yet: rounds of frames in, the text of their replies out.
/// A round ends where the server says so, or with the last whole frame. Each round is answered as soon as it was read, and
/// its replies are written and flushed before the next one begins; where a write failed or memory ran out, nothing more is
/// read.
///
/// The parameters pass the check, and the server can be asked under them.
///
/// | Status | Comes | What was written |
/// |---|---|---|
/// | 0 | the input is whole frames to its end | the replies to all of them |
/// | 4 | a frame has a bad length or kind, or the input ends within a frame, or it has more than 2^40 bytes | the replies to the whole frames before |
/// | 5 | only where a read failed | the replies to the whole frames read before |
/// | 6 | only where a write or a flush failed | the replies of earlier rounds, and a front of those of this round |
/// | 7 | memory ran out | the replies of earlier rounds |
///
/// `entries` and `replies` count the places and the replies of the rounds that were written and flushed whole.
pub fn serve_frames<A: Server + Drop, S: Source, K: Sink>(
    alloc: Global,
    params: &Params,
    server: A,
    source: &mut S,
    sink: &mut K,
) -> Served
    requires passed { ArePassed (parameters_of params.now) }
    requires under { A.is_under server (parameters_of params.now) }
    requires begins { IsBeginning (A.rule (A.kind server)) (A.state server) }
    ensures served { HasServedBy (A.rule (A.kind server))
        (ends (S.told source.old) (K.told sink.old)) (ends (S.told source.new) (K.told sink.new))
        result }
    ensures good { IfSome (S.told source.old).left (λ bytes. AreGoodFrames bytes → result.status ≡ 4
        → ⊥) }
    ensures bad { IfSome (S.told source.old).left (λ bytes. AreBadFrames bytes → result.status ≡ 0
        → ⊥) }
{
    let mut run = Run::new(server);
    let status = status_of(run.serve_all(alloc, params, source, sink));
    Served {
        status,
        entries: run.entries,
        replies: run.replies,
    }
}

// The status of a run by how it ended.
fn status_of(end: Result<(), Stop>) -> u8
    ensures { result ≡ status_of end }
{
    match end {
        Ok(()) => 0,
        Err(Stop::BadInput) => 4,
        Err(Stop::ReadFault) => 5,
        Err(Stop::WriteFault) => 6,
        Err(Stop::NoMemory) => NO_MEMORY,
    }
}
