//! The summary of replies.
ghost use Rattle.std.specs.Prelude.{IfOk, IfErr, string_bytes};
ghost use Rattle.psi_demo.specs.Faults.{IsSumFault};
ghost use Rattle.psi_demo.specs.Summaries.{ForTally};
ghost use Rattle.psi_demo.specs.Texts.{IsSummary};

use crate::fault::SumFault;
use crate::replies::read_replies;
use crate::stable::open_answers;
use crate::texts::summary_text;
use std::alloc::Global;
use std::thread::Threads;

/// The summary of the bytes of replies to the script of a number: six lines, which count the replies by kind, and for each
/// of the first three answers, in order, the stable items that it opens to with their own labels.
///
/// `Torn` comes first, exactly where the bytes are no list of whole reply frames, with the offset of the first part that
/// begins none. Then comes `Codec`, exactly where the asked items have a placement and one of the first three bodies is no
/// reply under the parameters of the demonstration; it has the fault of the first such body. Where the asked items have no
/// placement, no answer is opened, and each number of the last line is 0. The only other error is memory that runs out.
pub fn summary<R: Threads + Sync>(
    rt: &R,
    alloc: Global,
    number: u64,
    replies: &[u8],
) -> Result<String, SumFault>
    ensures text { IfOk result (λ text.
        ForTally replies.now (λ tally. IsSummary number tally (string_bytes text))) }
    ensures fault { IfErr result (IsSumFault number replies.now) }
{
    let told = read_replies(alloc, replies)?;
    let stable = open_answers(rt, alloc, number, &told)?;
    Ok(summary_text(alloc, number, &told, &stable)?)
}
