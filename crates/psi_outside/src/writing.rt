//! Writing a text to a sink.
ghost use Rattle.std.specs.Prelude.{◌≡◌, ℕ, take, OnOk, OnErr};
ghost use Rattle.std.specs.Io.KnownBytes.{Appends};
ghost use Rattle.psi_outside.specs.Causes.{HasCause};
ghost use Rattle.psi_outside.specs.Streams.{IsAllFlushed};

use crate::{Failed, Sink};

/// Writes all of the text and flushes it. An empty text is flushed too.
///
/// `Failed` comes where a write or the flush failed: the sink's count of faults rises by one, a front of the text was
/// written, and as many bytes are flushed as before. Where the answer is Ok no write and no flush failed, so the count is as before.
#[tactic(auto, using(crate::proofs::Pieces::whole_kept))]
pub fn write_all<K: Sink>(sink: &mut K, text: &[u8]) -> Result<(), Failed>
    ensures written { OnOk result (Appends (K.told sink.old).written (K.told sink.new).written
        text.now) }
    ensures flushed { OnOk result (IsAllFlushed (K.told sink.new).written
        (K.told sink.new).flushed) }
    ensures front { OnErr result ((n : ℕ)
        × Appends (K.told sink.old).written (K.told sink.new).written (take n text.now)) }
    ensures unflushed { OnErr result ((K.told sink.new).flushed ≡ (K.told sink.old).flushed) }
    ensures cause { HasCause (K.told sink.old).faults (K.told sink.new).faults result }
{
    write_pieces(sink, text)?;
    sink.flush()
}

// Writes all of the text, piece by piece.
fn write_pieces<K: Sink>(sink: &mut K, text: &[u8]) -> Result<(), Failed>
    ensures written { OnOk result (Appends (K.told sink.old).written (K.told sink.new).written
        text.now) }
    ensures front { OnErr result ((n : ℕ)
        × Appends (K.told sink.old).written (K.told sink.new).written (take n text.now)) }
    ensures unflushed { (K.told sink.new).flushed ≡ (K.told sink.old).flushed }
    ensures cause { HasCause (K.told sink.old).faults (K.told sink.new).faults result }
{
    let mut rest = text;
    while !rest.is_empty() {
        let count = sink.write(rest)?;
        rest = &rest[count..];
    }
    Ok(())
}
