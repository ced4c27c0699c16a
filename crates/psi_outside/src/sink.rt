ghost use Rattle.std.specs.Prelude.{◌≡◌, ◌<◌, ◌≤◌, length, is_some, IfOk, OnOk, OnErr, IsSome};
ghost use Rattle.std.specs.Io.KnownBytes.{Keeps, WriteAppends};
ghost use Rattle.psi_outside.specs.Causes.{HasCause};
ghost use Rattle.psi_outside.specs.Ends.{SinkTold};
ghost use Rattle.psi_outside.specs.Streams.{IsAllFlushed};

use crate::Failed;

/// Where bytes go: a stream that is written at its end.
///
/// It counts its faults. A caller that is generic over sinks cannot raise that count, so `Failed` in a caller's answer
/// can be tied to a sink that did fail.
pub trait Sink {
    /// All bytes written so far and how many of them were flushed, where the sink tells them, and how many writes and flushes
    /// have failed. That count stands still at the last number of 64 bits.
    ghost told: { Self → SinkTold };

    /// Appends the first bytes of `piece`, which is not empty, and answers how many these are, one at least.
    ///
    /// A sink that takes nothing answers `Failed`. After `Failed` nothing was appended.
    fn write(&mut self, piece: &[u8]) -> Result<usize, Failed>
        requires { 0 < length piece.now }
        ensures some { IfOk result (λ count. 1 ≤ count) }
        ensures bound { IfOk result (λ count. count ≤ length piece.now) }
        ensures bytes { WriteAppends (told self.old).written (told self.new).written result
            piece.now }
        ensures told { IsSome (told self.old).written → IsSome (told self.new).written }
        ensures flushed { (told self.new).flushed ≡ (told self.old).flushed }
        ensures cause { HasCause (told self.old).faults (told self.new).faults result };

    /// Hands on all that was written. It appends nothing.
    ///
    /// After `Failed` as many bytes are flushed as before.
    fn flush(&mut self) -> Result<(), Failed>
        ensures bytes { Keeps (told self.old).written (told self.new).written }
        ensures all { OnOk result (IsAllFlushed (told self.new).written (told self.new).flushed) }
        ensures refused { OnErr result ((told self.new).flushed ≡ (told self.old).flushed) }
        ensures told { is_some (told self.new).flushed ≡ is_some (told self.old).flushed }
        ensures cause { HasCause (told self.old).faults (told self.new).faults result };
}
