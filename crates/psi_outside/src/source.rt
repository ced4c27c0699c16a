ghost use Rattle.std.specs.Prelude.{◌≡◌, ◌<◌, length, OnErr, IsSome};
ghost use Rattle.std.specs.Io.{ReadsAtMost};
ghost use Rattle.std.specs.Io.KnownBytes.{Keeps, ReadConsumes};
ghost use Rattle.psi_outside.specs.Causes.{HasCause};
ghost use Rattle.psi_outside.specs.Ends.{SourceTold};
ghost use Rattle.psi_outside.specs.Streams.{EndsExactly};

use crate::Failed;

/// Where bytes come from: a stream that is read from its front.
///
/// It counts its faults. A caller that is generic over sources cannot raise that count, so `Failed` in a caller's answer
/// can be tied to a source that did fail.
pub trait Source {
    /// The bytes that are left, where the source tells them, and how many reads have failed. That count stands still at the
    /// last number of 64 bits.
    ghost told: { Self → SourceTold };

    /// Moves the next bytes into the front of `buf`, which is not empty, and answers how many these are.
    ///
    /// `Ok(0)` means the end. After `Failed` nothing was taken, and what `buf` holds is unknown.
    fn read(&mut self, buf: &mut [u8]) -> Result<usize, Failed>
        requires { 0 < length buf.old }
        ensures bound { ReadsAtMost result buf.new }
        ensures bytes { ReadConsumes (told self.old).left (told self.new).left result buf.new }
        ensures end { EndsExactly (told self.old).left result }
        ensures refused { OnErr result (Keeps (told self.old).left (told self.new).left) }
        ensures told { IsSome (told self.old).left → IsSome (told self.new).left }
        ensures cause { HasCause (told self.old).faults (told self.new).faults result };
}
