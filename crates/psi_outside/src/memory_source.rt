ghost use Rattle.std.specs.Prelude.{◌≡◌, ◌<◌, ◌≤◌, length, min, take, Some, is_err, IfOk, OnErr, IsSome};
ghost use Rattle.std.specs.Io.{ReadsAtMost};
ghost use Rattle.std.specs.Io.KnownBytes.{Keeps, ReadConsumes};
ghost use Rattle.psi_outside.specs.Causes.{HasCause};
ghost use Rattle.psi_outside.specs.InMemory.{source_told};
ghost use Rattle.psi_outside.specs.Plans.{new_plan, is_listed, after_call};
ghost use Rattle.psi_outside.specs.Streams.{EndsExactly};

use crate::plan::FaultPlan;
use crate::{Failed, Source};
use std::marker::Model;

/// Bytes in memory, read in pieces. The reads that are listed fail, and no others.
#[derive(Drop)]
pub struct MemorySource {
    bytes: Vec<u8>,
    at: usize,
    piece: usize,
    plan: FaultPlan,
}

impl Model for MemorySource {
    ghost use Rattle.std.specs.Prelude.{◌≤◌, drop, length};
    ghost use Rattle.psi_outside.specs.InMemory.{SourceState};

    ghost Value = { SourceState };

    ghost view = { λ s. record { left = drop s.at s.bytes.items; piece = s.piece; plan = s.plan } };

    ghost invariant = { (λ s. (s.at ≤ length s.bytes.items) × (1 ≤ s.piece)) };
}

impl MemorySource {
    /// A source of these bytes. A read gives at most `piece` of them, which is at least 1, and fails if its number, from
    /// 0, is in `fails`.
    pub fn open(bytes: Vec<u8>, piece: usize, fails: Vec<u64>) -> MemorySource
        requires { 1 ≤ piece }
        ensures left { result.left ≡ bytes.items }
        ensures piece { result.piece ≡ piece }
        ensures plan { result.plan ≡ new_plan fails.items }
    {
        MemorySource {
            bytes,
            at: 0,
            piece,
            plan: FaultPlan::open(fails),
        }
    }
}

impl Source for MemorySource {
    ghost told = { λ s. source_told s };

    fn read(&mut self, buf: &mut [u8]) -> Result<usize, Failed>
        requires { 0 < length buf.old }
        ensures bound { ReadsAtMost result buf.new }
        ensures bytes { ReadConsumes (Some self.old.left) (Some self.new.left) result buf.new }
        ensures end { EndsExactly (Some self.old.left) result }
        ensures refused { OnErr result (Keeps (Some self.old.left) (Some self.new.left)) }
        ensures told { IsSome (Some self.old.left) → IsSome (Some self.new.left) }
        ensures cause { HasCause self.old.plan.faults self.new.plan.faults result }

        // It fails exactly where the plan says so, and gives as much as it can.
        ensures fails { is_err result ≡ is_listed self.old.plan }
        ensures count { IfOk result (λ count.
            count ≡ min self.old.piece (min (length self.old.left) (length buf.old))) }
        ensures plan { self.new.plan ≡ after_call self.old.plan (is_err result) }
        ensures piece { self.new.piece ≡ self.old.piece }
    {
        self.plan.call(false)?;
        let count = copy_front(&self.bytes[self.at..], self.piece, buf);
        self.at += count;
        Ok(count)
    }
}

// Copies from the front of one slice to the front of another: at most `most` bytes, as far as both go.
fn copy_front(from: &[u8], most: usize, to: &mut [u8]) -> usize
    ensures count { result ≡ min most (min (length from.now) (length to.old)) }
    ensures copied { take result to.new ≡ take result from.now }
{
    let count = most.min(from.len().min(to.len()));
    to[..count].copy_from_slice(&from[..count]);
    count
}
