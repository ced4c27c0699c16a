ghost use Rattle.std.specs.Prelude.{◌≡◌, ◌<◌, ◌≤◌, ◌+◌, ◌^◌, ◌||◌, [], length, nat_lt, Some, is_err, is_some, IfOk, OnOk, OnErr, IsSome};
ghost use Rattle.std.specs.Io.KnownBytes.{Keeps, WriteAppends};
ghost use Rattle.psi_outside.specs.Causes.{HasCause};
ghost use Rattle.psi_outside.specs.InMemory.{sink_told};
ghost use Rattle.psi_outside.specs.Plans.{new_plan, is_listed, after_call};
ghost use Rattle.psi_outside.specs.Streams.{IsAllFlushed};

use crate::plan::FaultPlan;
use crate::{Failed, Sink};
use std::alloc::{AllocError, Global};
use std::marker::Model;

/// Bytes in memory, written at their end. The calls that are listed fail, and the writes that find no room.
#[derive(Drop)]
pub struct MemorySink {
    bytes: Vec<u8>,
    flushed: usize,
    room: u64,
    plan: FaultPlan,
}

impl Model for MemorySink {
    ghost use Rattle.std.specs.Prelude.{◌≤◌, length, vec_capacity};
    ghost use Rattle.psi_outside.specs.InMemory.{SinkState};

    ghost Value = { SinkState };

    ghost view = { λ s. record { written = s.bytes.items; flushed = s.flushed; room = s.room; plan = s.plan } };

    ghost invariant = { (λ s. (length s.bytes.items ≤ s.room) × (s.room ≤ vec_capacity s.bytes)) };
}

impl MemorySink {
    /// An empty sink with room for `room` bytes, at most 2^30, which it takes at once. A call fails if its number, from
    /// 0, is in `fails`, where writes and flushes are counted together.
    pub fn open(alloc: Global, room: u64, fails: Vec<u64>) -> Result<MemorySink, AllocError>
        requires { room ≤ 2 ^ 30 }
        ensures written { IfOk result (λ sink. sink.written ≡ []) }
        ensures flushed { IfOk result (λ sink. sink.flushed ≡ 0) }
        ensures room { IfOk result (λ sink. sink.room ≡ room) }
        ensures plan { IfOk result (λ sink. sink.plan ≡ new_plan fails.items) }
    {
        Ok(MemorySink {
            bytes: Vec::with_capacity(alloc, room as usize)?,
            flushed: 0,
            room,
            plan: FaultPlan::open(fails),
        })
    }

    /// All bytes written so far.
    pub fn bytes(&self) -> &[u8]
        ensures { result.now ≡ self.now.written }
    {
        &self.bytes
    }
}

impl Sink for MemorySink {
    ghost told = { λ s. sink_told s };

    fn write(&mut self, piece: &[u8]) -> Result<usize, Failed>
        requires { 0 < length piece.now }
        ensures some { IfOk result (λ count. 1 ≤ count) }
        ensures bound { IfOk result (λ count. count ≤ length piece.now) }
        ensures bytes { WriteAppends (Some self.old.written) (Some self.new.written) result
            piece.now }
        ensures told { IsSome (Some self.old.written) → IsSome (Some self.new.written) }
        ensures flushed { Some self.new.flushed ≡ Some self.old.flushed }
        ensures cause { HasCause self.old.plan.faults self.new.plan.faults result }

        // It fails exactly where there is no room or the plan says so, and else takes the piece whole.
        ensures fails { is_err result ≡ (nat_lt self.old.room
            (length self.old.written + length piece.now) || is_listed self.old.plan) }
        ensures whole { IfOk result (λ count. count ≡ length piece.now) }
        ensures plan { self.new.plan ≡ after_call self.old.plan (is_err result) }
        ensures room { self.new.room ≡ self.old.room }
    {
        let is_over = self.room - (self.bytes.len() as u64) < piece.len() as u64;
        self.plan.call(is_over)?;
        self.bytes.extend_from_slice(piece).unwrap();
        Ok(piece.len())
    }

    fn flush(&mut self) -> Result<(), Failed>
        ensures bytes { Keeps (Some self.old.written) (Some self.new.written) }
        ensures all { OnOk result (IsAllFlushed (Some self.new.written) (Some self.new.flushed)) }
        ensures refused { OnErr result (Some self.new.flushed ≡ Some self.old.flushed) }
        ensures told { is_some (Some self.new.flushed) ≡ is_some (Some self.old.flushed) }
        ensures cause { HasCause self.old.plan.faults self.new.plan.faults result }

        // It fails exactly where the plan says so.
        ensures fails { is_err result ≡ is_listed self.old.plan }
        ensures plan { self.new.plan ≡ after_call self.old.plan (is_err result) }
        ensures room { self.new.room ≡ self.old.room }
    {
        self.plan.call(false)?;
        self.flushed = self.bytes.len();
        Ok(())
    }
}
