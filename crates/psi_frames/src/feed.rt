//! Frames as they come, in pieces of any sizes.
ghost use Rattle.std.specs.Prelude.{◌≡◌, ◌⊎◌, ◌↔◌, ◌+◌, ◌-◌, ◌≤◌, List, [], ◌∷◌, ◌++◌, ℕ, true, false, None, Some, Err, IfOk, OnOk, IfErr, OnErr, IfSome, IsSome, IsNone, length, take, drop};
ghost use Rattle.std.specs.VecDeque.{deque_len, deque_capacity};
ghost use Rattle.byteorder.specs.Endian.{big_number};
ghost use Rattle.psi_frames.specs.declared.frame.Frame.{Frame};
ghost use Rattle.psi_frames.specs.declared.fault.FrameFault.TheVariants.{NoMemory};
ghost use Rattle.psi_frames.specs.Frames.{Fault, Short};
ghost use Rattle.psi_frames.specs.Feeds.{HasFed, IsBegun, IsCut, end_fault, table_of, told_fault};
ghost use Rattle.psi_frames.specs.Cuts.{BeginsWhole, IsTaken, TakesIn, fault_met, fault_of};

use crate::begun::Begun;
use crate::cut::{Cut, cut_frames};
use crate::fault::FrameFault;
use crate::frame::Frame;
use crate::front::{Front, HeadFault};
use std::alloc::{AllocError, Global};
use std::collections::VecDeque;
use std::marker::Model;
use std::mem;

/// Frames as they come, in pieces of any sizes: whole frames that can be taken, and the bytes of a frame that has begun.
///
/// A wrong length word and a wrong kind are faults. A fault is met as soon as its bytes were fed, and from then on the feed
/// stands still; the frames before it can still be taken. Memory for a frame grows with the bytes that came. Each byte is
/// looked at once, whatever the pieces.
///
/// Contracts see which table it reads by, the whole frames that were not taken, the bytes of the frame that has begun, and
/// the fault.
#[derive(Drop)]
pub struct Feed {
    replies: bool,
    ready: VecDeque<Frame>,
    begun: Begun,
    fault: Option<HeadFault>,
}

impl Model for Feed {
    ghost use Rattle.psi_frames.specs.Feeds.{Feeding};

    ghost Value = { Feeding };

    ghost use Rattle.psi_frames.specs.Cuts.{fault_met, IsFeed};

    ghost view = { λ f. record { replies = f.replies; ready = f.ready.items; rest = f.begun; fault = fault_met f.fault } };

    ghost invariant = { λ f. IsFeed f.replies f.begun f.fault };
}

impl Feed {
    /// A feed of requests, to which nothing was fed.
    pub fn open(alloc: Global) -> Result<Feed, AllocError>
        ensures fed { IfOk result (λ feed. HasFed feed [] []) }
        ensures requests { IfOk result (λ feed. feed.replies ≡ false) }
    {
        Ok(Feed::of(alloc, false))
    }

    /// A feed of replies, to which nothing was fed.
    pub fn replies(alloc: Global) -> Result<Feed, AllocError>
        ensures fed { IfOk result (λ feed. HasFed feed [] []) }
        ensures replies { IfOk result (λ feed. feed.replies ≡ true) }
    {
        Ok(Feed::of(alloc, true))
    }

    // A feed to which nothing was fed.
    fn of(alloc: Global, replies: bool) -> Feed
        ensures fed { HasFed result [] [] }
        ensures table { result.replies ≡ replies }
    {
        Feed {
            replies,
            ready: VecDeque::new(alloc),
            begun: Begun::new(alloc),
            fault: None,
        }
    }

    /// Takes the next bytes. `Length` and `Kind` tell the fault that was met, by these bytes or before. After `NoMemory` the
    /// feed is as before the call.
    pub fn feed(&mut self, alloc: Global, piece: &[u8]) -> Result<(), FrameFault>
        // Whole frames of the bytes so far, and none else.
        ensures fed { OnOk result ((bytes : List ℕ) (taken : List Frame)
            → HasFed self.old bytes taken → HasFed self.new (bytes ++ piece.now) taken) }
        ensures fed_faulty { (fault : Fault) → self.new.fault ≡ Some fault
            → (bytes : List ℕ) (taken : List Frame) → HasFed self.old bytes taken
            → HasFed self.new (bytes ++ piece.now) taken }
        ensures table { self.new.replies ≡ self.old.replies }

        // The fault, and no other one.
        ensures ok { OnOk result (self.new.fault ≡ None) }
        ensures err { IfErr result (λ told. (told ≡ NoMemory)
            ⊎ ((fault : Fault) × (self.new.fault ≡ Some fault) × (told ≡ told_fault fault)
            × (fault ≡ Short → ⊥))) }

        // What stays.
        ensures stuck { (fault : Fault) → self.old.fault ≡ Some fault
            → (result ≡ Err (told_fault fault)) × (self.new ≡ self.old) }
        ensures no_memory { result ≡ Err NoMemory → self.new ≡ self.old }
    {
        match self.fault {
            Some(fault) => Err(told(fault)),
            None => self.take(alloc, piece),
        }
    }

    // The same where no fault was met before.
    fn take(&mut self, alloc: Global, piece: &[u8]) -> Result<(), FrameFault>
        requires { self.old.fault ≡ None }
        ensures fed { OnOk result (TakesIn self.old self.new piece.now) }
        ensures fed_faulty { (fault : Fault) → self.new.fault ≡ Some fault
            → TakesIn self.old self.new piece.now }
        ensures table { self.new.replies ≡ self.old.replies }
        ensures ok { OnOk result (self.new.fault ≡ None) }
        ensures err { IfErr result (λ told. (told ≡ NoMemory)
            ⊎ ((fault : Fault) × (self.new.fault ≡ Some fault) × (told ≡ told_fault fault)
            × (fault ≡ Short → ⊥))) }
        ensures no_memory { result ≡ Err NoMemory → self.new ≡ self.old }
    {
        let fault = take(alloc, self.replies, &mut self.ready, &mut self.begun, piece)?;
        self.fault = fault;
        answer(fault)
    }

    /// The oldest whole frame that was not taken yet. `None` comes exactly where there is none.
    pub fn next(&mut self) -> Option<Frame>
        ensures none { IsNone result ↔ (self.old.ready ≡ []) }
        ensures stays { IsNone result → self.new ≡ self.old }
        ensures taken { IfSome result (λ frame.
            self.old ≡ record self.new { ready = frame ∷ self.new.ready }) }
        ensures fed { IfSome result (λ frame. (bytes : List ℕ) (taken : List Frame)
            → HasFed self.old bytes taken → HasFed self.new bytes (taken ++ frame ∷ [])) }
    {
        self.ready.pop_front()
    }

    /// Whether the bytes may end here. `Short` comes exactly where a frame has begun and no fault was met; a fault that was
    /// met is told again.
    pub fn finish(&self) -> Result<(), FrameFault>
        ensures ok { OnOk result (end_fault self.now.fault self.now.rest ≡ None) }
        ensures err { IfErr result (λ told. (fault : Fault)
            × (end_fault self.now.fault self.now.rest ≡ Some fault) × (told ≡ told_fault fault)) }
    {
        match self.fault {
            Some(fault) => Err(told(fault)),
            None if self.begun.is_empty() => Ok(()),
            None => Err(FrameFault::Short),
        }
    }
}

// The answer behind some bytes, by the fault that was met.
fn answer(fault: Option<HeadFault>) -> Result<(), FrameFault>
    ensures ok { OnOk result (fault_met fault ≡ None) }
    ensures err { IfErr result (λ told. (met : Fault) × (fault_met fault ≡ Some met)
        × (told ≡ told_fault met) × (met ≡ Short → ⊥)) }
{
    match fault {
        Some(fault) => Err(told(fault)),
        None => Ok(()),
    }
}

// A fault as it is told.
fn told(fault: HeadFault) -> FrameFault
    ensures { result ≡ told_fault (fault_of fault) }
{
    match fault {
        HeadFault::Length { n } => FrameFault::Length { n },
        HeadFault::Kind { k } => FrameFault::Kind { k },
    }
}

// Takes the next bytes behind a frame that has begun, or behind whole frames. An `Err` changes nothing.
fn take(
    alloc: Global,
    replies: bool,
    ready: &mut VecDeque<Frame>,
    begun: &mut Begun,
    piece: &[u8],
) -> Result<Option<HeadFault>, AllocError>
    requires { IsBegun (table_of replies) begun.old }
    ensures ok { IfOk result (λ fault.
        IsTaken (table_of replies) (begun.old ++ piece.now) ready.old.items ready.new.items
        begun.new (fault_met fault)) }
    ensures err { OnErr result ((ready.new.items ≡ ready.old.items) × (begun.new ≡ begun.old)) }
{
    match begun.front(replies, piece) {
        Front::Whole { end } => {
            let (more, behind) = piece.split_at(end - begun.len());
            take_frames(alloc, replies, ready, begun, more, behind)
        }
        Front::Begun => {
            begun.extend(piece)?;
            Ok(None)
        }
        Front::Faulty { fault } => {
            *begun = Begun::new(alloc);
            Ok(Some(fault))
        }
    }
}

// Takes the bytes that make the begun frame whole, and those behind them. An `Err` changes nothing: what can fail comes
// first, and goes into places of its own.
fn take_frames(
    alloc: Global,
    replies: bool,
    ready: &mut VecDeque<Frame>,
    begun: &mut Begun,
    more: &[u8],
    behind: &[u8],
) -> Result<Option<HeadFault>, AllocError>
    requires whole { BeginsWhole (table_of replies) (begun.old ++ (more.now ++ behind.now)) }
    requires exact { length begun.old + length more.now
        ≡ 4 + big_number 4 (begun.old ++ (more.now ++ behind.now)) }
    ensures ok { IfOk result (λ fault.
        IsTaken (table_of replies) (begun.old ++ (more.now ++ behind.now)) ready.old.items
        ready.new.items begun.new (fault_met fault)) }
    ensures err { OnErr result ((ready.new.items ≡ ready.old.items) × (begun.new ≡ begun.old)) }
{
    let Cut {
        mut frames,
        begun: next,
        fault,
    } = cut_frames(alloc, replies, behind)?;
    ready.reserve(frames.len() + 1)?;
    begun.extend(more)?;
    let whole = mem::replace(begun, next);
    ready.push_back_reserved(whole.into_frame());
    append_reserved(ready, &mut frames);
    Ok(fault)
}

// Moves frames behind others, for which there is room.
fn append_reserved(ready: &mut VecDeque<Frame>, frames: &mut VecDeque<Frame>)
    requires { deque_len ready.old + deque_len frames.old ≤ deque_capacity ready.old }
    ensures { ready.new.items ≡ ready.old.items ++ frames.old.items }
{
    let _ = ready.append(frames);
}
