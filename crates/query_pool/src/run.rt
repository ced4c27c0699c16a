//! A run of rounds, from bytes to bytes.
ghost use Rattle.std.specs.Prelude.{◌≡◌, true, false, None, IfOk, IsSome, take, ◌+◌, ◌≤◌, ◌<◌, ◌^◌, ℕ, List, ◌∷◌, [], ◌++◌, length, OnOk, OnErr, IfErr};
ghost use Rattle.std.specs.List.{All};
ghost use Rattle.noise_ledger.specs.Verdicts.{ArePassed, parameters_of};
ghost use Rattle.psi_frames.specs.Frames.{most_bytes};
ghost use Rattle.psi_frames.specs.declared.frame.Frame.{Frame};
ghost use Rattle.psi_frames.specs.Feeds.{Feeding, HasFed, end_fault};
ghost use Rattle.psi_outside.specs.Ends.{ends};
ghost use Rattle.query_pool.specs.declared.stop.Stop.TheVariants.{BadInput};
ghost use Rattle.query_pool.specs.Servers.{IsBeginning};
ghost use Rattle.query_pool.specs.Inner.Runs.{HasAnsweredAll, HasGoneOn, IsBadPiece, IsNew, IsRoundCounted, IsRoundOpen, IsStanding, IsStandingAt, LastStops, Leaves, Mark, PieceStops, RoundStops, TakeStops, Takes, Stands, StopsAt, as_they_are, progress_of};

use crate::server::Server;
use crate::stop::Stop;
use noise_ledger::Params;
use psi_frames::{Feed, Frame, FrameFault};
use psi_outside::{Sink, Source, write_all};
use std::alloc::{AllocError, Global};

// The bytes that one read has room for.
const BUFFER: usize = 65536;

// The bytes of an input that are looked at.
const MOST_BYTES: usize = 1 << 40;

/// A run: what answers its rounds, and the entries and the replies of the rounds that were written.
#[derive(Drop)]
pub(crate) struct Run<A> {
    pub(crate) server: A,
    pub(crate) entries: u64,
    pub(crate) replies: u64,
}

impl<A: Server> Run<A> {
    /// A run that has answered nothing yet.
    pub(crate) fn new(server: A) -> Run<A>
        ensures new { IsNew (progress_of result) }
        ensures server { result.server ≡ server }
    {
        Run {
            server,
            entries: 0,
            replies: 0,
        }
    }

    // Answers the round that waits, writes its replies and flushes them.
    fn serve_round<K: Sink>(
        &mut self,
        alloc: Global,
        params: &Params,
        sink: &mut K,
    ) -> Result<(), Stop>
        requires passed { ArePassed (parameters_of params.now) }
        requires under { A.is_under self.old.server (parameters_of params.now) }
        requires round { IsRoundCounted (A.rule (A.kind self.old.server)) (A.state self.old.server)
            self.old.replies }
        ensures gone { OnOk result (HasGoneOn (A.rule (A.kind self.old.server))
            (A.state self.old.server) (A.state self.new.server) as_they_are
            (progress_of self.old) (progress_of self.new) (K.told sink.old) (K.told sink.new)) }
        ensures stops { IfErr result (RoundStops (A.rule (A.kind self.old.server))
            (A.state self.old.server) as_they_are
            (progress_of self.old) (progress_of self.new) (K.told sink.old) (K.told sink.new)) }
        ensures under { OnOk result (A.is_under self.new.server (parameters_of params.now)) }
        ensures kind { OnOk result (A.kind self.new.server ≡ A.kind self.old.server) }
    {
        let answered = self.server.answer(alloc, params)?;
        match write_all(sink, &answered.text) {
            Ok(()) => {
                self.entries = self.server.entries();
                self.replies += answered.replies;
                Ok(())
            }
            Err(_) => Err(Stop::WriteFault),
        }
    }

    // Takes a frame into the round that has begun, and serves the round if the frame ends it.
    fn take_frame<K: Sink>(
        &mut self,
        alloc: Global,
        params: &Params,
        frame: Frame,
        sink: &mut K,
    ) -> Result<(), Stop>
        requires passed { ArePassed (parameters_of params.now) }
        requires under { A.is_under self.old.server (parameters_of params.now) }
        requires open_round { IsRoundOpen (A.rule (A.kind self.old.server))
            (A.state self.old.server) self.old.replies frame }
        ensures takes { OnOk result (Takes (A.rule (A.kind self.old.server))
            (A.state self.old.server) (A.state self.new.server)
            (progress_of self.old) (progress_of self.new) frame (K.told sink.old)
            (K.told sink.new)) }
        ensures stops { IfErr result (TakeStops (A.rule (A.kind self.old.server))
            (A.state self.old.server)
            (progress_of self.old) (progress_of self.new) frame (K.told sink.old)
            (K.told sink.new)) }
        ensures under { OnOk result (A.is_under self.new.server (parameters_of params.now)) }
        ensures kind { OnOk result (A.kind self.new.server ≡ A.kind self.old.server) }
    {
        self.server.push(frame)?;
        if self.server.is_ended() {
            return self.serve_round(alloc, params, sink);
        }
        Ok(())
    }

    // Takes the frames that stand ready, and serves each round as it is ended.
    fn drain<K: Sink>(
        &mut self,
        alloc: Global,
        params: &Params,
        feed: &mut Feed,
        sink: &mut K,
    ) -> Result<(), Stop>
        requires passed { ArePassed (parameters_of params.now) }
        requires under { A.is_under self.old.server (parameters_of params.now) }
        requires standing { IsStanding (A.rule (A.kind self.old.server)) (A.state self.old.server)
            feed.old
            (progress_of self.old) (K.told sink.old) }
        ensures goes { OnOk result ((mark : Mark) (bytes : List ℕ)
            → Stands (A.rule (A.kind self.old.server)) (A.state self.old.server) mark bytes feed.old
            (progress_of self.old) (K.told sink.old)
            → Stands (A.rule (A.kind self.old.server)) (A.state self.new.server) mark bytes feed.new
            (progress_of self.new) (K.told sink.new)) }
        ensures stops { IfErr result (λ stop. (mark : Mark) (bytes : List ℕ)
            → Stands (A.rule (A.kind self.old.server)) (A.state self.old.server) mark bytes feed.old
            (progress_of self.old) (K.told sink.old)
            → StopsAt (A.rule (A.kind self.old.server)) mark bytes (progress_of self.new)
            (K.told sink.new) stop) }
        ensures taken { OnOk result (feed.new.ready ≡ []) }
        ensures fault { OnOk result (feed.new.fault ≡ feed.old.fault) }
        ensures under { OnOk result (A.is_under self.new.server (parameters_of params.now)) }
        ensures kind { OnOk result (A.kind self.new.server ≡ A.kind self.old.server) }
    {
        while let Some(frame) = feed.next() {
            self.take_frame(alloc, params, frame, sink)?;
        }
        Ok(())
    }

    // Serves the round that has begun, if one has, where no more frames come.
    fn last_round<K: Sink>(
        &mut self,
        alloc: Global,
        params: &Params,
        sink: &mut K,
    ) -> Result<(), Stop>
        requires passed { ArePassed (parameters_of params.now) }
        requires under { A.is_under self.old.server (parameters_of params.now) }
        requires standing { (feed : Feeding)
            × IsStanding (A.rule (A.kind self.old.server)) (A.state self.old.server) feed
            (progress_of self.old) (K.told sink.old) }
        ensures all { OnOk result ((mark : Mark) (bytes : List ℕ) (feed : Feeding) → feed.ready ≡ []
            → Stands (A.rule (A.kind self.old.server)) (A.state self.old.server) mark bytes feed
            (progress_of self.old) (K.told sink.old)
            → HasAnsweredAll (A.rule (A.kind self.old.server)) mark bytes feed
            (progress_of self.new) (K.told sink.new)) }
        ensures stops { IfErr result (λ stop. (mark : Mark) (bytes : List ℕ) (feed : Feeding)
            → feed.ready ≡ []
            → Stands (A.rule (A.kind self.old.server)) (A.state self.old.server) mark bytes feed
            (progress_of self.old) (K.told sink.old)
            → LastStops (A.rule (A.kind self.old.server)) mark bytes feed (progress_of self.new)
            (K.told sink.new) stop) }
    {
        if self.server.is_empty() {
            return Ok(());
        }
        self.serve_round(alloc, params, sink)
    }

    // Takes the next bytes of the input, as far as they are looked at, and serves the rounds that they end. It answers how
    // many bytes more are looked at. `BadInput` comes behind the last round.
    fn take_piece<K: Sink>(
        &mut self,
        alloc: Global,
        params: &Params,
        feed: &mut Feed,
        piece: &[u8],
        room: usize,
        sink: &mut K,
    ) -> Result<usize, Stop>
        requires passed { ArePassed (parameters_of params.now) }
        requires under { A.is_under self.old.server (parameters_of params.now) }
        requires standing { IsStandingAt (A.rule (A.kind self.old.server)) (A.state self.old.server)
            room feed.old
            (progress_of self.old) (K.told sink.old) }
        ensures goes { OnOk result ((mark : Mark) (bytes : List ℕ)
            → Stands (A.rule (A.kind self.old.server)) (A.state self.old.server) mark bytes feed.old
            (progress_of self.old) (K.told sink.old)
            → length bytes + room ≡ most_bytes
            → Stands (A.rule (A.kind self.old.server)) (A.state self.new.server) mark
            (bytes ++ piece.now) feed.new (progress_of self.new) (K.told sink.new)) }
        ensures left { IfOk result (λ left. length piece.now + left ≡ room) }
        ensures faultless { OnOk result (feed.new.fault ≡ None) }
        ensures taken { OnOk result (feed.new.ready ≡ []) }
        ensures stops { IfErr result (λ stop. (mark : Mark) (bytes : List ℕ)
            → Stands (A.rule (A.kind self.old.server)) (A.state self.old.server) mark bytes feed.old
            (progress_of self.old) (K.told sink.old)
            → length bytes + room ≡ most_bytes
            → PieceStops (A.rule (A.kind self.old.server)) mark bytes piece.now room feed.new
            (progress_of self.new) (K.told sink.new) stop) }
        ensures under { OnOk result (A.is_under self.new.server (parameters_of params.now)) }
        ensures kind { OnOk result (A.kind self.new.server ≡ A.kind self.old.server) }
    {
        let is_good = hear(alloc, feed, piece, room)?;
        self.drain(alloc, params, feed, sink)?;
        if is_good {
            return Ok(room - piece.len());
        }
        self.last_round(alloc, params, sink)?;
        Err(Stop::BadInput)
    }

    /// Serves the input to its end.
    pub(crate) fn serve_all<S: Source, K: Sink>(
        &mut self,
        alloc: Global,
        params: &Params,
        source: &mut S,
        sink: &mut K,
    ) -> Result<(), Stop>
        requires passed { ArePassed (parameters_of params.now) }
        requires under { A.is_under self.old.server (parameters_of params.now) }
        requires new { IsNew (progress_of self.old) }
        requires begins { IsBeginning (A.rule (A.kind self.old.server)) (A.state self.old.server) }
        ensures { Leaves (A.rule (A.kind self.old.server))
            (ends (S.told source.old) (K.told sink.old))
            (ends (S.told source.new) (K.told sink.new))
            (progress_of self.new) result }
    {
        let mut feed = Feed::open(alloc)?;
        let mut buffer = [0; BUFFER];
        let mut room = MOST_BYTES;
        loop {
            match source.read(&mut buffer) {
                Ok(0) => {
                    self.last_round(alloc, params, sink)?;
                    return end(&feed);
                }
                Ok(count) => {
                    room = self.take_piece(alloc, params, &mut feed, &buffer[..count], room, sink)?;
                }
                Err(_) => {
                    self.last_round(alloc, params, sink)?;
                    return Err(Stop::ReadFault);
                }
            }
        }
    }
}
// Whether the input may end behind what was fed.
fn end(feed: &Feed) -> Result<(), Stop>
    ensures ok { OnOk result (end_fault feed.now.fault feed.now.rest ≡ None) }
    ensures err { IfErr result (λ stop. (stop ≡ BadInput)
        × IsSome (end_fault feed.now.fault feed.now.rest)) }
{
    match feed.finish() {
        Ok(()) => Ok(()),
        Err(_) => Err(Stop::BadInput),
    }
}

// Feeds the bytes of a piece, as many of them as are looked at. It answers whether these were all, and no fault was met.
fn hear(alloc: Global, feed: &mut Feed, piece: &[u8], room: usize) -> Result<bool, AllocError>
    ensures fed { OnOk result ((bytes : List ℕ) (taken : List Frame) → HasFed feed.old bytes taken
        → HasFed feed.new (bytes ++ take room piece.now) taken) }
    ensures faultless { IfOk result (λ good. good ≡ true → feed.new.fault ≡ None) }
    ensures whole { IfOk result (λ good. good ≡ true → length piece.now ≤ room) }
    ensures bad { IfOk result (λ good. good ≡ false → IsBadPiece feed.new room piece.now) }
    ensures table { feed.new.replies ≡ feed.old.replies }
    ensures kept { OnErr result (feed.new ≡ feed.old) }
{
    let seen = piece.len().min(room);
    match feed.feed(alloc, &piece[..seen]) {
        Ok(()) => Ok(seen == piece.len()),
        Err(fault) => match fault {
            FrameFault::NoMemory => Err(AllocError),
            _ => Ok(false),
        },
    }
}
