//! The turnstile and its seats.
ghost use Rattle.std.specs.Prelude.{◌≡◌, ℕ, ◌+◌, ◌^◌, ◌≤◌, [], ◌∷◌, length, IfOk, IfErr, Some};
ghost use Rattle.atomic_table.specs.Seated.{TableId};
ghost use Rattle.psi_turnstile.specs.Counting.{times};
ghost use Rattle.psi_turnstile.specs.Knowing.{Holder, saw, keeps_rest, takes_half, joined, Follows, Places, Turned, Keeps};
ghost use Rattle.psi_turnstile.specs.Rule.{opener};
ghost use Rattle.psi_turnstile.specs.Telling.{IsFree};

use crate::kept::{Act, Kept};
use crate::plays::{Board, Both, Check, Halves, See, Token};
use crate::steps::{COUNT, draw, give, note, take, wait};
use atomic_table::{Refused, Table};
use std::alloc::{AllocFailed, Global};
use std::marker::{Brand, Model};
use std::snapshot::Snapshot;
use std::sync::Wait;
use std::thread::Threads;

/// The share of a seat that is the only one.
const WHOLE: u64 = 1 << 32;

/// A ticket lock over one value. In clauses it is the identity of its table.
///
/// Each call that takes a seat has the condition that the seat is of this turnstile.
#[derive(Drop)]
pub struct Turnstile<B: Kept> {
    board: Board<B>,
}

impl<B: Kept> Model for Turnstile<B> {
    ghost Value = { TableId };

    ghost view = { λ t. t.board.shared.table_id };

    ghost invariant = { λ t. (t.board.shared.table_id.words ≡ 3) × (t.board.shared.table_id.slots ≡ 1) };
}

/// A caller's token. In clauses it is its turnstile and what the seat knows.
///
/// Dropping it gives up its share, and then the turnstile cannot be closed any more.
#[derive(Drop)]
pub struct Seat<B: Kept> {
    token: Token<B>,
    seen: u64,
    share: u64,
}

impl<B: Kept> Model for Seat<B> {
    ghost Value = { Holder B.Entry B.Base };

    ghost view = { λ s. record { turnstile = s.token.table_id; knows = s.token.me.0 } };

    ghost invariant = { λ s. IsFree s.token.me × (s.seen ≡ length s.token.me.0.seen) × (s.share ≡ s.token.me.0.share) × (s.share ≤ 2 ^ 32) };
}

/// There was no memory. The value comes back.
#[derive(Drop)]
pub struct OpenRefused<B> {
    pub book: B,
}

impl<B: Kept> Seat<B> {
    /// The length of the history that the seat has seen.
    pub fn seen(&self) -> u64
        ensures { result ≡ length self.now.knows.seen }
    {
        self.seen
    }

    /// The seat's part of 2^32, which is at least 1.
    pub fn share(&self) -> u64
        ensures share { result ≡ self.now.knows.share }
        ensures some { 1 ≤ result }
    {
        self.share
    }
}

// The one value of the slots that a table gave back.
fn only<B>(mut slots: Vec<Option<B>, Global>) -> B
    requires { (b : B) × (slots.items ≡ Some b ∷ []) }
    ensures { slots.items ≡ Some result ∷ [] }
{
    let last = slots.pop().unwrap();
    slots.destroy_empty();
    last.unwrap()
}

impl<B: Kept> Turnstile<B> {
    /// A turnstile over the value, and its first seat, which has seen the whole history, has no own place and has the
    /// share 2^32. It has no condition: the value's history may be of any length.
    ///
    /// Where there is no memory, the value comes back as it was. No other call takes memory.
    pub fn open(alloc: Global, book: B) -> Result<(Turnstile<B>, Seat<B>), OpenRefused<B>>
        ensures here { IfOk result (λ t. t.1.turnstile ≡ t.0) }
        ensures seat { IfOk result (λ t. t.1.knows ≡ opener B.base B.entries book) }
        ensures refused { IfErr result (λ r. r.book ≡ book) }
    {
        let about = Snapshot::of(&book);
        let count = book.count();
        let mut slots = Vec::new(alloc);
        if let Err(AllocFailed { value }) = slots.push(Some(book)) {
            slots.destroy_empty();
            return Err(OpenRefused {
                book: value.unwrap(),
            });
        }
        match Table::new(alloc, &[0, 0, count], slots, &about) {
            Ok((board, token)) => Ok((
                Turnstile { board },
                Seat {
                    token,
                    seen: count,
                    share: WHOLE,
                },
            )),
            Err(Refused { slots }) => Err(OpenRefused { book: only(slots) }),
        }
    }

    /// Waits for its turn, does the act once on the value, and answers its result and the length of the history then.
    ///
    /// The seat is of this turnstile. The act's condition (`Act::can`) holds for the turnstile's base and the history
    /// that the seat has seen. The history that the act meets begins with all that the seat has seen and taken in, and
    /// the seat has seen what the act leaves. The entry that the act made, if it made one, is the last of the seat's
    /// own places.
    pub fn turn<R: Threads + Wait + Sync, A: Act<B>>(
        &self,
        rt: &R,
        seat: &mut Seat<B>,
        act: &mut A,
    ) -> (A::Out, u64)
        requires here { seat.old.turnstile ≡ self.now }
        requires can { (z : B.Base) → seat.old.knows.base ≡ Some z
            → A.can act.old z seat.old.knows.seen }
        ensures here { seat.new.turnstile ≡ seat.old.turnstile }
        ensures act { Turned (λ z met after. A.does act.old z met act.new after result.0)
            seat.old.knows seat.new.knows }
        ensures follows { Follows seat.new.knows.seen seat.old.knows }
        ensures keeps { Keeps seat.old.knows seat.new.knows }
        ensures places { Places (length seat.new.knows.seen) seat.new.knows }
        ensures length { result.1 ≡ length seat.new.knows.seen }
    {
        let core = &self.board.shared;
        let token = &mut seat.token;
        let ticket = draw(core, token);
        wait(rt, core, token, ticket);
        let mut book = take(core, token);
        let before = book.count();
        let out = act.act(&mut book);
        let count = book.count();
        note::<B, Brand>(core, token, &book, count - before);
        give(core, token, book);
        seat.seen = count;
        (out, count)
    }

    /// Looks at the history, and answers its length. It waits for nobody.
    ///
    /// The seat is of this turnstile. The history begins with all that the seat has seen and taken in.
    pub fn peek(&self, seat: &mut Seat<B>) -> u64
        requires { seat.old.turnstile ≡ self.now }
        ensures here { seat.new.turnstile ≡ seat.old.turnstile }
        ensures looked { seat.new.knows ≡ saw seat.new.knows.seen seat.old.knows }
        ensures follows { Follows seat.new.knows.seen seat.old.knows }
        ensures places { Places (length seat.new.knows.seen) seat.new.knows }
        ensures length { result ≡ length seat.new.knows.seen }
    {
        let count = self.board.shared.load::<See>(&mut seat.token, COUNT);
        seat.seen = count;
        count
    }

    /// A new seat, which has seen the same, has no own place, and has half of the share, rounded down. It waits for
    /// nobody.
    ///
    /// The seat is of this turnstile, and its share is at least 2.
    pub fn split(&self, seat: &mut Seat<B>) -> Seat<B>
        requires here { seat.old.turnstile ≡ self.now }
        requires two { 2 ≤ seat.old.knows.share }
        ensures here { (seat.new.turnstile ≡ seat.old.turnstile)
            × (result.turnstile ≡ seat.old.turnstile) }
        ensures kept { seat.new.knows ≡ keeps_rest seat.old.knows }
        ensures given { result.knows ≡ takes_half seat.old.knows }
    {
        let token = self.board.shared.split_seat::<Halves>(&mut seat.token);
        let half = seat.share / 2;
        seat.share -= half;
        Seat {
            token,
            seen: seat.seen,
            share: half,
        }
    }

    /// Takes another seat in: its own places, its share, and all that it had seen, with which the seat's next look
    /// begins. It waits for nobody.
    ///
    /// Both seats are of this turnstile. No place is both of the one and of the other.
    pub fn join(&self, seat: &mut Seat<B>, other: Seat<B>)
        requires here { seat.old.turnstile ≡ self.now }
        requires other { other.turnstile ≡ self.now }
        ensures here { seat.new.turnstile ≡ seat.old.turnstile }
        ensures joined { seat.new.knows ≡ joined seat.old.knows other.knows }
        ensures apart { (x : ℕ) → times x seat.old.knows.own + times x other.knows.own ≤ 1 }
        ensures places { (n : ℕ) × Places n seat.new.knows }
    {
        let Seat { token, seen, share } = other;
        let core = &self.board.shared;
        core.join_seat::<Both>(&mut seat.token, token);
        core.load::<Check>(&mut seat.token, COUNT);
        if seat.seen < seen {
            seat.seen = seen;
        }
        seat.share += share;
    }

    /// Takes another seat in, and looks. What either had seen begins the history of which the length is answered. It
    /// waits for nobody.
    ///
    /// Both seats are of this turnstile.
    pub fn meet(&self, seat: &mut Seat<B>, note: Seat<B>) -> u64
        requires here { seat.old.turnstile ≡ self.now }
        requires note { note.turnstile ≡ self.now }
        ensures here { seat.new.turnstile ≡ seat.old.turnstile }
        ensures looked { seat.new.knows ≡ saw seat.new.knows.seen
            (joined seat.old.knows note.knows) }
        ensures follows { Follows seat.new.knows.seen seat.old.knows }
        ensures follows_note { Follows seat.new.knows.seen note.knows }
        ensures places { Places (length seat.new.knows.seen) seat.new.knows }
        ensures length { result ≡ length seat.new.knows.seen }
    {
        self.join(seat, note);
        self.peek(seat)
    }

    /// Ends the turnstile with its only seat, and gives the value, which stands for the base and the whole history. It
    /// waits for nobody.
    ///
    /// The seat is of this turnstile and has the whole share, 2^32, so that no other seat is left.
    pub fn close(self, seat: Seat<B>) -> B
        requires here { seat.turnstile ≡ self }
        requires whole { seat.knows.share ≡ 2 ^ 32 }
        ensures base { seat.knows.base ≡ Some (B.base result) }
        ensures follows { Follows (B.entries result) seat.knows }
        ensures places { Places (length (B.entries result)) seat.knows }
    {
        let Seat {
            token,
            seen: _,
            share: _,
        } = seat;
        let Turnstile { board } = self;
        let mut closed = board.close_with(token);
        let book = closed.take(0);
        closed.free();
        book.unwrap()
    }
}
