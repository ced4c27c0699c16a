//! The sender.
ghost use Rattle.std.specs.Prelude.{◌≡◌, ◌<◌, ◌≤◌, ◌+◌, ◌^◌, ℕ, length, IfOk, IfErr, OnOk, Some};
ghost use Rattle.atomic_table.specs.Seated.{TableId};
ghost use Rattle.psi_turnstile.specs.Counting.{times};
ghost use Rattle.psi_turnstile.specs.Knowing.{saw, keeps_rest, takes_half, joined, Follows, Places};
ghost use Rattle.psi_residue.specs.Parameters.{parameter_bytes};
ghost use Rattle.psi_bundle.specs.declared.history.Call.TheVariants as Call;
ghost use Rattle.psi_bundle.specs.declared.history.Answer.TheVariants.{Seen};
ghost use Rattle.psi_bundle.specs.Versions.{HasLabelLength};
ghost use Rattle.psi_bundle.specs.Shows.{packed_bins};
ghost use Rattle.sender_core.specs.Kept.{row_of, IsConsistent};
ghost use Rattle.sender_core.specs.Given.{IsViewOf, IsJobOf};
ghost use Rattle.sender_core.specs.Tries.{job_of};
ghost use Rattle.sender_core.specs.Answers.{answer_of_put, answer_of_drop, answer_of_repack};
ghost use Rattle.live_sender.specs.declared.origin.Origin.{Origin};
ghost use Rattle.live_sender.specs.Histories.{origin_of, first_version, IsHistory};
ghost use Rattle.live_sender.specs.Turns.{first_seat, TakesTurn, Entered, Stayed, Refused, ShowsAt, ViewsRow, IsGivenAt, IsBareAt, HasRoomAt};
ghost use Rattle.live_sender.specs.Tries.{IsTriedAt, NamesIfInstalled};

use crate::entering::{Asks, Drops, Puts, Repacks};
use crate::live::{Live, know};
use crate::looking::{FetchesBare, FetchesRow, Installs, Reserves};
use item_slots::Tag;
use psi_bundle::{Bundle, Cached, Label};
use psi_turnstile::{OpenRefused, Turnstile};
use sender_core::{
    Bare, Book, DropAnswer, Install, Placed, Put, Refusal, RepackAnswer, RowView, Snapshot, Task,
};
use std::alloc::{AllocError, Global};
use std::marker::Model;
use std::sync::Wait;
use std::thread::Threads;

/// A caller's token at a sender.
pub type Seat<C> = psi_turnstile::Seat<Live<C>>;

/// A book that threads share. In clauses it is the identity of its turnstile's table.
///
/// Each call that takes a seat has the condition that the seat is of this sender. Each call that takes `rt` may wait, and
/// takes one turn: it answers as the book's call of its name on the book of that turn. What it answers is told by the
/// history that the seat has seen as the call ends, which begins with all that the seat had seen and taken in. The seat's
/// base is the origin of the opened book, which is its parameters and its start; no call changes it.
#[derive(Drop)]
pub struct Sender<C: Cached + Drop> {
    turnstile: Turnstile<Live<C>>,
}

impl<C: Cached + Drop> Model for Sender<C> {
    ghost use Rattle.atomic_table.specs.Seated.{TableId};

    ghost Value = { TableId };

    ghost view = { λ s. s.turnstile };
}

impl<C: Cached + Drop> Sender<C> {
    /// A sender over the book, and its first seat, which has seen the whole journal, has no own place and has the share
    /// 2^32. Where there is no memory, the book comes back as it was.
    pub fn open(alloc: Global, book: Book<C>) -> Result<(Sender<C>, Seat<C>), OpenRefused<Book<C>>>
        ensures here { IfOk result (λ t. t.1.turnstile ≡ t.0) }
        ensures seat { IfOk result (λ t. t.1.knows ≡ first_seat book) }
        ensures history { IsHistory (origin_of book) book.journal }
        ensures refused { IfErr result (λ r. r.book ≡ book) }
    {
        know(&book);
        match Turnstile::open(alloc, Live { book }) {
            Ok((turnstile, seat)) => Ok((Sender { turnstile }, seat)),
            Err(OpenRefused { book: live }) => {
                let Live { book } = live;
                Err(OpenRefused { book })
            }
        }
    }

    /// Takes room in the journal for so many entries more, or for all up to the limit of 2^20 entries. Condition: at most
    /// 4096 entries. It makes no entry. Which room the book of a later turn has is not told: each entry uses it up.
    pub fn reserve<R: Threads + Wait + Sync>(
        &self,
        rt: &R,
        alloc: Global,
        seat: &mut Seat<C>,
        entries: u32,
    ) -> Result<(), AllocError>
        requires here { seat.old.turnstile ≡ self.now }
        requires few { entries ≤ 4096 }
        ensures here { seat.new.turnstile ≡ seat.old.turnstile }
        ensures went { TakesTurn seat.old.knows seat.new.knows }
        ensures stayed { Stayed seat.old.knows seat.new.knows }
        ensures of_book { (z : Origin) → seat.old.knows.base ≡ Some z →
            OnOk result (HasRoomAt C.contents C.is_under z seat.new.knows.seen entries) }
    {
        let mut act = Reserves { alloc, entries };
        self.turnstile.turn(rt, seat, &mut act).0
    }

    /// Puts a tag with its label. Condition: the label has the length of the set's labels.
    ///
    /// The entry with its answer is the last that the seat has seen. `JournalFull` comes exactly where the history that the
    /// turn met has 2^20 entries. A refusal makes no entry.
    pub fn put<R: Threads + Wait + Sync>(
        &self,
        rt: &R,
        alloc: Global,
        seat: &mut Seat<C>,
        tag: Tag,
        label: Label,
    ) -> Result<Placed<Put>, Refusal>
        requires here { seat.old.turnstile ≡ self.now }
        requires length { (z : Origin) → seat.old.knows.base ≡ Some z →
            HasLabelLength z.parameters label }
        ensures here { seat.new.turnstile ≡ seat.old.turnstile }
        ensures went { TakesTurn seat.old.knows seat.new.knows }
        ensures entered { IfOk result
            (λ p. Entered seat.old.knows seat.new.knows (Call.Put tag label)
            (answer_of_put p.answer) p.place) }
        ensures refused { IfErr result (Refused seat.old.knows seat.new.knows) }
    {
        let mut act = Puts { alloc, tag, label };
        self.turnstile.turn(rt, seat, &mut act).0
    }

    /// Takes a tag out of the set.
    ///
    /// The entry with its answer is the last that the seat has seen. `JournalFull` comes exactly where the history that the
    /// turn met has 2^20 entries. A refusal makes no entry.
    pub fn drop_tag<R: Threads + Wait + Sync>(
        &self,
        rt: &R,
        alloc: Global,
        seat: &mut Seat<C>,
        tag: Tag,
    ) -> Result<Placed<DropAnswer>, Refusal>
        requires { seat.old.turnstile ≡ self.now }
        ensures here { seat.new.turnstile ≡ seat.old.turnstile }
        ensures went { TakesTurn seat.old.knows seat.new.knows }
        ensures entered { IfOk result
            (λ p. Entered seat.old.knows seat.new.knows (Call.Drop tag)
            (answer_of_drop p.answer) p.place) }
        ensures refused { IfErr result (Refused seat.old.knows seat.new.knows) }
    {
        let mut act = Drops { alloc, tag };
        self.turnstile.turn(rt, seat, &mut act).0
    }

    /// Shows the bundles as they stand, with their caches, and makes an Ask's entry, whose place the snapshot has.
    ///
    /// The entry is the last that the seat has seen. `JournalFull` comes exactly where the history that the turn met has
    /// 2^20 entries. A refusal makes no entry.
    pub fn ask<R: Threads + Wait + Sync>(
        &self,
        rt: &R,
        alloc: Global,
        seat: &mut Seat<C>,
    ) -> Result<Placed<Snapshot<C>>, Refusal>
        requires { seat.old.turnstile ≡ self.now }
        ensures here { seat.new.turnstile ≡ seat.old.turnstile }
        ensures went { TakesTurn seat.old.knows seat.new.knows }
        ensures entered { IfOk result
            (λ p. Entered seat.old.knows seat.new.knows Call.Ask Seen p.place) }
        ensures showed { (z : Origin) → seat.old.knows.base ≡ Some z →
            IfOk result
            (λ p. ShowsAt C.contents C.is_under z seat.new.knows.seen p.place p.answer) }
        ensures refused { IfErr result (Refused seat.old.knows seat.new.knows) }
    {
        let mut act = Asks { alloc };
        self.turnstile.turn(rt, seat, &mut act).0
    }

    /// Shows the bundles of a row as they stand, for a later `repack`. Condition: the row is below the parameters' rows. It
    /// makes no entry.
    pub fn fetch_row<R: Threads + Wait + Sync>(
        &self,
        rt: &R,
        alloc: Global,
        seat: &mut Seat<C>,
        row: u8,
    ) -> Result<RowView<C>, AllocError>
        requires here { seat.old.turnstile ≡ self.now }
        requires row { (z : Origin) → seat.old.knows.base ≡ Some z → row < z.parameters.rows }
        ensures here { seat.new.turnstile ≡ seat.old.turnstile }
        ensures went { TakesTurn seat.old.knows seat.new.knows }
        ensures stayed { Stayed seat.old.knows seat.new.knows }
        ensures viewed { (z : Origin) → seat.old.knows.base ≡ Some z →
            IfOk result (ViewsRow C.contents C.is_under z seat.new.knows.seen row) }
    {
        let mut act = FetchesRow { alloc, row };
        self.turnstile.turn(rt, seat, &mut act).0
    }

    /// Packs a viewed row anew, where none of its bundles changed since the view. `Moved` tells that one did. Conditions: the
    /// view is of the history that the seat has seen, and `packed` is the first fit of its members, as `pack_row` of the
    /// crate `psi_packer` gives it.
    ///
    /// The entry with its answer is the last that the seat has seen. `JournalFull` comes exactly where the history that the
    /// turn met has 2^20 entries. A refusal makes no entry.
    pub fn repack<R: Threads + Wait + Sync>(
        &self,
        rt: &R,
        alloc: Global,
        seat: &mut Seat<C>,
        view: &RowView<C>,
        packed: Vec<Bundle>,
    ) -> Result<Placed<RepackAnswer>, Refusal>
        requires here { seat.old.turnstile ≡ self.now }
        requires of_history { (z : Origin) → seat.old.knows.base ≡ Some z →
            IsViewOf (first_version z) seat.old.knows.seen view.now }
        requires packed { (z : Origin) → seat.old.knows.base ≡ Some z → packed.items
            ≡ packed_bins z.parameters.capacity (row_of view.now.bundles) }
        ensures here { seat.new.turnstile ≡ seat.old.turnstile }
        ensures went { TakesTurn seat.old.knows seat.new.knows }
        ensures entered { IfOk result
            (λ p. Entered seat.old.knows seat.new.knows (Call.Repack view.now.row view.now.from)
            (answer_of_repack p.answer) p.place) }
        ensures refused { IfErr result (Refused seat.old.knows seat.new.knows) }
    {
        let mut act = Repacks {
            alloc,
            view,
            packed,
        };
        self.turnstile.turn(rt, seat, &mut act).0
    }

    /// A bundle without a cache: of all of them, by row and then bundle, the one with the number `skip` modulo their number.
    /// Where each bundle has a cache it is all bundles instead, with their caches. It makes no entry.
    pub fn fetch_bare<R: Threads + Wait + Sync>(
        &self,
        rt: &R,
        alloc: Global,
        seat: &mut Seat<C>,
        skip: u16,
    ) -> Result<Bare<C>, AllocError>
        requires { seat.old.turnstile ≡ self.now }
        ensures here { seat.new.turnstile ≡ seat.old.turnstile }
        ensures went { TakesTurn seat.old.knows seat.new.knows }
        ensures stayed { Stayed seat.old.knows seat.new.knows }
        ensures given { (z : Origin) → seat.old.knows.base ≡ Some z →
            IfOk result (IsGivenAt C.contents C.is_under z seat.new.knows.seen) }
        ensures of_book { (z : Origin) → seat.old.knows.base ≡ Some z →
            IfOk result (IsBareAt C.contents C.is_under z seat.new.knows.seen skip) }
    {
        let mut act = FetchesBare { alloc, skip };
        self.turnstile.turn(rt, seat, &mut act).0
    }

    /// Puts a cache beside its bundle, where the task's row still has that bundle: the same number with the same stamp. It
    /// is `Stale` otherwise, and hands the cache back. It makes no entry. Conditions: the task is of the history that the
    /// seat has seen, and the cache is for the task's bundle under the parameters.
    ///
    /// Where there is no memory the cache is dropped, and the book is as before.
    pub fn install<R: Threads + Wait + Sync>(
        &self,
        rt: &R,
        alloc: Global,
        seat: &mut Seat<C>,
        task: &Task,
        cache: C,
    ) -> Result<Install<C>, AllocError>
        requires here { seat.old.turnstile ≡ self.now }
        requires of_history { (z : Origin) → seat.old.knows.base ≡ Some z →
            IsJobOf (first_version z) seat.old.knows.seen (job_of task.now) }
        requires same_bins { C.contents cache ≡ (job_of task.now).bins }
        requires same_parameters { (z : Origin) → seat.old.knows.base ≡ Some z →
            C.is_under cache (parameter_bytes z.parameters) }
        ensures here { seat.new.turnstile ≡ seat.old.turnstile }
        ensures went { TakesTurn seat.old.knows seat.new.knows }
        ensures stayed { Stayed seat.old.knows seat.new.knows }
        ensures tried { (z : Origin) → seat.old.knows.base ≡ Some z →
            IfOk result (IsTriedAt (first_version z) seat.new.knows.seen (job_of task.now) cache) }
        ensures named { (z : Origin) → seat.old.knows.base ≡ Some z →
            IfOk result (NamesIfInstalled (first_version z) seat.new.knows.seen) }
    {
        let mut act = Installs {
            alloc,
            task,
            cache: Some(cache),
        };
        self.turnstile.turn(rt, seat, &mut act).0
    }

    /// A new seat, which has seen the same, has no own place, and has half of the share, rounded down. It waits for nobody
    /// and takes no memory.
    ///
    /// The seat is of this sender, and its share is at least 2.
    pub fn split(&self, seat: &mut Seat<C>) -> Seat<C>
        requires here { seat.old.turnstile ≡ self.now }
        requires two { 2 ≤ seat.old.knows.share }
        ensures here { (seat.new.turnstile ≡ seat.old.turnstile)
            × (result.turnstile ≡ seat.old.turnstile) }
        ensures kept { seat.new.knows ≡ keeps_rest seat.old.knows }
        ensures given { result.knows ≡ takes_half seat.old.knows }
    {
        self.turnstile.split(seat)
    }

    /// Takes another seat in: its own places, its share, and all that it had seen, with which the seat's next look
    /// begins. It waits for nobody.
    ///
    /// Both seats are of this sender. No place is both of the one and of the other.
    pub fn join(&self, seat: &mut Seat<C>, other: Seat<C>)
        requires here { seat.old.turnstile ≡ self.now }
        requires other { other.turnstile ≡ self.now }
        ensures here { seat.new.turnstile ≡ seat.old.turnstile }
        ensures joined { seat.new.knows ≡ joined seat.old.knows other.knows }
        ensures apart { (x : ℕ) → times x seat.old.knows.own + times x other.knows.own ≤ 1 }
        ensures places { (n : ℕ) × Places n seat.new.knows }
    {
        self.turnstile.join(seat, other);
    }

    /// Takes another seat in, and looks. What either had seen begins the history of which the length is answered. It
    /// waits for nobody.
    ///
    /// Both seats are of this sender.
    pub fn meet(&self, seat: &mut Seat<C>, note: Seat<C>) -> u64
        requires here { seat.old.turnstile ≡ self.now }
        requires note { note.turnstile ≡ self.now }
        ensures here { seat.new.turnstile ≡ seat.old.turnstile }
        ensures looked { seat.new.knows
            ≡ saw seat.new.knows.seen (joined seat.old.knows note.knows) }
        ensures follows { Follows seat.new.knows.seen seat.old.knows }
        ensures follows_note { Follows seat.new.knows.seen note.knows }
        ensures places { Places (length seat.new.knows.seen) seat.new.knows }
        ensures length { result ≡ length seat.new.knows.seen }
    {
        self.turnstile.meet(seat, note)
    }

    /// Ends the sender with its only seat, and gives the book. Its journal is the whole history, and it has the parameters
    /// and the start of the opened book. It waits for nobody.
    ///
    /// The seat is of this sender and has the whole share, 2^32, so that no other seat is left.
    pub fn close(self, seat: Seat<C>) -> Book<C>
        requires here { seat.turnstile ≡ self }
        requires whole { seat.knows.share ≡ 2 ^ 32 }
        ensures base { seat.knows.base ≡ Some (origin_of result) }
        ensures follows { Follows result.journal seat.knows }
        ensures places { Places (length result.journal) seat.knows }
        ensures history { IsHistory (origin_of result) result.journal }
        ensures consistent { IsConsistent C.contents C.is_under result }
    {
        let Sender { turnstile } = self;
        let Live { book } = turnstile.close(seat);
        know(&book);
        book
    }
}
