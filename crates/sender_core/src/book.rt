//! The book.
ghost use Rattle.std.specs.Prelude.{◌≡◌, ◌-◌, ◌≤◌, ◌<◌, ◌^◌, ◌↔◌, ℕ, List, length, min, IfOk, IfErr, IfSome, IsNone, IsErr, OnErr, OnOk, slice_index_or};
ghost use Rattle.psi_bundle.specs.Histories.{AreBytes};

use crate::answers::{DropAnswer, ENTRIES, Placed, Put, Refusal, RepackAnswer};
use crate::install::{Bare, Install};
use crate::rows::newest;
use crate::snapshot::Snapshot;
use crate::state::State;
use crate::task::{Task, bare_tasks};
use crate::view::RowView;
use item_slots::{Tag, tag_bytes};
use noise_ledger::Params;
use psi_bundle::{Bundle, Cached, Entry, Label, Shown};
use std::alloc::{AllocError, Global};
use std::marker::Model;

/// A labelled set with the journal of its entries, and caches beside its bundles. Clauses see its contents.
///
/// What is true of every book is `IsConsistent`: its parameters pass the check, its version is sound, its start is a
/// sound version without entries whose stamps are all 0, its journal has at most 2^20 entries, is legal from the
/// start and leads to the version, each cache is for the bundle where it stands, under the book's parameters, and its tags and
/// labels are bytes, also those of its start and of the calls in its journal.
#[derive(Drop)]
pub struct Book<C: Cached> {
    state: State<C>,
}

impl<C: Cached> Model for Book<C> {
    ghost use Rattle.sender_core.specs.Kept.{Contents, IsConsistent};
    ghost use Rattle.sender_core.specs.States.{contents_of};

    ghost Value = { Contents C };

    ghost view = { λ b. contents_of b.state };

    ghost invariant = { λ b. IsConsistent C.contents C.is_under (contents_of b.state) };
}

// Each element is a byte. It does nothing: the clause is what it is for.
fn are_bytes(_bytes: &[u8])
    ensures { AreBytes _bytes.now }
{}

impl<C: Cached + Drop> Book<C> {
    ghost use Rattle.std.specs.Option.{option_copied};
    ghost use Rattle.std.specs.FinMap as fin;
    ghost use Rattle.psi_bundle.specs.declared.history.Call.TheVariants as Call;
    ghost use Rattle.psi_bundle.specs.declared.history.Answer.TheVariants.{Seen};
    ghost use Rattle.noise_ledger.specs.Verdicts.{ArePassed, parameters_of};
    ghost use Rattle.psi_bundle.specs.Steps.{step};
    ghost use Rattle.psi_bundle.specs.Versions.{HasLabelLength, greatest_stamp};
    ghost use Rattle.sender_core.specs.Kept.{version_of, start_of, kept_row, row_of, empty_contents, IsAsBefore, IsConsistent, IsStep};
    ghost use Rattle.psi_residue.specs.Parameters.{parameter_bytes};
    ghost use Rattle.psi_bundle.specs.Shows.{packed_bins};
    ghost use Rattle.sender_core.specs.Given.{row_sight_of, IsViewOf, IsJobOf};
    ghost use Rattle.sender_core.specs.Tries.{job_of};
    ghost use Rattle.sender_core.specs.Installs.{installed, install_answer, IsBareOf, IsGivenOf};
    ghost use Rattle.sender_core.specs.Shown.{kept_of_row};
    ghost use Rattle.sender_core.specs.Answers.{answer_of_put, answer_of_drop, answer_of_repack, cause_at, LeavesBare};

    /// The book of an empty set with these parameters. It starts from the empty version, has no entries, and no room
    /// for any yet. Condition: the parameters pass `check` of the crate `noise_ledger`.
    pub fn open(alloc: Global, params: &Params) -> Result<Book<C>, AllocError>
        requires { ArePassed (parameters_of params.now) }
        ensures { IfOk result (λ book. book ≡ empty_contents (parameters_of params.now)) }
    {
        let state = State::empty(alloc, params)?;
        Ok(Book { state })
    }

    /// Takes room for so many entries more, or for all up to the limit of 2^20 entries: that many calls can then write
    /// down their entries. Condition: at most 4096 entries. It adds no entry: but for the room the book stays as it is, and
    /// where there is no memory it stays as it is.
    pub fn reserve(&mut self, _alloc: Global, entries: u32) -> Result<(), AllocError>
        requires { entries ≤ 4096 }
        ensures room { OnOk result (min entries (2 ^ 20 - length self.old.journal)
            ≤ self.new.room) }
        ensures kept { IsAsBefore self.old self.new }
        ensures refused { OnErr result (self.new ≡ self.old) }
    {
        self.state.reserve(entries)
    }

    /// The number of entries.
    pub fn count(&self) -> u64
        ensures number { result ≡ length self.now.journal }
        ensures consistent { IsConsistent C.contents C.is_under self.now }
    {
        self.state.count()
    }

    /// The entry at a place. None exactly from the count on.
    pub fn entry(&self, k: u64) -> Option<&Entry>
        ensures value { IfSome result
            (λ entry. entry.now ≡ slice_index_or self.now.journal k entry.now) }
        ensures none { IsNone result ↔ (length self.now.journal ≤ k) }
    {
        self.state.journal.get(k as usize)
    }

    /// The label of a tag. None exactly where the tag is not in the map.
    pub fn label(&self, tag: &Tag) -> Option<&Label>
        ensures label { option_copied result ≡ fin.get (version_of self.now).labels tag.now }
    {
        self.state.labels.get(tag)
    }

    /// The bundles of a row, with their stamps and caches. Condition: the row is below the parameters' rows.
    pub fn bundles(&self, row: u8) -> &[Shown<C>]
        requires { row < self.now.parameters.rows }
        ensures { kept_of_row result.now ≡ kept_row self.now.rows row }
    {
        &self.state.rows[row as usize]
    }

    /// The greatest stamp of a row's bundles, 0 where it has none. Condition: the row is below the parameters' rows.
    pub fn newest(&self, row: u8) -> u64
        requires { row < self.now.parameters.rows }
        ensures { result ≡ greatest_stamp (row_of (kept_row self.now.rows row)) }
    {
        newest(self.bundles(row))
    }

    /// Shows the bundles as they stand, with their caches, and the number of entries as the place. It adds no entry.
    pub fn shown(&self, alloc: Global) -> Result<Snapshot<C>, AllocError>
        ensures shown { IfOk result (λ snapshot. snapshot
            ≡ record { place = length self.now.journal; rows = self.now.rows }) }
        ensures rows { IfOk result (λ snapshot. length snapshot.rows
            ≡ self.now.parameters.rows) }
        ensures consistent { IsConsistent C.contents C.is_under self.now }
    {
        self.seen(alloc, self.count())
    }

    /// Puts a tag with its label: it is the step of that call, and its entry is the next. Condition: the label has
    /// `10·units` bytes.
    ///
    /// `JournalFull` comes exactly where the journal has 2^20 entries, before anything else is looked at, and the book stays
    /// as it is. After `NoMemory` it is as before, but for the room that it has for entries. A bundle that changes loses its
    /// cache.
    pub fn put(&mut self, alloc: Global, tag: Tag, label: Label) -> Result<Placed<Put>, Refusal>
        requires { HasLabelLength self.old.parameters label }
        ensures stepped { IfOk result
            (λ placed. IsStep self.old self.new (Call.Put tag label)
            (answer_of_put placed.answer)) }
        ensures place { IfOk result (λ placed. placed.place ≡ length self.old.journal) }
        ensures full { length self.old.journal ≡ 2 ^ 20 → IsErr result }
        ensures cause { IfErr result (λ refusal. refusal ≡ cause_at (length self.old.journal)) }
        ensures kept { OnErr result (IsAsBefore self.old self.new) }
        ensures full_kept { length self.old.journal ≡ 2 ^ 20 → self.new ≡ self.old }
    {
        let place = self.next_place()?;
        are_bytes(&tag_bytes(&tag));
        are_bytes(label.bytes());
        match self.state.put(alloc, tag, label) {
            Ok(answer) => Ok(Placed { answer, place }),
            Err(_) => Err(Refusal::NoMemory),
        }
    }

    /// What `put` would answer for this tag with any label of `10·units` bytes, were there room in the journal. The book
    /// stays as it is, and it takes no memory.
    pub fn would_put(&self, tag: &Tag) -> Put
        ensures told { (label : List ℕ) → answer_of_put result
            ≡ (step (version_of self.now) (Call.Put tag.now label)).answer }
    {
        self.state.would_put(tag)
    }

    /// Takes a tag out of the set: it is the step of that call, and its entry is the next.
    ///
    /// `JournalFull` comes exactly where the journal has 2^20 entries, before anything else is looked at, and the book stays
    /// as it is. After `NoMemory` it is as before, but for the room that it has for entries. A bundle that changes loses its
    /// cache.
    pub fn drop_tag(&mut self, alloc: Global, tag: Tag) -> Result<Placed<DropAnswer>, Refusal>
        ensures stepped { IfOk result
            (λ placed. IsStep self.old self.new (Call.Drop tag) (answer_of_drop placed.answer)) }
        ensures place { IfOk result (λ placed. placed.place ≡ length self.old.journal) }
        ensures full { length self.old.journal ≡ 2 ^ 20 → IsErr result }
        ensures cause { IfErr result (λ refusal. refusal ≡ cause_at (length self.old.journal)) }
        ensures kept { OnErr result (IsAsBefore self.old self.new) }
        ensures full_kept { length self.old.journal ≡ 2 ^ 20 → self.new ≡ self.old }
    {
        let place = self.next_place()?;
        are_bytes(&tag_bytes(&tag));
        match self.state.drop_tag(alloc, tag) {
            Ok(answer) => Ok(Placed { answer, place }),
            Err(_) => Err(Refusal::NoMemory),
        }
    }

    /// Shows the bundles as they stand, with their caches: it is the step of an Ask, and its entry is the next, whose
    /// place the snapshot has.
    ///
    /// `JournalFull` comes exactly where the journal has 2^20 entries, before anything else is looked at, and the book stays
    /// as it is. After `NoMemory` it is as before, but for the room that it has for entries.
    pub fn ask(&mut self, alloc: Global) -> Result<Placed<Snapshot<C>>, Refusal>
        ensures stepped { OnOk result (IsStep self.old self.new Call.Ask Seen) }
        ensures shown { IfOk result (λ placed. placed.answer
            ≡ record { place = length self.old.journal; rows = self.old.rows }) }
        ensures rows { IfOk result (λ placed. length placed.answer.rows
            ≡ self.old.parameters.rows) }
        ensures place { IfOk result (λ placed. placed.place ≡ length self.old.journal) }
        ensures full { length self.old.journal ≡ 2 ^ 20 → IsErr result }
        ensures cause { IfErr result (λ refusal. refusal ≡ cause_at (length self.old.journal)) }
        ensures kept { OnErr result (IsAsBefore self.old self.new) }
        ensures full_kept { length self.old.journal ≡ 2 ^ 20 → self.new ≡ self.old }
    {
        let place = self.next_place()?;
        let answer = match self.seen(alloc, place) {
            Ok(snapshot) => snapshot,
            Err(_) => return Err(Refusal::NoMemory),
        };
        match self.state.ask() {
            Ok(()) => Ok(Placed { answer, place }),
            Err(_) => Err(Refusal::NoMemory),
        }
    }

    /// Shows the bundles of a row as they stand, for a later `repack`. Condition: the row is below the parameters' rows. It
    /// adds no entry.
    pub fn fetch_row(&self, alloc: Global, row: u8) -> Result<RowView<C>, AllocError>
        requires { row < self.now.parameters.rows }
        ensures shown { IfOk result (λ view. view ≡ row_sight_of self.now row) }
        ensures of_history { IfOk result
            (λ view. IsViewOf (start_of self.now) self.now.journal view) }
    {
        RowView::of(alloc, row, self.count(), self.bundles(row))
    }

    /// Packs a viewed row anew, where none of its bundles changed since the view: it is the step of a Repack of the view's
    /// row and number of entries, and its entry is the next. `Moved` tells that a bundle of the row changed since. A row
    /// that has no bundles by now stays so. Conditions: the view is of this book's history, and `packed` is the first fit
    /// of its members, as `pack_row` of the crate `psi_packer` gives it.
    ///
    /// `JournalFull` comes exactly where the journal has 2^20 entries, before anything else is looked at, and the book stays
    /// as it is. After `NoMemory` it is as before, but for the room that it has for entries. A row that is packed has no
    /// caches.
    pub fn repack(
        &mut self,
        alloc: Global,
        view: &RowView<C>,
        packed: Vec<Bundle>,
    ) -> Result<Placed<RepackAnswer>, Refusal>
        requires of_history { IsViewOf (start_of self.old) self.old.journal view.now }
        requires packed { packed.items
            ≡ packed_bins self.old.parameters.capacity (row_of view.now.bundles) }
        ensures stepped { IfOk result
            (λ placed. IsStep self.old self.new (Call.Repack view.now.row view.now.from)
            (answer_of_repack placed.answer)) }
        ensures bare { IfOk result (λ placed.
            LeavesBare placed.answer (kept_row self.new.rows view.now.row)) }
        ensures place { IfOk result (λ placed. placed.place ≡ length self.old.journal) }
        ensures full { length self.old.journal ≡ 2 ^ 20 → IsErr result }
        ensures cause { IfErr result (λ refusal. refusal ≡ cause_at (length self.old.journal)) }
        ensures kept { OnErr result (IsAsBefore self.old self.new) }
        ensures full_kept { length self.old.journal ≡ 2 ^ 20 → self.new ≡ self.old }
    {
        let place = self.next_place()?;
        match self.state.repack(alloc, view.row(), view.from(), packed) {
            Ok(answer) => Ok(Placed { answer, place }),
            Err(_) => Err(Refusal::NoMemory),
        }
    }

    /// Packs a row anew as a Repack with this `from` does, which may be any number: it is the step of that call, and its
    /// entry is the next. Conditions: the row is below the parameters' rows, and where none of its bundles has
    /// a stamp above `from`, `packed` is the first fit of its members as they stand.
    ///
    /// It has the refusals of `repack`.
    pub fn repack_at(
        &mut self,
        alloc: Global,
        row: u8,
        from: u64,
        packed: Vec<Bundle>,
    ) -> Result<Placed<RepackAnswer>, Refusal>
        requires in_range { row < self.old.parameters.rows }
        requires packed { greatest_stamp (row_of (kept_row self.old.rows row)) ≤ from →
            packed.items ≡ packed_bins self.old.parameters.capacity
            (row_of (kept_row self.old.rows row)) }
        ensures stepped { IfOk result (λ placed. IsStep self.old self.new (Call.Repack row from)
            (answer_of_repack placed.answer)) }
        ensures bare { IfOk result (λ placed.
            LeavesBare placed.answer (kept_row self.new.rows row)) }
        ensures place { IfOk result (λ placed. placed.place ≡ length self.old.journal) }
        ensures full { length self.old.journal ≡ 2 ^ 20 → IsErr result }
        ensures cause { IfErr result (λ refusal. refusal ≡ cause_at (length self.old.journal)) }
        ensures kept { OnErr result (IsAsBefore self.old self.new) }
        ensures full_kept { length self.old.journal ≡ 2 ^ 20 → self.new ≡ self.old }
    {
        let place = self.next_place()?;
        match self.state.repack(alloc, row, from, packed) {
            Ok(answer) => Ok(Placed { answer, place }),
            Err(_) => Err(Refusal::NoMemory),
        }
    }

    /// A bundle without a cache: of all of them, by row and then bundle, the one with the number `skip` modulo their number.
    /// Where each bundle has a cache it is all bundles instead, with their caches. It adds no entry.
    pub fn fetch_bare(&self, alloc: Global, skip: u16) -> Result<Bare<C>, AllocError>
        ensures given { IfOk result (λ bare. IsBareOf self.now skip bare) }
        ensures of_history { IfOk result
            (λ bare. IsGivenOf (start_of self.now) self.now.journal bare) }
        ensures consistent { IsConsistent C.contents C.is_under self.now }
    {
        let mut tasks = bare_tasks(alloc, &self.state.rows)?;
        if tasks.is_empty() {
            let shown = self.seen(alloc, self.count())?;
            return Ok(Bare::All { shown });
        }
        let number = usize::from(skip) % tasks.len();
        let task = tasks.swap_remove(number);
        Ok(Bare::One { task })
    }

    /// Puts a cache beside its bundle, where the task's row still has that bundle: the same number with the same stamp. It
    /// is `Stale` otherwise, and hands the cache back. It adds no entry. Conditions: the task is of this book's history,
    /// and the cache is for the task's bundle under the book's parameters.
    ///
    /// Where there is no memory the cache is dropped, and the book is as before.
    pub fn install(
        &mut self,
        alloc: Global,
        task: &Task,
        cache: C,
    ) -> Result<Install<C>, AllocError>
        requires of_history { IsJobOf (start_of self.old) self.old.journal (job_of task.now) }
        requires same_bins { C.contents cache ≡ (job_of task.now).bins }
        requires same_parameters { C.is_under cache (parameter_bytes self.old.parameters) }
        ensures put_in { OnOk result (self.new ≡ installed self.old (job_of task.now) cache) }
        ensures told { IfOk result (λ answer. answer
            ≡ install_answer self.old (job_of task.now) cache) }
        ensures kept { OnErr result (self.new ≡ self.old) }
    {
        self.state.install(alloc, task, cache)
    }

    // The bundles as they stand, for the entry at this place.
    fn seen(&self, alloc: Global, place: u64) -> Result<Snapshot<C>, AllocError>
        ensures shown { IfOk result (λ snapshot. snapshot
            ≡ record { place = place; rows = self.now.rows }) }
        ensures rows { length self.now.rows ≡ self.now.parameters.rows }
    {
        Snapshot::of(alloc, place, &self.state.rows)
    }

    // The place of the next entry, where the journal is not full.
    fn next_place(&self) -> Result<u64, Refusal>
        ensures place { IfOk result (λ place. place ≡ length self.now.journal) }
        ensures free { OnOk result (length self.now.journal < 2 ^ 20) }
        ensures full { IfErr result (λ refusal. (refusal ≡ cause_at (length self.now.journal))
            × (length self.now.journal ≡ 2 ^ 20)) }
    {
        let place = self.state.count();
        if place < ENTRIES {
            Ok(place)
        } else {
            Err(Refusal::JournalFull { entries: place })
        }
    }
}
