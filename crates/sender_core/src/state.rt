//! What a book consists of, the ways in which an entry changes it, and caches that come back.
ghost use Rattle.std.specs.Prelude.{◌≡◌, ℕ, ◌-◌, ◌≤◌, ◌<◌, List, [], ◌∷◌, ◌++◌, true, false, length, min, IfOk, OnOk, OnErr, IsNone, replicate, is_some, slice_set};
ghost use Rattle.sender_core.specs.Shown.{kept_of_rows};

use crate::answers::{DropAnswer, ENTRIES, Put, RepackAnswer};
use crate::install::Install;
use crate::receipt::{Now, Receipt};
use crate::rows::{
    Change, Edit, bundles, change_member, grown, newest, place_member, put_cache, stamped,
};
use crate::task::Task;
use crate::undo::{Undo, roll_back};
use item_slots::{Tag, positions};
use noise_ledger::Params;
use psi_bundle::{Answer, Bundle, Call, Entry, Label, Member, Shown};
use std::alloc::{AllocError, Global};
use std::collections::BTreeMap;
use std::sync::Arc;

// The most planes and cells of a set.
const PLANES: u32 = 64;

const CELLS: u32 = 4096;

/// The parameters, the rows of bundles that the journal starts from, the labels by tag, the rows of bundles and the journal.
#[derive(Drop)]
pub(crate) struct State<C> {
    pub(crate) params: Params,
    pub(crate) first_rows: Vec<Vec<Shown<C>>>,
    pub(crate) labels: BTreeMap<Tag, Label>,
    pub(crate) rows: Vec<Vec<Shown<C>>>,
    pub(crate) journal: Vec<Entry>,
}

// So many rows without bundles.
fn empty_rows<C: Drop>(alloc: Global, rows: u8) -> Result<Vec<Vec<Shown<C>>>, AllocError>
    ensures { IfOk result (λ empty. kept_of_rows empty.items ≡ replicate rows []) }
{
    let mut empty = Vec::with_capacity(alloc, usize::from(rows))?;
    for _made in 0..usize::from(rows) {
        empty.push(Vec::new(alloc))?;
    }
    Ok(empty)
}

impl<C: Drop> State<C> {
    ghost use Rattle.std.specs.FinMap as fin;
    ghost use Rattle.psi_bundle.specs.Steps.{step};
    ghost use Rattle.psi_bundle.specs.declared.history.Call.TheVariants as Call;
    ghost use Rattle.noise_ledger.specs.Verdicts.{parameters_of};
    ghost use Rattle.psi_bundle.specs.Histories.{most_entries};
    ghost use Rattle.sender_core.specs.Kept.{version_of, empty_contents, kept_row, IsAsBefore, IsStep, CanStep};
    ghost use Rattle.sender_core.specs.Given.{IsPackedFor};
    ghost use Rattle.sender_core.specs.Tries.{job_of, now_at};
    ghost use Rattle.sender_core.specs.Installs.{installed, install_answer};
    ghost use Rattle.sender_core.specs.States.{contents_of, GainsEntry};
    ghost use Rattle.sender_core.specs.Shown.{kept_of_row, kept_of_rows};
    ghost use Rattle.sender_core.specs.UndoLogs.{rolled_back, CanRollBack};
    ghost use Rattle.psi_bundle.specs.declared.history.Answer.TheVariants.{Removed, Seen};
    ghost use Rattle.sender_core.specs.Answers.{answer_of_put, answer_of_drop, answer_of_repack, LeavesBare};

    /// No labels, no bundles, no entries.
    pub(crate) fn empty(alloc: Global, params: &Params) -> Result<State<C>, AllocError>
        ensures { IfOk result (λ state. contents_of state
            ≡ empty_contents (parameters_of params.now)) }
    {
        Ok(State {
            params: *params,
            first_rows: empty_rows(alloc, params.rows)?,
            labels: BTreeMap::new(alloc),
            rows: empty_rows(alloc, params.rows)?,
            journal: Vec::new(alloc),
        })
    }

    /// The number of entries.
    pub(crate) fn count(&self) -> u64
        ensures { result ≡ length (contents_of self.now).journal }
    {
        self.journal.len() as u64
    }

    /// Takes room for so many entries more, or for all up to the most that a journal has.
    pub(crate) fn reserve(&mut self, entries: u32) -> Result<(), AllocError>
        requires { length (contents_of self.old).journal ≤ most_entries }
        ensures room { OnOk result (min entries
            (most_entries - length (contents_of self.old).journal) ≤ (contents_of self.new).room) }
        ensures kept { IsAsBefore (contents_of self.old) (contents_of self.new) }
        ensures refused { OnErr result (contents_of self.new ≡ contents_of self.old) }
    {
        let free = ENTRIES - self.count();
        self.journal.reserve(free.min(u64::from(entries)) as usize)
    }

    /// Puts a tag with its label.
    pub(crate) fn put(&mut self, alloc: Global, tag: Tag, label: Label) -> Result<Put, AllocError>
        requires { CanStep (contents_of self.old) }
        ensures stepped { IfOk result
            (λ put. IsStep (contents_of self.old) (contents_of self.new) (Call.Put tag label)
            (answer_of_put put)) }
        ensures kept { OnErr result (IsAsBefore (contents_of self.old) (contents_of self.new)) }
    {
        if self.labels.contains_key(&tag) {
            self.replace(alloc, tag, label)
        } else {
            self.add(alloc, tag, label)
        }
    }

    /// What a Put of this tag would answer.
    pub(crate) fn would_put(&self, tag: &Tag) -> Put
        requires { CanStep (contents_of self.now) }
        ensures { (label : List ℕ) → answer_of_put result
            ≡ (step (version_of (contents_of self.now)) (Call.Put tag.now label)).answer }
    {
        if self.labels.contains_key(tag) {
            return Put::Replaced;
        }
        let places = positions(tag, self.params.rows);
        let more = grown(&self.rows, places.list(), tag, self.params.capacity);
        let planes = (bundles(&self.rows) + more) * (1 + u32::from(self.params.units));
        let cells = planes * (u32::from(self.params.capacity) + 1);
        if planes <= PLANES && cells <= CELLS {
            Put::Added
        } else {
            Put::Full { planes, cells }
        }
    }

    // Gives a tag of the map another label.
    fn replace(&mut self, alloc: Global, tag: Tag, label: Label) -> Result<Put, AllocError>
        requires ready { CanStep (contents_of self.old) }
        requires present { is_some (fin.get (version_of (contents_of self.old)).labels tag) ≡ true }
        ensures stepped { IfOk result
            (λ put. IsStep (contents_of self.old) (contents_of self.new) (Call.Put tag label)
            (answer_of_put put)) }
        ensures kept { OnErr result (IsAsBefore (contents_of self.old) (contents_of self.new)) }
    {
        self.journal.reserve(1)?;
        let places = positions(&tag, self.params.rows);
        let edit = Edit {
            stamp: self.count() + 1,
            tag,
            change: Change::Relabel { label },
        };
        let log = change_member(alloc, &mut self.rows, places.list(), &edit)?;
        self.enter(tag, label, log, Answer::Replaced)?;
        Ok(Put::Replaced)
    }

    // Adds a tag that is not in the map, where the limits allow it.
    fn add(&mut self, alloc: Global, tag: Tag, label: Label) -> Result<Put, AllocError>
        requires ready { CanStep (contents_of self.old) }
        requires absent { is_some (fin.get (version_of (contents_of self.old)).labels tag) ≡ false }
        ensures stepped { IfOk result
            (λ put. IsStep (contents_of self.old) (contents_of self.new) (Call.Put tag label)
            (answer_of_put put)) }
        ensures kept { OnErr result (IsAsBefore (contents_of self.old) (contents_of self.new)) }
    {
        self.journal.reserve(1)?;
        let stamp = self.count() + 1;
        let places = positions(&tag, self.params.rows);
        let log = place_member(
            alloc,
            &mut self.rows,
            stamp,
            places.list(),
            &Member { tag, label },
            self.params.capacity,
        )?;
        let planes = bundles(&self.rows) * (1 + u32::from(self.params.units));
        let cells = planes * (u32::from(self.params.capacity) + 1);
        if planes <= PLANES && cells <= CELLS {
            self.enter(tag, label, log, Answer::Added)?;
            Ok(Put::Added)
        } else {
            roll_back(&mut self.rows, log);
            self.write(Call::Put { tag, label }, Answer::Full { planes, cells });
            Ok(Put::Full { planes, cells })
        }
    }

    /// Takes a tag out.
    pub(crate) fn drop_tag(&mut self, alloc: Global, tag: Tag) -> Result<DropAnswer, AllocError>
        requires { CanStep (contents_of self.old) }
        ensures stepped { IfOk result
            (λ dropped. IsStep (contents_of self.old) (contents_of self.new) (Call.Drop tag)
            (answer_of_drop dropped)) }
        ensures kept { OnErr result (IsAsBefore (contents_of self.old) (contents_of self.new)) }
    {
        if self.labels.contains_key(&tag) {
            self.remove(alloc, tag)?;
            Ok(DropAnswer::Removed)
        } else {
            self.note(Call::Drop { tag }, Answer::Absent)?;
            Ok(DropAnswer::Absent)
        }
    }

    /// Adds the entry of a query, which changes nothing else.
    pub(crate) fn ask(&mut self) -> Result<(), AllocError>
        ensures stepped { OnOk result
            (IsStep (contents_of self.old) (contents_of self.new) Call.Ask Seen) }
        ensures kept { OnErr result (IsAsBefore (contents_of self.old) (contents_of self.new)) }
    {
        self.note(Call::Ask, Answer::Seen)
    }

    // Takes a tag of the map out of it, and out of the bundles.
    fn remove(&mut self, alloc: Global, tag: Tag) -> Result<(), AllocError>
        requires ready { CanStep (contents_of self.old) }
        requires present { is_some (fin.get (version_of (contents_of self.old)).labels tag) ≡ true }
        ensures stepped { OnOk result
            (IsStep (contents_of self.old) (contents_of self.new) (Call.Drop tag) Removed) }
        ensures kept { OnErr result (IsAsBefore (contents_of self.old) (contents_of self.new)) }
    {
        self.journal.reserve(1)?;
        let places = positions(&tag, self.params.rows);
        let edit = Edit {
            stamp: self.count() + 1,
            tag,
            change: Change::Remove,
        };
        let _log = change_member(alloc, &mut self.rows, places.list(), &edit)?;
        self.labels.remove(&tag);
        self.write(Call::Drop { tag }, Answer::Removed);
        Ok(())
    }

    // Adds the entry of a call that changes nothing.
    fn note(&mut self, call: Call, answer: Answer) -> Result<(), AllocError>
        ensures noted { OnOk result (GainsEntry (contents_of self.old) (contents_of self.new)
            (version_of (contents_of self.old)).labels (contents_of self.old).rows
            (record { call = call; answer = answer })) }
        ensures kept { OnErr result (IsAsBefore (contents_of self.old) (contents_of self.new)) }
    {
        self.journal.push(Entry { call, answer })?;
        Ok(())
    }

    // Adds an entry, for which there is room.
    fn write(&mut self, call: Call, answer: Answer)
        requires { 1 ≤ (contents_of self.old).room }
        ensures { GainsEntry (contents_of self.old) (contents_of self.new)
            (version_of (contents_of self.old)).labels (contents_of self.old).rows
            (record { call = call; answer = answer }) }
    {
        self.journal.push_reserved(Entry { call, answer });
    }

    // Adds the entry of a Put, for which there is room, with the tag's label in the map. The rows are changed already; where
    // there is no memory the log undoes that.
    fn enter(
        &mut self,
        tag: Tag,
        label: Label,
        log: Vec<Undo<C>>,
        answer: Answer,
    ) -> Result<(), AllocError>
        requires room { 1 ≤ (contents_of self.old).room }
        requires can { CanRollBack log.items (contents_of self.old).rows }
        ensures entered { OnOk result
            (GainsEntry (contents_of self.old) (contents_of self.new)
            (fin.insert (version_of (contents_of self.old)).labels tag label)
            (contents_of self.old).rows (record { call = Call.Put tag label; answer = answer })) }
        ensures undone { OnErr result
            (contents_of self.new ≡ record
            (contents_of self.old) { rows = rolled_back log.items (contents_of self.old).rows }) }
    {
        if let Err(refused) = self.labels.insert(tag, label) {
            roll_back(&mut self.rows, log);
            return Err(refused.into());
        }
        self.write(Call::Put { tag, label }, answer);
        Ok(())
    }

    /// Packs a row anew, unless it has a stamp above `from` or no bundles.
    pub(crate) fn repack(
        &mut self,
        alloc: Global,
        row: u8,
        from: u64,
        packed: Vec<Bundle>,
    ) -> Result<RepackAnswer, AllocError>
        requires ready { CanStep (contents_of self.old) }
        requires in_range { row < (contents_of self.old).parameters.rows }
        requires packed { IsPackedFor (contents_of self.old) row from packed.items }
        ensures stepped { IfOk result
            (λ answer. IsStep (contents_of self.old) (contents_of self.new)
            (Call.Repack row from) (answer_of_repack answer)) }
        ensures bare { IfOk result (λ answer.
            LeavesBare answer (kept_row (contents_of self.new).rows row)) }
        ensures kept { OnErr result (IsAsBefore (contents_of self.old) (contents_of self.new)) }
    {
        let stamp = newest(&self.rows[row as usize]);
        let before = self.rows[row as usize].len() as u16;
        if stamp > from {
            self.note(Call::Repack { row, from }, Answer::Moved { stamp })?;
            return Ok(RepackAnswer::Moved { stamp });
        }
        if before == 0 {
            let (before, after) = (0, 0);
            self.note(Call::Repack { row, from }, Answer::Done { before, after })?;
            return Ok(RepackAnswer::Done { before, after });
        }
        let after = packed.len() as u16;
        let bundles = stamped(alloc, self.count() + 1, packed)?;
        self.put_in(row, from, bundles, Answer::Done { before, after })?;
        Ok(RepackAnswer::Done { before, after })
    }

    // Adds the entry of a Repack, with other bundles in its row.
    fn put_in(
        &mut self,
        row: u8,
        from: u64,
        bundles: Vec<Shown<C>>,
        answer: Answer,
    ) -> Result<(), AllocError>
        requires { row < length (contents_of self.old).rows }
        ensures entered { OnOk result
            (GainsEntry (contents_of self.old) (contents_of self.new)
            (version_of (contents_of self.old)).labels
            (slice_set (contents_of self.old).rows row (kept_of_row bundles.items))
            (record { call = Call.Repack row from; answer = answer })) }
        ensures kept { OnErr result (IsAsBefore (contents_of self.old) (contents_of self.new)) }
    {
        self.journal.reserve(1)?;
        self.rows[row as usize] = bundles;
        self.journal.push_reserved(Entry {
            call: Call::Repack { row, from },
            answer,
        });
        Ok(())
    }

    // What a row has in place of a task's bundle.
    fn now_at(&self, task: &Task) -> Option<Now>
        requires ready { CanStep (contents_of self.now) }
        requires in_range { task.now.row < (contents_of self.now).parameters.rows }
        ensures now { result ≡ now_at (contents_of self.now).rows (job_of task.now) }
        ensures there { IsNone result →
            task.now.index < length (kept_row (contents_of self.now).rows task.now.row) }
    {
        let row = &self.rows[task.row as usize];
        match row.get(task.index as usize) {
            None => Some(Now::Gone {
                len: row.len() as u16,
            }),
            Some(shown) => {
                if shown.stamp == task.stamp {
                    None
                } else {
                    Some(Now::Stamp { stamp: shown.stamp })
                }
            }
        }
    }

    /// Puts a cache beside a task's bundle, unless something else stands there by now.
    pub(crate) fn install(
        &mut self,
        alloc: Global,
        task: &Task,
        cache: C,
    ) -> Result<Install<C>, AllocError>
        requires ready { CanStep (contents_of self.old) }
        requires in_range { task.now.row < (contents_of self.old).parameters.rows }
        ensures put_in { OnOk result (contents_of self.new
            ≡ installed (contents_of self.old) (job_of task.now) cache) }
        ensures told { IfOk result (λ answer. answer
            ≡ install_answer (contents_of self.old) (job_of task.now) cache) }
        ensures kept { OnErr result (contents_of self.new ≡ contents_of self.old) }
    {
        let now = self.now_at(task);
        let receipt = Receipt::of(task, self.count(), now);
        match now {
            None => {
                let cache = Arc::new(alloc, cache)?;
                put_cache(
                    &mut self.rows[task.row as usize],
                    task.index as usize,
                    cache,
                );
                Ok(Install::Installed { receipt })
            }
            Some(_) => Ok(Install::Stale { receipt, cache }),
        }
    }
}
