//! Worked steps of a book.
ghost use Rattle.std.specs.Prelude.{◌≡◌, ◌<◌, List, [], IfSome};
ghost use Rattle.psi_bundle.specs.declared.member.Member.{Member};
ghost use Rattle.sender_core.specs.Kept.{Job, RowSight, start_of, kept_row};
ghost use Rattle.sender_core.specs.Given.{IsJobOf, IsViewOf};
ghost use Rattle.sender_core.specs.Tries.{job_of};

use crate::{
    Answer, Bare, Book, DropAnswer, Install, Now, Put, Refusal, RepackAnswer, RowView, Sight, Task,
};
use item_slots::{Tag, tag_from};
use noise_ledger::{Params, check};
use psi_bundle::{Label, NoCache};
use std::alloc::Global;
use std::process::Abort;

// Five slot values and three numbers of a made-up tag, each below 256.
type Made = ([u8; 5], [u8; 3]);

const A: Made = ([1, 2, 3, 4, 5], [0, 0, 0]);

// It has the slot values of `A`.
const D: Made = ([1, 2, 3, 4, 5], [0, 0, 1]);

const B: Made = ([6, 7, 8, 9, 10], [0, 0, 0]);

const C: Made = ([11, 12, 13, 14, 15], [5, 5, 5]);

// The tag with these values and numbers.
fn made_up(made: Made) -> Tag {
    let ([a, b, c, d, e], [x, y, z]) = made;
    tag_from([
        0, a, 0, b, 0, c, 0, d, 0, e, 0, 0, 0, x, 0, 0, 0, y, 0, 0, 0, z,
    ])
}

// A book with one row and no label units.
fn open_book(alloc: Global, capacity: u16) -> Option<Book<NoCache>>
    ensures units { IfSome result (λ book. book.parameters.units ≡ 0) }
    ensures rows { IfSome result (λ book. book.parameters.rows ≡ 1) }
    ensures empty { IfSome result (λ book. kept_row book.rows 0 ≡ []) }
{
    let params = Params::of(1, capacity, 0);
    match check(&params) {
        Ok(_) => Book::open(alloc, &params).ok(),
        Err(_) => None,
    }
}

// Puts a tag with the empty label, and answers with the entry's place.
fn put(book: &mut Book<NoCache>, alloc: Global, tag: Tag) -> Result<(Put, u64), Refusal>
    requires { book.old.parameters.units ≡ 0 }
    ensures parameters { book.new.parameters ≡ book.old.parameters }
    ensures jobs { (t : Job) → IsJobOf (start_of book.old) book.old.journal t →
        IsJobOf (start_of book.new) book.new.journal t }
    ensures views { (v : RowSight (List (List Member))) →
        IsViewOf (start_of book.old) book.old.journal v →
        IsViewOf (start_of book.new) book.new.journal v }
{
    let Some(label) = Label::of(b"") else {
        return Err(Refusal::NoMemory);
    };
    match book.put(alloc, tag, label) {
        Ok(placed) => Ok((placed.answer, placed.place)),
        Err(refusal) => Err(refusal),
    }
}

// Drops a tag, and answers with the entry's place.
fn drop_tag(book: &mut Book<NoCache>, alloc: Global, tag: Tag) -> Result<(DropAnswer, u64), Refusal>
    ensures parameters { book.new.parameters ≡ book.old.parameters }
    ensures views { (v : RowSight (List (List Member))) →
        IsViewOf (start_of book.old) book.old.journal v →
        IsViewOf (start_of book.new) book.new.journal v }
{
    match book.drop_tag(alloc, tag) {
        Ok(placed) => Ok((placed.answer, placed.place)),
        Err(refusal) => Err(refusal),
    }
}

// The stamps of the row's bundles, and whether their bins hold the tag: the first three of them, as stamp and holds.
fn stands(book: &Book<NoCache>, bin: u16, tag: &Tag) -> [Option<(u64, bool)>; 3]
    requires row { 0 < book.now.parameters.rows }
    requires in_range { bin < 819 }
{
    let row = book.bundles(0);
    [0, 1, 2].map(|u: usize| {
        row.get(u)
            .map(|shown| (shown.stamp, shown.bundle.holds(bin, tag)))
    })
}

#[derive(Clone, Copy, Debug, PartialEq, Eq)]
enum Answered {
    Put(Put),
    Drop(DropAnswer),
}

// Puts a tag, or drops it, and answers with the entry's place.
fn call(book: &mut Book<NoCache>, alloc: Global, puts: bool, tag: Tag) -> Option<(Answered, u64)>
    requires { book.old.parameters.units ≡ 0 }
    ensures { book.new.parameters ≡ book.old.parameters }
{
    if puts {
        let (answer, place) = put(book, alloc, tag).ok()?;
        Some((Answered::Put(answer), place))
    } else {
        let (answer, place) = drop_tag(book, alloc, tag).ok()?;
        Some((Answered::Drop(answer), place))
    }
}

const ADDED: Answered = Answered::Put(Put::Added);

const REPLACED: Answered = Answered::Put(Put::Replaced);

const REMOVED: Answered = Answered::Drop(DropAnswer::Removed);

const ABSENT: Answered = Answered::Drop(DropAnswer::Absent);

// The tag of a call, what the call answers, and how the row's bundles stand then in some bin, by that tag.
type Row = (Made, Answered, u16, [Option<(u64, bool)>; 3]);

// Calls where a bin has one member.
const FULL_BINS: [Row; 5] = [
    (A, ADDED, 0, [Some((1, true)), None, None]),
    (B, ADDED, 0, [Some((1, false)), Some((2, true)), None]),
    (A, REMOVED, 0, [Some((3, false)), Some((2, false)), None]),
    (C, ADDED, 5, [Some((4, true)), Some((2, false)), None]),
    (A, ABSENT, 0, [Some((4, false)), Some((2, false)), None]),
];

// Calls where a bin has two members, no two of which share a slot value.
const SHARED_SLOTS: [Row; 4] = [
    (A, ADDED, 0, [Some((1, true)), None, None]),
    (D, ADDED, 0, [Some((2, false)), Some((2, true)), None]),
    (D, REPLACED, 1, [Some((3, true)), Some((3, false)), None]),
    (A, REPLACED, 0, [Some((4, true)), Some((3, false)), None]),
];

// Makes the calls of a table in a new book.
fn assert_run(rt: &impl Abort, alloc: Global, capacity: u16, rows: &[Row]) {
    let mut book = open_book(alloc, capacity).expect(rt, "opened");
    for (made, answer, bin, bundles) in rows {
        let tag = made_up(*made);
        let place = book.count();
        let puts = matches!(answer, Answered::Put(_));
        if let Answered::Put(told) = answer {
            assert_eq!(rt; book.would_put(&tag), *told);
        }
        assert_eq!(rt; call(&mut book, alloc, puts, tag), Some((*answer, place)));
        assert_eq!(rt; book.label(&tag).is_some(), puts);
        assert!(rt; *bin < 819);
        assert_eq!(rt; stands(&book, *bin, &tag), *bundles, "entry {place}");
    }
    assert_eq!(rt; book.count(), rows.len() as u64);
}

#[test]
fn calls_are_steps(rt: HostRuntime) {
    assert_run(&rt, rt.alloc(), 1, &FULL_BINS);
    assert_run(&rt, rt.alloc(), 2, &SHARED_SLOTS);
}

#[test]
fn a_set_is_full_at_its_planes(rt: HostRuntime) {
    let alloc = rt.alloc();
    let mut book = open_book(alloc, 1).expect(&rt, "opened");
    book.reserve(alloc, 66).ok().expect(&rt, "memory");
    for i in 0..64u8 {
        let answer = put(&mut book, alloc, made_up(([i; 5], [0; 3])));
        assert_eq!(rt; answer.ok(), Some((Put::Added, u64::from(i))));
    }
    let full = Put::Full {
        planes: 65,
        cells: 130,
    };
    assert_eq!(rt; book.would_put(&made_up(([64; 5], [0; 3]))), full);
    assert_eq!(rt; book.would_put(&made_up(([7; 5], [0; 3]))), Put::Replaced);
    assert_eq!(rt; book.count(), 64);
    assert_eq!(rt;
        put(&mut book, alloc, made_up(([64; 5], [0; 3]))).ok(),
        Some((full, 64))
    );
    let shown = book.ask(alloc).ok().expect(&rt, "memory");
    assert_eq!(rt; shown.answer.place(), 65);
    for (i, sight) in shown.answer.bundles(0).iter().enumerate() {
        match sight {
            Sight::Bare { stamp, .. } => assert_eq!(rt; *stamp, i as u64 + 1),
            Sight::Ready { .. } => assert!(rt; false),
        }
    }
    assert_eq!(rt; shown.answer.bundles(0).len(), 64);
    let last = book.entry(65).map(|entry| entry.answer);
    assert_eq!(rt; last, Some(Answer::Seen));
}

// A task of a bundle without a cache.
fn bare(book: &Book<NoCache>, alloc: Global, skip: u16) -> Option<Task>
    ensures { IfSome result (λ task. IsJobOf (start_of book.now) book.now.journal (job_of task)) }
{
    match book.fetch_bare(alloc, skip) {
        Ok(Bare::One { task }) => Some(task),
        _ => None,
    }
}

// What the receipt tells: the bundle's number and stamp, the number of entries, and what else stood there.
fn told(answer: &Install<NoCache>) -> (u16, u64, u64, Option<Now>) {
    let receipt = match answer {
        Install::Installed { receipt } => receipt,
        Install::Stale { receipt, .. } => receipt,
    };
    (
        receipt.index(),
        receipt.stamp(),
        receipt.at(),
        receipt.now(),
    )
}

// Brings a cache for a task, and tells the receipt.
fn bring(
    book: &mut Book<NoCache>,
    alloc: Global,
    task: &Task,
) -> Option<(u16, u64, u64, Option<Now>)>
    requires { IsJobOf (start_of book.old) book.old.journal (job_of task.now) }
{
    let cache = NoCache::of(task.bundle.clone().ok()?);
    let answer = book.install(alloc, task, cache).ok()?;
    Some(told(&answer))
}

// Packs a row anew whose view has no bundles.
fn repack_nothing(
    book: &mut Book<NoCache>,
    alloc: Global,
    view: &RowView<NoCache>,
) -> Result<(RepackAnswer, u64), Refusal>
    requires of_history { IsViewOf (start_of book.old) book.old.journal view.now }
    requires empty { view.now.bundles ≡ [] }
    ensures parameters { book.new.parameters ≡ book.old.parameters }
    ensures views { (v : RowSight (List (List Member))) →
        IsViewOf (start_of book.old) book.old.journal v →
        IsViewOf (start_of book.new) book.new.journal v }
{
    match book.repack(alloc, view, Vec::new(alloc)) {
        Ok(placed) => Ok((placed.answer, placed.place)),
        Err(refusal) => Err(refusal),
    }
}

// The view of the first row.
fn view_row(book: &Book<NoCache>, alloc: Global) -> Option<RowView<NoCache>>
    requires { 0 < book.now.parameters.rows }
    ensures of_history { IfSome result
        (λ view. IsViewOf (start_of book.now) book.now.journal view) }
    ensures bundles { IfSome result (λ view. view.bundles ≡ kept_row book.now.rows 0) }
{
    book.fetch_row(alloc, 0).ok()
}

#[test]
fn a_row_without_bundles_stays_so(rt: HostRuntime) {
    let alloc = rt.alloc();
    let mut book = open_book(alloc, 1).expect(&rt, "opened");
    let view = view_row(&book, alloc).expect(&rt, "memory");
    assert_eq!(rt; (view.row(), view.from(), view.bundles().len()), (0, 0, 0));
    let (before, after) = (0, 0);
    assert_eq!(rt;
        repack_nothing(&mut book, alloc, &view).ok(),
        Some((RepackAnswer::Done { before, after }, 0))
    );
    assert_eq!(rt;
        put(&mut book, alloc, made_up(A)).ok(),
        Some((Put::Added, 1))
    );
    assert_eq!(rt;
        repack_nothing(&mut book, alloc, &view).ok(),
        Some((RepackAnswer::Moved { stamp: 2 }, 2))
    );
}

// Drops a tag 4096 times, for which there is room, and answers whether it was absent each time.
fn drop_often(book: &mut Book<NoCache>, alloc: Global, tag: Tag) -> bool
    ensures parameters { book.new.parameters ≡ book.old.parameters }
    ensures views { (v : RowSight (List (List Member))) →
        IsViewOf (start_of book.old) book.old.journal v →
        IsViewOf (start_of book.new) book.new.journal v }
{
    let mut absent = book.reserve(alloc, 4096).is_ok();
    for _made in 0..4096u32 {
        absent &= matches!(drop_tag(book, alloc, tag), Ok((DropAnswer::Absent, _)));
    }
    absent
}

// Drops a tag 2^20 times, and answers whether it was absent each time.
fn drop_all_along(book: &mut Book<NoCache>, alloc: Global, tag: Tag) -> bool
    ensures parameters { book.new.parameters ≡ book.old.parameters }
    ensures views { (v : RowSight (List (List Member))) →
        IsViewOf (start_of book.old) book.old.journal v →
        IsViewOf (start_of book.new) book.new.journal v }
{
    let mut absent = true;
    for _made in 0..256u32 {
        absent &= drop_often(book, alloc, tag);
    }
    absent
}

#[test]
fn a_full_journal_refuses_each_call(rt: HostRuntime) {
    let alloc = rt.alloc();
    let mut book = open_book(alloc, 1).expect(&rt, "opened");
    let tag = made_up(A);
    let view = view_row(&book, alloc).expect(&rt, "memory");
    assert!(rt; drop_all_along(&mut book, alloc, tag));
    let full = Some(Refusal::JournalFull { entries: 1048576 });
    assert!(rt; repack_nothing(&mut book, alloc, &view).err() == full);
    assert!(rt; put(&mut book, alloc, tag).err() == full);
    assert!(rt; drop_tag(&mut book, alloc, tag).err() == full);
    assert!(rt; book.ask(alloc).err() == full);
    assert_eq!(rt; book.count(), 1048576);
}

#[test]
fn caches_come_back_for_bundles_that_stand(rt: HostRuntime) {
    let alloc = rt.alloc();
    let mut book = open_book(alloc, 1).expect(&rt, "opened");
    assert!(rt; put(&mut book, alloc, made_up(A)).is_ok());
    assert!(rt; put(&mut book, alloc, made_up(B)).is_ok());
    let first = bare(&book, alloc, 2).expect(&rt, "a task");
    assert_eq!(rt; (first.row, first.index, first.stamp), (0, 0, 1));
    assert!(rt; put(&mut book, alloc, made_up(C)).is_ok());
    let now = Some(Now::Stamp { stamp: 3 });
    assert_eq!(rt; bring(&mut book, alloc, &first), Some((0, 1, 3, now)));
    for (skip, index, stamp) in [(1, 1, 2), (1, 0, 3)] {
        let task = bare(&book, alloc, skip).expect(&rt, "a task");
        assert_eq!(rt; (task.index, task.stamp), (index, stamp));
        assert_eq!(rt;
            bring(&mut book, alloc, &task),
            Some((index, stamp, 3, None))
        );
    }
    crate::interleaved_with::<NoCache>();
    match book.fetch_bare(alloc, 7) {
        Ok(Bare::All { shown }) => assert_eq!(rt; shown.place(), 3),
        _ => assert!(rt; false),
    }
}
