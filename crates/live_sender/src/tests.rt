//! Senders with threads and seats, and the worked steps of a book by its shared calls.
ghost use Rattle.std.specs.Prelude.{◌≡◌, ◌<◌, ◌≤◌, IfSome, Some};
ghost use Rattle.psi_turnstile.specs.Counting.{IsPrefix};
ghost use Rattle.sender_core.specs.Given.{IsJobOf, IsViewOf};
ghost use Rattle.sender_core.specs.Tries.{job_of};
ghost use Rattle.live_sender.specs.declared.origin.Origin.{Origin};
ghost use Rattle.live_sender.specs.Histories.{first_version};

use crate::{Seat, Sender};
use item_slots::{Tag, tag_from};
use noise_ledger::{Params, check};
use psi_bundle::{Label, NoCache};
use psi_packer::pack_row;
use sender_core::{Bare, Book, DropAnswer, Install, Now, Put, RepackAnswer, RowView, Task};
use std::alloc::Global;
use std::sync::Wait;
use std::test::Fail;
use std::thread;
use std::thread::Threads;

// A made-up tag: five slot values and three numbers, each below 256.
fn made_up(slots: [u8; 5], places: [u8; 3]) -> Tag {
    let [a, b, c, d, e] = slots;
    let [x, y, z] = places;
    tag_from([
        0, a, 0, b, 0, c, 0, d, 0, e, 0, 0, 0, x, 0, 0, 0, y, 0, 0, 0, z,
    ])
}

// A sender of an empty book with one row and no label units.
fn open(alloc: Global, capacity: u16) -> Option<(Sender<NoCache>, Seat<NoCache>)>
    ensures here { IfSome result (λ t. t.1.turnstile ≡ t.0) }
    ensures whole { IfSome result (λ t. t.1.knows.share ≡ 4294967296) }
    ensures small { IfSome result
        (λ t. (z : Origin) → t.1.knows.base ≡ Some z → (z.parameters.rows ≡ 1)
        × (z.parameters.capacity ≡ capacity) × (z.parameters.units ≡ 0)) }
{
    let params = Params::of(1, capacity, 0);
    check(&params).ok()?;
    let book = Book::open(alloc, &params).ok()?;
    Sender::open(alloc, book).ok()
}

// Puts a tag with the empty label, and answers with the entry's place.
fn put<R: Threads + Wait + Sync>(
    rt: &R,
    alloc: Global,
    sender: &Sender<NoCache>,
    seat: &mut Seat<NoCache>,
    tag: Tag,
) -> Option<(Put, u64)>
    requires here { seat.old.turnstile ≡ sender.now }
    requires units { (z : Origin) → seat.old.knows.base ≡ Some z → z.parameters.units ≡ 0 }
    ensures here { seat.new.turnstile ≡ seat.old.turnstile }
    ensures base { seat.new.knows.base ≡ seat.old.knows.base }
    ensures share { seat.new.knows.share ≡ seat.old.knows.share }
    ensures seen { IsPrefix seat.old.knows.seen seat.new.knows.seen }
{
    let label = Label::of(b"")?;
    match sender.put(rt, alloc, seat, tag, label) {
        Ok(placed) => Some((placed.answer, placed.place)),
        Err(_) => None,
    }
}

// The view of the first row.
fn view_row<R: Threads + Wait + Sync>(
    rt: &R,
    alloc: Global,
    sender: &Sender<NoCache>,
    seat: &mut Seat<NoCache>,
) -> Option<RowView<NoCache>>
    requires here { seat.old.turnstile ≡ sender.now }
    requires rows { (z : Origin) → seat.old.knows.base ≡ Some z → 0 < z.parameters.rows }
    ensures here { seat.new.turnstile ≡ seat.old.turnstile }
    ensures base { seat.new.knows.base ≡ seat.old.knows.base }
    ensures share { seat.new.knows.share ≡ seat.old.knows.share }
    ensures seen { IsPrefix seat.old.knows.seen seat.new.knows.seen }
    ensures viewed { (z : Origin) → seat.old.knows.base ≡ Some z →
        IfSome result (λ view. IsViewOf (first_version z) seat.new.knows.seen view) }
{
    match sender.fetch_row(rt, alloc, seat, 0) {
        Ok(view) => Some(view),
        Err(_) => None,
    }
}

// Packs a viewed row for the capacity 1, and brings it back.
fn commit<R: Threads + Wait + Sync>(
    rt: &R,
    alloc: Global,
    sender: &Sender<NoCache>,
    seat: &mut Seat<NoCache>,
    view: &RowView<NoCache>,
) -> Option<(RepackAnswer, u64)>
    requires here { seat.old.turnstile ≡ sender.now }
    requires capacity { (z : Origin) → seat.old.knows.base ≡ Some z → z.parameters.capacity ≡ 1 }
    requires of_history { (z : Origin) → seat.old.knows.base ≡ Some z →
        IsViewOf (first_version z) seat.old.knows.seen view.now }
    ensures here { seat.new.turnstile ≡ seat.old.turnstile }
    ensures base { seat.new.knows.base ≡ seat.old.knows.base }
    ensures share { seat.new.knows.share ≡ seat.old.knows.share }
    ensures seen { IsPrefix seat.old.knows.seen seat.new.knows.seen }
{
    let packed = pack_row(alloc, view.bundles(), 1).ok()?;
    match sender.repack(rt, alloc, seat, view, packed) {
        Ok(placed) => Some((placed.answer, placed.place)),
        Err(_) => None,
    }
}

// A task of a bundle without a cache.
fn bare<R: Threads + Wait + Sync>(
    rt: &R,
    alloc: Global,
    sender: &Sender<NoCache>,
    seat: &mut Seat<NoCache>,
    skip: u16,
) -> Option<Task>
    requires here { seat.old.turnstile ≡ sender.now }
    ensures here { seat.new.turnstile ≡ seat.old.turnstile }
    ensures base { seat.new.knows.base ≡ seat.old.knows.base }
    ensures share { seat.new.knows.share ≡ seat.old.knows.share }
    ensures seen { IsPrefix seat.old.knows.seen seat.new.knows.seen }
    ensures given { (z : Origin) → seat.old.knows.base ≡ Some z →
        IfSome result (λ task. IsJobOf (first_version z) seat.new.knows.seen (job_of task)) }
{
    match sender.fetch_bare(rt, alloc, seat, skip) {
        Ok(Bare::One { task }) => Some(task),
        _ => None,
    }
}

// What the receipt tells: the bundle's number and stamp, the number of entries, and what else stood there.
fn told(answer: &Install<NoCache>) -> (u16, u64, u64, Option<Now>) {
    let receipt = match answer {
        Install::Installed { receipt } => receipt,
        Install::Stale { receipt, .. } => receipt,
    };
    (
        receipt.index(),
        receipt.stamp(),
        receipt.at(),
        receipt.now(),
    )
}

// Brings a cache for a task, and tells the receipt.
fn bring<R: Threads + Wait + Sync>(
    rt: &R,
    alloc: Global,
    sender: &Sender<NoCache>,
    seat: &mut Seat<NoCache>,
    task: &Task,
) -> Option<(u16, u64, u64, Option<Now>)>
    requires here { seat.old.turnstile ≡ sender.now }
    requires of_history { (z : Origin) → seat.old.knows.base ≡ Some z →
        IsJobOf (first_version z) seat.old.knows.seen (job_of task.now) }
    ensures here { seat.new.turnstile ≡ seat.old.turnstile }
    ensures base { seat.new.knows.base ≡ seat.old.knows.base }
    ensures share { seat.new.knows.share ≡ seat.old.knows.share }
    ensures seen { IsPrefix seat.old.knows.seen seat.new.knows.seen }
{
    let cache = NoCache::of(task.bundle.clone().ok()?);
    match sender.install(rt, alloc, seat, task, cache) {
        Ok(answer) => Some(told(&answer)),
        Err(_) => None,
    }
}

// Puts a hundred tags, each in a bin of its own, and answers with the place of each.
fn put_often<R: Threads + Wait + Sync>(
    rt: &R,
    alloc: Global,
    sender: &Sender<NoCache>,
    mut seat: Seat<NoCache>,
    first: u8,
) -> (Seat<NoCache>, [u64; 100])
    requires here { seat.turnstile ≡ sender.now }
    requires units { (z : Origin) → seat.knows.base ≡ Some z → z.parameters.units ≡ 0 }
    requires few { first ≤ 100 }
    ensures { result.0.turnstile ≡ sender.now }
{
    let mut places = [u64::MAX; 100];
    for turn in 0..100u8 {
        let number = first + turn;
        let tag = made_up([number; 5], [number; 3]);
        if let Some((Put::Added, place)) = put(rt, alloc, sender, &mut seat, tag) {
            places[usize::from(turn)] = place;
        }
    }
    (seat, places)
}

#[test]
fn two_threads_put_each_tag_once(rt: HostRuntime) -> Result<(), Fail> {
    let alloc = rt.alloc();
    let (sender, mut first) = open(alloc, 16).expect(&rt, "memory");
    let second = sender.split(&mut first);
    let (handle, shared) = (&rt, &sender);
    let (one, other) = thread::join(
        handle,
        move || put_often(handle, alloc, shared, first, 0),
        move || put_often(handle, alloc, shared, second, 100),
    );
    let (mut first, left) = one;
    let (second, right) = other;
    sender.join(&mut first, second);
    assert_eq!(rt; first.share(), 4294967296);
    let book = sender.close(first);
    let mut places = left.as_slice().to_vec(alloc)?;
    places.extend_from_slice(&right)?;
    places.sort()?;
    assert_eq!(rt; (book.count(), places.len()), (200, 200));
    for (place, got) in places.iter().enumerate() {
        assert_eq!(rt; *got, place as u64);
    }
    Ok(())
}

#[test]
fn a_seat_sees_what_another_put(rt: HostRuntime) {
    let alloc = rt.alloc();
    let (sender, mut first) = open(alloc, 1).expect(&rt, "memory");
    let mut second = sender.split(&mut first);
    let tag = made_up([1, 2, 3, 4, 5], [0, 0, 0]);
    let answer = put(&rt, alloc, &sender, &mut second, tag);
    assert_eq!(rt; answer, Some((Put::Added, 0)));
    let note = sender.split(&mut second);
    assert_eq!(rt; sender.meet(&mut first, note), 1);
    sender.join(&mut first, second);
    assert_eq!(rt; first.share(), 4294967296);
    assert_eq!(rt; sender.close(first).count(), 1);
}

#[test]
fn a_row_is_packed_where_it_did_not_change(rt: HostRuntime) {
    let alloc = rt.alloc();
    let (sender, mut seat) = open(alloc, 1).expect(&rt, "memory");
    let a = made_up([1, 2, 3, 4, 5], [0, 0, 0]);
    let b = made_up([6, 7, 8, 9, 10], [0, 0, 0]);
    let c = made_up([11, 12, 13, 14, 15], [5, 5, 5]);
    let put_a = put(&rt, alloc, &sender, &mut seat, a);
    assert_eq!(rt; put_a, Some((Put::Added, 0)));
    let put_b = put(&rt, alloc, &sender, &mut seat, b);
    assert_eq!(rt; put_b, Some((Put::Added, 1)));
    let dropped = sender.drop_tag(&rt, alloc, &mut seat, a);
    let dropped = dropped.ok().expect(&rt, "memory");
    assert_eq!(rt; (dropped.answer, dropped.place), (DropAnswer::Removed, 2));
    let view = view_row(&rt, alloc, &sender, &mut seat).expect(&rt, "memory");
    assert_eq!(rt; view.from(), 3);
    let put_c = put(&rt, alloc, &sender, &mut seat, c);
    assert_eq!(rt; put_c, Some((Put::Added, 3)));
    let moved = commit(&rt, alloc, &sender, &mut seat, &view);
    assert_eq!(rt; moved, Some((RepackAnswer::Moved { stamp: 4 }, 4)));
    let again = view_row(&rt, alloc, &sender, &mut seat).expect(&rt, "memory");
    assert_eq!(rt; again.from(), 5);
    let done = commit(&rt, alloc, &sender, &mut seat, &again);
    let (before, after) = (2, 1);
    assert_eq!(rt; done, Some((RepackAnswer::Done { before, after }, 5)));
}

#[test]
fn a_view_is_good_once(rt: HostRuntime) {
    let alloc = rt.alloc();
    let (sender, mut seat) = open(alloc, 1).expect(&rt, "memory");
    let room = sender.reserve(&rt, alloc, &mut seat, 4);
    assert!(rt; room.is_ok());
    let tag = made_up([1, 2, 3, 4, 5], [0, 0, 0]);
    let answer = put(&rt, alloc, &sender, &mut seat, tag);
    assert_eq!(rt; answer, Some((Put::Added, 0)));
    let view = view_row(&rt, alloc, &sender, &mut seat).expect(&rt, "memory");
    let done = commit(&rt, alloc, &sender, &mut seat, &view);
    let (before, after) = (1, 1);
    assert_eq!(rt; done, Some((RepackAnswer::Done { before, after }, 1)));
    let moved = commit(&rt, alloc, &sender, &mut seat, &view);
    assert_eq!(rt; moved, Some((RepackAnswer::Moved { stamp: 2 }, 2)));
    let asked = sender.ask(&rt, alloc, &mut seat);
    let shown = asked.ok().expect(&rt, "memory");
    assert_eq!(rt; (shown.place, shown.answer.place()), (3, 3));
}

#[test]
fn caches_come_back_for_bundles_that_stand(rt: HostRuntime) {
    let alloc = rt.alloc();
    let (sender, mut seat) = open(alloc, 1).expect(&rt, "memory");
    let a = made_up([1, 2, 3, 4, 5], [0, 0, 0]);
    let b = made_up([6, 7, 8, 9, 10], [0, 0, 0]);
    let c = made_up([11, 12, 13, 14, 15], [5, 5, 5]);
    let put_a = put(&rt, alloc, &sender, &mut seat, a);
    let put_b = put(&rt, alloc, &sender, &mut seat, b);
    assert_eq!(rt;
        (put_a, put_b),
        (Some((Put::Added, 0)), Some((Put::Added, 1)))
    );
    let first = bare(&rt, alloc, &sender, &mut seat, 2).expect(&rt, "a task");
    let second = bare(&rt, alloc, &sender, &mut seat, 1).expect(&rt, "a task");
    assert_eq!(rt; (first.index, first.stamp), (0, 1));
    assert_eq!(rt; (second.index, second.stamp), (1, 2));
    let put_c = put(&rt, alloc, &sender, &mut seat, c);
    assert_eq!(rt; put_c, Some((Put::Added, 2)));
    let now = Some(Now::Stamp { stamp: 3 });
    let stale = bring(&rt, alloc, &sender, &mut seat, &first);
    assert_eq!(rt; stale, Some((0, 1, 3, now)));
    let dropped = sender.drop_tag(&rt, alloc, &mut seat, a);
    assert!(rt; dropped.is_ok());
    let view = view_row(&rt, alloc, &sender, &mut seat).expect(&rt, "memory");
    let done = commit(&rt, alloc, &sender, &mut seat, &view);
    let (before, after) = (2, 1);
    assert_eq!(rt; done, Some((RepackAnswer::Done { before, after }, 4)));
    let now = Some(Now::Gone { len: 1 });
    let gone = bring(&rt, alloc, &sender, &mut seat, &second);
    assert_eq!(rt; gone, Some((1, 2, 5, now)));
    let last = bare(&rt, alloc, &sender, &mut seat, 7).expect(&rt, "a task");
    let stands = bring(&rt, alloc, &sender, &mut seat, &last);
    assert_eq!(rt; stands, Some((0, 5, 5, None)));
    match sender.fetch_bare(&rt, alloc, &mut seat, 0) {
        Ok(Bare::All { shown }) => assert_eq!(rt; shown.place(), 5),
        _ => assert!(rt; false),
    }
}
