//! Builders on a set of one row, with bins of one member and no labels.
ghost use Rattle.std.specs.Prelude.{◌≡◌, IfSome, Some};
ghost use Rattle.std.specs.List.{All};
ghost use Rattle.noise_ledger.specs.Verdicts.{ArePassed, parameters_of};
ghost use Rattle.bundle_cache.specs.Caches.{IsBundleBlock};
ghost use Rattle.live_sender.specs.declared.origin.Origin.{Origin};

use crate::{Built, build_some};
use bundle_cache::Cache;
use item_slots::{Tag, tag_from};
use live_sender::{Seat, Sender};
use noise_ledger::{Params, check};
use psi_bundle::Label;
use psi_outside::{Gate, Held, Hold, Open, Point};
use row_block::Shelf;
use sender_core::{Book, Now, Put};
use std::alloc::Global;
use std::sync::Wait;
use std::test::Fail;
use std::thread;
use std::thread::Threads;

// A tag with one slot value in each part, and its positions.
fn made_up(slot: u8, position: u8) -> Tag {
    let (s, p) = (slot, position);
    tag_from([
        0, s, 0, s, 0, s, 0, s, 0, s, 0, 0, 0, p, 0, 0, 0, p, 0, 0, 0, p,
    ])
}

// A sender of an empty set.
fn open(alloc: Global, params: &Params) -> Option<(Sender<Cache>, Seat<Cache>)>
    requires { ArePassed (parameters_of params.now) }
    ensures here { IfSome result (λ t. t.1.turnstile ≡ t.0) }
    ensures whole { IfSome result (λ t. t.1.knows.share ≡ 4294967296) }
    ensures under { IfSome result
        (λ t. (z : Origin) → t.1.knows.base ≡ Some z → z.parameters ≡ parameters_of params.now) }
{
    let book = Book::open(alloc, params).ok()?;
    Sender::open(alloc, book).ok()
}

// Puts a tag with the empty label, and answers with the entry's place.
fn put<R: Threads + Wait + Sync>(
    rt: &R,
    alloc: Global,
    sender: &Sender<Cache>,
    seat: &mut Seat<Cache>,
    tag: Tag,
) -> Option<(Put, u64)>
    requires here { seat.old.turnstile ≡ sender.now }
    requires units { (z : Origin) → seat.old.knows.base ≡ Some z → z.parameters.units ≡ 0 }
    ensures here { seat.new.turnstile ≡ seat.old.turnstile }
    ensures base { seat.new.knows.base ≡ seat.old.knows.base }
    ensures share { seat.new.knows.share ≡ seat.old.knows.share }
{
    let label = Label::of(b"")?;
    let placed = sender.put(rt, alloc, seat, tag, label).ok()?;
    Some((placed.answer, placed.place))
}

// What a builder told: how many receipts there are, the first one's index, stamp, number of entries and what else stood
// there, and the place of the snapshot of all bundles.
#[derive(Clone, Copy, Debug, PartialEq, Eq)]
struct Told {
    receipts: usize,
    first: Option<(u16, u64, u64, Option<Now>)>,
    all: Option<u64>,
}

fn what_is_told(built: &Built) -> Told {
    let mut first = None;
    if let Some(receipt) = built.receipts.first() {
        let (index, stamp) = (receipt.index(), receipt.stamp());
        first = Some((index, stamp, receipt.at(), receipt.now()));
    }
    let all = match &built.all {
        Some(shown) => Some(shown.place()),
        None => None,
    };
    Told {
        receipts: built.receipts.len(),
        first,
        all,
    }
}

// Builds with a `skip` and a budget.
fn build<R: Threads + Wait + Sync, G: Gate>(
    rt: &R,
    alloc: Global,
    sender: &Sender<Cache>,
    seat: &mut Seat<Cache>,
    shelf: &mut Shelf,
    params: &Params,
    turn: (u16, u8),
    gate: &G,
) -> Option<Told>
    requires passed { ArePassed (parameters_of params.now) }
    requires here { seat.old.turnstile ≡ sender.now }
    requires under { (z : Origin) → seat.old.knows.base ≡ Some z → z.parameters
        ≡ parameters_of params.now }
    requires shelf { All (IsBundleBlock (parameters_of params.now)) shelf.old }
    ensures here { seat.new.turnstile ≡ seat.old.turnstile }
    ensures base { seat.new.knows.base ≡ seat.old.knows.base }
    ensures shelf { All (IsBundleBlock (parameters_of params.now)) shelf.new }
{
    let (skip, budget) = (turn.0, u32::from(turn.1));
    let built = build_some(rt, alloc, sender, seat, shelf, params, skip, budget, gate).ok()?;
    Some(what_is_told(&built))
}

// Builds one cache, with an empty shelf.
fn build_one<R: Threads + Wait + Sync, G: Gate>(
    rt: &R,
    alloc: Global,
    sender: &Sender<Cache>,
    mut seat: Seat<Cache>,
    params: &Params,
    gate: &G,
) -> (Seat<Cache>, Shelf, Option<Told>)
    requires passed { ArePassed (parameters_of params.now) }
    requires here { seat.turnstile ≡ sender.now }
    requires under { (z : Origin) → seat.knows.base ≡ Some z → z.parameters
        ≡ parameters_of params.now }
    ensures here { result.0.turnstile ≡ sender.now }
    ensures under { (z : Origin) → result.0.knows.base ≡ Some z → z.parameters
        ≡ parameters_of params.now }
    ensures shelf { All (IsBundleBlock (parameters_of params.now)) result.1 }
{
    let mut shelf = Shelf::open();
    let told = build(
        rt,
        alloc,
        sender,
        &mut seat,
        &mut shelf,
        params,
        (0, 1),
        gate,
    );
    (seat, shelf, told)
}

// Puts a tag between two points of the gate.
fn put_between<R: Threads + Wait + Sync, G: Gate>(
    rt: &R,
    alloc: Global,
    sender: &Sender<Cache>,
    mut seat: Seat<Cache>,
    gate: &G,
) -> Option<(Put, u64)>
    requires here { seat.turnstile ≡ sender.now }
    requires units { (z : Origin) → seat.knows.base ≡ Some z → z.parameters.units ≡ 0 }
{
    gate.pass(rt, Point::BeforeTurn, 0);
    let answer = put(rt, alloc, sender, &mut seat, made_up(2, 5));
    gate.pass(rt, Point::AfterTurn, 0);
    answer
}

#[test]
fn caches_are_built_where_there_are_none(rt: HostRuntime) {
    let alloc = rt.alloc();
    let params = Params::of(1, 1, 0);
    assert!(rt; check(&params).is_ok());
    let (sender, mut seat) = open(alloc, &params).expect(&rt, "memory");
    let mut shelf = Shelf::open();
    let answer = put(&rt, alloc, &sender, &mut seat, made_up(1, 0));
    assert_eq!(rt; answer, Some((Put::Added, 0)));
    let built = Some((0, 1, 1, None));
    let table = [
        (0, 0, None, None),
        (4, 1, built, Some(1)),
        (4, 0, None, Some(1)),
    ];
    for (budget, receipts, first, all) in table {
        let told = build(
            &rt,
            alloc,
            &sender,
            &mut seat,
            &mut shelf,
            &params,
            (0, budget),
            &Open,
        );
        assert_eq!(rt;
            told,
            Some(Told {
                receipts,
                first,
                all
            })
        );
    }
}

#[test]
fn builders_begin_at_bundles_of_their_own(rt: HostRuntime) {
    let alloc = rt.alloc();
    let params = Params::of(1, 1, 0);
    assert!(rt; check(&params).is_ok());
    let (sender, mut seat) = open(alloc, &params).expect(&rt, "memory");
    let mut shelf = Shelf::open();
    for (slot, place) in [(1, 0), (2, 1), (3, 2)] {
        let answer = put(&rt, alloc, &sender, &mut seat, made_up(slot, 0));
        assert_eq!(rt; answer, Some((Put::Added, place)));
    }
    // Three bundles have no cache, then two, then one: it is the one with the number `skip` modulo that.
    for (skip, index, stamp) in [(5, 2, 3), (2, 0, 1), (7, 1, 2)] {
        let told = build(
            &rt,
            alloc,
            &sender,
            &mut seat,
            &mut shelf,
            &params,
            (skip, 1),
            &Open,
        );
        let (receipts, first, all) = (1, Some((index, stamp, 3, None)), None);
        assert_eq!(rt;
            told,
            Some(Told {
                receipts,
                first,
                all
            })
        );
    }
}

#[test]
fn a_cache_for_a_bundle_that_changed_comes_too_late(rt: HostRuntime) -> Result<(), Fail> {
    let alloc = rt.alloc();
    let params = Params::of(1, 1, 0);
    assert!(rt; check(&params).is_ok());
    let (sender, mut seat) = open(alloc, &params).expect(&rt, "memory");
    let answer = put(&rt, alloc, &sender, &mut seat, made_up(1, 0));
    assert_eq!(rt; answer, Some((Put::Added, 0)));
    let (fetched, changed) = ((Point::BeforeInstall, 0), (Point::AfterTurn, 0));
    let holds = vec![in alloc;
        Hold {
            at: (Point::BeforeTurn, 0),
            until: fetched
        },
        Hold {
            at: fetched,
            until: changed
        },
    ]?;
    let gate = Held::open(1 << 26, holds);
    let other = sender.split(&mut seat);
    let (handle, shared, given, held) = (&rt, &sender, &params, &gate);
    let (one, two) = thread::join(
        handle,
        move || build_one(handle, alloc, shared, seat, given, held),
        move || put_between(handle, alloc, shared, other, held),
    );
    assert_eq!(rt; two, Some((Put::Added, 1)));
    let (mut seat, mut shelf, stale) = one;
    let first = Some((0, 1, 2, Some(Now::Stamp { stamp: 2 })));
    let (receipts, all) = (1, None);
    assert_eq!(rt;
        stale,
        Some(Told {
            receipts,
            first,
            all
        })
    );
    let told = build(
        &rt,
        alloc,
        &sender,
        &mut seat,
        &mut shelf,
        &params,
        (0, 2),
        &Open,
    );
    let (first, all) = (Some((0, 2, 2, None)), Some(2));
    assert_eq!(rt;
        told,
        Some(Told {
            receipts,
            first,
            all
        })
    );
    assert!(rt; !gate.late(&rt));
    assert!(rt; shelf.take().is_none());
    Ok(())
}
