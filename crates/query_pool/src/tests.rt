//! Rounds on an empty set of one row, with bins of one member and no labels.
ghost use Rattle.std.specs.Prelude.{◌≡◌, ◌≤◌, ◌<◌, IfSome, length};
ghost use Rattle.std.specs.List.{All};
ghost use Rattle.noise_ledger.specs.Verdicts.{ArePassed, parameters_of};
ghost use Rattle.psi_frames.specs.Requests.{IsFit, count_asks};
ghost use Rattle.query_pool.specs.Tried.{smallest};

use crate::{Shape, round_alone, run_round};
use bundle_cache::Cache;
use item_slots::tag_of;
use noise_ledger::{Params, check};
use psi_bundle::Label;
use psi_frames::{Reply, Request};
use psi_outside::{Gate, Held, Hold, Open, Point};
use query_codec::{Ciphertext, Ciphertexts};
use sender_core::Book;
use std::alloc::Global;
use std::sync::Wait;
use std::test::Fail;
use std::thread::Threads;

// What a reply tells; of a body its length.
#[derive(Clone, Copy, Debug, PartialEq, Eq)]
enum Told {
    Added(u64),
    Absent(u64),
    Answer(u64, usize),
    Repacked {
        place: u64,
        from: u64,
        before: u16,
        after: u16,
    },
    Refused(u8),
    Other,
}

fn what_is_told(reply: &Reply) -> Told {
    match reply {
        Reply::Added { place } => Told::Added(*place),
        Reply::Absent { place } => Told::Absent(*place),
        Reply::Answer { place, body } => Told::Answer(*place, body.items().len()),
        Reply::Repacked {
            place,
            from,
            before,
            after,
        } => Told::Repacked {
            place: *place,
            from: *from,
            before: *before,
            after: *after,
        },
        Reply::Refused { code } => Told::Refused(*code),
        _ => Told::Other,
    }
}

// A Put of an item.
fn put_of(item: &[u8]) -> Option<Request>
    ensures { IfSome result (IsFit smallest) }
{
    let label = Label::of(b"")?;
    Some(Request::Put {
        session: 1,
        number: 1,
        tag: tag_of(item),
        label,
    })
}

// A Put of `abc`.
fn put() -> Option<Request>
    ensures { IfSome result (IsFit smallest) }
{
    put_of(b"abc")
}

// A Drop of `abc`.
fn drop_item() -> Request
    ensures { IsFit smallest result }
{
    Request::Drop {
        session: 1,
        number: 2,
        tag: tag_of(b"abc"),
    }
}

// An Ask with the zero query.
fn ask(alloc: Global) -> Option<Request>
    ensures { IfSome result (IsFit smallest) }
{
    let ct = Ciphertext::zero(alloc).ok()?;
    let query = Ciphertexts::of(vec![in alloc; ct].ok()?);
    Some(Request::Ask {
        session: 2,
        number: 3,
        query,
    })
}

fn repack() -> Request
    ensures { IsFit smallest result }
{
    Request::Repack {
        session: 3,
        number: 4,
        row: 0,
    }
}

fn bad(code: u8) -> Request
    requires some { 1 ≤ code }
    requires few { code ≤ 6 }
    ensures { IsFit smallest result }
{
    Request::Bad {
        session: 3,
        number: 5,
        code,
    }
}

// What the replies to a round of two requests tell.
fn two<R: Threads + Sync>(
    rt: &R,
    alloc: Global,
    first: Request,
    second: Request,
) -> Option<[Told; 2]>
    requires first { IsFit smallest first }
    requires second { IsFit smallest second }
{
    let params = Params::of(1, 1, 0);
    if check(&params).is_err() {
        return None;
    }
    let book = Book::open(alloc, &params).ok()?;
    let requests = vec![in alloc; first, second].ok()?;
    let round = round_alone(rt, alloc, &params, book, requests).ok()?;
    Some([
        what_is_told(&round.replies[0]),
        what_is_told(&round.replies[1]),
    ])
}

#[test]
fn rounds_of_one_lane(rt: HostRuntime) {
    let alloc = rt.alloc();
    let request = put().expect(&rt, "label");
    let packed = Told::Repacked {
        place: 1,
        from: 1,
        before: 1,
        after: 1,
    };
    assert_eq!(rt;
        two(&rt, alloc, request, repack()),
        Some([Told::Added(0), packed])
    );
    let packed = Told::Repacked {
        place: 0,
        from: 0,
        before: 0,
        after: 0,
    };
    assert_eq!(rt;
        two(&rt, alloc, repack(), bad(5)),
        Some([packed, Told::Refused(5)])
    );
    let request = ask(alloc).expect(&rt, "memory");
    assert_eq!(rt;
        two(&rt, alloc, drop_item(), request),
        Some([Told::Absent(0), Told::Answer(1, 10)])
    );
    let request = put().expect(&rt, "label");
    let query = ask(alloc).expect(&rt, "memory");
    assert_eq!(rt;
        two(&rt, alloc, request, query),
        Some([Told::Added(0), Told::Answer(1, 81930)])
    );
}

// A round of two requests by some workers, with a builder beside them.
fn two_joined<R: Threads + Wait + Sync>(
    rt: &R,
    alloc: Global,
    first: Request,
    second: Request,
    workers: u8,
) -> Option<[Told; 2]>
    requires first { IsFit smallest first }
    requires second { IsFit smallest second }
    requires some { 0 < workers }
    requires few { workers ≤ 8 }
{
    let params = Params::of(1, 1, 0);
    if check(&params).is_err() {
        return None;
    }
    let book = Book::open(alloc, &params).ok()?;
    let requests = vec![in alloc; first, second].ok()?;
    let shape = Shape {
        workers,
        builders: 1,
    };
    let round = run_round(rt, alloc, &params, book, requests, shape, &Open).ok()?;
    Some([
        what_is_told(&round.replies[0]),
        what_is_told(&round.replies[1]),
    ])
}

#[test]
fn rounds_of_some_lanes(rt: HostRuntime) {
    let alloc = rt.alloc();
    let request = put().expect(&rt, "label");
    let query = ask(alloc).expect(&rt, "memory");
    assert_eq!(rt;
        two_joined(&rt, alloc, request, query, 1),
        Some([Told::Added(0), Told::Answer(1, 81930)])
    );
    let query = ask(alloc).expect(&rt, "memory");
    let told = two_joined(&rt, alloc, query, drop_item(), 3);
    let asked_first = Some([Told::Answer(0, 10), Told::Absent(1)]);
    let asked_last = Some([Told::Answer(1, 10), Told::Absent(0)]);
    assert!(rt; told == asked_first || told == asked_last);
    let packed = Told::Repacked {
        place: 0,
        from: 0,
        before: 0,
        after: 0,
    };
    assert_eq!(rt;
        two_joined(&rt, alloc, bad(2), repack(), 8),
        Some([Told::Refused(2), packed])
    );
}

// A book of the item `abc`, in one bundle without a cache.
fn one_bundle(alloc: Global, params: &Params) -> Option<Book<Cache>>
    requires passed { ArePassed (parameters_of params.now) }
    requires units { (parameters_of params.now).units ≡ 0 }
    ensures { IfSome result (λ book. book.parameters ≡ parameters_of params.now) }
{
    let mut book = Book::open(alloc, params).ok()?;
    let label = Label::of(b"")?;
    book.put(alloc, tag_of(b"abc"), label).ok()?;
    Some(book)
}

// What the replies to some requests tell, on a book of the item `abc`, with a gate that the threads pass.
fn told_past<R: Threads + Wait + Sync, G: Gate>(
    rt: &R,
    alloc: Global,
    requests: Vec<Request>,
    shape: Shape,
    gate: &G,
) -> Option<Vec<Told>>
    requires few { length requests.items ≤ 4096 }
    requires asks { count_asks requests.items ≤ 32 }
    requires fit { All (IsFit smallest) requests.items }
    requires workers { (1 ≤ shape.workers) × (shape.workers ≤ 8) }
    requires builders { shape.builders ≤ 4 }
{
    let params = Params::of(1, 1, 0);
    if check(&params).is_err() {
        return None;
    }
    let book = one_bundle(alloc, &params)?;
    let round = run_round(rt, alloc, &params, book, requests, shape, gate).ok()?;
    let mut told = Vec::new(alloc);
    for reply in &round.replies {
        told.push(what_is_told(reply)).ok()?;
    }
    Some(told)
}

// Neither the query's evaluation nor the builder's install begins before the other is due.
#[test]
fn a_builder_installs_beside_a_query(rt: HostRuntime) -> Result<(), Fail> {
    let alloc = rt.alloc();
    let (asked, built) = ((Point::AfterTurn, 0), (Point::BeforeInstall, 0));
    let holds = vec![in alloc;
        Hold {
            at: asked,
            until: built
        },
        Hold {
            at: built,
            until: asked
        },
    ]?;
    let gate = Held::open(1 << 26, holds);
    let shape = Shape {
        workers: 1,
        builders: 1,
    };
    let query = ask(alloc).ok_or("memory")?;
    let requests = vec![in alloc; query]?;
    let told = told_past(&rt, alloc, requests, shape, &gate).ok_or("refused")?;
    assert_eq!(rt; told.as_slice(), [Told::Answer(1, 81930)].as_slice());
    assert!(rt; !gate.late(&rt));
    assert!(rt; gate.met(&rt, 0) && gate.met(&rt, 1));
    Ok(())
}

// The Put's turn ends before the query of the turn before it is evaluated.
#[test]
fn a_put_waits_for_no_evaluation(rt: HostRuntime) -> Result<(), Fail> {
    let alloc = rt.alloc();
    let asked = (Point::AfterTurn, 0);
    let holds = vec![in alloc;
        Hold {
            at: (Point::BeforeTurn, 1),
            until: asked
        },
        Hold {
            at: asked,
            until: (Point::AfterTurn, 1)
        },
    ]?;
    let gate = Held::open(1 << 26, holds);
    let shape = Shape {
        workers: 2,
        builders: 0,
    };
    let query = ask(alloc).ok_or("memory")?;
    let other = put_of(b"xyz").ok_or("label")?;
    let requests = vec![in alloc; query, other]?;
    let told = told_past(&rt, alloc, requests, shape, &gate).ok_or("refused")?;
    assert_eq!(rt;
        told.as_slice(),
        [Told::Answer(1, 81930), Told::Added(2)].as_slice()
    );
    assert!(rt; !gate.late(&rt));
    assert!(rt; gate.met(&rt, 0) && gate.met(&rt, 1));
    Ok(())
}

// Drops an item 1025 times, for which there is room, and answers whether each Drop was written down.
fn drop_often(book: &mut Book<Cache>, alloc: Global) -> bool
    ensures { book.new.parameters ≡ book.old.parameters }
{
    let mut entered = book.reserve(alloc, 1025).is_ok();
    for _made in 0..1025u32 {
        entered &= book.drop_tag(alloc, tag_of(b"abc")).is_ok();
    }
    entered
}

// A book whose journal has room for one entry more.
fn nearly_full(alloc: Global, params: &Params) -> Option<Book<Cache>>
    requires passed { ArePassed (parameters_of params.now) }
    ensures { IfSome result (λ book. book.parameters ≡ parameters_of params.now) }
{
    let mut book = Book::open(alloc, params).ok()?;
    let mut entered = true;
    for _made in 0..1023u32 {
        entered &= drop_often(&mut book, alloc);
    }
    if entered { Some(book) } else { None }
}

// What two Drops in a round are told there: by one lane for itself, or by some workers.
fn two_at_the_end<R: Threads + Wait + Sync>(rt: &R, alloc: Global, workers: u8) -> Option<[Told; 2]>
    requires { workers ≤ 8 }
{
    let params = Params::of(1, 1, 0);
    if check(&params).is_err() {
        return None;
    }
    let book = nearly_full(alloc, &params)?;
    let requests = vec![in alloc; drop_item(), drop_item()].ok()?;
    let round = if workers == 0 {
        round_alone(rt, alloc, &params, book, requests).ok()?
    } else {
        let shape = Shape {
            workers,
            builders: 0,
        };
        run_round(rt, alloc, &params, book, requests, shape, &Open).ok()?
    };
    Some([
        what_is_told(&round.replies[0]),
        what_is_told(&round.replies[1]),
    ])
}

// The first Drop is the journal's last entry, and the second is refused; the round is whole.
#[test]
fn a_round_meets_the_end_of_the_journal(rt: HostRuntime) {
    let alloc = rt.alloc();
    for workers in [0u8, 1, 2] {
        assert_eq!(rt;
            two_at_the_end(&rt, alloc, workers),
            Some([Told::Absent(1048575), Told::Refused(7)]),
            "{workers}"
        );
    }
}
