//! A follower of a small history.
ghost use Rattle.std.specs.Prelude.{◌≡◌, ◌<◌, ◌*◌, ◌^◌, IfSome, [], length};
ghost use Rattle.noise_ledger.specs.Verdicts.{ciphertexts_of};
ghost use Rattle.query_pool.specs.Tried.{smallest};
ghost use Rattle.psi_follower.specs.Taking.{IsOfSet};

use crate::{AnswerFault, EntriesFault, FeedFault, Follower, read_entries, write_entry};
use item_slots::{Tag, tag_of};
use noise_ledger::{Params, check};
use psi_bundle::{Answer, Call, Entry, Label};
use query_codec::Ciphertext;
use std::alloc::Global;
use std::thread::Threads;

// A follower of sets with one row, bins of one member and no labels.
fn open_follower<R: Threads + Sync>(rt: &R, alloc: Global) -> Option<Follower>
    ensures { IfSome result (λ follower. (follower.parameters ≡ smallest)
        × (follower.entries ≡ [])) }
{
    let params = Params::of(1, 1, 0);
    match check(&params) {
        Ok(_) => Follower::open(rt, alloc, &params).ok(),
        Err(_) => None,
    }
}

// What was done, and what a set told of it.
#[derive(Clone, Copy)]
enum Deed {
    Put(&'static [u8], Answer),
    Drop(&'static [u8], Answer),
    Ask,
    Pack(u64, Answer),
}

// The entry of a deed.
fn entry_of(deed: Deed) -> Option<Entry>
    ensures { IfSome result (IsOfSet smallest) }
{
    Some(match deed {
        Deed::Put(item, answer) => Entry {
            call: Call::Put {
                tag: tag_of(item),
                label: Label::of(b"")?,
            },
            answer,
        },
        Deed::Drop(item, answer) => Entry {
            call: Call::Drop { tag: tag_of(item) },
            answer,
        },
        Deed::Ask => Entry {
            call: Call::Ask,
            answer: Answer::Seen,
        },
        Deed::Pack(from, answer) => Entry {
            call: Call::Repack { row: 0, from },
            answer,
        },
    })
}

// What the follower tells of one entry that it is fed at a place.
fn told(
    follower: &mut Follower,
    alloc: Global,
    place: u64,
    deed: Deed,
) -> Option<Result<u64, FeedFault>>
    requires of_set { follower.old.parameters ≡ smallest }
    ensures parameters { follower.new.parameters ≡ follower.old.parameters }
{
    let entry = entry_of(deed)?;
    if place < 1000 {
        Some(follower.feed(alloc, place, &[entry]))
    } else {
        None
    }
}

const DONE: Answer = Answer::Done {
    before: 1,
    after: 1,
};

const EMPTIED: Answer = Answer::Done {
    before: 1,
    after: 0,
};

const PUT: Deed = Deed::Put(b"abc", Answer::Added);

const PACKED: Deed = Deed::Pack(1, DONE);

const MOVED: Deed = Deed::Pack(2, Answer::Moved { stamp: 3 });

const DROPPED: Deed = Deed::Drop(b"abc", Answer::Removed);

// A history: what was done on a set with one place a bin.
const HISTORY: [Deed; 5] = [PUT, Deed::Ask, PACKED, MOVED, DROPPED];

// A place, the deed that is told there, and what the follower tells of it.
type Row = (u64, Deed, Result<u64, FeedFault>);

const ROWS: [Row; 18] = [
    (1, Deed::Ask, Err(FeedFault::Gap { have: 0 })),
    (0, PUT, Ok(1)),
    (0, PUT, Ok(1)),
    (1, Deed::Ask, Ok(2)),
    (3, MOVED, Err(FeedFault::Gap { have: 2 })),
    (0, Deed::Ask, Err(FeedFault::Differs { place: 0 })),
    (
        0,
        Deed::Put(b"abd", Answer::Added),
        Err(FeedFault::Differs { place: 0 }),
    ),
    (
        0,
        Deed::Put(b"abc", Answer::Replaced),
        Err(FeedFault::Differs { place: 0 }),
    ),
    (2, PUT, Err(FeedFault::Differs { place: 2 })),
    (
        2,
        Deed::Drop(b"abc", Answer::Absent),
        Err(FeedFault::Differs { place: 2 }),
    ),
    (2, Deed::Pack(0, DONE), Err(FeedFault::Differs { place: 2 })),
    (
        2,
        Deed::Pack(1, EMPTIED),
        Err(FeedFault::Differs { place: 2 }),
    ),
    (2, PACKED, Ok(3)),
    (3, MOVED, Ok(4)),
    (
        4,
        Deed::Pack(2, Answer::Moved { stamp: 2 }),
        Err(FeedFault::Differs { place: 4 }),
    ),
    (4, DROPPED, Ok(5)),
    (5, DROPPED, Err(FeedFault::Differs { place: 5 })),
    (5, Deed::Drop(b"abc", Answer::Absent), Ok(6)),
];

#[test]
fn entries_are_taken_once_and_in_order(rt: HostRuntime) {
    let alloc = rt.alloc();
    let mut follower = open_follower(&rt, alloc).expect(&rt, "opened");
    for (place, deed, want) in &ROWS {
        let have = told(&mut follower, alloc, *place, *deed);
        assert_eq!(rt; have, Some(*want), "the entry at place {place}");
    }
    assert_eq!(rt; follower.have(), 6);
}

// What a follower answers to the zero query: the number of bundles and the place, or why not.
fn asked<R: Threads + Sync>(
    rt: &R,
    alloc: Global,
    follower: &mut Follower,
    floor: u64,
) -> Option<Result<(usize, u64), AnswerFault>>
    requires of_set { follower.old.parameters ≡ smallest }
    ensures kept { follower.new ≡ follower.old }
{
    let query = vec![in alloc; Ciphertext::zero(alloc).ok()?].ok()?;
    Some(match follower.answer(rt, alloc, floor, query) {
        Ok(placed) => Ok((placed.answer.items().len() / 81_920, placed.place)),
        Err(fault) => Err(fault),
    })
}

#[test]
fn queries_are_answered_from_what_is_there(rt: HostRuntime) {
    let alloc = rt.alloc();
    let mut follower = open_follower(&rt, alloc).expect(&rt, "opened");
    assert_eq!(rt; asked(&rt, alloc, &mut follower, 0), Some(Ok((0, 0))));
    let behind = Some(Err(AnswerFault::Behind { have: 0 }));
    assert_eq!(rt; asked(&rt, alloc, &mut follower, 1), behind);
    for (place, deed) in HISTORY.iter().enumerate() {
        let at = place as u64;
        assert_eq!(rt; told(&mut follower, alloc, at, *deed), Some(Ok(at + 1)));
        assert_eq!(rt; asked(&rt, alloc, &mut follower, at), Some(Ok((1, at + 1))));
    }
    let behind = Some(Err(AnswerFault::Behind { have: 5 }));
    assert_eq!(rt; asked(&rt, alloc, &mut follower, 6), behind);
    assert_eq!(rt; follower.have(), 5);
}

// The entry of the history's Put at place 0: its place, kind and tag, without a label, and Added.
const PUT_BYTES: [u8; 32] = [
    0, 0, 0, 0, 0, 0, 0, 0, 1, 0xba, 0x78, 0x16, 0xbf, 0x8f, 0x01, 0xcf, 0xea, 0x41, 0x41, 0x40,
    0xde, 0x5d, 0xae, 0x22, 0x23, 0xb0, 0x03, 0x61, 0xa3, 0x96, 0x17, 0x81,
];

// The bytes of a deed's entry.
fn written(alloc: Global, params: &Params, place: u64, deed: Deed) -> Option<Vec<u8>> {
    match entry_of(deed) {
        Some(entry) => write_entry(alloc, params, place, &entry).ok(),
        None => None,
    }
}

// The bytes of the history, each entry at its place.
fn history_bytes(alloc: Global, params: &Params) -> Option<Vec<u8>> {
    let mut text = Vec::new(alloc);
    for (place, deed) in HISTORY.iter().enumerate() {
        let bytes = written(alloc, params, place as u64, *deed)?;
        text.extend_from_slice(&bytes).ok()?;
    }
    Some(text)
}

// How many entries of the history's bytes stand whole before a byte, and where the last of them ends.
fn whole_before(at: usize) -> (usize, u64) {
    match at {
        0..32 => (0, 0),
        32..42 => (1, 32),
        42..65 => (2, 42),
        65..92 => (3, 65),
        92..124 => (4, 92),
        _ => (5, 124),
    }
}

// How many entries the bytes are, or why they are not read.
fn read(alloc: Global, bytes: &[u8]) -> Option<Result<usize, EntriesFault>> {
    let params = Params::of(1, 1, 0);
    match check(&params) {
        Ok(_) => Some(read_entries(alloc, &params, bytes).map(|feds| feds.len())),
        Err(_) => None,
    }
}

#[test]
fn entries_are_written_and_read(rt: HostRuntime) {
    let alloc = rt.alloc();
    let params = Params::of(1, 1, 0);
    let text = history_bytes(alloc, &params).expect(&rt, "memory");
    assert_eq!(rt; text.len(), 32 + 10 + 23 + 27 + 32);
    assert!(rt; text.starts_with(&PUT_BYTES));
    assert_eq!(rt; read(alloc, &text), Some(Ok(5)));
    assert_eq!(rt; read(alloc, b""), Some(Ok(0)));
    for cut in 0..text.len() {
        let (whole, offset) = whole_before(cut);
        let want = if cut as u64 == offset {
            Ok(whole)
        } else {
            Err(EntriesFault::Bad { offset })
        };
        assert_eq!(rt; read(alloc, &text[..cut]), Some(want), "{cut} bytes");
    }
}

// The first bytes that begin no entry, by the place of a byte and its value there.
const BAD_BYTES: [(usize, u8); 7] = [
    // a place of 2^20
    (5, 0x10),
    // a call of no kind
    (8, 5),
    // answers of another call, and of none
    (31, 131),
    (31, 137),
    // a row that the set lacks
    (51, 1),
    // a Drop told as a Put is
    (123, 129),
    // an Ask told as removed
    (41, 131),
];

#[test]
fn bytes_that_are_no_entries_are_bad(rt: HostRuntime) {
    let alloc = rt.alloc();
    let params = Params::of(1, 1, 0);
    for (at, byte) in &BAD_BYTES {
        let mut text = history_bytes(alloc, &params).expect(&rt, "memory");
        assert!(rt; *at < text.len());
        text[*at] = *byte;
        let (_, offset) = whole_before(*at);
        let bad = Err(EntriesFault::Bad { offset });
        assert_eq!(rt; read(alloc, &text), Some(bad), "byte {at} is {byte}");
    }
}
