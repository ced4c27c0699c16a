//! Packed rows.
ghost use Rattle.std.specs.Prelude.{◌<◌, ◌≤◌};

use crate::pack_row;
use item_slots::{Tag, tag_from};
use psi_bundle::{Bundle, Label, Member, NoCache, Shown};
use std::alloc::Global;
use std::sync::Arc;

// A made-up tag: the same slot value five times, and three times the position 0.
fn made_up(slot: u8) -> Tag {
    let s = slot;
    tag_from([
        0, s, 0, s, 0, s, 0, s, 0, s, 0, 0, 0, 0, 0, 0, 0, 0, 0, 0, 0, 0,
    ])
}

// A shown bundle with the made-up tags of these slot values in bin 0.
fn shown(alloc: Global, slots: &[u8]) -> Option<Shown<NoCache>> {
    let mut bundle = Bundle::empty(alloc).ok()?;
    for slot in slots {
        let tag = made_up(*slot);
        if bundle.accepts(0, &tag, 9) {
            let label = Label::of(b"")?;
            bundle = bundle.add(alloc, 0, Member { tag, label }, 9).ok()?;
        }
    }
    Some(Shown {
        bundle: Arc::new(alloc, bundle).ok()?,
        stamp: 7,
        cache: None,
    })
}

// How many members bin 0 of each packed bundle has, the first three of them.
fn packed(alloc: Global, rows: &[Shown<NoCache>], capacity: u16) -> Option<[usize; 3]>
    requires { 1 ≤ capacity }
{
    let packed = pack_row(alloc, rows, capacity).ok()?;
    Some([0, 1, 2].map(|u: usize| packed.get(u).map(|b| b.members(0).len()).unwrap_or(9)))
}

#[test]
fn members_take_the_first_bundle_that_accepts(rt: HostRuntime) {
    let alloc = rt.alloc();
    let none = shown(alloc, &[]).expect(&rt, "memory");
    let one = shown(alloc, &[1]).expect(&rt, "memory");
    let same = shown(alloc, &[1]).expect(&rt, "memory");
    let two = shown(alloc, &[2, 3]).expect(&rt, "memory");
    let row = [none, one, same, two];
    assert_eq!(rt; packed(alloc, &row[..0], 1), Some([9, 9, 9]));
    assert_eq!(rt; packed(alloc, &row[..2], 1), Some([1, 9, 9]));
    assert_eq!(rt; packed(alloc, &row[..3], 2), Some([1, 1, 9]));
    assert_eq!(rt; packed(alloc, &row, 2), Some([2, 2, 9]));
    assert_eq!(rt; packed(alloc, &row, 1), Some([1, 1, 1]));
}
