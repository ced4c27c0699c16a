//! Each call once.
use crate::{Bundle, Label, Member, NoCache};
use item_slots::{Tag, tag_from};
use std::alloc::Global;
use std::sync::Arc;

#[test]
fn labels_have_at_most_40_bytes(rt: HostRuntime) {
    let bytes = [9; 41];
    for len in 0..42usize {
        match Label::of(&bytes[..len.min(41)]) {
            Some(label) => assert_eq!(rt; label.bytes().len(), len),
            None => assert_eq!(rt; len.min(41), 41),
        }
    }
}

// A made-up tag: the same slot value in each part, and zeros behind.
fn made_up(value: u8) -> Tag {
    let mut bytes = [0; 22];
    for part in 0..5usize {
        bytes[2 * part + 1] = value;
    }
    tag_from(bytes)
}

// The bundle with one more member in bin 818, where that bin accepts it.
fn added(alloc: Global, bundle: &Bundle, tag: Tag, label: Label, capacity: u16) -> Option<Bundle> {
    if !bundle.accepts(818, &tag, capacity) {
        return None;
    }
    bundle.add(alloc, 818, Member { tag, label }, capacity).ok()
}

// The bundle with another label for the tag in bin 818, where that bin holds it.
fn renamed(alloc: Global, bundle: &Bundle, tag: Tag, label: Label) -> Option<Bundle> {
    if !bundle.holds(818, &tag) {
        return None;
    }
    bundle.relabel(alloc, 818, &tag, label).ok()
}

#[test]
fn a_bin_takes_what_it_accepts(rt: HostRuntime) {
    let alloc = rt.alloc();
    let none = Label::of(b"").expect(&rt, "short");
    let (first, second) = (made_up(1), made_up(2));
    let empty = Bundle::empty(alloc).expect(&rt, "memory");
    assert!(rt; added(alloc, &empty, first, none, 0).is_none());
    let one = added(alloc, &empty, first, none, 2).expect(&rt, "accepted");
    assert!(rt; one.holds(818, &first) && !one.holds(817, &first) && !empty.holds(818, &first));
    assert!(rt; added(alloc, &one, first, none, 2).is_none());
    assert!(rt; added(alloc, &one, second, none, 1).is_none());
    let two = added(alloc, &one, second, none, 2).expect(&rt, "accepted");
    let members = two.members(818).len();
    assert_eq!(rt; members, 2);
    let mut roots = [0; 2];
    assert_eq!(rt; two.roots(818, 4, &mut roots), 2);
    assert_eq!(rt; roots, [1, 2]);
}

#[test]
fn a_label_is_replaced(rt: HostRuntime) {
    let alloc = rt.alloc();
    let (none, some) = (
        Label::of(b"").expect(&rt, "short"),
        Label::of(b"label").expect(&rt, "short"),
    );
    let empty = Bundle::empty(alloc).expect(&rt, "memory");
    let one = added(alloc, &empty, made_up(3), none, 1).expect(&rt, "accepted");
    let named = renamed(alloc, &one, made_up(3), some).expect(&rt, "held");
    match named.members(818) {
        [only] => assert_eq!(rt; only.label.bytes(), b"label".as_slice()),
        _ => assert!(rt; false),
    }
}

// The bundle without a tag in bin 818, where that bin holds it.
fn removed(alloc: Global, bundle: &Bundle, tag: Tag) -> Option<Bundle> {
    if !bundle.holds(818, &tag) {
        return None;
    }
    bundle.remove(alloc, 818, &tag).ok()
}

#[test]
fn a_removal_closes_the_gap(rt: HostRuntime) {
    let alloc = rt.alloc();
    let none = Label::of(b"").expect(&rt, "short");
    let empty = Bundle::empty(alloc).expect(&rt, "memory");
    let one = added(alloc, &empty, made_up(1), none, 3).expect(&rt, "accepted");
    let two = added(alloc, &one, made_up(2), none, 3).expect(&rt, "accepted");
    let three = added(alloc, &two, made_up(3), none, 3).expect(&rt, "accepted");
    let gap = removed(alloc, &three, made_up(2)).expect(&rt, "held");
    let held = [1, 2, 3].map(|value| gap.holds(818, &made_up(value)));
    assert_eq!(rt; held, [true, false, true]);
    assert!(rt; removed(alloc, &gap, made_up(2)).is_none());
    let shared = Arc::new(alloc, gap).expect(&rt, "memory");
    let cache = NoCache::of(shared);
    assert!(rt; cache.bundle().holds(818, &made_up(3)));
}

#[test]
fn a_bin_keeps_its_polynomials(rt: HostRuntime) {
    let alloc = rt.alloc();
    let (none, some) = (
        Label::of(b"").expect(&rt, "short"),
        Label::of(b"label").expect(&rt, "short"),
    );
    let empty = Bundle::empty(alloc).expect(&rt, "memory");
    assert_eq!(rt; empty.poly(818, 0), [1].as_slice());
    let one = added(alloc, &empty, made_up(1), none, 2).expect(&rt, "accepted");
    let two = added(alloc, &one, made_up(2), none, 2).expect(&rt, "accepted");
    assert_eq!(rt; two.poly(818, 0), [2, 65534, 1].as_slice());
    let named = renamed(alloc, &two, made_up(1), some).expect(&rt, "held");
    let left = removed(alloc, &named, made_up(1)).expect(&rt, "held");
    assert_eq!(rt; left.poly(818, 0), [65535, 1].as_slice());
    let zero = added(alloc, &empty, made_up(0), none, 1).expect(&rt, "accepted");
    assert_eq!(rt; zero.poly(818, 0), [0, 1].as_slice());
}
