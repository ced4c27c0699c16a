//! Lists of sevens, with an eight at the edges of pages.
ghost use Rattle.std.specs.Prelude.{◌≤◌, ◌^◌};

use crate::PageList;
use std::process::Abort;
use std::sync::Arc;

// A list of so many sevens.
fn sevens(rt: &(impl Abort + AllocGlobal), len: usize) -> PageList<u32>
    requires { len ≤ 2 ^ 20 }
{
    let seven = Arc::new(rt.alloc(), 7).expect(rt, "memory");
    PageList::filled(rt.alloc(), len, seven).expect(rt, "memory")
}

// The list has so many values: sevens, and an eight at one place.
fn assert_shows(rt: &impl Abort, list: &PageList<u32>, len: usize, eight: Option<usize>) {
    assert_eq!(rt; list.len(), len);
    for i in 0..len {
        let value = if eight == Some(i) { 8 } else { 7 };
        assert_eq!(rt; *list.get(i), value, "place {i} of {len}");
    }
}

#[test]
fn lists_of_any_length(rt: HostRuntime) {
    for len in [0, 1, 63, 64, 65, 128, 130] {
        assert_shows(&rt, &sevens(&rt, len), len, None);
    }
}

#[test]
fn one_place_is_replaced(rt: HostRuntime) {
    let table = [
        (130, 64),
        (130, 0),
        (130, 63),
        (130, 129),
        (1, 0),
        (64, 63),
        (65, 64),
    ];
    for (len, place) in table {
        let old = sevens(&rt, len);
        let eight = Arc::new(rt.alloc(), 8).expect(&rt, "memory");
        assert!(rt; place < old.len());
        let new = old.replace(rt.alloc(), place, eight).expect(&rt, "memory");
        assert_shows(&rt, &new, len, Some(place));
        assert_shows(&rt, &old, len, None);
    }
}
