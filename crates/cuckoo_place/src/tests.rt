//! Worked placements.
ghost use Rattle.std.specs.Prelude.{◌<◌, ◌≤◌, length, IfOk, IsTrue};
ghost use Rattle.std.specs.List.{All};

use crate::{Unplaced, place};
use item_slots::Positions;
use std::alloc::{AllocError, Global};
use std::test::Fail;

// Whether all positions are in the table.
fn is_within(set: &Positions, table: u16) -> bool
    ensures { IsTrue result → All (λ p. p < table) set.now }
{
    set.list().iter().all(|p| *p < table)
}

// The sets whose positions are in the table.
fn sets_of(alloc: Global, rows: &[[u16; 3]], table: u16) -> Result<Vec<Positions>, AllocError>
    ensures within { IfOk result (λ sets. All (All (λ p. p < table)) sets.items) }
    ensures few { IfOk result (λ sets. length sets.items ≤ length rows.now) }
{
    let mut sets = Vec::new(alloc);
    for row in rows {
        let [a, b, c] = *row;
        let set = Positions::of(a.min(3275), b.min(3275), c.min(3275));
        if is_within(&set, table) {
            sets.push(set)?;
        }
    }
    Ok(sets)
}

// Whether the sets have a placement, with the places or else the crowded items.
fn answer(alloc: Global, rows: &[[u16; 3]], table: u16) -> Result<(bool, Vec<u32>), AllocError> {
    if rows.len() > 1000 {
        return Err(AllocError);
    }
    let sets = sets_of(alloc, rows, table)?;
    match place(alloc, &sets, table) {
        Ok(places) => {
            let items = places.iter().map(|p| u32::from(*p)).collect(alloc)?;
            Ok((true, items))
        }
        Err(Unplaced::Crowded { items }) => Ok((false, items)),
        Err(Unplaced::NoMemory) => Err(AllocError),
    }
}

#[test]
fn placements(rt: HostRuntime) {
    // Each set has three positions, of which some may be the same.
    let rows: [(&[[u16; 3]], bool, &[u32]); 10] = [
        (&[[0, 1, 1], [0, 1, 1], [1, 2, 2]], true, &[0, 1, 2]),
        (&[[0, 5, 5], [5, 5, 5], [0, 0, 0]], false, &[0, 1, 2]),
        (&[[2, 3, 3], [0, 2, 2], [0, 0, 0]], true, &[3, 2, 0]),
        (&[], true, &[]),
        (
            &[[0, 1, 2], [0, 1, 2], [0, 1, 2], [0, 1, 2]],
            false,
            &[0, 1, 2, 3],
        ),
        (&[[0, 1, 1], [0, 0, 0]], true, &[1, 0]),
        (
            &[[3, 3, 3], [0, 0, 0], [1, 2, 2], [0, 0, 0]],
            false,
            &[1, 3],
        ),
        (&[[5, 5, 5], [4, 5, 5], [3, 4, 5]], true, &[5, 4, 3]),
        (
            &[[0, 1, 2], [1, 3, 3], [0, 0, 0], [2, 3, 4], [1, 1, 1]],
            true,
            &[2, 3, 0, 4, 1],
        ),
        (
            &[
                [4, 5, 5],
                [0, 4, 4],
                [0, 1, 1],
                [1, 2, 2],
                [2, 3, 3],
                [3, 3, 3],
            ],
            true,
            &[5, 4, 0, 1, 2, 3],
        ),
    ];
    for (sets, placed, want) in rows {
        let (is_placed, items) = answer(rt.alloc(), sets, 6).expect(&rt, "memory");
        assert_eq!(rt; is_placed, placed);
        assert_eq!(rt; items.as_slice(), want);
    }
}

// The sets {0, 1}, {1, 2} and so on around a table of 300 positions, so many of them, and the set {0} behind them.
fn ring(alloc: Global, pairs: u16) -> Result<Vec<[u16; 3]>, AllocError>
    requires { pairs ≤ 300 }
{
    let mut rows = Vec::new(alloc);
    for at in 0..pairs {
        let next = (at + 1) % 300;
        rows.push([at, next, next])?;
    }
    rows.push([0, 0, 0])?;
    Ok(rows)
}

#[test]
fn hundreds_of_sets(rt: HostRuntime) -> Result<(), Fail> {
    let alloc = rt.alloc();
    // The last set leaves each other one only the greater of its positions.
    let (is_placed, places) = answer(alloc, &ring(alloc, 299)?, 300)?;
    let pushed = (1..300u32).chain(0..1);
    assert!(rt; is_placed && places.iter().copied().eq(pushed));
    // One pair more closes the ring: 301 sets for 300 positions.
    let (is_placed, items) = answer(alloc, &ring(alloc, 300)?, 300)?;
    assert!(rt; !is_placed && items.iter().copied().eq(0..301u32));
    Ok(())
}
