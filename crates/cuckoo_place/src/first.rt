//! The first placement: item after item goes to its least position that leaves the others placeable.
ghost use Rattle.std.specs.Prelude.{◌≡◌, ℕ, ◌+◌, ◌<◌, ◌^◌, ◌⊎◌, List, [], length, IfOk, IsTrue, slice_index, slice_set};
ghost use Rattle.std.specs.List.{All, Contains};
ghost use Rattle.cuckoo_place.specs.Placements.{positions_at, IsFirstPlacement};
ghost use Rattle.cuckoo_place.specs.Searches.{AreChoicesBelow, Holds, IsFull, NoneBegins};

use crate::search::settle_anew;
use item_slots::Positions;
use std::alloc::{AllocError, Global};

// Whether an item holds a position.
fn is_held_by(holders: &[Option<u32>], place: u16, item: u32) -> bool
    requires { place < length holders.now }
    ensures yes { IsTrue result → Holds holders.now item place }
    ensures no { Holds holders.now item place → IsTrue result }
{
    match holders[usize::from(place)] {
        Some(other) => other == item,
        None => false,
    }
}

// The position of a list that an item holds.
fn place_of(list: &[u16], holders: &[Option<u32>], item: u32) -> u16
    requires below { All (λ p. p < length holders.now) list.now }
    requires held { (p : ℕ) × (Contains list.now p × Holds holders.now item p) }
    ensures own { Contains list.now result }
    ensures held { Holds holders.now item result }
{
    for place in list {
        if is_held_by(holders, *place, item) {
            return *place;
        }
    }
    0
}

// Moves the item of the last of the places to a position, if that is lower and leaves the others placeable.
fn move_last(
    sets: &[Positions],
    places: &mut [u16],
    holders: &mut [Option<u32>],
    seen: &mut [bool],
    item: u32,
    to: u16,
)
    requires known { item < length sets.now }
    requires last { length places.old ≡ item + 1 }
    requires below { AreChoicesBelow (length holders.old) (positions_at sets.now) }
    requires table { length seen.old ≡ length holders.old }
    requires full { IsFull sets.now places.old holders.old }
    requires own { Contains (positions_at sets.now item) to }
    ensures full { IsFull sets.now places.new holders.new }
    ensures outcome { ((places.new ≡ slice_set places.old item to)
        × (to < slice_index places.old item))
        ⊎ ((places.new ≡ places.old) × (to < slice_index places.old item
        → NoneBegins sets.now (slice_set places.old item to))) }
{
    let from = places[item as usize];
    if to >= from {
        return;
    }
    let seat = usize::from(from);
    holders[seat] = None;
    places[item as usize] = to;
    if settle_anew(sets, places, holders, seen, item) {
        return;
    }
    places[item as usize] = from;
    holders[seat] = Some(item);
}

// Moves the item of the last of the places to the least position that leaves the others placeable.
fn lower_last(
    sets: &[Positions],
    places: &mut [u16],
    holders: &mut [Option<u32>],
    seen: &mut [bool],
    item: u32,
)
    requires known { item < length sets.now }
    requires last { length places.old ≡ item + 1 }
    requires below { AreChoicesBelow (length holders.old) (positions_at sets.now) }
    requires table { length seen.old ≡ length holders.old }
    requires full { IsFull sets.now places.old holders.old }
    ensures full { IsFull sets.now places.new holders.new }
    ensures kept { (i : ℕ) → i < item → slice_index places.new i ≡ slice_index places.old i }
    ensures least { (q : ℕ) → Contains (positions_at sets.now item) q
        → q < slice_index places.new item → NoneBegins sets.now (slice_set places.new item q) }
{
    for to in sets[item as usize].list() {
        move_last(sets, places, holders, seen, item, *to);
    }
}

// The first placement, from any placement.
pub(crate) fn first_places(
    alloc: Global,
    sets: &[Positions],
    holders: &mut [Option<u32>],
    seen: &mut [bool],
) -> Result<Vec<u16>, AllocError>
    requires few { length sets.now < 2 ^ 32 }
    requires below { AreChoicesBelow (length holders.old) (positions_at sets.now) }
    requires table { length seen.old ≡ length holders.old }
    requires full { IsFull sets.now [] holders.old }
    ensures { IfOk result (λ places. IsFirstPlacement sets.now places.items) }
{
    let mut places = Vec::with_capacity(alloc, sets.len())?;
    for item in 0..sets.len() as u32 {
        let place = place_of(sets[item as usize].list(), holders, item);
        places.push(place)?;
        lower_last(sets, &mut places, holders, seen, item);
    }
    Ok(places)
}
