//! The search for a place by chains of moves: each moves an item to another of its positions, and the last of them
//! to a free one (a depth-first search for an augmenting path). A chain visits no position twice, so the calls are no
//! deeper than the table is long.

ghost use Rattle.std.specs.Prelude.{◌≡◌, ◌≢◌, ℕ, ◌+◌, ◌<◌, ◌≤◌, ◌^◌, ◌++◌, option_to_list, List, [], ◌∷◌, length, IfOk, IfErr, OnOk, MatchBool, slice_index_or, Option, None, Some, false, true};
ghost use Rattle.std.specs.List.{All};
ghost use Rattle.cuckoo_place.specs.Placements.{IsCrowded, HasNoPlacement, ForCrowded};
ghost use Rattle.cuckoo_place.specs.Searches.{choices_of, AreChoicesBelow, IsPlaced, IsAssignment, IsSeen, IsSeenStill, AreSeen, AreStuck, IsVacated, IsSettled, IsNotVacated, IsNotSettled, IsRefused, Holds, reached_at, AreReached, IsFull};

use crate::Unplaced;
use item_slots::Positions;
use std::alloc::{AllocError, Global};

// Where an item may be: at its fixed place, or at any position of its set.
fn choices<'a>(sets: &'a [Positions], fixed: &'a [u16], item: usize) -> &'a [u16]
    requires { item < length sets.now }
    ensures { result.now ≡ choices_of sets.now fixed.now item }
{
    if item < fixed.len() {
        &fixed[item..item + 1]
    } else {
        sets[item].list()
    }
}

// Moves the holder of a position elsewhere, if there is one and it can.
#[cycle(search)]
fn vacate(
    sets: &[Positions],
    fixed: &[u16],
    holders: &mut [Option<u32>],
    seen: &mut [bool],
    place: usize,
) -> bool
    requires assigned { IsAssignment (length sets.now) (choices_of sets.now fixed.now) holders.old }
    requires below { AreChoicesBelow (length holders.old) (choices_of sets.now fixed.now) }
    requires table { length seen.old ≡ length holders.old }
    requires within { place < length holders.old }
    requires visited { IsSeen seen.old place }
    ensures still { IsSeenStill seen.old seen.new }
    ensures outcome { MatchBool result
        (IsVacated (length sets.now) (choices_of sets.now fixed.now) seen.old holders.old
        holders.new place) (IsNotVacated (choices_of sets.now fixed.now) holders.old holders.new
        seen.old seen.new place) }
{
    let Some(other) = holders[place] else {
        return true;
    };
    holders[place] = None;
    if settle(sets, fixed, holders, seen, other) {
        return true;
    }
    holders[place] = Some(other);
    false
}

// Places an item that has no place, where the holders of its choices can move. It visits each position once.
#[cycle(search)]
fn settle(
    sets: &[Positions],
    fixed: &[u16],
    holders: &mut [Option<u32>],
    seen: &mut [bool],
    item: u32,
) -> bool
    requires assigned { IsAssignment (length sets.now) (choices_of sets.now fixed.now) holders.old }
    requires below { AreChoicesBelow (length holders.old) (choices_of sets.now fixed.now) }
    requires table { length seen.old ≡ length holders.old }
    requires known { item < length sets.now }
    requires unplaced { ¬ IsPlaced holders.old item }
    ensures still { IsSeenStill seen.old seen.new }
    ensures outcome { MatchBool result
        (IsSettled (length sets.now) (choices_of sets.now fixed.now) seen.old holders.old
        holders.new item) (IsNotSettled (choices_of sets.now fixed.now) holders.old holders.new
        seen.old seen.new item) }
{
    for choice in choices(sets, fixed, item as usize) {
        let place = usize::from(*choice);
        if !seen[place] {
            seen[place] = true;
            if vacate(sets, fixed, holders, seen, place) {
                holders[place] = Some(item);
                return true;
            }
        }
    }
    false
}

// Places an item by a search that has visited no position yet.
pub(crate) fn settle_anew(
    sets: &[Positions],
    fixed: &[u16],
    holders: &mut [Option<u32>],
    seen: &mut [bool],
    item: u32,
) -> bool
    requires assigned { IsAssignment (length sets.now) (choices_of sets.now fixed.now) holders.old }
    requires below { AreChoicesBelow (length holders.old) (choices_of sets.now fixed.now) }
    requires table { length seen.old ≡ length holders.old }
    requires known { item < length sets.now }
    requires unplaced { ¬ IsPlaced holders.old item }
    ensures { MatchBool result (IsSettled (length sets.now) (choices_of sets.now fixed.now) []
        holders.old holders.new item) (IsRefused (choices_of sets.now fixed.now) holders.old
        holders.new seen.new item) }
{
    seen.fill(false);
    settle(sets, fixed, holders, seen, item)
}

// Who holds a visited position.
fn reached_at(holders: &[Option<u32>], seen: &[bool], place: usize) -> Option<u32>
    requires within { place < length holders.now }
    requires table { length seen.now ≡ length holders.now }
    ensures { result ≡ reached_at holders.now seen.now place }
{
    if seen[place] { holders[place] } else { None }
}

// Puts a found item at the end.
fn push_found(items: &mut Vec<u32>, found: Option<u32>) -> Result<(), AllocError>
    ensures { OnOk result (items.new.items ≡ items.old.items ++ option_to_list found) }
{
    match found {
        Some(item) => {
            items.push(item)?;
            Ok(())
        }
        None => Ok(()),
    }
}

// The items that a failed search for an item's place has reached, in rising order.
fn reached(
    alloc: Global,
    holders: &[Option<u32>],
    seen: &[bool],
    item: u32,
) -> Result<Vec<u32>, AllocError>
    requires table { length seen.now ≡ length holders.now }
    requires once { (i p q : ℕ) → Holds holders.now i p → Holds holders.now i q → p ≡ q }
    requires unplaced { ¬ IsPlaced holders.now item }
    ensures { IfOk result (λ items. AreReached holders.now seen.now item items.items) }
{
    let mut items = Vec::new(alloc);
    for place in 0..holders.len() {
        push_found(&mut items, reached_at(holders, seen, place))?;
    }
    items.push(item)?;
    items.sort()?;
    Ok(items)
}

// Places all items, at whichever of their positions.
pub(crate) fn settle_all(
    alloc: Global,
    sets: &[Positions],
    holders: &mut [Option<u32>],
    seen: &mut [bool],
) -> Result<(), Unplaced>
    requires few { length sets.now < 2 ^ 32 }
    requires below { AreChoicesBelow (length holders.old) (choices_of sets.now []) }
    requires table { length seen.old ≡ length holders.old }
    requires unplaced { (i : ℕ) → ¬ IsPlaced holders.old i }
    ensures full { OnOk result (IsFull sets.now [] holders.new) }
    ensures crowded { IfErr result (ForCrowded (IsCrowded sets.now)) }
    ensures none { IfErr result (ForCrowded (λ _. HasNoPlacement sets.now)) }
{
    for item in 0..sets.len() as u32 {
        if !settle_anew(sets, &[], holders, seen, item) {
            let items = reached(alloc, holders, seen, item)?;
            return Err(Unplaced::Crowded { items });
        }
    }
    Ok(())
}
