//! Placed tags.
ghost use Rattle.std.specs.Prelude.{◌≡◌, ◌≤◌, ◌<◌, ◌*◌, ◌^◌, IfOk, IfErr, length};
ghost use Rattle.std.specs.List.{All};
ghost use Rattle.item_slots.specs.Tags.{bins_of_row};
ghost use Rattle.cuckoo_place.specs.Placements.{ForCrowded};
ghost use Rattle.psi_receiver.specs.Faults.{AreTooMany};
ghost use Rattle.psi_receiver.specs.Placements.{ArePlaced, placed_tags, position_sets};

use crate::slots::BINS;
use cuckoo_place::{Unplaced, place};
use item_slots::{Positions, Tag, positions};
use std::alloc::{AllocError, Global};

/// A tag at one of its positions.
#[derive(Clone, Copy, Drop)]
pub struct Placed {
    /// The number of the item, counted from 0.
    pub item: u32,
    /// Its tag.
    pub tag: Tag,
    /// The position, which is bin `position % 819` of row `position / 819`.
    pub position: u16,
}

/// The tags at the positions of their first placement. `Crowded` comes exactly where they have none.
pub fn place_tags(alloc: Global, tags: &[Tag], rows: u8) -> Result<Vec<Placed>, Unplaced>
    requires some { 1 ≤ rows }
    requires few { rows ≤ 4 }
    requires numbered { length tags.now < 2 ^ 32 }
    ensures placed { IfOk result (λ placed_tags. ArePlaced rows tags.now placed_tags.items) }
    ensures within { IfOk result (λ placed_tags.
        All (λ x. x.position < bins_of_row * rows) placed_tags.items) }
    ensures crowded { IfErr result (ForCrowded (AreTooMany rows tags.now)) }
{
    let sets = position_sets(alloc, tags, rows)?;
    let places = place(alloc, &sets, BINS as u16 * u16::from(rows))?;
    Ok(at_places(alloc, tags, &places)?)
}

// The positions of each tag.
fn position_sets(alloc: Global, tags: &[Tag], rows: u8) -> Result<Vec<Positions>, AllocError>
    requires some { 1 ≤ rows }
    requires few { rows ≤ 4 }
    ensures { IfOk result (λ sets. sets.items ≡ position_sets rows tags.now) }
{
    tags.iter().map(|tag| positions(tag, rows)).collect(alloc)
}

// The tags at these positions, one each.
fn at_places(alloc: Global, tags: &[Tag], places: &[u16]) -> Result<Vec<Placed>, AllocError>
    requires one_each { length places.now ≡ length tags.now }
    requires numbered { length tags.now < 2 ^ 32 }
    ensures { IfOk result (λ xs. xs.items ≡ placed_tags tags.now places.now) }
{
    let mut placed = Vec::with_capacity(alloc, tags.len())?;
    for (item, tag) in tags.iter().enumerate() {
        placed.push(Placed {
            item: item as u32,
            tag: *tag,
            position: places[item],
        })?;
    }
    Ok(placed)
}
