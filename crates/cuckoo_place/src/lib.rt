//! Items at positions: the first placement, or the items that are too many for their positions.
//!
//! Each item has a small set of positions, and stands at one of them, no two at the same. This is the placement of
//! cuckoo hashing (Pagh and Rodler, 2004), found as a matching by augmenting chains.
#![tactic(auto)]

mod first;
mod search;
#[cfg(test)]
mod tests;

ghost use Rattle.std.specs.Prelude.{◌≡◌, ◌<◌, ◌^◌, length, IfOk, IfErr};
ghost use Rattle.std.specs.List.{All};
ghost use Rattle.cuckoo_place.specs.Placements.{IsFirstPlacement, IsCrowded, HasNoPlacement, ForCrowded};

use item_slots::Positions;
use std::alloc::{AllocError, Global};

/// Why items are not placed.
#[derive(Drop)]
pub enum Unplaced {
    /// There is no placement.
    Crowded {
        /// Items in rising order whose positions together are fewer than they.
        items: Vec<u32>,
    },
    /// Memory ran out.
    NoMemory,
}

impl From<AllocError> for Unplaced {
    ghost use Rattle.cuckoo_place.specs.declared.Unplaced.TheVariants.{NoMemory};

    ghost from_gives = { λ _ fault. fault ≡ NoMemory };

    fn from(_: AllocError) -> Self {
        Unplaced::NoMemory
    }
}

/// The first placement of the sets, each of an item's positions in a table: it gives each set one of its positions,
/// no two the same, and is the least such list in lexicographic order.
///
/// Each position is below `table`, and there are fewer than 2^32 sets. `Crowded` comes exactly where there is no
/// placement.
pub fn place(alloc: Global, sets: &[Positions], table: u16) -> Result<Vec<u16>, Unplaced>
    requires below { All (All (λ p. p < table)) sets.now }
    requires few { length sets.now < 2 ^ 32 }
    ensures first { IfOk result (λ places. IsFirstPlacement sets.now places.items) }
    ensures crowded { IfErr result (ForCrowded (IsCrowded sets.now)) }
    ensures none { IfErr result (ForCrowded (λ _. HasNoPlacement sets.now)) }
{
    let mut holders = vec![in alloc; None; usize::from(table)]?;
    let mut seen = vec![in alloc; false; usize::from(table)]?;
    search::settle_all(alloc, sets, &mut holders, &mut seen)?;
    Ok(first::first_places(alloc, sets, &mut holders, &mut seen)?)
}
