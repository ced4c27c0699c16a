//! The bundles of a book as they stood at one entry.
ghost use Rattle.std.specs.Prelude.{◌≡◌, ◌<◌, length, map, IfOk};
ghost use Rattle.sender_core.specs.Sights.{seen_of, seen_row, with_cached_bins};
ghost use Rattle.sender_core.specs.Shown.{kept_of, kept_of_row, kept_of_rows};

use psi_bundle::{Bundle, Cached, Shown};
use std::alloc::{AllocError, Global};
use std::marker::Model;
use std::sync::Arc;

/// A bundle of a snapshot.
#[derive(Drop)]
pub enum Sight<C> {
    /// A bundle without a cache.
    Bare { bundle: Arc<Bundle>, stamp: u64 },
    /// A cache, for the bundle that stands there.
    Ready { cache: Arc<C>, stamp: u64 },
}

/// All bundles of a book as they stood when an entry was made. It is read without a lock. Clauses see the entry's place
/// and the bundles of each row.
#[derive(Drop)]
pub struct Snapshot<C: Cached> {
    place: u64,
    rows: Vec<Vec<Sight<C>>>,
}

impl<C: Cached> Model for Snapshot<C> {
    ghost use Rattle.std.specs.Prelude.{map};
    ghost use Rattle.sender_core.specs.Kept.{View};
    ghost use Rattle.sender_core.specs.Sights.{seen_row};

    ghost Value = { View C };

    ghost view = { λ s. record { place = s.place; rows = map (λ row. seen_row C.contents row.items) s.rows.items } };
}

// A bundle as it is seen.
fn seen<C: Cached + Drop>(shown: &Shown<C>) -> Result<Sight<C>, AllocError>
    ensures { IfOk result (λ sight. seen_of C.contents sight
        ≡ with_cached_bins C.contents (kept_of shown.now)) }
{
    let stamp = shown.stamp;
    match &shown.cache {
        Some(cache) => Ok(Sight::Ready {
            cache: cache.clone()?,
            stamp,
        }),
        None => Ok(Sight::Bare {
            bundle: shown.bundle.clone()?,
            stamp,
        }),
    }
}

// The bundles of a row as they are seen.
fn sights<C: Cached + Drop>(alloc: Global, row: &[Shown<C>]) -> Result<Vec<Sight<C>>, AllocError>
    ensures { IfOk result (λ sights. seen_row C.contents sights.items
        ≡ map (with_cached_bins C.contents) (kept_of_row row.now)) }
{
    let mut sights = Vec::with_capacity(alloc, row.len())?;
    for shown in row {
        sights.push(seen(shown)?)?;
    }
    Ok(sights)
}

impl<C: Cached + Drop> Snapshot<C> {
    ghost use Rattle.sender_core.specs.Kept.{kept_row};

    /// The bundles as they stand, for the entry at this place.
    pub(crate) fn of(
        alloc: Global,
        place: u64,
        rows: &[Vec<Shown<C>>],
    ) -> Result<Snapshot<C>, AllocError>
        ensures { IfOk result (λ snapshot. snapshot
            ≡ record {
              place = place;
              rows = map (map (with_cached_bins C.contents))
                  (kept_of_rows rows.now);
            }) }
    {
        let mut shown = Vec::with_capacity(alloc, rows.len())?;
        for row in rows {
            shown.push(sights(alloc, row)?)?;
        }
        Ok(Snapshot { place, rows: shown })
    }

    /// The place of the entry.
    pub fn place(&self) -> u64
        ensures { result ≡ self.now.place }
    {
        self.place
    }

    /// The bundles of a row. Condition: the row is below the number of rows.
    pub fn bundles(&self, row: u8) -> &[Sight<C>]
        requires { row < length self.now.rows }
        ensures { seen_row C.contents result.now ≡ kept_row self.now.rows row }
    {
        &self.rows[row as usize]
    }
}
