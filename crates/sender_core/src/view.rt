//! The bundles of one row of a book as they stood after some entry.
ghost use Rattle.std.specs.Prelude.{◌≡◌, IfOk};
ghost use Rattle.psi_bundle.specs.Shows.{shown_row};
ghost use Rattle.sender_core.specs.Kept.{row_of};
ghost use Rattle.sender_core.specs.Shown.{kept_of_row};

use crate::rows::same_row;
use psi_bundle::Shown;
use std::alloc::{AllocError, Global};
use std::marker::Model;

/// The bundles of one row as they stood after some number of entries, with their stamps and caches. It is read without a
/// lock. Clauses see the row, the number of entries and the bundles.
#[derive(Drop)]
pub struct RowView<C> {
    row: u8,
    entries: u64,
    shown: Vec<Shown<C>>,
}

impl<C> Model for RowView<C> {
    ghost use Rattle.sender_core.specs.Kept.{RowSight};
    ghost use Rattle.sender_core.specs.Shown.{kept_of_row};

    ghost Value = { RowSight C };

    ghost view = { λ v. record { row = v.row; from = v.entries; bundles = kept_of_row v.shown.items } };
}

impl<C: Drop> RowView<C> {
    /// These bundles of a row, after so many entries.
    pub(crate) fn of(
        alloc: Global,
        row: u8,
        entries: u64,
        shown: &[Shown<C>],
    ) -> Result<RowView<C>, AllocError>
        ensures { IfOk result (λ view. view
            ≡ record { row = row; from = entries; bundles = kept_of_row shown.now }) }
    {
        let shown = same_row(alloc, shown)?;
        Ok(RowView {
            row,
            entries,
            shown,
        })
    }

    /// The row.
    pub fn row(&self) -> u8
        ensures { result ≡ self.now.row }
    {
        self.row
    }

    /// The number of entries after which the bundles stood there.
    pub fn from(&self) -> u64
        ensures { result ≡ self.now.from }
    {
        self.entries
    }

    /// The bundles.
    pub fn bundles(&self) -> &[Shown<C>]
        ensures kept { kept_of_row result.now ≡ self.now.bundles }
        ensures row { shown_row result.now ≡ row_of self.now.bundles }
    {
        &self.shown
    }
}
