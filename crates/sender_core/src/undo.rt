//! Changes of rows in place, and an undo log of what stood there.
ghost use Rattle.std.specs.Prelude.{◌≡◌, ◌<◌, ◌++◌, ◌∷◌, [], length, slice_set, OnOk};
ghost use Rattle.sender_core.specs.Kept.{kept_row};
ghost use Rattle.sender_core.specs.Shown.{kept_of, kept_of_rows};
ghost use Rattle.sender_core.specs.UndoLogs.{rows_before, CanUndo, rolled_back, CanRollBack, LeadsBack, StillLeadsBack};

use psi_bundle::Shown;
use std::alloc::AllocError;
use std::mem;

/// What stood at an index of a row before a change. None where the change put a new last bundle there.
#[derive(Drop)]
pub(crate) struct Undo<C> {
    row: usize,
    index: usize,
    bundle: Option<Shown<C>>,
}

/// Puts a bundle in the place of another one, which goes into the log. Where there is no memory nothing changes.
pub(crate) fn replace<C: Drop>(
    rows: &mut Vec<Vec<Shown<C>>>,
    log: &mut Vec<Undo<C>>,
    row: usize,
    index: usize,
    shown: Shown<C>,
) -> Result<(), AllocError>
    requires row { row < length rows.old.items }
    requires index { index < length (kept_row (kept_of_rows rows.old.items) row) }
    ensures replaced { OnOk result
        (kept_of_rows rows.new.items
        ≡ slice_set (kept_of_rows rows.old.items) row
        (slice_set (kept_row (kept_of_rows rows.old.items) row) index (kept_of shown))) }
    ensures rows { length rows.new.items ≡ length rows.old.items }
    ensures back { StillLeadsBack log.old.items (kept_of_rows rows.old.items) log.new.items
        (kept_of_rows rows.new.items) }
{
    log.reserve(1)?;
    let bundles = &mut rows[row];
    let old = mem::replace(&mut bundles[index], shown);
    log.push_reserved(Undo {
        row,
        index,
        bundle: Some(old),
    });
    Ok(())
}

/// Puts a new last bundle into a row, which the log notes. Where there is no memory nothing changes.
pub(crate) fn append<C: Drop>(
    rows: &mut Vec<Vec<Shown<C>>>,
    log: &mut Vec<Undo<C>>,
    row: usize,
    shown: Shown<C>,
) -> Result<(), AllocError>
    requires { row < length rows.old.items }
    ensures appended { OnOk result
        (kept_of_rows rows.new.items
        ≡ slice_set (kept_of_rows rows.old.items) row
        (kept_row (kept_of_rows rows.old.items) row ++ kept_of shown ∷ [])) }
    ensures rows { length rows.new.items ≡ length rows.old.items }
    ensures back { StillLeadsBack log.old.items (kept_of_rows rows.old.items) log.new.items
        (kept_of_rows rows.new.items) }
{
    log.reserve(1)?;
    let bundles = &mut rows[row];
    let index = bundles.len();
    bundles.push(shown)?;
    log.push_reserved(Undo {
        row,
        index,
        bundle: None,
    });
    Ok(())
}

// Undoes one change.
fn put_back<C: Drop>(rows: &mut Vec<Vec<Shown<C>>>, change: Undo<C>)
    requires { CanUndo change (kept_of_rows rows.old.items) }
    ensures { kept_of_rows rows.new.items ≡ rows_before change (kept_of_rows rows.old.items) }
{
    let Undo { row, index, bundle } = change;
    let bundles = &mut rows[row];
    match bundle {
        Some(shown) => bundles[index] = shown,
        None => bundles.truncate(index),
    }
}

/// Undoes all changes of a log, the last one first.
pub(crate) fn roll_back<C: Drop>(rows: &mut Vec<Vec<Shown<C>>>, log: Vec<Undo<C>>)
    requires { CanRollBack log.items (kept_of_rows rows.old.items) }
    ensures { kept_of_rows rows.new.items ≡ rolled_back log.items (kept_of_rows rows.old.items) }
{
    let mut left = log;
    while let Some(change) = left.pop() {
        put_back(rows, change);
    }
}
