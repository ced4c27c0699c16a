//! Bundles without a cache, as tasks for whoever builds caches.
ghost use Rattle.std.specs.Prelude.{◌≡◌, ◌≤◌, ◌++◌, length, map, IfOk, OnOk};
ghost use Rattle.sender_core.specs.Kept.{bundles_of};
ghost use Rattle.sender_core.specs.Given.{bare_at, bare_row, bare_rows};
ghost use Rattle.sender_core.specs.Shown.{kept_of, kept_of_row, kept_of_rows};
ghost use Rattle.sender_core.specs.Tries.{job_of};

use psi_bundle::{Bundle, Shown};
use std::alloc::{AllocError, Global};
use std::sync::Arc;

/// A bundle that had no cache: where it stood, and with which stamp.
#[derive(Drop)]
pub struct Task {
    /// Its row.
    pub row: u8,
    /// Its number in the row.
    pub index: u16,
    /// Its stamp: one more than the place of the entry that last changed it, or 0.
    pub stamp: u64,
    /// The bundle.
    pub bundle: Arc<Bundle>,
}

// Adds the task of a bundle that has no cache.
fn push_bare<C: Drop>(
    tasks: &mut Vec<Task>,
    row: u8,
    index: u16,
    shown: &Shown<C>,
) -> Result<(), AllocError>
    ensures { OnOk result (map job_of tasks.new.items ≡ map job_of tasks.old.items
        ++ bare_at row index (kept_of shown.now)) }
{
    if shown.cache.is_none() {
        tasks.push(Task {
            row,
            index,
            stamp: shown.stamp,
            bundle: shown.bundle.clone()?,
        })?;
    }
    Ok(())
}

// Adds the tasks of a row's bundles that have no cache.
fn push_row<C: Drop>(tasks: &mut Vec<Task>, row: u8, shown: &[Shown<C>]) -> Result<(), AllocError>
    requires { length shown.now ≤ 64 }
    ensures { OnOk result (map job_of tasks.new.items ≡ map job_of tasks.old.items
        ++ bare_row row 0 (kept_of_row shown.now)) }
{
    for (index, bundle) in shown.iter().enumerate() {
        push_bare(tasks, row, index as u16, bundle)?;
    }
    Ok(())
}

/// The tasks of all bundles that have no cache, by row and then bundle.
pub(crate) fn bare_tasks<C: Drop>(
    alloc: Global,
    rows: &[Vec<Shown<C>>],
) -> Result<Vec<Task>, AllocError>
    requires few_rows { length rows.now ≤ 4 }
    requires few_bundles { bundles_of (kept_of_rows rows.now) ≤ 64 }
    ensures { IfOk result (λ tasks. map job_of tasks.items ≡ bare_rows 0 (kept_of_rows rows.now)) }
{
    let mut tasks = Vec::new(alloc);
    for (row, shown) in rows.iter().enumerate() {
        push_row(&mut tasks, row as u8, shown)?;
    }
    Ok(tasks)
}
