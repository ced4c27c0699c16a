//! Rows of bundles: first fit of a member, and changes wherever a tag stands.
//!
//! Rows are changed in place, and an undo log keeps what stood where they changed. A call that is refused leaves the rows
//! as they were, and no other bundle is copied.
ghost use Rattle.std.specs.Prelude.{◌≡◌, ◌≤◌, ◌<◌, ◌+◌, ◌*◌, ℕ, List, [], ◌∷◌, ◌++◌, length, map, IfOk, IfSome, OnOk, OnErr, IsTrue, None, slice_set};
ghost use Rattle.std.specs.List.{All, fold, list_any, position_from, sum};
ghost use Rattle.item_slots.specs.Tags.{bins_of_row};
ghost use Rattle.std.specs.List.Sorted.{IsStrictlyIncreasing};
ghost use Rattle.std.specs.Option.{option_map};
ghost use Rattle.std.specs.Arc.{arc_value};
ghost use Rattle.psi_bundle.specs.Bins.{accepts, holds, bin_at, empty_bins};
ghost use Rattle.psi_bundle.specs.Versions.{placed_at, changed_at, greatest_stamp};
ghost use Rattle.sender_core.specs.Kept.{row_of, rows_of, bundles_of, kept_row, kept_at, KeepCaches};
ghost use Rattle.sender_core.specs.Shown.{kept_of, kept_of_row, kept_of_rows};
ghost use Rattle.sender_core.specs.Changes.{bin_after, with_changed, bare_with};
ghost use Rattle.sender_core.specs.UndoLogs.{LeadsBack, StillLeadsBack};

use crate::undo::{Undo, append, replace, roll_back};
use item_slots::Tag;
use psi_bundle::{Bundle, Label, Member, Shown, accepting};
use std::alloc::{AllocError, Global};
use std::sync::Arc;

/// The number of bins of a row.
const BINS: u16 = 819;

/// What is done to a tag's member.
#[derive(Clone, Copy)]
pub(crate) enum Change {
    /// It gets another label.
    Relabel { label: Label },
    /// It leaves its bin.
    Remove,
}

/// A change of a tag's member, and the stamp that a bundle gets where it is made.
#[derive(Drop)]
pub(crate) struct Edit {
    pub(crate) stamp: u64,
    pub(crate) tag: Tag,
    pub(crate) change: Change,
}

// A bundle that was changed: with a new stamp, and without a cache.
fn bare<C>(alloc: Global, stamp: u64, bundle: Bundle) -> Result<Shown<C>, AllocError>
    ensures { IfOk result (λ shown. kept_of shown
        ≡ record { stamp = stamp; bins = bundle; cache = None }) }
{
    Ok(Shown {
        bundle: Arc::new(alloc, bundle)?,
        stamp,
        cache: None,
    })
}

// The same cache, if there is one.
fn same_cache<C: Drop>(cache: &Option<Arc<C>>) -> Result<Option<Arc<C>>, AllocError>
    ensures { IfOk result (λ same. option_map arc_value same ≡ option_map arc_value cache.now) }
{
    match cache {
        Some(cache) => Ok(Some(cache.clone()?)),
        None => Ok(None),
    }
}

// The same bundle, stamp and cache.
fn same<C: Drop>(shown: &Shown<C>) -> Result<Shown<C>, AllocError>
    ensures { IfOk result (λ same. kept_of same ≡ kept_of shown.now) }
{
    Ok(Shown {
        bundle: shown.bundle.clone()?,
        stamp: shown.stamp,
        cache: same_cache(&shown.cache)?,
    })
}

/// The same row.
pub(crate) fn same_row<C: Drop>(
    alloc: Global,
    row: &[Shown<C>],
) -> Result<Vec<Shown<C>>, AllocError>
    ensures { IfOk result (λ same. kept_of_row same.items ≡ kept_of_row row.now) }
{
    let mut copy = Vec::with_capacity(alloc, row.len())?;
    for shown in row {
        copy.push(same(shown)?)?;
    }
    Ok(copy)
}

// Puts a member into the row of a position by first fit.
fn place_at<C: Drop>(
    alloc: Global,
    rows: &mut Vec<Vec<Shown<C>>>,
    log: &mut Vec<Undo<C>>,
    stamp: u64,
    p: u16,
    member: &Member,
    capacity: u16,
) -> Result<(), AllocError>
    requires within { p < 819 * length rows.old.items }
    requires some { 1 ≤ capacity }
    ensures fitted { OnOk result (rows_of (kept_of_rows rows.new.items)
        ≡ placed_at capacity stamp member.now (rows_of (kept_of_rows rows.old.items)) p) }
    ensures caches { OnOk result (KeepCaches stamp (kept_of_rows rows.old.items)
        (kept_of_rows rows.new.items)) }
    ensures rows { length rows.new.items ≡ length rows.old.items }
    ensures back { StillLeadsBack log.old.items (kept_of_rows rows.old.items) log.new.items
        (kept_of_rows rows.new.items) }
{
    let (row, bin) = ((p / BINS) as usize, p % BINS);
    let Member { tag, label } = *member;
    let bundles = &rows[row];
    match accepting(bundles, bin, &tag, capacity) {
        Some(index) => {
            let old = &bundles[index].bundle;
            let bundle = old.add(alloc, bin, Member { tag, label }, capacity)?;
            let shown = bare(alloc, stamp, bundle)?;
            replace(rows, log, row, index, shown)
        }
        None => {
            let bundle = Bundle::of_one(alloc, bin, Member { tag, label })?;
            let shown = bare(alloc, stamp, bundle)?;
            append(rows, log, row, shown)
        }
    }
}

// Puts a member into the row of each position by first fit.
fn place_each<C: Drop>(
    alloc: Global,
    rows: &mut Vec<Vec<Shown<C>>>,
    log: &mut Vec<Undo<C>>,
    stamp: u64,
    places: &[u16],
    member: &Member,
    capacity: u16,
) -> Result<(), AllocError>
    requires within { All (λ p. p < 819 * length rows.old.items) places.now }
    requires some { 1 ≤ capacity }
    ensures fitted { OnOk result (rows_of (kept_of_rows rows.new.items)
        ≡ fold (placed_at capacity stamp member.now)
        (rows_of (kept_of_rows rows.old.items)) places.now) }
    ensures caches { OnOk result (KeepCaches stamp (kept_of_rows rows.old.items)
        (kept_of_rows rows.new.items)) }
    ensures back { StillLeadsBack log.old.items (kept_of_rows rows.old.items) log.new.items
        (kept_of_rows rows.new.items) }
{
    for p in places {
        place_at(alloc, rows, log, stamp, *p, member, capacity)?;
    }
    Ok(())
}

/// Puts the member at each of its positions, by first fit, and gives what undoes it. Where there is no memory the rows
/// are as before.
pub(crate) fn place_member<C: Drop>(
    alloc: Global,
    rows: &mut Vec<Vec<Shown<C>>>,
    stamp: u64,
    places: &[u16],
    member: &Member,
    capacity: u16,
) -> Result<Vec<Undo<C>>, AllocError>
    requires within { All (λ p. p < 819 * length rows.old.items) places.now }
    requires some { 1 ≤ capacity }
    ensures fitted { OnOk result (rows_of (kept_of_rows rows.new.items)
        ≡ fold (placed_at capacity stamp member.now)
        (rows_of (kept_of_rows rows.old.items)) places.now) }
    ensures caches { OnOk result (KeepCaches stamp (kept_of_rows rows.old.items)
        (kept_of_rows rows.new.items)) }
    ensures back { IfOk result (λ log.
        LeadsBack log.items (kept_of_rows rows.new.items) (kept_of_rows rows.old.items)) }
    ensures kept { OnErr result (kept_of_rows rows.new.items ≡ kept_of_rows rows.old.items) }
{
    let mut log = Vec::new(alloc);
    if let Err(fault) = place_each(alloc, rows, &mut log, stamp, places, member, capacity) {
        roll_back(rows, log);
        return Err(fault);
    }
    Ok(log)
}

// The bundle after the change in a bin that holds the tag.
fn edited(alloc: Global, bundle: &Bundle, bin: u16, edit: &Edit) -> Result<Bundle, AllocError>
    requires in_range { bin < 819 }
    requires held { IsTrue (holds (bin_at bundle.now bin) edit.now.tag) }
    ensures { IfOk result (λ edited. edited
        ≡ slice_set bundle.now bin
        (bin_after edit.now.change edit.now.tag (bin_at bundle.now bin))) }
{
    match edit.change {
        Change::Relabel { label } => bundle.relabel(alloc, bin, &edit.tag, label),
        Change::Remove => bundle.remove(alloc, bin, &edit.tag),
    }
}

// Changes one bundle of a row, where its bin holds the tag.
fn change_bundle<C: Drop>(
    alloc: Global,
    rows: &mut Vec<Vec<Shown<C>>>,
    log: &mut Vec<Undo<C>>,
    row: usize,
    index: usize,
    bin: u16,
    edit: &Edit,
) -> Result<(), AllocError>
    requires row { row < length rows.old.items }
    requires index { index < length (kept_row (kept_of_rows rows.old.items) row) }
    requires bin { bin < 819 }
    ensures made { OnOk result (kept_of_rows rows.new.items
        ≡ with_changed edit.now.stamp bin edit.now.change edit.now.tag
        (kept_of_rows rows.old.items) row index) }
    ensures rows { length rows.new.items ≡ length rows.old.items }
    ensures back { StillLeadsBack log.old.items (kept_of_rows rows.old.items) log.new.items
        (kept_of_rows rows.new.items) }
{
    let old = &rows[row][index].bundle;
    if !old.holds(bin, &edit.tag) {
        return Ok(());
    }
    let bundle = edited(alloc, old, bin, edit)?;
    let shown = bare(alloc, edit.stamp, bundle)?;
    replace(rows, log, row, index, shown)
}

// Changes each bundle of a position's row whose bin holds the tag.
fn change_at<C: Drop>(
    alloc: Global,
    rows: &mut Vec<Vec<Shown<C>>>,
    log: &mut Vec<Undo<C>>,
    p: u16,
    edit: &Edit,
) -> Result<(), AllocError>
    requires { p < 819 * length rows.old.items }
    ensures made { OnOk result (rows_of (kept_of_rows rows.new.items)
        ≡ changed_at edit.now.stamp (bin_after edit.now.change edit.now.tag) edit.now.tag
        (rows_of (kept_of_rows rows.old.items)) p) }
    ensures caches { OnOk result (KeepCaches edit.now.stamp (kept_of_rows rows.old.items)
        (kept_of_rows rows.new.items)) }
    ensures rows { length rows.new.items ≡ length rows.old.items }
    ensures back { StillLeadsBack log.old.items (kept_of_rows rows.old.items) log.new.items
        (kept_of_rows rows.new.items) }
{
    let (row, bin) = ((p / BINS) as usize, p % BINS);
    for index in 0..rows[row].len() {
        change_bundle(alloc, rows, log, row, index, bin, edit)?;
    }
    Ok(())
}

// Makes the change at each of the tag's positions.
fn change_each<C: Drop>(
    alloc: Global,
    rows: &mut Vec<Vec<Shown<C>>>,
    log: &mut Vec<Undo<C>>,
    places: &[u16],
    edit: &Edit,
) -> Result<(), AllocError>
    requires { All (λ p. p < 819 * length rows.old.items) places.now }
    ensures made { OnOk result (rows_of (kept_of_rows rows.new.items)
        ≡ fold (changed_at edit.now.stamp (bin_after edit.now.change edit.now.tag) edit.now.tag)
        (rows_of (kept_of_rows rows.old.items)) places.now) }
    ensures caches { OnOk result (KeepCaches edit.now.stamp (kept_of_rows rows.old.items)
        (kept_of_rows rows.new.items)) }
    ensures back { StillLeadsBack log.old.items (kept_of_rows rows.old.items) log.new.items
        (kept_of_rows rows.new.items) }
{
    for p in places {
        change_at(alloc, rows, log, *p, edit)?;
    }
    Ok(())
}

/// Makes the change at each of the tag's positions, wherever a bin holds the tag, and gives what undoes it. Where there is
/// no memory the rows are as before.
pub(crate) fn change_member<C: Drop>(
    alloc: Global,
    rows: &mut Vec<Vec<Shown<C>>>,
    places: &[u16],
    edit: &Edit,
) -> Result<Vec<Undo<C>>, AllocError>
    requires { All (λ p. p < 819 * length rows.old.items) places.now }
    ensures made { OnOk result (rows_of (kept_of_rows rows.new.items)
        ≡ fold (changed_at edit.now.stamp (bin_after edit.now.change edit.now.tag) edit.now.tag)
        (rows_of (kept_of_rows rows.old.items)) places.now) }
    ensures caches { OnOk result (KeepCaches edit.now.stamp (kept_of_rows rows.old.items)
        (kept_of_rows rows.new.items)) }
    ensures back { IfOk result (λ log.
        LeadsBack log.items (kept_of_rows rows.new.items) (kept_of_rows rows.old.items)) }
    ensures kept { OnErr result (kept_of_rows rows.new.items ≡ kept_of_rows rows.old.items) }
{
    let mut log = Vec::new(alloc);
    if let Err(fault) = change_each(alloc, rows, &mut log, places, edit) {
        roll_back(rows, log);
        return Err(fault);
    }
    Ok(log)
}

/// The number of bundles of all rows.
pub(crate) fn bundles<C>(rows: &[Vec<Shown<C>>]) -> u32
    requires { bundles_of (kept_of_rows rows.now) ≤ 67 }
    ensures number { result ≡ bundles_of (kept_of_rows rows.now) }
    ensures few { result ≤ 67 }
{
    let mut bundles = 0;
    for row in rows {
        bundles += row.len();
    }
    bundles as u32
}

// Whether some bundle of the row accepts the tag in the bin.
fn has_room<C: Drop>(row: &[Shown<C>], bin: u16, tag: &Tag, capacity: u16) -> bool
    requires { bin < bins_of_row }
    ensures { result ≡ list_any (λ u. accepts capacity (bin_at u.bins bin) tag.now)
        (row_of (kept_of_row row.now)) }
{
    accepting(row, bin, tag, capacity).is_some()
}

/// How many bundles first fit of the tag would add at these positions, which rise.
pub(crate) fn grown<C: Drop>(
    rows: &[Vec<Shown<C>>],
    places: &[u16],
    tag: &Tag,
    capacity: u16,
) -> u32
    requires within { All (λ p. p < 819 * length rows.now) places.now }
    requires rise { IsStrictlyIncreasing places.now }
    requires some { 1 ≤ capacity }
    requires few { length places.now ≤ 3 }
    ensures number { (stamp : ℕ) (label : List ℕ) → sum (map (λ row. length row)
        (fold (placed_at capacity stamp (record { tag = tag.now; label = label }))
        (rows_of (kept_of_rows rows.now)) places.now))
        ≡ bundles_of (kept_of_rows rows.now) + result }
    ensures few { result ≤ 3 }
{
    let mut grown = 0;
    let mut opened = 0;
    for p in places {
        let (row, bin) = ((*p / BINS) as usize, *p % BINS);
        if opened != row + 1 && !has_room(&rows[row], bin, tag, capacity) {
            grown += 1;
            opened = row + 1;
        }
    }
    grown
}

/// The greatest stamp of a row, 0 where it has no bundle.
pub(crate) fn newest<C>(row: &[Shown<C>]) -> u64
    ensures { result ≡ greatest_stamp (row_of (kept_of_row row.now)) }
{
    let mut newest = 0;
    for shown in row {
        newest = newest.max(shown.stamp);
    }
    newest
}

/// These bundles, all with one stamp, and without caches.
pub(crate) fn stamped<C: Drop>(
    alloc: Global,
    stamp: u64,
    bundles: Vec<Bundle>,
) -> Result<Vec<Shown<C>>, AllocError>
    ensures { IfOk result (λ row. kept_of_row row.items ≡ map (bare_with stamp) bundles.items) }
{
    let mut row = Vec::with_capacity(alloc, bundles.len())?;
    for bundle in bundles {
        row.push(bare(alloc, stamp, bundle)?)?;
    }
    Ok(row)
}

/// Puts a cache beside a bundle of a row.
pub(crate) fn put_cache<C: Drop>(row: &mut Vec<Shown<C>>, index: usize, cache: Arc<C>)
    requires { index < length row.old.items }
    ensures { kept_of_row row.new.items
        ≡ slice_set (kept_of_row row.old.items) index
        (record (kept_at (kept_of_row row.old.items) index) { cache = Some (arc_value cache) }) }
{
    let shown = &mut row[index];
    shown.cache = Some(cache);
}
