//! Packing of a row.
ghost use Rattle.std.specs.Prelude.{◌≡◌, ◌≤◌, ◌<◌, ◌++◌, [], ◌∷◌, IfOk, IfSome, OnOk, length, slice_set};
ghost use Rattle.std.specs.List.{fold, position_from};
ghost use Rattle.psi_bundle.specs.Bins.{accepts, bin_at, empty_bins};
ghost use Rattle.psi_bundle.specs.Versions.{first_fit};
ghost use Rattle.psi_bundle.specs.Shows.{packed_bins, shown_row};
ghost use Rattle.psi_packer.specs.Packing.{unstamped_row, fitted, bin_members, bundle_members};

use psi_bundle::{Bundle, Cached, Member, Shown, accepting};
use std::alloc::{AllocError, Global};

// Puts a member into the bundles by first fit.
fn fit(
    alloc: Global,
    packed: &mut Vec<Bundle>,
    bin: u16,
    member: &Member,
    capacity: u16,
) -> Result<(), AllocError>
    requires in_range { bin < 819 }
    requires some { 1 ≤ capacity }
    ensures { OnOk result (unstamped_row packed.new.items
        ≡ first_fit capacity 0 bin member.now (unstamped_row packed.old.items)) }
{
    let Member { tag, label } = *member;
    match accepting(packed, bin, &tag, capacity) {
        Some(i) => {
            let bundle = packed[i].add(alloc, bin, Member { tag, label }, capacity)?;
            packed[i] = bundle;
        }
        None => {
            let bundle = Bundle::of_one(alloc, bin, Member { tag, label })?;
            packed.push(bundle)?;
        }
    }
    Ok(())
}

// Puts the members of a bin into the bundles, in their order.
fn fit_bin(
    alloc: Global,
    packed: &mut Vec<Bundle>,
    bin: u16,
    members: &[Member],
    capacity: u16,
) -> Result<(), AllocError>
    requires in_range { bin < 819 }
    requires some { 1 ≤ capacity }
    ensures { OnOk result (unstamped_row packed.new.items
        ≡ fold (fitted capacity) (unstamped_row packed.old.items) (bin_members bin members.now)) }
{
    for member in members {
        fit(alloc, packed, bin, member, capacity)?;
    }
    Ok(())
}

// Puts the members of a bundle into the bundles, by bin and order in the bin.
fn fit_bundle(
    alloc: Global,
    packed: &mut Vec<Bundle>,
    bundle: &Bundle,
    capacity: u16,
) -> Result<(), AllocError>
    requires { 1 ≤ capacity }
    ensures { OnOk result (unstamped_row packed.new.items
        ≡ fold (fitted capacity) (unstamped_row packed.old.items) (bundle_members 0 bundle.now)) }
{
    for bin in 0..bundle.bins() {
        fit_bin(alloc, packed, bin, bundle.members(bin), capacity)?;
    }
    Ok(())
}

/// The bundles that first fit makes of the members of a row's bundles, taken by bundle, then bin, then order within the
/// bin, each into its own bin. Condition: the capacity is at least 1.
pub fn pack_row<C: Cached>(
    alloc: Global,
    bundles: &[Shown<C>],
    capacity: u16,
) -> Result<Vec<Bundle>, AllocError>
    requires { 1 ≤ capacity }
    ensures { IfOk result (λ packed. packed.items ≡ packed_bins capacity (shown_row bundles.now)) }
{
    let mut packed = Vec::new(alloc);
    for shown in bundles {
        fit_bundle(alloc, &mut packed, &shown.bundle, capacity)?;
    }
    Ok(packed)
}
