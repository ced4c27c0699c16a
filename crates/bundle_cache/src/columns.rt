//! The coefficients of a plane, side by side for each power.
ghost use Rattle.std.specs.Prelude.{◌≡◌, ℕ, ◌+◌, ◌*◌, ◌/◌, ◌%◌, ◌<◌, ◌≤◌, IfOk, OnOk, length, slice_index};
ghost use Rattle.std.specs.List.{All, AllPairs};
ghost use Rattle.psi_residue.specs.Numbers.{plain_modulus, ring_degree};
ghost use Rattle.psi_residue.specs.Interpolation.{interpolated};
ghost use Rattle.noise_ledger.specs.Verdicts.{parameters_of};
ghost use Rattle.item_slots.specs.Tags.{parts_of_tag, slot_value};
ghost use Rattle.psi_bundle.specs.Planes.{label_points, label_value};
ghost use Rattle.psi_bundle.specs.Bins.{AreApart};
ghost use Rattle.bundle_cache.specs.Caches.{IsCacheable};
ghost use Rattle.bundle_cache.specs.Columns.{AreColumns, AreFilled, IsWritten};

use byteorder::{BigEndian, ByteOrder};
use item_slots::slots;
use label_interp::interpolate;
use noise_ledger::Params;
use psi_bundle::{Bundle, Label, Member};
use psi_residue::N;
use std::alloc::{AllocError, Global};

// The slots that have a part of a bin: part j of bin b has slot 5·b + j.
const PARTS: usize = 5;

const LAST_SLOT: usize = 4095;

/// The coefficients of a plane: for each power up to the capacity those of all slots. Plane 0 has the root polynomials, and
/// plane u + 1 those of the label unit u. The last slot has the constant 1.
pub(crate) fn columns_of_plane(
    alloc: Global,
    params: &Params,
    bundle: &Bundle,
    plane: u8,
) -> Result<Vec<u32>, AllocError>
    requires cacheable { IsCacheable (parameters_of params.now) bundle.now }
    requires plane { plane ≤ params.now.units }
    ensures { IfOk result (λ columns.
        AreColumns (parameters_of params.now) bundle.now plane columns.items) }
{
    let mut columns = vec![in alloc; 0; N * params.coefficients()]?;
    for slot in 0..LAST_SLOT {
        fill_slot(alloc, params, bundle, plane, slot, &mut columns)?;
    }
    columns[LAST_SLOT] = 1;
    Ok(columns)
}

// Writes the coefficients of the next slot.
fn fill_slot(
    alloc: Global,
    params: &Params,
    bundle: &Bundle,
    plane: u8,
    slot: usize,
    columns: &mut [u32],
) -> Result<(), AllocError>
    requires cacheable { IsCacheable (parameters_of params.now) bundle.now }
    requires plane { plane ≤ params.now.units }
    requires slot { slot < 4095 }
    requires filled { AreFilled (parameters_of params.now) bundle.now plane slot columns.old }
    ensures size { length columns.new ≡ length columns.old }
    ensures filled { OnOk result (AreFilled (parameters_of params.now) bundle.now plane
        (slot + 1) columns.new) }
{
    let bin = (slot / PARTS) as u16;
    let part = (slot % PARTS) as u8;
    if plane == 0 {
        write_slot(bundle.poly(bin, part), slot, columns);
    } else {
        let polynomial = label_polynomial(alloc, bundle.members(bin), part, plane - 1)?;
        write_slot(&polynomial, slot, columns);
    }
    Ok(())
}

// Writes a polynomial's coefficients at a slot.
#[tactic(auto, using(crate::proofs::Writing::written_none, crate::proofs::Writing::written_more))]
fn write_slot(coefficients: &[u32], slot: usize, columns: &mut [u32])
    requires slot { slot < ring_degree }
    requires room { ring_degree * length coefficients.now ≤ length columns.old }
    ensures { IsWritten slot coefficients.now (length coefficients.now) columns.old columns.new }
{
    for (k, coefficient) in coefficients.iter().enumerate() {
        columns[N * k + slot] = *coefficient;
    }
}

// The polynomial that takes at each member's root in the part the member's label number of the unit and part.
fn label_polynomial(
    alloc: Global,
    members: &[Member],
    part: u8,
    unit: u8,
) -> Result<Vec<u32>, AllocError>
    requires part { part < parts_of_tag }
    requires apart { AreApart members.now }
    requires labelled { All (λ m. 10 * (unit + 1) ≤ length m.label) members.now }
    ensures size { IfOk result (λ polynomial. length polynomial.items ≡ length members.now) }
    ensures coefficients { IfOk result
        (λ polynomial. (k : ℕ) → slice_index polynomial.items k
        ≡ interpolated (label_points members.now part unit) k) }
{
    let points = points_of(alloc, members, part, unit)?;
    let mut polynomial = vec![in alloc; 0; members.len()]?;
    interpolate(&points, &mut polynomial);
    Ok(polynomial)
}

// The points of a part and label unit, one for each member.
fn points_of(
    alloc: Global,
    members: &[Member],
    part: u8,
    unit: u8,
) -> Result<Vec<(u32, u32)>, AllocError>
    requires part { part < parts_of_tag }
    requires labelled { All (λ m. 10 * (unit + 1) ≤ length m.label) members.now }
    ensures points { IfOk result (λ points. points.items ≡ label_points members.now part unit) }
    ensures below { IfOk result (λ points.
        All (λ p. (p.0 < plain_modulus) × (p.1 < plain_modulus)) points.items) }
{
    let mut points = Vec::with_capacity(alloc, members.len())?;
    for member in members {
        points.push(point_of(member, part, unit))?;
    }
    Ok(points)
}

// A member's point of a part and label unit: its root there, and its label's number 5·unit + part.
fn point_of(member: &Member, part: u8, unit: u8) -> (u32, u32)
    requires part { part < parts_of_tag }
    requires labelled { 10 * (unit + 1) ≤ length member.now.label }
    ensures point { result ≡ (
      slot_value member.now.tag part,
      label_value member.now.label
          (parts_of_tag * unit + part),
    ) }
    ensures below { (result.0 < plain_modulus) × (result.1 < plain_modulus) }
{
    let root = slots(&member.tag)[usize::from(part)];
    let value = label_number(&member.label, PARTS * usize::from(unit) + usize::from(part));
    (u32::from(root), u32::from(value))
}

// The 16-bit number `n` of a label.
fn label_number(label: &Label, n: usize) -> u16
    requires { 2 * n + 2 ≤ length label.now }
    ensures { result ≡ label_value label.now n }
{
    BigEndian::read_u16(&label.bytes()[2 * n..])
}
