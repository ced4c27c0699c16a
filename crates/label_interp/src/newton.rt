//! Interpolation by Newton's form, in place: the form's coefficients first, then those of the powers.
ghost use Rattle.std.specs.Prelude.{◌≡◌, ℕ, ◌+◌, ◌-◌, ◌*◌, ◌%◌, ◌<◌, ◌≤◌, length, map, nat_eq, slice_index};
ghost use Rattle.std.specs.List.{All, IsDistinct};
ghost use Rattle.psi_residue.specs.Numbers.{plain_modulus};
ghost use Rattle.psi_residue.specs.Polynomials.{value_at};
ghost use Rattle.psi_residue.specs.Interpolation.{interpolated};
ghost use Rattle.bin_poly.specs.Horner.{horner};
ghost use Rattle.label_interp.specs.Points.{place_at, value_of, newton_value, newton_product};

use crate::arithmetic::{MODULUS, difference, inverse, mul_add};

/// Fills `out` with the polynomial of degree below the number of points that takes each point's second number at its
/// first, modulo 65537; the other places are 0. All numbers are below 65537, the first ones are distinct, and `out` is
/// at least as long as `points`. It takes quadratic time, with one inversion a point.
pub fn interpolate(points: &[(u32, u32)], out: &mut [u32])
    requires room { length points.now ≤ length out.now }
    requires numbers_below { All (λ p. (p.0 < plain_modulus) × (p.1 < plain_modulus)) points.now }
    requires places_differ { IsDistinct nat_eq (map (λ p. p.0) points.now) }
    ensures coefficients { (k : ℕ) → k < length points.now
        → slice_index out.new k ≡ interpolated points.now k }
    ensures rest { (k : ℕ) → length points.now ≤ k → slice_index out.new k ≡ 0 }
    ensures through { All (λ p. value_at plain_modulus out.new p.0 ≡ p.1) points.now }
    ensures below { All (λ c. c < plain_modulus) out.new }
{
    newton_form(points, out);
    expand(points, out);
    clear(out, points.len());
}

// Fills the front of `out` with the coefficients of Newton's form.
fn newton_form(points: &[(u32, u32)], out: &mut [u32])
    requires room { length points.now ≤ length out.now }
    requires numbers_below { All (λ p. (p.0 < plain_modulus) × (p.1 < plain_modulus)) points.now }
    requires places_differ { IsDistinct nat_eq (map (λ p. p.0) points.now) }
    ensures through { (i : ℕ) → i < length points.now
        → newton_value points.now (slice_index out.new) (place_at points.now i) (length points.now)
        0 % plain_modulus ≡ value_of points.now i }
    ensures below { (k : ℕ) → k < length points.now → slice_index out.new k < plain_modulus }
{
    for i in 0..points.len() {
        out[i] = newton_coefficient(points, out, i);
    }
}

// The coefficient with which Newton's form takes the value of point `i`: what the form before lacks there, divided by
// the product of the differences to the points before.
fn newton_coefficient(points: &[(u32, u32)], coefficients: &[u32], i: usize) -> u32
    requires point { i < length points.now }
    requires room { length points.now ≤ length coefficients.now }
    requires numbers_below { All (λ p. (p.0 < plain_modulus) × (p.1 < plain_modulus)) points.now }
    requires places_differ { IsDistinct nat_eq (map (λ p. p.0) points.now) }
    ensures takes { (newton_value points.now (slice_index coefficients.now) (place_at points.now i)
        i 0
        + result * newton_product points.now (place_at points.now i) i 0) % plain_modulus ≡ value_of
        points.now i }
    ensures below { result < plain_modulus }
{
    let (place, value) = points[i];
    let mut so_far = 0;
    let mut product = 1;
    for k in (0..i).rev() {
        let factor = difference(place, points[k].0);
        so_far = mul_add(so_far, factor, coefficients[k]);
        product = mul_add(product, factor, 0);
    }
    mul_add(difference(value, so_far), inverse(product), 0)
}

// Turns Newton's form into the coefficients of the powers, from the innermost bracket on.
fn expand(points: &[(u32, u32)], out: &mut [u32])
    requires room { length points.now ≤ length out.now }
    requires numbers_below { All (λ p. (p.0 < plain_modulus) × (p.1 < plain_modulus)) points.now }
    requires below { (k : ℕ) → k < length points.now → slice_index out.now k < plain_modulus }
    ensures values { (x : ℕ) → horner (slice_index out.new) x (length points.now) 0 % plain_modulus
        ≡ newton_value points.now (slice_index out.old) x (length points.now) 0 % plain_modulus }
    ensures below { (k : ℕ) → k < length points.now → slice_index out.new k < plain_modulus }
{
    for i in (0..points.len()).rev() {
        open_bracket(out, i, points.len(), points[i].0);
    }
}

// Multiplies the polynomial with the coefficients from place `i + 1` to `end` by `(x - place)` and adds coefficient `i`.
fn open_bracket(out: &mut [u32], i: usize, end: usize, place: u32)
    requires within { i < end }
    requires room { end ≤ length out.now }
    requires place_below { place < plain_modulus }
    ensures product { (k : ℕ) → i ≤ k → k + 1 < end
        → slice_index out.new k ≡ ((plain_modulus - place) * slice_index out.old
        (k + 1) + slice_index out.old k) % plain_modulus }
    ensures before { (k : ℕ) → k < i → slice_index out.new k ≡ slice_index out.old k }
    ensures after { (k : ℕ) → end ≤ k + 1 → slice_index out.new k ≡ slice_index out.old k }
{
    let constant = MODULUS - place;
    for k in i..end - 1 {
        out[k] = mul_add(constant, out[k + 1], out[k]);
    }
}

// Fills `out` with 0 from place `from` on.
fn clear(out: &mut [u32], from: usize)
    ensures before { (k : ℕ) → k < from → slice_index out.new k ≡ slice_index out.old k }
    ensures after { (k : ℕ) → from ≤ k → slice_index out.new k ≡ 0 }
{
    for k in from..out.len() {
        out[k] = 0;
    }
}
