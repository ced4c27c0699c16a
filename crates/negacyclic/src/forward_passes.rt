//! The passes of the forward transform. A pass has two stages, of four numbers each (Stockham's form: no place is
//! reversed). Before the pass with l rows of h places, place 4·j·h + r has the value of the part r of the polynomial at the
//! j-th odd power; l times h is 1024.
ghost use Rattle.std.specs.Prelude.{◌≡◌, ℕ, ◌+◌, ◌*◌, ◌%◌, ◌<◌, ◌≤◌, ◌^◌, length, slice_index};
ghost use Rattle.psi_residue.specs.Polynomials.{IsPolynomial};
ghost use Rattle.psi_residue.specs.Slots.{value_at_odd};
ghost use Rattle.psi_residue.specs.Sums.{table};
ghost use Rattle.negacyclic.specs.Butterflies.{AreFourBelow, AreCrossed, AreFactors, ArePlaced, AreWeights, IsCrossed, IsFactor, IsTable, QuartersBelow, QuartersKept, numbers_of};

use crate::factors::{Factor, Weights, product, reduced_product};
use psi_residue::N;

/// The first and second stage at four numbers. What it gives is at most `x0` and four times the modulus.
#[inline(always)]
fn cross(q: u64, w: Weights, x0: u64, x1: u64, x2: u64, x3: u64) -> (u64, u64, u64, u64)
    requires modulus { q < 2 ^ 40 }
    requires weights { AreWeights q w }
    requires below { AreFourBelow (2 ^ 60) x0 x1 x2 x3 }
    ensures crossed { IsCrossed q w.first.number w.second.number w.third.number x0 x1 x2 x3 result.0
        result.1 result.2 result.3 }
    ensures below { AreFourBelow (x0 + 4 * q + 1) result.0 result.1 result.2 result.3 }
{
    let v2 = product(q, w.first, x2);
    let v3 = product(q, w.first, x3);
    let a0 = x0 + v2;
    let a1 = x1 + v3;
    let b0 = x0 + (2 * q - v2);
    let b1 = x1 + (2 * q - v3);
    let u = product(q, w.second, a1);
    let t = product(q, w.third, b1);
    (a0 + u, b0 + t, a0 + (2 * q - u), b0 + (2 * q - t))
}

/// Both stages at the four places from `at` on, h apart, into the four quarters at a place.
#[inline(always)]
fn step(q: u64, w: Weights, h: usize, at: usize, place: usize, from: &[u64], to: &mut [u64])
    requires modulus { q < 2 ^ 40 }
    requires weights { AreWeights q w }
    requires given { IsPolynomial (2 ^ 60) from.now }
    requires written { length to.old ≡ 4096 }
    requires read { at + 3 * h < 4096 }
    requires place { place < 1024 }
    ensures crossed { AreCrossed q w.first.number w.second.number w.third.number h at place from.now
        to.new }
    ensures below { QuartersBelow (slice_index from.now at + 4 * q + 1) place to.new }
    ensures kept { QuartersKept place to.old to.new }
{
    let (y0, y1, y2, y3) = cross(
        q,
        w,
        from[at],
        from[at + h],
        from[at + 2 * h],
        from[at + 3 * h],
    );
    to[place] = y0;
    to[place + 1024] = y1;
    to[place + 2048] = y2;
    to[place + 3072] = y3;
}

/// The factors of row j of a pass with l rows.
#[inline(always)]
fn weights_of(q: u64, factors: &[Factor; N], l: usize, j: usize) -> Weights
    requires factors { AreFactors q factors.now }
    requires row { j < l }
    requires rows { l ≤ 1024 }
    ensures weights { AreWeights q result }
    ensures first { result.first.number ≡ slice_index (numbers_of factors.now) (l + j) }
    ensures second { result.second.number ≡ slice_index (numbers_of factors.now) (2 * l + j) }
    ensures third { result.third.number ≡ slice_index (numbers_of factors.now) (3 * l + j) }
{
    Weights {
        first: factors[l + j],
        second: factors[2 * l + j],
        third: factors[3 * l + j],
    }
}

/// Row j of a pass with l rows of 4·g places. The inner loop of four keeps the compiler from vectors, whose products of 64
/// bits are slower.
#[inline(always)]
fn row(q: u64, factors: &[Factor; N], l: usize, g: usize, j: usize, from: &[u64], to: &mut [u64])
    requires modulus { q < 2 ^ 40 }
    requires factors { AreFactors q factors.now }
    requires rows { l * g ≡ 256 }
    requires row { j < l }
    requires given { IsPolynomial (4 * l * q) from.now }
    requires written { length to.old ≡ 4096 }
    requires before { ArePlaced q (16 * l * q) l (4 * g) (numbers_of factors.now) from.now to.old
        (j * (4 * g)) }
    ensures placed { ArePlaced q (16 * l * q) l (4 * g) (numbers_of factors.now) from.now to.new
        ((j + 1) * (4 * g)) }
{
    let w = weights_of(q, factors, l, j);
    let h = 4 * g;
    for c in 0..g {
        for k in 0..4 {
            let r = 4 * c + k;
            step(q, w, h, 4 * (j * h) + r, j * h + r, from, to);
        }
    }
}

/// A pass with l rows of 4·g places.
#[inline(always)]
fn pass(q: u64, factors: &[Factor; N], l: usize, g: usize, from: &[u64], to: &mut [u64])
    requires modulus { q < 2 ^ 40 }
    requires factors { AreFactors q factors.now }
    requires rows { l * g ≡ 256 }
    requires given { IsPolynomial (4 * l * q) from.now }
    requires written { length to.old ≡ 4096 }
    ensures placed { ArePlaced q (16 * l * q) l (4 * g) (numbers_of factors.now) from.now to.new
        1024 }
    ensures below { IsPolynomial (16 * l * q) to.new }
{
    for j in 0..l {
        row(q, factors, l, g, j, from, to);
    }
}

/// The last two stages at four numbers, reduced.
#[inline(always)]
fn reduced_cross(
    q: u64,
    one: Factor,
    w: Weights,
    x0: u64,
    x1: u64,
    x2: u64,
    x3: u64,
) -> (u64, u64, u64, u64)
    requires modulus { q < 2 ^ 40 }
    requires one { IsFactor q one.number one.quotient × (one.number ≡ 1) }
    requires weights { AreWeights q w }
    requires below { AreFourBelow (2 ^ 60) x0 x1 x2 x3 }
    ensures crossed { IsCrossed q w.first.number w.second.number w.third.number x0 x1 x2 x3 result.0
        result.1 result.2 result.3 }
    ensures below { AreFourBelow q result.0 result.1 result.2 result.3 }
{
    let (y0, y1, y2, y3) = cross(q, w, x0, x1, x2, x3);
    (
        reduced_product(q, one, y0),
        reduced_product(q, one, y1),
        reduced_product(q, one, y2),
        reduced_product(q, one, y3),
    )
}

/// The last two stages at four places in a row, reduced.
#[inline(always)]
fn last_step(q: u64, one: Factor, w: Weights, place: usize, from: &[u64], to: &mut [u64])
    requires modulus { q < 2 ^ 40 }
    requires one { IsFactor q one.number one.quotient × (one.number ≡ 1) }
    requires weights { AreWeights q w }
    requires given { IsPolynomial (4096 * q) from.now }
    requires written { length to.old ≡ 4096 }
    requires place { place < 1024 }
    ensures crossed { AreCrossed q w.first.number w.second.number w.third.number 1 (4 * place) place
        from.now to.new }
    ensures below { QuartersBelow q place to.new }
    ensures kept { QuartersKept place to.old to.new }
{
    let at = 4 * place;
    let (y0, y1, y2, y3) = reduced_cross(
        q,
        one,
        w,
        from[at],
        from[at + 1],
        from[at + 2],
        from[at + 3],
    );
    to[place] = y0;
    to[place + 1024] = y1;
    to[place + 2048] = y2;
    to[place + 3072] = y3;
}

/// The last pass, with 1024 rows of one place, reduced.
#[inline(never)]
fn last_pass(q: u64, one: Factor, factors: &[Factor; N], from: &[u64], to: &mut [u64])
    requires modulus { q < 2 ^ 40 }
    requires one { IsFactor q one.number one.quotient × (one.number ≡ 1) }
    requires factors { AreFactors q factors.now }
    requires given { IsPolynomial (4096 * q) from.now }
    requires written { length to.old ≡ 4096 }
    ensures placed { ArePlaced q q 1024 1 (numbers_of factors.now) from.now to.new 1024 }
    ensures below { IsPolynomial q to.new }
{
    for c in 0..256 {
        for k in 0..4 {
            let j = 4 * c + k;
            last_step(q, one, weights_of(q, factors, 1024, j), j, from, to);
        }
    }
}

/// Writes the values at the odd powers of the root whose powers the factors are, reduced.
#[inline(never)]
pub(crate) fn values(q: u64, one: Factor, factors: &[Factor; N], a: &mut [u64])
    requires modulus { q < 2 ^ 40 }
    requires one { IsFactor q one.number one.quotient × (one.number ≡ 1) }
    requires factors { AreFactors q factors.now }
    requires polynomial { IsPolynomial q a.old }
    ensures values { (x : ℕ) → (x ^ 4096 + 1) % q ≡ 0 → IsTable q x (numbers_of factors.now)
        → a.new ≡ table 4096 (value_at_odd q 4096 x (slice_index a.old)) }
    ensures reduced { IsPolynomial q a.new }
{
    let mut scratch = [0; N];
    pass(q, factors, 1, 256, a, &mut scratch);
    pass(q, factors, 4, 64, &scratch, a);
    pass(q, factors, 16, 16, a, &mut scratch);
    pass(q, factors, 64, 4, &scratch, a);
    pass(q, factors, 256, 1, a, &mut scratch);
    last_pass(q, one, factors, &scratch, a);
}
