//! The passes of the inverse transform, which are those of the forward one in reverse order, each undone. The inverses of
//! the factors stand in the same table, read backwards: the inverse of place L + j is minus place 2·L - 1 - j.
ghost use Rattle.std.specs.Prelude.{◌≡◌, ℕ, ◌+◌, ◌-◌, ◌*◌, ◌%◌, ◌<◌, ◌≤◌, ◌^◌, length, slice_index};
ghost use Rattle.psi_residue.specs.Polynomials.{IsPolynomial};
ghost use Rattle.psi_residue.specs.Slots.{coefficient_from};
ghost use Rattle.psi_residue.specs.Sums.{table};
ghost use Rattle.negacyclic.specs.Butterflies.{AreFourBelow, AreFactors, AreReplaced, AreUncrossed, AreWeights, IsFactor, IsTable, IsUncrossed, StepsBelow, StepsKept, numbers_of};

use crate::factors::{Factor, Weights, product, reduced_product};
use psi_residue::N;

/// Both stages at four numbers, undone. `top` is a multiple of the modulus.
#[inline(always)]
fn uncross(q: u64, top: u64, w: Weights, y0: u64, y1: u64, y2: u64, y3: u64) -> (u64, u64, u64, u64)
    requires modulus { q ≤ top }
    requires multiple { top % q ≡ 0 }
    requires small { top < 2 ^ 60 }
    requires weights { AreWeights q w }
    requires below { AreFourBelow top y0 y1 y2 y3 }
    ensures uncrossed { IsUncrossed q w.first.number w.second.number w.third.number y0 y1 y2 y3
        result.0 result.1 result.2 result.3 }
    ensures below { AreFourBelow (4 * top) result.0 result.1 result.2 result.3 }
{
    let a0 = y0 + y2;
    let b0 = y1 + y3;
    let a1 = product(q, w.second, y2 + (top - y0));
    let b1 = product(q, w.third, y3 + (top - y1));
    let x2 = product(q, w.first, b0 + (2 * top - a0));
    let x3 = product(q, w.first, b1 + (2 * q - a1));
    (a0 + b0, a1 + b1, x2, x3)
}

/// Both stages of the four quarters at a place, undone, into the four places from `at` on, h apart.
#[inline(always)]
fn step(
    q: u64,
    top: u64,
    w: Weights,
    h: usize,
    at: usize,
    place: usize,
    from: &[u64],
    to: &mut [u64],
)
    requires modulus { q ≤ top }
    requires multiple { top % q ≡ 0 }
    requires small { top < 2 ^ 60 }
    requires weights { AreWeights q w }
    requires given { IsPolynomial top from.now }
    requires written { length to.old ≡ 4096 }
    requires apart { 0 < h }
    requires inside { at + 3 * h < 4096 }
    requires place { place < 1024 }
    ensures uncrossed { AreUncrossed q w.first.number w.second.number w.third.number h at place
        from.now to.new }
    ensures below { StepsBelow (4 * top) h at to.new }
    ensures kept { StepsKept h at to.old to.new }
{
    let (x0, x1, x2, x3) = uncross(
        q,
        top,
        w,
        from[place],
        from[place + 1024],
        from[place + 2048],
        from[place + 3072],
    );
    to[at] = x0;
    to[at + h] = x1;
    to[at + 2 * h] = x2;
    to[at + 3 * h] = x3;
}

/// The factors of row j of a pass with l rows, undone: minus their inverses.
#[inline(always)]
fn weights_of(q: u64, factors: &[Factor; N], l: usize, j: usize) -> Weights
    requires factors { AreFactors q factors.now }
    requires row { j < l }
    requires rows { l ≤ 1024 }
    ensures weights { AreWeights q result }
    ensures first { result.first.number ≡ slice_index (numbers_of factors.now) (2 * l - 1 - j) }
    ensures second { result.second.number ≡ slice_index (numbers_of factors.now) (4 * l - 1 - j) }
    ensures third { result.third.number ≡ slice_index (numbers_of factors.now) (3 * l - 1 - j) }
{
    Weights {
        first: factors[2 * l - 1 - j],
        second: factors[4 * l - 1 - j],
        third: factors[3 * l - 1 - j],
    }
}

/// The first pass, with 1024 rows of one place.
#[inline(always)]
fn first_pass(q: u64, factors: &[Factor; N], from: &[u64], to: &mut [u64])
    requires modulus { q < 2 ^ 40 }
    requires factors { AreFactors q factors.now }
    requires given { IsPolynomial q from.now }
    requires written { length to.old ≡ 4096 }
    ensures replaced { AreReplaced q (4 * q) 1024 1 (numbers_of factors.now) from.now to.new 1024 }
    ensures below { IsPolynomial (4 * q) to.new }
{
    for c in 0..256 {
        for k in 0..4 {
            let j = 4 * c + k;
            step(q, q, weights_of(q, factors, 1024, j), 1, 4 * j, j, from, to);
        }
    }
}

/// Row j of a pass with l rows of 4·g places. The inner loop of four keeps the compiler from vectors, whose products of 64
/// bits are slower.
#[inline(always)]
fn row(q: u64, factors: &[Factor; N], l: usize, g: usize, j: usize, from: &[u64], to: &mut [u64])
    requires modulus { q < 2 ^ 40 }
    requires factors { AreFactors q factors.now }
    requires rows { l * g ≡ 256 }
    requires row { j < l }
    requires given { IsPolynomial (4 * g * q) from.now }
    requires written { length to.old ≡ 4096 }
    requires before { AreReplaced q (16 * g * q) l (4 * g) (numbers_of factors.now) from.now to.old
        (j * (4 * g)) }
    ensures replaced { AreReplaced q (16 * g * q) l (4 * g) (numbers_of factors.now) from.now to.new
        ((j + 1) * (4 * g)) }
{
    let w = weights_of(q, factors, l, j);
    let h = 4 * g;
    let top = h as u64 * q;
    for c in 0..g {
        for k in 0..4 {
            let r = 4 * c + k;
            step(q, top, w, h, 4 * (j * h) + r, j * h + r, from, to);
        }
    }
}

/// A pass with l rows of 4·g places.
#[inline(always)]
fn pass(q: u64, factors: &[Factor; N], l: usize, g: usize, from: &[u64], to: &mut [u64])
    requires modulus { q < 2 ^ 40 }
    requires factors { AreFactors q factors.now }
    requires rows { l * g ≡ 256 }
    requires given { IsPolynomial (4 * g * q) from.now }
    requires written { length to.old ≡ 4096 }
    ensures replaced { AreReplaced q (16 * g * q) l (4 * g) (numbers_of factors.now) from.now to.new
        1024 }
    ensures below { IsPolynomial (16 * g * q) to.new }
{
    for j in 0..l {
        row(q, factors, l, g, j, from, to);
    }
}

/// Each number times the factor, reduced.
#[inline(never)]
fn scale(q: u64, factor: Factor, a: &mut [u64])
    requires modulus { q < 2 ^ 40 }
    requires factor { IsFactor q factor.number factor.quotient }
    requires given { length a.old ≡ 4096 }
    ensures scaled { (i : ℕ) → i < 4096
        → slice_index a.new i ≡ (slice_index a.old i * factor.number) % q }
    ensures reduced { IsPolynomial q a.new }
{
    for c in 0..1024 {
        for k in 0..4 {
            let i = 4 * c + k;
            a[i] = reduced_product(q, factor, a[i]);
        }
    }
}

/// Writes the coefficients of the polynomial that has the given values at the odd powers of the root whose powers the
/// factors are, reduced. `degree_inverse` is the inverse of 4096.
#[inline(never)]
pub(crate) fn coefficients(q: u64, degree_inverse: Factor, factors: &[Factor; N], a: &mut [u64])
    requires modulus { q < 2 ^ 40 }
    requires degree_inverse { IsFactor q degree_inverse.number degree_inverse.quotient }
    requires factors { AreFactors q factors.now }
    requires values { IsPolynomial q a.old }
    ensures coefficients { (x y : ℕ) → (x ^ 4096 + 1) % q ≡ 0 → (y ^ 4096 + 1) % q ≡ 0
        → (x * y) % q ≡ 1 % q → IsTable q x (numbers_of factors.now)
        → a.new ≡ table 4096 (coefficient_from q 4096 y degree_inverse.number (slice_index a.old)) }
    ensures reduced { IsPolynomial q a.new }
{
    let mut scratch = [0; N];
    first_pass(q, factors, a, &mut scratch);
    pass(q, factors, 256, 1, &scratch, a);
    pass(q, factors, 64, 4, a, &mut scratch);
    pass(q, factors, 16, 16, &scratch, a);
    pass(q, factors, 4, 64, a, &mut scratch);
    pass(q, factors, 1, 256, &scratch, a);
    scale(q, degree_inverse, a);
}
