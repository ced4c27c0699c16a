//! One coefficient: its quotient by the second modulus, rounded, without its low bits.
ghost use Rattle.std.specs.Prelude.{◌≡◌, ◌+◌, ◌*◌, ◌/◌, ◌%◌, ◌<◌, ◌≤◌};
ghost use Rattle.psi_residue.specs.Numbers.{first_modulus, second_modulus};
ghost use Rattle.psi_residue.specs.Residues.{composed};
ghost use Rattle.psi_residue.specs.ShortCiphertexts.{rounded, shortened};

use psi_residue::{Q1, Q2};

// The inverse of `Q2` modulo `Q1`.
const INVERSE: u64 = 26179219651;

// The quotient of that inverse times 2^64 by `Q1`, rounded down.
const QUOTIENT: u64 = 7027438304261431686;

/// The coefficient with the residues a and b, rounded to the modulus `Q1`, without its `drop` low bits.
#[inline(always)]
pub(crate) fn shortened(drop: u8, a: u64, b: u64) -> u64
    requires dropped { drop ≤ 20 }
    requires first { a < first_modulus }
    requires second { b < second_modulus }
    ensures { result ≡ shortened drop (composed a b) }
{
    rounded(a, b) >> drop
}

// The coefficient with the residues a and b, divided by `Q2` and rounded to the nearest whole number, modulo `Q1`.
#[inline(always)]
fn rounded(a: u64, b: u64) -> u64
    requires first { a < first_modulus }
    requires second { b < second_modulus }
    ensures { result ≡ rounded (composed a b) }
{
    let nearest = quotient(a, b) + carry(b);
    if nearest < Q1 { nearest } else { nearest - Q1 }
}

// What rounding adds to the quotient of a number by `Q2`, where b is left: 1 from the half of `Q2` on.
#[inline(always)]
fn carry(b: u64) -> u64
    requires { b < second_modulus }
    ensures { result ≡ 2 * b / second_modulus }
{
    if 2 * b > Q2 { 1 } else { 0 }
}

// The quotient by `Q2` of the number below `Q` with the residues a and b, but for one `Q1`: a - b times the inverse of `Q2`, by
// Shoup's product.
#[inline(always)]
fn quotient(a: u64, b: u64) -> u64
    requires first { a < first_modulus }
    requires second { b < second_modulus }
    ensures whole { b + second_modulus * (result % first_modulus) ≡ composed a b }
    ensures below { result < first_modulus + 1024 }
{
    let difference = a + (2 * Q1 - b);
    let high = ((difference as u128 * QUOTIENT as u128) >> 64) as u64;
    difference
        .wrapping_mul(INVERSE)
        .wrapping_sub(high.wrapping_mul(Q1))
}
