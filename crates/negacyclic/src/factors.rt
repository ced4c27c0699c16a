//! Factors that are known beforehand, and products with them without a division (Shoup's products).
ghost use Rattle.std.specs.Prelude.{◌≡◌, ◌*◌, ◌%◌, ◌<◌, ◌≤◌, ◌^◌};
ghost use Rattle.negacyclic.specs.Butterflies.{IsFactor};

/// A number below a modulus, and the quotient of that number times 2^64 by the modulus, rounded down.
#[derive(Clone, Copy)]
pub struct Factor {
    /// The number.
    pub number: u64,
    /// The quotient.
    pub quotient: u64,
}

/// The three factors that two stages of a transform need at four places.
#[derive(Clone, Copy)]
pub struct Weights {
    /// The factor of the first stage forward, and of the second one backward.
    pub first: Factor,
    /// The factor of the other stage at the first and the third place.
    pub second: Factor,
    /// The factor of the other stage at the second and the fourth place.
    pub third: Factor,
}

// A list of factors, each as its number and its quotient.
macro_rules! factors {
    ($($number:literal $quotient:literal),*) => {
        [$(Factor { number: $number, quotient: $quotient }),*]
    };
}

pub(crate) use factors;

/// `x` times the factor, modulo `q` but for one `q`: it is below twice the modulus. The difference of two products is
/// taken in 64 bits, where it fits though they do not.
#[inline(always)]
pub(crate) fn product(q: u64, factor: Factor, x: u64) -> u64
    requires modulus { q < 2 ^ 62 }
    requires factor { IsFactor q factor.number factor.quotient }
    ensures product { result % q ≡ (x * factor.number) % q }
    ensures below { result < 2 * q }
{
    let high = ((x as u128 * factor.quotient as u128) >> 64) as u64;
    x.wrapping_mul(factor.number)
        .wrapping_sub(high.wrapping_mul(q))
}

/// `x` times the factor, modulo `q`.
#[inline(always)]
pub(crate) fn reduced_product(q: u64, factor: Factor, x: u64) -> u64
    requires modulus { q < 2 ^ 62 }
    requires factor { IsFactor q factor.number factor.quotient }
    ensures product { result ≡ (x * factor.number) % q }
    ensures below { result < q }
{
    let product = product(q, factor, x);
    if product < q { product } else { product - q }
}
