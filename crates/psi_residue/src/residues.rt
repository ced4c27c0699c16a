ghost use Rattle.std.specs.Prelude.{◌≡◌, ◌%◌, ◌<◌};
ghost use Rattle.psi_residue.specs.Numbers.{first_modulus, second_modulus, cipher_modulus};
ghost use Rattle.psi_residue.specs.Residues.{composed};

use crate::arithmetic::{mul, sub};
use crate::numbers::{Modulus, Q1, Q2};

// The inverse of `Q1` modulo `Q2`.
const INVERSE: u64 = 42540076863;

/// The number below `Q` with the residues `a` modulo `Q1` and `b` modulo `Q2`. There is one such number alone (the
/// Chinese remainder theorem). `a` is below `Q1` and `b` below `Q2`.
pub fn compose(a: u64, b: u64) -> u128
    requires first_below { a < first_modulus }
    requires second_below { b < second_modulus }
    ensures composed { result ≡ composed a b }
    ensures first { result % first_modulus ≡ a }
    ensures second { result % second_modulus ≡ b }
    ensures below { result < cipher_modulus }
{
    let rest = mul(Modulus::Q2, sub(Modulus::Q2, b, a % Q2), INVERSE);
    u128::from(a) + u128::from(Q1) * u128::from(rest)
}

/// The residues of `x` modulo `Q1` and `Q2`. `x` is below `Q`.
pub fn split(x: u128) -> (u64, u64)
    requires { x < cipher_modulus }
    ensures first { result.0 ≡ x % first_modulus }
    ensures second { result.1 ≡ x % second_modulus }
    ensures undone { composed result.0 result.1 ≡ x }
{
    ((x % u128::from(Q1)) as u64, (x % u128::from(Q2)) as u64)
}
