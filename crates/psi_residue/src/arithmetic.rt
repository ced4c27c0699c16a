ghost use Rattle.std.specs.Prelude.{◌≡◌, ◌+◌, ◌-◌, ◌*◌, ◌%◌, ◌<◌, ◌^◌};
ghost use Rattle.psi_residue.specs.Numbers.{modulus_of};

use crate::numbers::{Modulus, value};

/// The sum of `a` and `b` modulo `m`. Both are below the modulus.
pub fn add(m: Modulus, a: u64, b: u64) -> u64
    requires first_below { a < modulus_of m }
    requires second_below { b < modulus_of m }
    ensures sum { result ≡ (a + b) % modulus_of m }
    ensures below { result < modulus_of m }
{
    (a + b) % value(m)
}

/// The difference of `a` and `b` modulo `m`. Both are below the modulus.
pub fn sub(m: Modulus, a: u64, b: u64) -> u64
    requires first_below { a < modulus_of m }
    requires second_below { b < modulus_of m }
    ensures difference { result ≡ (a + (modulus_of m - b)) % modulus_of m }
    ensures below { result < modulus_of m }
{
    let modulus = value(m);
    (a + (modulus - b)) % modulus
}

/// The product of `a` and `b` modulo `m`. Both are below the modulus.
pub fn mul(m: Modulus, a: u64, b: u64) -> u64
    requires first_below { a < modulus_of m }
    requires second_below { b < modulus_of m }
    ensures product { result ≡ (a * b) % modulus_of m }
    ensures below { result < modulus_of m }
{
    ((a as u128 * b as u128) % value(m) as u128) as u64
}

/// The power of `a` with the exponent `e` modulo `m`, which is 1 for the exponent 0. `a` is below the modulus.
pub fn pow(m: Modulus, a: u64, e: u64) -> u64
    requires { a < modulus_of m }
    ensures power { result ≡ a ^ e % modulus_of m }
    ensures below { result < modulus_of m }
{
    let mut power = 1;
    let mut square = a;
    let mut rest = e;
    while rest > 0 {
        if rest % 2 == 1 {
            power = mul(m, power, square);
        }
        square = mul(m, square, square);
        rest /= 2;
    }
    power
}
