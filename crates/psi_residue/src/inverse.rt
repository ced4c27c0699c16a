ghost use Rattle.std.specs.Prelude.{◌≡◌, ◌*◌, ◌%◌, ◌<◌, ◌↔◌, IsSome, IfSome};
ghost use Rattle.psi_residue.specs.Numbers.{plain_modulus};

use crate::arithmetic::{mul, sub};
use crate::numbers::{Modulus, T};

/// The inverse of `a` modulo `T`, which is the number below `T` whose product with `a` is 1 modulo `T`.
/// `a` is below `T`. There is none exactly where `a` is 0.
pub fn inv_t(a: u64) -> Option<u64>
    requires { a < T }
    ensures found { IsSome result ↔ (0 < a) }
    ensures inverse { IfSome result (λ x. (a * x) % T ≡ 1) }
    ensures below { IfSome result (λ x. x < T) }
{
    if a == 0 {
        return None;
    }
    Some(euclid(a))
}

// Euclid's algorithm on the modulus and `a`: each remainder is a multiple of `a`, and the last one that is not 0 is 1.
fn euclid(a: u64) -> u64
    requires nonzero { 0 < a }
    requires below { a < T }
    ensures inverse { (a * result) % T ≡ 1 }
    ensures below { result < T }
{
    let mut high = T;
    let mut low = a;
    let mut of_high = 0;
    let mut of_low = 1;
    while low > 0 {
        let quotient = high / low;
        let taken = mul(Modulus::T, quotient % T, of_low);
        let next = sub(Modulus::T, of_high, taken);
        let rest = high % low;
        high = low;
        low = rest;
        of_high = of_low;
        of_low = next;
    }
    of_high
}
