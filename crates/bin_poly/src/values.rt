//! Values of polynomials.
ghost use Rattle.std.specs.Prelude.{◌≡◌, ◌<◌};
ghost use Rattle.std.specs.List.{All};
ghost use Rattle.psi_residue.specs.Numbers.{plain_modulus};
ghost use Rattle.psi_residue.specs.Polynomials.{value_at};

use crate::modular::{add, mul};

/// The value of the polynomial at `x`, modulo 65537, by Horner's rule. The coefficients and `x` are below 65537.
pub fn eval(coeffs: &[u32], x: u32) -> u32
    requires coefficients_below { All (λ c. c < plain_modulus) coeffs.now }
    requires place_below { x < plain_modulus }
    ensures value { result ≡ value_at plain_modulus coeffs.now x }
    ensures below { result < plain_modulus }
{
    let mut value = 0;
    for k in (0..coeffs.len()).rev() {
        value = add(mul(value, x), coeffs[k]);
    }
    value
}
