//! Products modulo `x^4096 + 1`, by values at the odd powers of the modulus's root.
ghost use Rattle.std.specs.Prelude.{◌≡◌, List, ℕ, length};
ghost use Rattle.psi_residue.specs.Numbers.{modulus_of, ring_degree};
ghost use Rattle.psi_residue.specs.Polynomials.{IsPolynomial};
ghost use Rattle.psi_residue.specs.Ring.{product};
ghost use Rattle.negacyclic.specs.Transforms.{values_of};

use negacyclic::{forward, inverse, mul_acc};
use psi_residue::{Modulus, N};

/// Writes the product of `a` and the polynomial that has the given values.
pub(crate) fn times_values(m: Modulus, a: &[u64], values: &[u64], out: &mut [u64])
    requires first { IsPolynomial (modulus_of m) a.now }
    requires second { IsPolynomial (modulus_of m) values.now }
    requires room { length out.old ≡ ring_degree }
    ensures product { (b : List ℕ) → IsPolynomial (modulus_of m) b → values.now ≡ values_of m b
        → out.new ≡ product (modulus_of m) ring_degree a.now b }
    ensures reduced { IsPolynomial (modulus_of m) out.new }
{
    let mut first = [0; N];
    first.copy_from_slice(a);
    forward(m, &mut first);
    let mut sum = [0; N];
    mul_acc(m, &first, values, &mut sum);
    inverse(m, &mut sum);
    out.copy_from_slice(&sum);
}

/// Writes the product of `a` and `b`.
pub(crate) fn write_product(m: Modulus, a: &[u64], b: &[u64], out: &mut [u64])
    requires first { IsPolynomial (modulus_of m) a.now }
    requires second { IsPolynomial (modulus_of m) b.now }
    requires room { length out.old ≡ ring_degree }
    ensures product { out.new ≡ product (modulus_of m) ring_degree a.now b.now }
    ensures reduced { IsPolynomial (modulus_of m) out.new }
{
    let mut values = [0; N];
    values.copy_from_slice(b);
    forward(m, &mut values);
    times_values(m, a, &values, out);
}
