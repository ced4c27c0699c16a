//! Polynomials by their values at the odd powers of the modulus's root, where products are place by place.
ghost use Rattle.std.specs.Prelude.{◌≡◌, ◌+◌, ◌*◌, ◌%◌, ◌<◌, ◌^◌};
ghost use Rattle.psi_residue.specs.Numbers.{degree_inverse_of, modulus_of, root_of};
ghost use Rattle.psi_residue.specs.Polynomials.{IsPolynomial};
ghost use Rattle.negacyclic.specs.Plans.{IsPlan};
ghost use Rattle.negacyclic.specs.Transforms.{polynomial_of, values_of, with_products};

use crate::factors::reduced_product;
use crate::forward_passes::values;
use crate::inverse_passes::coefficients;
use crate::plans::{Plan, plan_of};
use psi_residue::{Modulus, N};

/// Writes a polynomial's values over its coefficients: place j becomes the value at the power 2j + 1 of the modulus's root,
/// whose 4096th power is -1 (psi_residue's `root_of`), in this order, reduced. The slice has 4096 coefficients below the
/// modulus, the constant first. It takes no memory and is never refused.
pub fn forward(m: Modulus, a: &mut [u64])
    requires { IsPolynomial (modulus_of m) a.old }
    ensures values { a.new ≡ values_of m a.old }
    ensures reduced { IsPolynomial (modulus_of m) a.new }
    ensures undone { polynomial_of m a.new ≡ a.old }
{
    let plan = plan_of(m);
    values(plan.modulus, plan.one, plan.factors, a);
}

/// Undoes `forward`: writes over 4096 values the coefficients of the polynomial that has them at the odd powers of the
/// modulus's root, reduced. The slice has 4096 values below the modulus. It takes no memory and is never refused.
pub fn inverse(m: Modulus, a: &mut [u64])
    requires { IsPolynomial (modulus_of m) a.old }
    ensures polynomial { a.new ≡ polynomial_of m a.old }
    ensures reduced { IsPolynomial (modulus_of m) a.new }
    ensures undone { values_of m a.new ≡ a.old }
{
    let plan = plan_of(m);
    coefficients(plan.modulus, plan.degree_inverse, plan.factors, a);
}

/// Adds the products of `a` and `b`, place by place, to `acc`, modulo the modulus. Each slice has 4096 numbers below the
/// modulus. It takes no memory and is never refused.
pub fn mul_acc(m: Modulus, a: &[u64], b: &[u64], acc: &mut [u64])
    requires first { IsPolynomial (modulus_of m) a.now }
    requires second { IsPolynomial (modulus_of m) b.now }
    requires sum { IsPolynomial (modulus_of m) acc.old }
    ensures sums { acc.new ≡ with_products (modulus_of m) acc.old a.now b.now }
    ensures reduced { IsPolynomial (modulus_of m) acc.new }
{
    let plan = plan_of(m);
    for c in 0..N / 4 {
        for k in 0..4 {
            let i = 4 * c + k;
            acc[i] = with_product(m, plan, acc[i], a[i], b[i]);
        }
    }
}

// The sum and the product of two numbers, modulo the modulus of the plan: what stands from bit 36 on is folded first.
#[inline(always)]
fn with_product(m: Modulus, plan: Plan, sum: u64, a: u64, b: u64) -> u64
    requires plan { IsPlan (modulus_of m) (root_of m) (degree_inverse_of m) plan }
    requires sum { sum < modulus_of m }
    requires first { a < modulus_of m }
    requires second { b < modulus_of m }
    ensures sum { result ≡ (sum + a * b) % modulus_of m }
{
    let whole = a as u128 * b as u128 + sum as u128;
    let high = (whole >> 36) as u64;
    let low = (whole % (1 << 36)) as u64;
    reduced_product(plan.modulus, plan.one, high * plan.fold + low)
}
