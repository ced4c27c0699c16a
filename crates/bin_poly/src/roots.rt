//! Products of `(x - a)` over roots `a`, built and changed root by root.
ghost use Rattle.std.specs.Prelude.{◌≡◌, ℕ, ◌+◌, ◌<◌, ◌≤◌, ◌^◌, ◌∷◌, List, length, slice_index};
ghost use Rattle.std.specs.List.{All};
ghost use Rattle.psi_residue.specs.Numbers.{plain_modulus};
ghost use Rattle.psi_residue.specs.Polynomials.{value_at};
ghost use Rattle.psi_residue.specs.RootPolynomials.{root_coefficient};
ghost use Rattle.bin_poly.specs.Roots.{times_root_coefficient, HasRoots, without};

use crate::modular::{add, mul_root, sub};

/// Fills `out` with the product of `(x - a)` over the roots `a`, which is 1 where there are none. `out` is one place
/// longer than `roots`.
pub fn from_roots(roots: &[u16], out: &mut [u32])
    requires { length out.now ≡ length roots.now + 1 }
    ensures coefficients { HasRoots out.new roots.now }
    ensures below { All (λ c. c < plain_modulus) out.new }
{
    out.fill(0);
    out[0] = 1;
    for (degree, root) in roots.iter().enumerate() {
        times_root(out, degree, *root);
    }
}

/// Multiplies the polynomial by `(x - root)`. Its coefficients are below 65537, those above the degree are 0, and the
/// slice has room for the degree and one more.
pub fn times_root(poly: &mut [u32], degree: usize, root: u16)
    requires room { degree + 1 < length poly.now }
    requires above { (k : ℕ) → degree < k → slice_index poly.now k ≡ 0 }
    requires coefficients_below { All (λ c. c < plain_modulus) poly.now }
    ensures product { (k : ℕ) → slice_index poly.new k ≡ times_root_coefficient root
        (slice_index poly.old) k }
    ensures roots { (roots : List ℕ) → HasRoots poly.old roots → HasRoots poly.new (root ∷ roots) }
    ensures above { (k : ℕ) → degree + 1 < k → slice_index poly.new k ≡ 0 }
    ensures below { All (λ c. c < plain_modulus) poly.new }
{
    let mut low = 0;
    for k in 0..degree + 2 {
        let high = poly[k];
        poly[k] = sub(low, mul_root(high, root));
        low = high;
    }
}

/// Divides the polynomial by `(x - root)`, by synthetic division; `root` is one of its roots. Its degree is at least 1
/// and below the slice's length, its coefficients are below 65537, and those above the degree are 0. The quotient is the
/// only polynomial whose product with `(x - root)` is the one before; its coefficient at the degree is 0.
pub fn divide_root(poly: &mut [u32], degree: usize, root: u16)
    requires not_constant { 1 ≤ degree }
    requires room { degree < length poly.now }
    requires above { (k : ℕ) → degree < k → slice_index poly.now k ≡ 0 }
    requires coefficients_below { All (λ c. c < plain_modulus) poly.now }
    requires is_root { value_at plain_modulus poly.now root ≡ 0 }
    ensures quotient { (k : ℕ) → times_root_coefficient root (slice_index poly.new) k ≡ slice_index
        poly.old k }
    ensures only { (other : List ℕ) → All (λ c. c < plain_modulus) other
        → ((k : ℕ) → times_root_coefficient root (slice_index other) k ≡ slice_index poly.old k)
        → (k : ℕ) → slice_index other k ≡ slice_index poly.new k }
    ensures roots { (roots : List ℕ) → All (λ a. a < 2 ^ 16) roots → HasRoots poly.old roots
        → HasRoots poly.new (without root roots) }
    ensures above { (k : ℕ) → degree ≤ k → slice_index poly.new k ≡ 0 }
    ensures below { All (λ c. c < plain_modulus) poly.new }
{
    let mut quotient = 0;
    for k in (0..degree + 1).rev() {
        let old = poly[k];
        poly[k] = quotient;
        quotient = add(mul_root(quotient, root), old);
    }
}
