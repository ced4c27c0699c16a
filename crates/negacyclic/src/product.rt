ghost use Rattle.std.specs.Prelude.{◌≡◌, ◌+◌, ◌-◌, ◌%◌, ◌<◌, ◌≤◌, ◌^◌, length};
ghost use Rattle.psi_residue.specs.Numbers.{modulus_of, ring_degree};
ghost use Rattle.psi_residue.specs.Polynomials.{IsPolynomial};
ghost use Rattle.psi_residue.specs.Ring.{conv, product};

use psi_residue::{Modulus, N, value};

/// Writes the product of `a` and `b`, modulo `x^4096 + 1` and the modulus, into `out`: coefficient k is the sum of
/// `a[i] * b[j]` over i + j = k less the sum over i + j = k + 4096 (Fan and Vercauteren 2012).
/// Each slice has 4096 coefficients, the constant first; those of `a` and `b` are below the modulus, and so are those
/// that are written. What `out` held does not matter. It takes no memory and is never refused.
pub fn product_plain(m: Modulus, a: &[u64], b: &[u64], out: &mut [u64])
    requires first { IsPolynomial (modulus_of m) a.now }
    requires second { IsPolynomial (modulus_of m) b.now }
    requires room { length out.old ≡ ring_degree }
    ensures product { out.new ≡ product (modulus_of m) ring_degree a.now b.now }
    ensures reduced { IsPolynomial (modulus_of m) out.new }
{
    for k in 0..N {
        out[k] = difference(m, low_sum(m, a, b, k), high_sum(m, a, b, k));
    }
}

// The sum of a[i] * b[j] over i + j = k.
fn low_sum(m: Modulus, a: &[u64], b: &[u64], k: usize) -> u128
    requires first { IsPolynomial (modulus_of m) a.now }
    requires second { IsPolynomial (modulus_of m) b.now }
    requires place { k < ring_degree }
    ensures sum { result ≡ conv a.now b.now k }
    ensures bound { result ≤ 2 ^ 84 }
{
    let mut sum = 0;
    for i in 0..k + 1 {
        sum += a[i] as u128 * b[k - i] as u128;
    }
    sum
}

// The sum of a[i] * b[j] over i + j = k + 4096.
fn high_sum(m: Modulus, a: &[u64], b: &[u64], k: usize) -> u128
    requires first { IsPolynomial (modulus_of m) a.now }
    requires second { IsPolynomial (modulus_of m) b.now }
    requires place { k < ring_degree }
    ensures { result ≡ conv a.now b.now (k + ring_degree) }
{
    let mut sum = 0;
    for i in k + 1..N {
        sum += a[i] as u128 * b[k + N - i] as u128;
    }
    sum
}

// `low` less `high`, modulo `m`.
fn difference(m: Modulus, low: u128, high: u128) -> u64
    requires bound { low ≤ 2 ^ 84 }
    ensures difference { result ≡ (low + (modulus_of m - high % modulus_of m)) % modulus_of m }
    ensures below { result < modulus_of m }
{
    let modulus = value(m) as u128;
    ((low + (modulus - high % modulus)) % modulus) as u64
}
