//! Products that Python's whole numbers gave, and transforms against the double sums.
ghost use Rattle.std.specs.Prelude.{◌≡◌, ◌<◌, ◌≤◌};
ghost use Rattle.psi_residue.specs.Numbers.{modulus_of, ring_degree};
ghost use Rattle.psi_residue.specs.Polynomials.{IsPolynomial};
ghost use Rattle.psi_residue.specs.Ring.{product};

use super::*;
use psi_residue::{Modulus, N, Q1, Q2, T, mul, value};

// A modulus, two monomials, each as its place and its coefficient, and the one that is their product.
// The first three rows are x^4095 times x, which is -1.
const MONOMIALS: [(Modulus, (usize, u64), (usize, u64), (usize, u64)); 7] = [
    (Modulus::Q1, (4095, 1), (1, 1), (0, Q1 - 1)),
    (Modulus::Q2, (4095, 1), (1, 1), (0, Q2 - 1)),
    (Modulus::T, (4095, 1), (1, 1), (0, T - 1)),
    (Modulus::Q1, (0, Q1 - 1), (0, Q1 - 1), (0, 1)),
    (Modulus::Q2, (2048, Q2 - 1), (2047, 2), (4095, Q2 - 2)),
    (Modulus::T, (4095, T - 1), (4095, T - 1), (4094, T - 1)),
    (
        Modulus::Q1,
        (4095, Q1 - 1),
        (4095, 12345678901),
        (4094, 12345678901),
    ),
];

// A modulus, two polynomials whose coefficient i is start + step * i, each as its start and its step, and the product's
// coefficients 0, 1, 2047 and 4095.
const LINES: [(Modulus, (u64, u64), (u64, u64), [u64; 4]); 4] = [
    (
        Modulus::Q1,
        (Q1 - 1, 0),
        (Q1 - 1, 0),
        [68719398915, 68719398917, 0, 4096],
    ),
    (
        Modulus::Q2,
        (3, 45812820652),
        (Q2 - 1, 22906410325),
        [50925528400, 20387373494, 53457638742, 17797429931],
    ),
    (
        Modulus::T,
        (65535, 40000),
        (256, 4097),
        [54193, 56944, 61360, 16755],
    ),
    (
        Modulus::Q1,
        (0, 1),
        (1, Q1 - 1),
        [11444858880, 11453241346, 17171480576, 57282930689],
    ),
];

// The polynomial with one coefficient, at a place.
fn monomial(m: Modulus, place: usize, coefficient: u64) -> [u64; N]
    requires place { place < ring_degree }
    requires below { coefficient < modulus_of m }
    ensures { IsPolynomial (modulus_of m) result }
{
    let mut polynomial = [0; N];
    polynomial[place] = coefficient;
    polynomial
}

// The polynomial whose coefficient i is start + step * i.
fn line(m: Modulus, start: u64, step: u64) -> [u64; N]
    requires start { start < modulus_of m }
    requires step { step < modulus_of m }
    ensures { IsPolynomial (modulus_of m) result }
{
    let modulus = value(m);
    let mut polynomial = [0; N];
    for i in 0..N {
        polynomial[i] = (start + step * i as u64) % modulus;
    }
    polynomial
}

// The polynomial whose coefficient i is the power i of a number.
fn powers(m: Modulus, base: u64) -> [u64; N]
    requires { base < modulus_of m }
    ensures { IsPolynomial (modulus_of m) result }
{
    let mut polynomial = [1; N];
    let mut power = 1;
    for i in 0..N {
        polynomial[i] = power;
        power = mul(m, power, base);
    }
    polynomial
}

// The product by values at the odd powers of the root.
fn product_by_values(m: Modulus, a: &[u64; N], b: &[u64; N]) -> [u64; N]
    requires first { IsPolynomial (modulus_of m) a.now }
    requires second { IsPolynomial (modulus_of m) b.now }
    ensures { result ≡ product (modulus_of m) ring_degree a.now b.now }
{
    let mut first = *a;
    let mut second = *b;
    let mut sum = [0; N];
    forward(m, &mut first);
    forward(m, &mut second);
    mul_acc(m, &first, &second, &mut sum);
    inverse(m, &mut sum);
    sum
}

#[test]
fn products_of_monomials(rt: HostRuntime) {
    let mut out = [0; N];
    for (m, (i, x), (j, y), (place, want)) in MONOMIALS {
        assert!(rt; i < N);
        assert!(rt; j < N);
        assert!(rt; place < N);
        assert!(rt; x < value(m));
        assert!(rt; y < value(m));
        product_plain(m, &monomial(m, i, x), &monomial(m, j, y), &mut out);
        assert_eq!(rt; out[place], want);
        assert_eq!(rt; out.iter().filter(|c| **c != 0).count(), 1);
        assert!(rt; product_by_values(m, &monomial(m, i, x), &monomial(m, j, y)) == out);
    }
}

#[test]
fn products_of_lines(rt: HostRuntime) {
    let mut out = [0; N];
    for (m, (start, step), (other_start, other_step), want) in LINES {
        assert!(rt; start < value(m));
        assert!(rt; step < value(m));
        assert!(rt; other_start < value(m));
        assert!(rt; other_step < value(m));
        product_plain(
            m,
            &line(m, start, step),
            &line(m, other_start, other_step),
            &mut out,
        );
        assert_eq!(rt; [out[0], out[1], out[2047], out[4095]], want);
    }
}

// All greatest coefficients, one coefficient, and coefficients without a pattern.
#[test]
fn products_by_values(rt: HostRuntime) {
    let mut out = [0; N];
    for m in [Modulus::Q1, Modulus::Q2, Modulus::T] {
        let greatest = line(m, value(m) - 1, 0);
        let one = monomial(m, 2049, value(m) - 1);
        let mixed = powers(m, 43210);
        for (a, b) in [(&greatest, &greatest), (&one, &mixed), (&mixed, &greatest)] {
            product_plain(m, a, b, &mut out);
            assert!(rt; product_by_values(m, a, b) == out);
        }
    }
}

// The values of x are the odd powers of the root: 6561 and, at the end, its inverse.
#[test]
fn values_of_x(rt: HostRuntime) {
    let x = monomial(Modulus::T, 1, 1);
    let mut values = x;
    forward(Modulus::T, &mut values);
    assert_eq!(rt; [values[0], values[4095]], [6561, 58355]);
    inverse(Modulus::T, &mut values);
    assert!(rt; values == x);
}

// The laws have no effect. What one of them says, at two polynomials: factors change places.
#[test]
fn laws(rt: HostRuntime) {
    values_multiply();
    products_form_a_ring();
    transforms_multiply();
    let m = Modulus::Q2;
    let (a, b) = (line(m, 3, 45812820652), line(m, Q2 - 1, 22906410325));
    let mut product = [0; N];
    product_plain(m, &a, &b, &mut product);
    let mut turned = [0; N];
    product_plain(m, &b, &a, &mut turned);
    assert!(rt; product == turned);
}
