//! Polynomials modulo one of the moduli.
ghost use Rattle.std.specs.Prelude.{◌≡◌, ◌*◌, ◌+◌, ◌%◌, ◌<◌, ◌^◌, length};
ghost use Rattle.psi_residue.specs.Numbers.{modulus_of, plain_modulus, ring_degree, scale};
ghost use Rattle.psi_residue.specs.Polynomials.{IsPolynomial};
ghost use Rattle.psi_residue.specs.Residues.{residue_of, residues_of};
ghost use Rattle.bfv_core.specs.EncryptedLists.{added, scaled};

use negacyclic::mul_acc;
use psi_residue::{DELTA, Modulus, N, value};

/// The residue of a small whole number.
pub(crate) fn residue(m: Modulus, x: i8) -> u64
    ensures residue { result ≡ residue_of (modulus_of m) x }
    ensures below { result < modulus_of m }
{
    let size = u64::from(x.unsigned_abs());
    if x < 0 { value(m) - size } else { size }
}

/// The residues of small whole numbers.
pub(crate) fn write_residues(m: Modulus, xs: &[i8], out: &mut [u64])
    requires given { length xs.now ≡ ring_degree }
    requires places { length out.now ≡ ring_degree }
    ensures residues { out.new ≡ residues_of (modulus_of m) xs.now }
    ensures polynomial { IsPolynomial (modulus_of m) out.new }
{
    for (i, x) in xs.iter().enumerate() {
        out[i] = residue(m, *x);
    }
}

/// A number below twice the modulus, reduced.
#[inline(always)]
pub(crate) fn reduced(modulus: u64, x: u64) -> u64
    requires { x < 2 * modulus }
    ensures residue { result ≡ x % modulus }
    ensures below { result < modulus }
{
    if x < modulus { x } else { x - modulus }
}

/// Adds a polynomial to another one.
pub(crate) fn add_to(m: Modulus, a: &[u64], out: &mut [u64])
    requires first { IsPolynomial (modulus_of m) a.now }
    requires second { IsPolynomial (modulus_of m) out.now }
    ensures sum { out.new ≡ added (modulus_of m) a.now out.old }
    ensures polynomial { IsPolynomial (modulus_of m) out.new }
{
    let modulus = value(m);
    for (i, x) in a.iter().enumerate() {
        out[i] = reduced(modulus, *x + out[i]);
    }
}

/// A plaintext's coefficients in words of 64 bits.
pub(crate) fn write_wide(plain: &[u32], out: &mut [u64])
    requires { length plain.now ≡ length out.now }
    ensures { out.new ≡ plain.now }
{
    for (i, x) in plain.iter().enumerate() {
        out[i] = u64::from(*x);
    }
}

/// Adds the scale times a plaintext to a polynomial.
pub(crate) fn add_scaled_to(m: Modulus, plain: &[u32], out: &mut [u64])
    requires plaintext { IsPolynomial plain_modulus plain.now }
    requires polynomial { IsPolynomial (modulus_of m) out.now }
    ensures sum { out.new ≡ added (modulus_of m) out.old (scaled (modulus_of m) plain.now) }
    ensures polynomial { IsPolynomial (modulus_of m) out.new }
{
    let mut wide = [0; N];
    write_wide(plain, &mut wide);
    let scales = [DELTA % value(m); N];
    mul_acc(m, &scales, &wide, out);
}
