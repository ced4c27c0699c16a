//! Decryption.
ghost use Rattle.std.specs.Prelude.{◌≡◌, ◌≢◌, ◌+◌, ◌*◌, ◌<◌, length};
ghost use Rattle.psi_residue.specs.Sums.{table};
ghost use Rattle.psi_residue.specs.Numbers.{first_modulus, modulus_of, plain_modulus, ring_degree, second_modulus};
ghost use Rattle.psi_residue.specs.declared.numbers.Modulus.TheVariants as moduli;
ghost use Rattle.psi_residue.specs.Residues.{composed};
ghost use Rattle.psi_residue.specs.Polynomials.{IsPolynomial};
ghost use Rattle.bfv_core.specs.Encryptions.{phase_residue, opened_coefficient, opening};

use crate::ciphertext::Ciphertext;
use crate::key::SecretKey;
use crate::polynomials::add_to;
use crate::products::times_values;
use psi_residue::{Modulus, N, Q1, Q2, T};

// The inverse of `Q1` modulo `Q2`.
const INVERSE: u64 = 42540076863;

// 2^36 modulo `Q2`.
const FOLD: u64 = 245759;

/// Writes the plaintext that the ciphertext opens to under the key: each coefficient of c0 + c1·s modulo the ciphertext
/// modulus, times `T` divided by `Q`, rounded to the nearest whole number, modulo `T`. Every ciphertext opens to some
/// plaintext. `out` has 4096 places. It takes no memory.
pub fn decrypt(key: &SecretKey, ct: &Ciphertext, out: &mut [u32])
    requires { length out.now ≡ ring_degree }
    ensures opening { out.new ≡ opening key.now ct.now }
    ensures plaintext { IsPolynomial plain_modulus out.new }
{
    let mut first = [0; N];
    let mut second = [0; N];
    write_phase(Modulus::Q1, key, ct.residues(0), ct.residues(2), &mut first);
    write_phase(
        Modulus::Q2,
        key,
        ct.residues(1),
        ct.residues(3),
        &mut second,
    );
    for (i, place) in out.iter_mut().enumerate() {
        *place = opened(first[i], second[i]);
    }
}

// Writes c0 + c1·s modulo `m`, where s is the key.
fn write_phase(m: Modulus, key: &SecretKey, c0: &[u64], c1: &[u64], out: &mut [u64])
    requires residues { m ≢ moduli.T }
    requires first { IsPolynomial (modulus_of m) c0.now }
    requires second { IsPolynomial (modulus_of m) c1.now }
    requires places { length out.now ≡ ring_degree }
    ensures phase { out.new ≡ table ring_degree
        (phase_residue (modulus_of m) key.now c0.now c1.now) }
    ensures polynomial { IsPolynomial (modulus_of m) out.new }
{
    times_values(m, c1, key.values(m), out);
    add_to(m, c0, out);
}

// What the coefficient with the residues a and b opens to: `T` times it divided by `Q`, rounded to the nearest whole
// number, modulo `T`. The coefficient is a + `Q1`·rest, so `T` times it divided by `Q1` needs no more than 64 bits.
#[inline(always)]
fn opened(a: u64, b: u64) -> u32
    requires first { a < first_modulus }
    requires second { b < second_modulus }
    ensures nearest { result ≡ opened_coefficient (composed a b) }
    ensures below { result < plain_modulus }
{
    let rest = multiple(a, b);
    ((2 * T * a / Q1 + 2 * T * rest + Q2) / (2 * Q2) % T) as u32
}

// How often `Q1` goes into the number below `Q` with the residues a and b. The division is by a constant, after what
// stands from bit 36 on was folded.
#[inline(always)]
fn multiple(a: u64, b: u64) -> u64
    requires first { a < first_modulus }
    requires second { b < second_modulus }
    ensures whole { a + first_modulus * result ≡ composed a b }
    ensures below { result < second_modulus }
{
    let difference = b + (2 * Q2 - a);
    let product = difference as u128 * INVERSE as u128;
    let high = (product >> 36) as u64;
    let low = (product % (1 << 36)) as u64;
    (high * FOLD + low) % Q2
}
