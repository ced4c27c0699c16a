//! Encryption from a seed.
ghost use Rattle.std.specs.Prelude.{◌≡◌, ◌≢◌, ◌<◌, ◌+◌, ◌-◌, ◌%◌, IfOk, pos, length, slice_index_or};
ghost use Rattle.psi_residue.specs.Numbers.{modulus_of, ring_degree, plain_modulus};
ghost use Rattle.psi_residue.specs.declared.numbers.Modulus.TheVariants as moduli;
ghost use Rattle.psi_residue.specs.Polynomials.{IsPolynomial};
ghost use Rattle.psi_residue.specs.Residues.{residue_of};
ghost use Rattle.psi_residue.specs.Ciphertexts.{IsCiphertext};
ghost use Rattle.bfv_core.specs.Encryptions.{Carries};
ghost use Rattle.bfv_core.specs.EncryptedLists.{key_of_seed, hidden, encrypted};

use crate::ciphertext::Ciphertext;
use crate::key::SecretKey;
use crate::polynomials::{add_scaled_to, reduced, residue};
use crate::products::times_values;
use psi_residue::{Modulus, N, value};
use psi_sampler::{error, mask};
use std::alloc::{AllocError, Global};

/// Ciphertext number `c` of the seed, which carries the plaintext `m`, with the seed's mask a and error e, which are
/// `psi_sampler`'s: c1 = a and c0 = -a·s + e + Δ·m, where s is the key. The key is the seed's, `c` is below 2400, and the
/// plaintext has 4096 coefficients below `T`. It fails only for want of memory.
pub fn encrypt(
    alloc: Global,
    key: &SecretKey,
    seed: &[u8; 32],
    c: u32,
    m: &[u32],
) -> Result<Ciphertext, AllocError>
    requires key_of_this_seed { key.now ≡ key_of_seed seed.now }
    requires numbered { c < 2400 }
    requires plaintext { IsPolynomial plain_modulus m.now }
    ensures exact { IfOk result (λ ct. ct ≡ encrypted seed.now c m.now) }
    ensures carries { IfOk result (λ ct. Carries 21 key.now ct m.now) }
    ensures whole { IfOk result IsCiphertext }
{
    let mut c1_first = vec![in alloc; 0; N]?;
    let mut c1_second = vec![in alloc; 0; N]?;
    mask(seed, c, &mut c1_first, &mut c1_second);
    let mut errors = [0; N];
    error(seed, c, &mut errors);
    let mut c0_first = vec![in alloc; 0; N]?;
    hide(Modulus::Q1, &c1_first, key, &errors, m, &mut c0_first);
    let mut c0_second = vec![in alloc; 0; N]?;
    hide(Modulus::Q2, &c1_second, key, &errors, m, &mut c0_second);
    Ok(Ciphertext::of(c0_first, c0_second, c1_first, c1_second))
}

// Writes -a·s + e + Δ·plain modulo `m`, with the mask a, the key s and the error e.
fn hide(m: Modulus, mask: &[u64], key: &SecretKey, errors: &[i8], plain: &[u32], out: &mut [u64])
    requires residues { m ≢ moduli.T }
    requires masked { IsPolynomial (modulus_of m) mask.now }
    requires as_many { length errors.now ≡ ring_degree }
    requires plaintext { IsPolynomial plain_modulus plain.now }
    requires places { length out.now ≡ ring_degree }
    ensures hidden { out.new ≡ hidden (modulus_of m) mask.now key.now
        (λ k. slice_index_or errors.now k (pos 0)) plain.now }
    ensures polynomial { IsPolynomial (modulus_of m) out.new }
{
    times_values(m, mask, key.values(m), out);
    for (i, error) in errors.iter().enumerate() {
        out[i] = masked_error(m, out[i], *error);
    }
    add_scaled_to(m, plain, out);
}

// An error less a coefficient of the product of mask and key.
#[inline(always)]
fn masked_error(m: Modulus, product: u64, error: i8) -> u64
    requires { product < modulus_of m }
    ensures difference { result ≡ (residue_of (modulus_of m) error + (modulus_of m - product)) %
        modulus_of m }
    ensures below { result < modulus_of m }
{
    let modulus = value(m);
    reduced(modulus, residue(m, error) + (modulus - product))
}
