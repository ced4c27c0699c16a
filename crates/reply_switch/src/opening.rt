//! What short ciphertexts open to.
ghost use Rattle.std.specs.Prelude.{◌≡◌, ◌*◌, ◌%◌, ◌<◌, ◌≤◌, [], ◌∷◌, length, replicate, slice_index};
ghost use Rattle.psi_residue.specs.Sums.{table};
ghost use Rattle.psi_residue.specs.Numbers.{first_modulus, plain_modulus, ring_degree};
ghost use Rattle.psi_residue.specs.Polynomials.{IsPolynomial};
ghost use Rattle.psi_residue.specs.Ring.{product};
ghost use Rattle.psi_residue.specs.Residues.{residues_of};
ghost use Rattle.psi_residue.specs.ShortCiphertexts.{IsShortList, greatest_short, restored, restored_list};
ghost use Rattle.bfv_core.specs.ShortOpenings.{opened_short, short_opening};

use bfv_core::SecretKey;
use negacyclic::{forward, inverse, mul_acc};
use psi_residue::{Modulus, N, Q1, T};

/// Writes the plaintext that the short ciphertext with the lists `z0` and `z1` opens to under the key. Each number z stands for
/// z·2^drop and half of 2^drop. Each coefficient of c0 + c1·s modulo `Q1`, times `T` divided by `Q1`, is rounded to the nearest
/// whole number, modulo `T`. `drop` is at most 20, each list has 4096 numbers up to (`Q1` - 1) / 2^drop, and `out` has 4096
/// places. It takes no memory and is never refused.
pub fn open_short(key: &SecretKey, drop: u8, z0: &[u64], z1: &[u64], out: &mut [u32])
    requires dropped { drop ≤ 20 }
    requires c0 { IsShortList drop z0.now }
    requires c1 { IsShortList drop z1.now }
    requires places { length out.now ≡ ring_degree }
    ensures opening { out.new ≡ short_opening drop key.now (z0.now ∷ z1.now ∷ []) }
    ensures plaintext { IsPolynomial plain_modulus out.new }
{
    let mut product = [0; N];
    write_product(key, drop, z1, &mut product);
    for (i, z) in z0.iter().enumerate() {
        out[i] = opened(reduced(reduced(restored(drop, *z)) + product[i]));
    }
}

// Writes the product of the key and the polynomial that the short list stands for, over zeros.
fn write_product(key: &SecretKey, drop: u8, z: &[u64], out: &mut [u64])
    requires dropped { drop ≤ 20 }
    requires short { IsShortList drop z.now }
    requires zeros { out.now ≡ replicate ring_degree 0 }
    ensures product { out.new ≡ product first_modulus ring_degree (restored_list drop z.now)
        (residues_of first_modulus key.now) }
    ensures reduced { IsPolynomial first_modulus out.new }
{
    let mut values = [0; N];
    write_restored(drop, z, &mut values);
    forward(Modulus::Q1, &mut values);
    mul_acc(Modulus::Q1, &values, key.values(Modulus::Q1), out);
    inverse(Modulus::Q1, out);
}

// Writes the polynomial modulo `Q1` that the short list stands for.
fn write_restored(drop: u8, z: &[u64], out: &mut [u64])
    requires dropped { drop ≤ 20 }
    requires short { IsShortList drop z.now }
    requires places { length out.now ≡ ring_degree }
    ensures residues { out.new ≡ table ring_degree
        (λ k. restored drop (slice_index z.now k) % first_modulus) }
    ensures polynomial { IsPolynomial first_modulus out.new }
{
    for (i, z) in z.iter().enumerate() {
        out[i] = reduced(restored(drop, *z));
    }
}

// The middle of the numbers that a number without its `drop` low bits stands for.
#[inline(always)]
fn restored(drop: u8, z: u64) -> u64
    requires dropped { drop ≤ 20 }
    requires within { z ≤ greatest_short drop }
    ensures middle { result ≡ restored drop z }
    ensures below { result < 2 * first_modulus }
{
    let unit = 1 << drop;
    z * unit + unit / 2
}

// A number below twice `Q1`, modulo `Q1`.
#[inline(always)]
fn reduced(x: u64) -> u64
    requires { x < 2 * first_modulus }
    ensures residue { result ≡ x % first_modulus }
    ensures below { result < first_modulus }
{
    if x < Q1 { x } else { x - Q1 }
}

// What a coefficient modulo `Q1` opens to.
#[inline(always)]
fn opened(w: u64) -> u32
    requires { w < first_modulus }
    ensures nearest { result ≡ opened_short w }
    ensures below { result < plain_modulus }
{
    ((2 * T * w + Q1) / (2 * Q1) % T) as u32
}
