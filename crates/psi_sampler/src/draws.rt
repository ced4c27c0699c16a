//! Coefficients drawn from a seed's words.
ghost use Rattle.std.specs.Prelude.{◌≡◌, ◌+◌, ◌*◌, ◌%◌, ◌<◌, ◌≤◌, ◌^◌, ℕ, pos, ◌-ℤ◌, length, slice_index, slice_index_or, unsigned_abs};
ghost use Rattle.std.specs.List.{All};
ghost use Rattle.rand_chacha.specs.ChaCha.{word_at};
ghost use Rattle.psi_residue.specs.Numbers.{ring_degree, first_modulus, second_modulus};
ghost use Rattle.psi_sampler.specs.Sampling.{key_coefficient, first_mask_residue, second_mask_residue, low_ones, error_coefficient};

use crate::words::{next, next_two, open};
use psi_residue::{N, Q1, Q2};
use rand_chacha::ChaCha20Rng;

// A coefficient of a key, from the next word.
fn key_coefficient(words: &mut ChaCha20Rng) -> i8
    requires { words.now.word_pos + 1 < 2 ^ 68 }
    ensures value { result ≡ pos (word_at 10 words.old.key words.old.stream words.old.word_pos % 3)
        -ℤ pos 1 }
    ensures small { unsigned_abs result ≤ 1 }
    ensures moved { words.new ≡ record words.old { word_pos = words.old.word_pos + 1 } }
{
    (next(words) % 3) as i8 - 1
}

// The number of ones among the low 21 bits of a word.
fn low_ones(word: u32) -> i8
    ensures value { result ≡ pos (low_ones word) }
    ensures small { low_ones word ≤ 21 }
{
    (word % (1 << 21)).count_ones() as i8
}

// A coefficient of an error, from the next two words.
fn error_coefficient(words: &mut ChaCha20Rng) -> i8
    requires { words.now.word_pos + 2 < 2 ^ 68 }
    ensures value { result ≡ pos (low_ones
        (word_at 10 words.old.key words.old.stream words.old.word_pos))
        -ℤ pos (low_ones (word_at 10 words.old.key words.old.stream (words.old.word_pos + 1))) }
    ensures small { unsigned_abs result ≤ 21 }
    ensures moved { words.new ≡ record words.old { word_pos = words.old.word_pos + 2 } }
{
    let more = low_ones(next(words));
    let less = low_ones(next(words));
    more - less
}

// A coefficient of a mask, as its residues modulo the two moduli, from the next four words.
fn mask_residues(words: &mut ChaCha20Rng) -> (u64, u64)
    requires { words.now.word_pos + 4 < 2 ^ 68 }
    ensures first { result.0 ≡ (word_at 10 words.old.key words.old.stream words.old.word_pos
        + word_at 10 words.old.key words.old.stream (words.old.word_pos + 1) * 2 ^ 32) %
        first_modulus }
    ensures second { result.1 ≡ (word_at 10 words.old.key words.old.stream (words.old.word_pos + 2)
        + word_at 10 words.old.key words.old.stream (words.old.word_pos + 3) * 2 ^ 32) %
        second_modulus }
    ensures first_below { result.0 < first_modulus }
    ensures second_below { result.1 < second_modulus }
    ensures moved { words.new ≡ record words.old { word_pos = words.old.word_pos + 4 } }
{
    let first = next_two(words);
    let second = next_two(words);
    (first % Q1, second % Q2)
}

/// Fills `out` with the coefficients of the seed's key, each -1, 0 or 1: word `i` of stream 0 modulo 3, less 1. `out`
/// has 4096 places.
pub fn key(seed: &[u8; 32], out: &mut [i8])
    requires { length out.now ≡ ring_degree }
    ensures value { (i : ℕ) → i < ring_degree
        → slice_index_or out.new i (pos 0) ≡ key_coefficient seed.now i }
    ensures small { All (λ x. unsigned_abs x ≤ 1) out.new }
{
    let mut words = open(seed, 0);
    for place in out.iter_mut() {
        *place = key_coefficient(&mut words);
    }
}

/// Fills `out` with the coefficients of the error of ciphertext number `c`, each of size at most 21: the ones among the
/// low 21 bits of word `2i` of stream `2 + 2c`, less those of word `2i + 1`. `out` has 4096 places, and `c` is below
/// 2400.
pub fn error(seed: &[u8; 32], c: u32, out: &mut [i8])
    requires places { length out.now ≡ ring_degree }
    requires numbered { c < 2400 }
    ensures value { (i : ℕ) → i < ring_degree
        → slice_index_or out.new i (pos 0) ≡ error_coefficient seed.now c i }
    ensures small { All (λ x. unsigned_abs x ≤ 21) out.new }
{
    let mut words = open(seed, 2 + 2 * u64::from(c));
    for place in out.iter_mut() {
        *place = error_coefficient(&mut words);
    }
}

/// Fills `out1` and `out2` with the coefficients of the mask of ciphertext number `c`, as residues modulo `Q1` and `Q2`:
/// words `4i` and `4i + 1` of stream `1 + 2c` modulo `Q1`, words `4i + 2` and `4i + 3` modulo `Q2`, of two words the low
/// one first. Both slices have 4096 places, and `c` is below 2400.
pub fn mask(seed: &[u8; 32], c: u32, out1: &mut [u64], out2: &mut [u64])
    requires first_places { length out1.now ≡ ring_degree }
    requires second_places { length out2.now ≡ ring_degree }
    requires numbered { c < 2400 }
    ensures first { (i : ℕ) → i < ring_degree
        → slice_index out1.new i ≡ first_mask_residue seed.now c i }
    ensures second { (i : ℕ) → i < ring_degree
        → slice_index out2.new i ≡ second_mask_residue seed.now c i }
    ensures first_below { All (λ x. x < first_modulus) out1.new }
    ensures second_below { All (λ x. x < second_modulus) out2.new }
{
    let mut words = open(seed, 1 + 2 * u64::from(c));
    for i in 0..N {
        let (first, second) = mask_residues(&mut words);
        out1[i] = first;
        out2[i] = second;
    }
}
