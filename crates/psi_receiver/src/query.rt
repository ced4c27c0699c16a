//! The ciphertexts of a query.
ghost use Rattle.std.specs.Prelude.{◌≡◌, ◌==◌, ◌<◌, ◌≤◌, ◌*◌, ◌/◌, ◌%◌, ◌+◌, ◌^◌, ℕ, [], IfOk, length, map, slice_index, slice_index_or, if◌then◌else◌};
ghost use Rattle.std.specs.List.{All, flat_map, range_with_len};
ghost use Rattle.psi_residue.specs.Numbers.{plain_modulus, ring_degree};
ghost use Rattle.psi_residue.specs.Polynomials.{IsPolynomial};
ghost use Rattle.psi_residue.specs.Slots.{packed_list};
ghost use Rattle.item_slots.specs.Tags.{bins_of_row, slot_value};
ghost use Rattle.noise_ledger.specs.Verdicts.{parameters_of, ArePassed};
ghost use Rattle.bfv_core.specs.EncryptedLists.{encrypted, key_of_seed};
ghost use Rattle.query_codec.specs.Ciphertexts.{ciphertext_bytes, ciphertexts_bytes};
ghost use Rattle.psi_receiver.specs.Queries.{powers_of, encrypted_powers, row_values};

use crate::placement::Placed;
use crate::slots::{BINS, PARTS, Slots};
use crate::turns::{map_in_turns, values_of};
use batching::pack;
use bfv_core::{SecretKey, encrypt};
use item_slots::{Tag, slots};
use noise_ledger::Params;
use psi_residue::{Modulus, N, pow};
use query_codec::write_ciphertext;
use std::alloc::{AllocError, Global};
use std::thread::Threads;

// The value of a slot that holds no item, which is above every slot value.
const EMPTY: u32 = 65536;

/// The bytes of the ciphertexts of the query of placed tags: for each row and power one that encrypts the powers of the
/// row's slot values, each made and written by itself, in threads. The parameters are passed ones.
pub fn encrypt_query<R: Threads + Sync>(
    rt: &R,
    alloc: Global,
    params: &Params,
    seed: &[u8; 32],
    placed: &[Placed],
) -> Result<Vec<Vec<u8>>, AllocError>
    requires { ArePassed (parameters_of params.now) }
    ensures { IfOk result (λ pieces. flat_map (λ piece. piece.items) pieces.items
        ≡ ciphertexts_bytes (encrypted_powers (parameters_of params.now) seed.now placed.now)) }
{
    let key = SecretKey::of(alloc, seed)?;
    let values = values_of_rows(alloc, placed, params.rows)?;
    encrypt_powers(rt, alloc, u32::from(params.capacity), &key, seed, &values)
}

// The bytes of the ciphertexts of all rows and powers, by row and then by power, where the rows' slots have these values.
fn encrypt_powers<R: Threads + Sync>(
    rt: &R,
    alloc: Global,
    capacity: u32,
    key: &SecretKey,
    seed: &[u8; 32],
    values: &[Slots],
) -> Result<Vec<Vec<u8>>, AllocError>
    requires some { 1 ≤ capacity }
    requires few { length values.now * capacity ≤ 2400 }
    requires key_of_this_seed { key.now ≡ key_of_seed seed.now }
    ensures { IfOk result (λ pieces. map (λ piece. piece.items) pieces.items
        ≡ map (λ c. ciphertext_bytes (encrypted seed.now c
        (packed_list (powers_of (slice_index_or values.now (c / capacity) [])
        (c % capacity + 1))))) (range_with_len 0 (length values.now * capacity))) }
{
    let number = values.len() * capacity as usize;
    let power = |c: usize| -> Result<Vec<u8>, AllocError>
        requires { (c < length values.now * capacity) × (length values.now * capacity ≤ 2400) ×
            (key.now ≡ key_of_seed seed.now) }
        ensures { IfOk result (λ bytes. bytes.items ≡ ciphertext_bytes
            (encrypted seed.entry.now c (packed_list
            (powers_of (slice_index_or values.entry.now (c / capacity) []) (c % capacity + 1))))) }
    {
        let c = c as u32;
        let row = (c / capacity) as usize;
        encrypt_power(alloc, key, seed, &values[row], c, c % capacity + 1)
    };
    let pieces = map_in_turns(rt, alloc, number, &power)?;
    values_of(alloc, pieces)
}

// The bytes of ciphertext number `c`, of these slot values' powers with an exponent.
fn encrypt_power(
    alloc: Global,
    key: &SecretKey,
    seed: &[u8; 32],
    values: &Slots,
    c: u32,
    exponent: u32,
) -> Result<Vec<u8>, AllocError>
    requires key_of_this_seed { key.now ≡ key_of_seed seed.now }
    requires numbered { c < 2400 }
    ensures { IfOk result (λ bytes. bytes.items ≡ ciphertext_bytes
        (encrypted seed.now c (packed_list (powers_of values.now exponent)))) }
{
    let mut powers = [0; N];
    write_powers(values, exponent, &mut powers);
    let mut plain = [0; N];
    pack(&powers, &mut plain);
    write_ciphertext(alloc, &encrypt(alloc, key, seed, c, &plain)?)
}

// Writes the powers of slot values with an exponent, modulo the plaintext modulus.
fn write_powers(values: &Slots, exponent: u32, out: &mut [u32])
    requires places { length out.now ≡ ring_degree }
    ensures powers { out.new ≡ powers_of values.now exponent }
    ensures plaintexts { IsPolynomial plain_modulus out.new }
{
    for (slot, place) in out.iter_mut().enumerate() {
        let value = u64::from(values.value(slot));
        *place = pow(Modulus::T, value, u64::from(exponent)) as u32;
    }
}

// The slot values of each row.
fn values_of_rows(alloc: Global, placed: &[Placed], rows: u8) -> Result<Vec<Slots>, AllocError>
    ensures { IfOk result (λ values. values.items ≡ map (row_values placed.now)
        (range_with_len 0 rows)) }
{
    let mut values = Vec::new(alloc);
    for row in 0..usize::from(rows) {
        values.push(values_of_row(alloc, placed, row)?)?;
    }
    Ok(values)
}

// The slot values of a row. Of tags at one position the first stands there, so it is written last.
fn values_of_row(alloc: Global, placed: &[Placed], row: usize) -> Result<Slots, AllocError>
    ensures { IfOk result (λ values. values ≡ row_values placed.now row) }
{
    let mut values = Slots::filled(alloc, EMPTY)?;
    for i in (0..placed.len()).rev() {
        let x = &placed[i];
        let position = usize::from(x.position);
        if position / BINS == row {
            write_tag(&mut values, position % BINS, &x.tag);
        }
    }
    Ok(values)
}

// Writes a tag's slot values into the slots of a bin.
fn write_tag(values: &mut Slots, bin: usize, tag: &Tag)
    requires bin { bin < bins_of_row }
    requires whole { length values.old ≡ ring_degree }
    ensures size { length values.new ≡ length values.old }
    ensures written { (slot : ℕ) → slice_index values.new slot ≡
        (if slot / 5 == bin then slot_value tag.now (slot % 5) else slice_index values.old slot) }
{
    let own = slots(tag);
    for part in 0..PARTS {
        values.set(PARTS * bin + part, u32::from(own[part]));
    }
}
