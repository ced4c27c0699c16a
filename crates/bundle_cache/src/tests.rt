ghost use Rattle.std.specs.Prelude.{◌≡◌, ◌*◌, ◌<◌, ◌≤◌, ◌^◌, ℕ, IfOk, length};
ghost use Rattle.psi_residue.specs.Ciphertexts.{list_modulus};
ghost use Rattle.psi_residue.specs.Numbers.{plain_modulus};
ghost use Rattle.psi_residue.specs.Polynomials.{IsPolynomial};
ghost use Rattle.noise_ledger.specs.Verdicts.{ArePassed, parameters_of};
ghost use Rattle.psi_bundle.specs.Planes.{planes_of_bundle};
ghost use Rattle.bundle_cache.specs.Caches.{IsCacheable};

use super::*;
use batching::pack;
use bfv_core::{Accumulator, Ciphertext};
use item_slots::tag_from;
use noise_ledger::{Params, check};
use psi_bundle::{Bundle, Label, Member};
use psi_residue::N;
use row_block::RowBlock;
use std::alloc::{AllocError, Global};
use std::sync::Arc;
use std::thread::Threads;

// The tag with the slot values 1, 2, 3, 4 and 5, and its label of 10 bytes.
const TAG: [u8; 22] = [
    0, 1, 0, 2, 0, 3, 0, 4, 0, 5, 0, 0, 0, 7, 0, 0, 0, 7, 0, 0, 0, 7,
];

const LABEL: [u8; 10] = [9, 8, 7, 6, 5, 4, 3, 2, 1, 0];

// The label's numbers, by part.
const NUMBERS: [u32; 5] = [2312, 1798, 1284, 770, 256];

// The bin that the member stands in: its slots are 35 to 39.
const BIN: u16 = 7;

// The bundle with the one member, whose label has 10 bytes for each of at most one label unit.
fn one_member(alloc: Global, params: &Params) -> Result<Bundle, AllocError>
    requires { params.now.units ≤ 1 }
    ensures { IfOk result (λ bundle. IsCacheable (parameters_of params.now) bundle) }
{
    let empty = Bundle::empty(alloc)?;
    let tag = tag_from(TAG);
    match Label::of(&LABEL[..10 * usize::from(params.units)]) {
        Some(label) if empty.accepts(BIN, &tag, params.capacity) => {
            empty.add(alloc, BIN, Member { tag, label }, params.capacity)
        }
        _ => Ok(empty),
    }
}

// The k-th coefficient of a plane's polynomial at a slot of that bundle.
fn coefficient(plane: usize, k: usize, slot: usize) -> u32
    ensures { result < plain_modulus }
{
    let part = slot % 5;
    match (plane, k) {
        (0, 0) if slot / 5 == 7 => 65536 - part as u32,
        (0, 1) if slot / 5 == 7 => 1,
        (0, 0) => 1,
        (1, 0) if slot / 5 == 7 => NUMBERS[part],
        (_, 0) if slot == 4095 => 1,
        _ => 0,
    }
}

// The k-th coefficients of a plane, packed.
fn packed(plane: usize, k: usize) -> [u32; N]
    ensures { IsPolynomial plain_modulus result }
{
    let mut values = [0; N];
    for slot in 0..N {
        values[slot] = coefficient(plane, k, slot);
    }
    let mut plain = [0; N];
    pack(&values, &mut plain);
    plain
}

// A query of some ciphertexts whose residues are all different.
fn query(alloc: Global, number: u16) -> Result<Vec<Ciphertext>, AllocError>
    ensures { IfOk result (λ query. length query.items ≡ number) }
{
    let mut query = Vec::new(alloc);
    for c in 0..number {
        let mut ct = Ciphertext::zero(alloc)?;
        for list in 0..4u8 {
            ct.set(list, &rising(u64::from(c) * 4 + u64::from(list)));
        }
        query.push(ct)?;
    }
    Ok(query)
}

// Zero ciphertexts, so many.
fn zeros(alloc: Global, number: usize) -> Result<Vec<Ciphertext>, AllocError>
    ensures { IfOk result (λ zeros. length zeros.items ≡ number) }
{
    let mut zeros = Vec::new(alloc);
    for _ in 0..number {
        zeros.push(Ciphertext::zero(alloc)?)?;
    }
    Ok(zeros)
}

// Residues that rise, in steps that depend on a number.
fn rising(number: u64) -> [u64; N]
    requires { number < 2 ^ 20 }
    ensures { (l : ℕ) → IsPolynomial (list_modulus l) result }
{
    let mut residues = [0; N];
    for i in 0..N {
        residues[i] = (number * 4099 + i as u64 * 7919) % 65537;
    }
    residues
}

// The evaluation by sums of products of polynomials.
fn plainly(alloc: Global, query: &[Ciphertext], plane: usize) -> Result<Ciphertext, AllocError> {
    let mut sum = Accumulator::open(alloc)?;
    sum.add_plain(&packed(plane, 0));
    for (k, ct) in query.iter().enumerate() {
        sum.add_product(&packed(plane, k + 1), ct);
    }
    let mut out = Ciphertext::zero(alloc)?;
    sum.read(&mut out);
    Ok(out)
}

// The evaluation by a cache, which gives its block back.
fn by_a_cache<R: Threads + Sync>(
    rt: &R,
    alloc: Global,
    params: &Params,
    out: &mut [Ciphertext],
) -> Result<(), AllocError>
    requires passed { ArePassed (parameters_of params.now) }
    requires few { params.now.rows ≡ 1 }
    requires short { params.now.units ≤ 1 }
    requires places { length out.old ≡ planes_of_bundle (parameters_of params.now) }
{
    let bundle = Arc::new(alloc, one_member(alloc, params)?)?;
    let query = query(alloc, params.capacity)?;
    let mut scratch = Scratch::open(alloc, params)?;
    if let Some(block) = scratch.take_block() {
        match Cache::build(rt, alloc, params, bundle, block) {
            Ok(cache) => {
                let powers = Powers::of(params, query);
                eval_into(&cache, &powers, 0, &mut scratch, out);
                scratch.give_block(cache.into_block());
            }
            Err(refused) => {
                scratch.give_block(refused.block);
            }
        }
    }
    Ok(())
}

// A capacity and label units.
const SIZES: [(u16, u8); 2] = [(1, 0), (2, 1)];

#[test]
fn evaluations_are_sums_of_products(rt: HostRuntime) {
    let alloc = rt.alloc();
    for (capacity, units) in SIZES {
        let params = Params::of(1, capacity, units);
        assert!(rt; check(&params).is_ok());
        assert!(rt; units <= 1);
        let query = query(alloc, capacity).expect(&rt, "memory");
        let mut out = zeros(alloc, 1 + usize::from(units)).expect(&rt, "memory");
        by_a_cache(&rt, alloc, &params, &mut out).expect(&rt, "memory");
        for (plane, ct) in out.iter().enumerate() {
            let wanted = plainly(alloc, &query, plane).expect(&rt, "memory");
            for list in 0..4u8 {
                assert!(rt; ct.residues(list) == wanted.residues(list));
            }
        }
    }
}

#[test]
fn a_scratch_has_one_block(rt: HostRuntime) {
    let params = Params::of(1, 1, 0);
    assert!(rt; check(&params).is_ok());
    let mut scratch = Scratch::open(rt.alloc(), &params).expect(&rt, "memory");
    let block = scratch.take_block().expect(&rt, "a block");
    assert!(rt; scratch.take_block().is_none());
    assert!(rt; scratch.give_block(block).is_none());
    let mut second = RowBlock::open(rt.alloc(), 2, 2 * N).expect(&rt, "memory");
    second.push_row(&[5; 2 * N]);
    let back = scratch.give_block(second);
    assert_eq!(rt; back.map(|block| block.held()), Some(1));
}
