//! The evaluation of a bundle's planes at a query's encrypted powers, on transforms.
ghost use Rattle.std.specs.Prelude.{◌≡◌, ◌+◌, ◌*◌, ◌%◌, ◌<◌, ◌≤◌, length, nat_lt};
ghost use Rattle.psi_residue.specs.Ciphertexts.{IsCiphertext, list_at, list_modulus};
ghost use Rattle.psi_residue.specs.Numbers.{modulus_of, ring_degree};
ghost use Rattle.psi_residue.specs.Polynomials.{IsPolynomial};
ghost use Rattle.negacyclic.specs.Transforms.{values_of};
ghost use Rattle.psi_bundle.specs.Bodies.{evaluated_bundle, evaluated_plane};
ghost use Rattle.psi_bundle.specs.Planes.{packed_plane, planes_of_bundle};
ghost use Rattle.bundle_cache.specs.Queries.{modulus_of_list, scaled_values};

use crate::cache::Cache;
use crate::powers::{Powers, list_modulus};
use crate::scratch::Scratch;
use bfv_core::Ciphertext;
use negacyclic::{inverse, mul_acc};
use psi_residue::{DELTA, Modulus, N, value};

/// Writes the evaluation of a cache's bundle at the powers of a query, for the query's row `row`: for each plane, the root
/// plane first, the sum of `P_k·C_k` over the powers k from 1 to the capacity, and `Δ·P_0`. Here `P_k` is the packing of the
/// plane's k-th coefficients, and `C_k` the query's ciphertext of the row and of power k.
///
/// The cache, the powers and the scratch are of the same parameters, the row is one of theirs, and `out` has `1 + units`
/// ciphertexts. It takes no memory and is never refused.
pub fn eval_into(
    cache: &Cache,
    powers: &Powers,
    row: u8,
    scratch: &mut Scratch,
    out: &mut [Ciphertext],
)
    requires row { row < cache.now.parameters.rows }
    requires query { powers.now.parameters ≡ cache.now.parameters }
    requires scratch { scratch.old.parameters ≡ cache.now.parameters }
    requires places { length out.old ≡ planes_of_bundle cache.now.parameters }
    ensures evaluated { out.new
        ≡ evaluated_bundle cache.now.parameters powers.now.query row cache.now.bins }
    ensures scratch { scratch.new ≡ scratch.old }
{
    for plane in 0..cache.planes() {
        scratch.evaluate(cache, powers, row, plane, &mut out[plane]);
    }
}

/// Writes the evaluation of one plane. `sum` has 4096 places, whose values do not matter.
pub(crate) fn evaluate_plane(
    cache: &Cache,
    powers: &Powers,
    row: u8,
    plane: usize,
    sum: &mut [u64],
    out: &mut Ciphertext,
)
    requires row { row < cache.now.parameters.rows }
    requires plane { plane < planes_of_bundle cache.now.parameters }
    requires query { powers.now.parameters ≡ cache.now.parameters }
    requires places { length sum.old ≡ ring_degree }
    ensures size { length sum.new ≡ ring_degree }
    ensures evaluated { out.new
        ≡ evaluated_plane cache.now.parameters powers.now.query row cache.now.bins plane }
    ensures whole { IsCiphertext out.new }
{
    for list in 0..4 {
        evaluate_list(cache, powers, row, plane, list, sum);
        out.set(list, sum);
    }
}

// Writes residue list number `list` of the evaluation of a plane.
fn evaluate_list(cache: &Cache, powers: &Powers, row: u8, plane: usize, list: u8, sum: &mut [u64])
    requires row { row < cache.now.parameters.rows }
    requires plane { plane < planes_of_bundle cache.now.parameters }
    requires list { list < 4 }
    requires query { powers.now.parameters ≡ cache.now.parameters }
    requires places { length sum.old ≡ ring_degree }
    ensures evaluated { sum.new ≡ list_at
        (evaluated_plane cache.now.parameters powers.now.query row cache.now.bins plane) list }
    ensures reduced { IsPolynomial (list_modulus list) sum.new }
{
    let m = list_modulus(list);
    write_constant(m, list, cache.cell(plane, 0, list), sum);
    for k in 0..cache.capacity() {
        let factor = cache.cell(plane, k + 1, list);
        mul_acc(m, factor, powers.list(row, k, list), sum);
    }
    inverse(m, sum);
}

// Writes what the constant coefficient adds to residue list number `list`: in c0 the scale times it, in c1 nothing.
fn write_constant(m: Modulus, list: u8, constant: &[u64], sum: &mut [u64])
    requires modulus { m ≡ modulus_of_list list }
    requires constant { IsPolynomial (modulus_of m) constant.now }
    requires places { length sum.old ≡ ring_degree }
    ensures scaled { sum.new ≡ scaled_values (modulus_of m) (nat_lt list 2) constant.now }
    ensures reduced { IsPolynomial (modulus_of m) sum.new }
{
    sum.copy_from_slice(&[0; N]);
    if list < 2 {
        mul_acc(m, &[DELTA % value(m); N], constant, sum);
    }
}
