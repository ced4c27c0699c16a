//! Rows: packed coefficients as transforms modulo the two residue moduli, made in threads.
ghost use Rattle.std.specs.Prelude.{◌≡◌, ◌+◌, ◌*◌, ◌-◌, ◌<◌, ◌≤◌, ◌++◌, ◌^◌, IfOk, OnOk, List, length, map};
ghost use Rattle.std.specs.List.{All, range_with_len};
ghost use Rattle.psi_residue.specs.Numbers.{modulus_of, plain_modulus, ring_degree};
ghost use Rattle.psi_residue.specs.Polynomials.{IsPolynomial};
ghost use Rattle.psi_residue.specs.Slots.{packed_list};
ghost use Rattle.negacyclic.specs.Transforms.{values_of};
ghost use Rattle.row_block.specs.Rows.{cleared};
ghost use Rattle.bundle_cache.specs.Caches.{holding, row_words, transforms_of};
ghost use Rattle.bundle_cache.specs.Columns.{AreCells, IsCell, row_of_column};

use batching::pack;
use negacyclic::forward;
use psi_residue::{Modulus, N};
use rayon::prelude::*;
use row_block::RowBlock;
use std::alloc::{AllocError, Global};
use std::marker::Model;
use std::thread::Threads;

// The rows that are made before they are pushed.
const BATCH: usize = 64;

/// The words of a row. They are seen as the list of them.
#[derive(Drop)]
struct Row {
    words: Vec<u64>,
}

impl Model for Row {
    ghost use Rattle.std.specs.Prelude.{List, ℕ};

    ghost Value = { List ℕ };

    ghost view = { λ r. r.words.items };
}

impl Row {
    // The transforms of the packing of 4096 values.
    #[tactic(auto, unfolding(crate::specs::Caches::transforms_of))]
    fn of(alloc: Global, values: &[u32]) -> Result<Row, AllocError>
        requires { IsPolynomial plain_modulus values.now }
        ensures { IfOk result (λ row. row ≡ transforms_of (packed_list values.now)) }
    {
        let mut plain = [0; N];
        pack(values, &mut plain);
        let mut words = Vec::with_capacity(alloc, 2 * N)?;
        words.extend_from_slice(&transform(Modulus::Q1, &plain))?;
        words.extend_from_slice(&transform(Modulus::Q2, &plain))?;
        Ok(Row { words })
    }

    fn words(&self) -> &[u64]
        ensures { result.now ≡ self.now }
    {
        &self.words
    }
}

// The transform of a plaintext.
fn transform(m: Modulus, plain: &[u32]) -> [u64; N]
    requires { IsPolynomial plain_modulus plain.now }
    ensures { result ≡ values_of m plain.now }
{
    let mut values = [0; N];
    widen(plain, &mut values);
    forward(m, &mut values);
    values
}

// A plaintext's coefficients in words of 64 bits.
fn widen(plain: &[u32], out: &mut [u64])
    requires { length plain.now ≡ length out.old }
    ensures { out.new ≡ plain.now }
{
    for (i, x) in plain.iter().enumerate() {
        out[i] = u64::from(*x);
    }
}

/// Pushes a plane's rows, one for each of `count` powers. They are made in threads, at most 64 at a time.
pub(crate) fn push_columns<R: Threads + Sync>(
    rt: &R,
    alloc: Global,
    columns: &[u32],
    count: usize,
    block: &mut RowBlock,
) -> Result<(), AllocError>
    requires cells { AreCells count columns.now }
    requires few { count ≤ 4096 }
    requires width { block.old.width ≡ row_words }
    requires room { length block.old.held + count ≤ block.old.rows }
    ensures rows { OnOk result (block.new
        ≡ holding block.old (block.old.held
        ++ map (row_of_column columns.now) (range_with_len 0 count))) }
    ensures size { cleared block.new ≡ cleared block.old }
{
    let mut done = 0;
    while done < count {
        let size = BATCH.min(count - done);
        let rows = rows_of(rt, alloc, columns, done, size)?;
        push_all(&rows, block);
        done += size;
    }
    Ok(())
}

// The rows of some powers, each made by itself, in threads.
fn rows_of<R: Threads + Sync>(
    rt: &R,
    alloc: Global,
    columns: &[u32],
    first: usize,
    size: usize,
) -> Result<Vec<Row>, AllocError>
    requires cells { AreCells (first + size) columns.now }
    requires few { first + size ≤ 4096 }
    ensures { IfOk result (λ rows. rows.items
        ≡ map (row_of_column columns.now) (range_with_len first size)) }
{
    (first as u32..(first + size) as u32)
        .into_par_iter()
        .with_min_len(1)
        .map(
            |k: u32| -> Result<Row, AllocError>
                requires { IsCell columns.now k }
                ensures { IfOk result (λ row. row ≡ row_of_column columns.entry.now k) }
            { row_of_power(alloc, columns, k as usize) },
        )
        .collect::<Result<Vec<Row>, AllocError>>(rt, alloc)?
}

// The row of one power.
fn row_of_power(alloc: Global, columns: &[u32], k: usize) -> Result<Row, AllocError>
    requires { IsCell columns.now k }
    ensures { IfOk result (λ row. row ≡ row_of_column columns.now k) }
{
    Row::of(alloc, &columns[N * k..N * (k + 1)])
}

// Pushes rows in their order.
fn push_all(rows: &[Row], block: &mut RowBlock)
    requires width { block.old.width ≡ row_words }
    requires words { All (λ row. length row ≡ row_words) rows.now }
    requires room { length block.old.held + length rows.now ≤ block.old.rows }
    ensures { block.new ≡ holding block.old (block.old.held ++ rows.now) }
{
    for row in rows {
        block.push_row(row.words());
    }
}
