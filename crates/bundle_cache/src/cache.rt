//! Caches: the rows of one bundle under one set's parameters.
ghost use Rattle.std.specs.Prelude.{◌≡◌, ◌<◌, ◌≤◌, [], IfErr, IfOk, OnOk, length};
ghost use Rattle.std.specs.Arc.{arc_value};
ghost use Rattle.psi_residue.specs.Numbers.{modulus_of};
ghost use Rattle.psi_residue.specs.Polynomials.{IsPolynomial};
ghost use Rattle.noise_ledger.specs.Verdicts.{ArePassed, parameters_of};
ghost use Rattle.negacyclic.specs.Transforms.{values_of};
ghost use Rattle.psi_bundle.specs.Planes.{packed_plane, planes_of_bundle};
ghost use Rattle.row_block.specs.Rows.{cleared};
ghost use Rattle.bundle_cache.specs.Caches.{IsCacheable, bundle_rows, holding, row_words, rows_of_bundle, transforms_of};
ghost use Rattle.bundle_cache.specs.Queries.{modulus_of_list};

use crate::columns::columns_of_plane;
use crate::rows::push_columns;
use noise_ledger::Params;
use psi_bundle::{Bundle, Cached};
use psi_residue::N;
use row_block::RowBlock;
use std::alloc::{AllocError, Global};
use std::marker::Model;
use std::sync::Arc;
use std::thread::Threads;

/// A bundle's planes as transforms, for one bundle under one set's parameters.
///
/// In contracts a cache is the parameters, the bins of its bundle, and the block of its rows. Row
/// `plane·(capacity + 1) + k` has the transform modulo the first residue modulus, and then that modulo the second, of the
/// packing of the plane's k-th coefficients. It lends no member of its bundle.
#[derive(Drop)]
pub struct Cache {
    params: Params,
    bundle: Arc<Bundle>,
    block: RowBlock,
}

impl Model for Cache {
    ghost use Rattle.bundle_cache.specs.Caches.{CacheOf, IsCache};
    ghost use Rattle.noise_ledger.specs.Verdicts.{parameters_of};
    ghost use Rattle.std.specs.Arc.{arc_value};

    ghost Value = { CacheOf };

    ghost view = { λ c. record { parameters = parameters_of c.params; bins = arc_value c.bundle; block = c.block } };

    ghost invariant = { λ c. IsCache (record { parameters = parameters_of c.params; bins = arc_value c.bundle; block = c.block }) };
}

impl Cached for Cache {
    ghost use Rattle.bundle_cache.specs.Caches.{cached_bins, is_cached_under};

    ghost contents = { cached_bins };

    ghost is_under = { is_cached_under };
}

/// Memory ran out while a cache was built.
#[derive(Drop)]
pub struct BuildRefused {
    /// The block that was given, without rows.
    pub block: RowBlock,
}

impl Cache {
    /// The cache of a bundle, whose rows are in the block. The rows are made in threads, at most 64 at a time, and then
    /// pushed in order; the coefficients of one plane are held at a time.
    ///
    /// The parameters are passed ones. Each bin of the bundle has at most `capacity` members, no two of which share a slot
    /// value in the same part, and the labels have 10 bytes for each label unit. The block holds no row, its rows have 8192
    /// words, and it has room for `(1 + units)·(capacity + 1)` of them.
    ///
    /// # Errors
    ///
    /// If memory runs out; the block comes back without rows.
    pub fn build<R: Threads + Sync>(
        rt: &R,
        alloc: Global,
        params: &Params,
        bundle: Arc<Bundle>,
        block: RowBlock,
    ) -> Result<Cache, BuildRefused>
        requires passed { ArePassed (parameters_of params.now) }
        requires cacheable { IsCacheable (parameters_of params.now) (arc_value bundle) }
        requires empty { block.held ≡ [] }
        requires width { block.width ≡ row_words }
        requires room { rows_of_bundle (parameters_of params.now) ≤ block.rows }
        ensures bundle { IfOk result (λ cache. cache.bins ≡ arc_value bundle) }
        ensures parameters { IfOk result (λ cache. cache.parameters ≡ parameters_of params.now) }
        ensures rows { IfOk result (λ cache. cache.block
            ≡ holding block (bundle_rows (parameters_of params.now) (arc_value bundle))) }
        ensures refused { IfErr result (λ refused. refused.block ≡ block) }
    {
        let mut block = block;
        match push_bundle(rt, alloc, params, &bundle, &mut block) {
            Ok(()) => Ok(Cache {
                params: *params,
                bundle,
                block,
            }),
            Err(AllocError) => {
                block.clear();
                Err(BuildRefused { block })
            }
        }
    }

    /// Its block, without rows.
    pub fn into_block(self) -> RowBlock
        ensures cleared { result ≡ cleared self.block }
    {
        let mut block = self.block;
        block.clear();
        block
    }

    /// The number of planes.
    pub(crate) fn planes(&self) -> usize
        ensures number { result ≡ planes_of_bundle self.now.parameters }
    {
        self.params.planes()
    }

    /// The highest power of a plane.
    pub(crate) fn capacity(&self) -> usize
        ensures capacity { result ≡ self.now.parameters.capacity }
    {
        usize::from(self.params.capacity)
    }

    /// A plane's k-th coefficients, packed, as a transform modulo the modulus of residue list number `list`.
    pub(crate) fn cell(&self, plane: usize, k: usize, list: u8) -> &[u64]
        requires plane { plane < planes_of_bundle self.now.parameters }
        requires power { k ≤ self.now.parameters.capacity }
        requires list { list < 4 }
        ensures values { result.now ≡ values_of (modulus_of_list list)
            (packed_plane self.now.parameters self.now.bins plane k) }
        ensures reduced { IsPolynomial (modulus_of (modulus_of_list list)) result.now }
    {
        let row = self.row(plane, k);
        if list % 2 == 0 { &row[..N] } else { &row[N..] }
    }

    // The row of a plane's k-th coefficients.
    fn row(&self, plane: usize, k: usize) -> &[u64]
        requires plane { plane < planes_of_bundle self.now.parameters }
        requires power { k ≤ self.now.parameters.capacity }
        ensures transforms { result.now
            ≡ transforms_of (packed_plane self.now.parameters self.now.bins plane k) }
        ensures size { length result.now ≡ row_words }
    {
        self.block.row(plane * (self.capacity() + 1) + k)
    }
}

// Pushes the rows of all planes of a bundle into a block that holds none.
fn push_bundle<R: Threads + Sync>(
    rt: &R,
    alloc: Global,
    params: &Params,
    bundle: &Bundle,
    block: &mut RowBlock,
) -> Result<(), AllocError>
    requires cacheable { IsCacheable (parameters_of params.now) bundle.now }
    requires passed { ArePassed (parameters_of params.now) }
    requires empty { block.old.held ≡ [] }
    requires width { block.old.width ≡ row_words }
    requires room { rows_of_bundle (parameters_of params.now) ≤ block.old.rows }
    ensures rows { OnOk result (block.new
        ≡ holding block.old (bundle_rows (parameters_of params.now) bundle.now)) }
    ensures size { cleared block.new ≡ block.old }
{
    let count = params.coefficients();
    for plane in 0..params.units + 1 {
        let columns = columns_of_plane(alloc, params, bundle, plane)?;
        push_columns(rt, alloc, &columns, count, block)?;
    }
    Ok(())
}
