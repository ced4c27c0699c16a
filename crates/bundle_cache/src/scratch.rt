//! What a lane keeps for its evaluations.
ghost use Rattle.std.specs.Prelude.{◌≡◌, ◌<◌, None, Some, IfOk, IfSome, IsNone, IsSome};
ghost use Rattle.noise_ledger.specs.Verdicts.{ArePassed, parameters_of};
ghost use Rattle.psi_bundle.specs.Bodies.{evaluated_plane};
ghost use Rattle.psi_bundle.specs.Planes.{planes_of_bundle};
ghost use Rattle.row_block.specs.Rows.{cleared, empty_block};
ghost use Rattle.bundle_cache.specs.Caches.{IsBundleBlock, row_words, rows_of_bundle};
ghost use Rattle.bundle_cache.specs.Queries.{IsKept};

use crate::cache::Cache;
use crate::evaluation::evaluate_plane;
use crate::powers::Powers;
use bfv_core::Ciphertext;
use noise_ledger::Params;
use psi_residue::N;
use row_block::RowBlock;
use std::alloc::{AllocError, Global};
use std::marker::Model;

// The words of a row.
const ROW_WORDS: usize = 2 * N;

/// A block of a bundle's size, without rows: it has room for `(1 + units)·(capacity + 1)` rows of 8192 words. The parameters
/// are passed ones.
///
/// # Errors
///
/// If memory runs out.
pub fn open_block(alloc: Global, params: &Params) -> Result<RowBlock, AllocError>
    requires { ArePassed (parameters_of params.now) }
    ensures { IfOk result (λ block. block
        ≡ empty_block (rows_of_bundle (parameters_of params.now)) row_words) }
{
    RowBlock::open(alloc, params.block_rows(), ROW_WORDS)
}

/// The sums of one lane and a block, for sets with one set of parameters.
///
/// In contracts it is the parameters, and the block where it is there: one that holds no row and has the size of a bundle,
/// as `kept` tells.
#[derive(Drop)]
pub struct Scratch {
    params: Params,
    sum: Vec<u64>,
    block: Option<RowBlock>,
}

impl Model for Scratch {
    ghost use Rattle.std.specs.Prelude.{◌≡◌, length};
    ghost use Rattle.noise_ledger.specs.Verdicts.{parameters_of};
    ghost use Rattle.psi_residue.specs.Numbers.{ring_degree};
    ghost use Rattle.bundle_cache.specs.Queries.{IsKept, ScratchOf};

    ghost Value = { ScratchOf };

    ghost view = { λ s. record { parameters = parameters_of s.params; block = s.block } };

    ghost invariant = { λ s. (length s.sum.items ≡ ring_degree) × IsKept (parameters_of s.params) s.block };
}

impl Scratch {
    /// A scratch with an empty block of a bundle's size: `(1 + units)·(capacity + 1)` rows of 8192 words. The parameters
    /// are passed ones. `Err` is want of memory; no other call takes any.
    pub fn open(alloc: Global, params: &Params) -> Result<Scratch, AllocError>
        requires { ArePassed (parameters_of params.now) }
        ensures parameters { IfOk result
            (λ scratch. scratch.parameters ≡ parameters_of params.now) }
        ensures block { IfOk result (λ scratch. scratch.block
            ≡ Some (empty_block (rows_of_bundle (parameters_of params.now)) row_words)) }
    {
        let block = open_block(alloc, params)?;
        Ok(Scratch {
            params: *params,
            sum: vec![in alloc; 0; N]?,
            block: Some(block),
        })
    }

    /// Its block, which leaves it: without rows, and of the size of a bundle. `None` exactly where the block is out.
    pub fn take_block(&mut self) -> Option<RowBlock>
        ensures block { result ≡ self.old.block }
        ensures out { self.new ≡ record self.old { block = None } }
        ensures kept { IsKept self.old.parameters result }
    {
        self.block.take()
    }

    /// Clears the block and keeps it. It is handed back, as it was given, exactly where a block is there. The block has the
    /// size of a bundle.
    pub fn give_block(&mut self, block: RowBlock) -> Option<RowBlock>
        requires { IsBundleBlock self.old.parameters block }
        ensures kept { self.old.block ≡ None → (result ≡ None)
            × (self.new ≡ record self.old { block = Some (cleared block) }) }
        ensures full { IsSome self.old.block → (result ≡ Some block) × (self.new ≡ self.old) }
    {
        if self.block.is_some() {
            return Some(block);
        }
        let mut block = block;
        block.clear();
        self.block = Some(block);
        None
    }

    /// Writes the evaluation of one plane of a cache's bundle, for one row of a query.
    pub(crate) fn evaluate(
        &mut self,
        cache: &Cache,
        powers: &Powers,
        row: u8,
        plane: usize,
        out: &mut Ciphertext,
    )
        requires row { row < cache.now.parameters.rows }
        requires plane { plane < planes_of_bundle cache.now.parameters }
        requires query { powers.now.parameters ≡ cache.now.parameters }
        ensures scratch { self.new ≡ self.old }
        ensures evaluated { out.new
            ≡ evaluated_plane cache.now.parameters powers.now.query row cache.now.bins plane }
    {
        evaluate_plane(cache, powers, row, plane, &mut self.sum, out);
    }
}
