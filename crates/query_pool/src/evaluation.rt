//! The evaluation of a query on the bundles that a snapshot shows (Chen, Laine, Rindal, CCS 2017).
ghost use Rattle.std.specs.Prelude.{◌≡◌, ◌≤◌, ◌<◌, ◌++◌, IfOk, OnOk, length};
ghost use Rattle.std.specs.Arc.{arc_value};
ghost use Rattle.noise_ledger.specs.Verdicts.{ArePassed, ciphertexts_of, parameters_of};
ghost use Rattle.bundle_cache.specs.Caches.{IsCacheable, cached_bins};
ghost use Rattle.psi_bundle.specs.Bodies.{bundle_counts, evaluated_bundle, evaluated_row, evaluated_rows};
ghost use Rattle.psi_bundle.specs.Planes.{planes_of_bundle};
ghost use Rattle.query_codec.specs.Replies.{reply_body};
ghost use Rattle.sender_core.specs.Kept.{row_of, rows_of};
ghost use Rattle.sender_core.specs.Sights.{seen_of, seen_row};
ghost use Rattle.query_pool.specs.Caching.{AreReady, AreRowsOfSet, IsLoaded, IsReady, IsScratch};
ghost use Rattle.query_pool.specs.Rounds.{longest_body};

use bundle_cache::{Cache, Powers, Scratch, eval_into};
use noise_ledger::Params;
use psi_bundle::Bundle;
use psi_frames::Body;
use query_codec::{Ciphertext, write_reply};
use sender_core::{Sight, Snapshot};
use std::alloc::{AllocError, Global};
use std::sync::Arc;
use std::thread::Threads;

// A query with the parameters that it is under.
#[derive(Drop)]
struct Query {
    params: Params,
    powers: Powers,
}

/// The body of the reply to a query, from all bundles that a snapshot shows. A bundle is evaluated on its cache; for one
/// without a cache a cache is built into the scratch's block, which comes back.
///
/// The parameters are passed ones. The snapshot shows the rows of a sound set with these parameters, and each of its caches
/// is for the bundle where it stands. The query has `rows·capacity` ciphertexts. The scratch is of these parameters and has
/// its block. Whatever this answers, the scratch is as before.
///
/// # Errors
///
/// If memory runs out.
pub fn evaluate<R: Threads + Sync>(
    rt: &R,
    alloc: Global,
    params: &Params,
    snapshot: &Snapshot<Cache>,
    query: Vec<Ciphertext>,
    scratch: &mut Scratch,
) -> Result<Body, AllocError>
    requires passed { ArePassed (parameters_of params.now) }
    requires set { AreRowsOfSet (parameters_of params.now) snapshot.now.rows }
    requires powers { length query.items ≡ ciphertexts_of (parameters_of params.now) }
    requires scratch { IsScratch (parameters_of params.now) scratch.old }
    ensures body { IfOk result (λ body.
        body ≡ reply_body (parameters_of params.now) (rows_of snapshot.now.rows) query.items) }
    ensures short { IfOk result (λ body. length body ≤ longest_body) }
    ensures scratch { scratch.new ≡ scratch.old }
{
    let counts = counts(alloc, params, snapshot)?;
    let query = Query {
        params: *params,
        powers: Powers::of(params, query),
    };
    let cts = evaluate_rows(rt, alloc, &query, snapshot, scratch)?;
    Ok(Body::of(write_reply(alloc, params, &counts, &cts)?))
}

// The number of bundles of each row.
fn counts(
    alloc: Global,
    params: &Params,
    snapshot: &Snapshot<Cache>,
) -> Result<Vec<u16>, AllocError>
    requires set { AreRowsOfSet (parameters_of params.now) snapshot.now.rows }
    ensures { IfOk result (λ counts. counts.items ≡ bundle_counts (rows_of snapshot.now.rows)) }
{
    let mut counts = Vec::with_capacity(alloc, params.rows as usize)?;
    for row in 0..params.rows {
        counts.push(snapshot.bundles(row).len() as u16)?;
    }
    Ok(counts)
}

// The ciphertexts of all rows.
fn evaluate_rows<R: Threads + Sync>(
    rt: &R,
    alloc: Global,
    query: &Query,
    snapshot: &Snapshot<Cache>,
    scratch: &mut Scratch,
) -> Result<Vec<Ciphertext>, AllocError>
    requires loaded { IsLoaded query.now }
    requires set { AreRowsOfSet (parameters_of query.now.params) snapshot.now.rows }
    requires scratch { IsScratch (parameters_of query.now.params) scratch.old }
    ensures evaluated { IfOk result
        (λ cts. cts.items ≡ evaluated_rows (parameters_of query.now.params)
        (rows_of snapshot.now.rows) query.now.powers.query) }
    ensures scratch { scratch.new ≡ scratch.old }
{
    let mut cts = Vec::new(alloc);
    for row in 0..query.params.rows {
        evaluate_row(
            rt,
            alloc,
            query,
            row,
            snapshot.bundles(row),
            scratch,
            &mut cts,
        )?;
    }
    Ok(cts)
}

// Appends the ciphertexts of a row's bundles.
fn evaluate_row<R: Threads + Sync>(
    rt: &R,
    alloc: Global,
    query: &Query,
    row: u8,
    sights: &[Sight<Cache>],
    scratch: &mut Scratch,
    cts: &mut Vec<Ciphertext>,
) -> Result<(), AllocError>
    requires loaded { IsLoaded query.now }
    requires row { row < query.now.params.rows }
    requires ready { AreReady (parameters_of query.now.params) (seen_row cached_bins sights.now) }
    requires scratch { IsScratch (parameters_of query.now.params) scratch.old }
    ensures evaluated { OnOk result
        (cts.new.items ≡ cts.old.items ++ evaluated_row (parameters_of query.now.params)
        query.now.powers.query row (row_of (seen_row cached_bins sights.now))) }
    ensures scratch { scratch.new ≡ scratch.old }
{
    for sight in sights {
        evaluate_bundle(rt, alloc, query, row, sight, scratch, cts)?;
    }
    Ok(())
}

// Appends the ciphertexts of a bundle's planes.
fn evaluate_bundle<R: Threads + Sync>(
    rt: &R,
    alloc: Global,
    query: &Query,
    row: u8,
    sight: &Sight<Cache>,
    scratch: &mut Scratch,
    cts: &mut Vec<Ciphertext>,
) -> Result<(), AllocError>
    requires loaded { IsLoaded query.now }
    requires row { row < query.now.params.rows }
    requires ready { IsReady (parameters_of query.now.params) (seen_of cached_bins sight.now) }
    requires scratch { IsScratch (parameters_of query.now.params) scratch.old }
    ensures evaluated { OnOk result
        (cts.new.items ≡ cts.old.items ++ evaluated_bundle (parameters_of query.now.params)
        query.now.powers.query row (seen_of cached_bins sight.now).bins) }
    ensures scratch { scratch.new ≡ scratch.old }
{
    let mut out = blank(alloc, 1 + usize::from(query.params.units))?;
    write_bundle(rt, alloc, query, row, sight, scratch, &mut out)?;
    cts.append(&mut out)
}

// So many ciphertexts to write into.
fn blank(alloc: Global, count: usize) -> Result<Vec<Ciphertext>, AllocError>
    ensures { IfOk result (λ cts. length cts.items ≡ count) }
{
    let mut cts = Vec::with_capacity(alloc, count)?;
    for _ in 0..count {
        cts.push(Ciphertext::zero(alloc)?)?;
    }
    Ok(cts)
}

// Writes the ciphertexts of a bundle's planes.
fn write_bundle<R: Threads + Sync>(
    rt: &R,
    alloc: Global,
    query: &Query,
    row: u8,
    sight: &Sight<Cache>,
    scratch: &mut Scratch,
    out: &mut [Ciphertext],
) -> Result<(), AllocError>
    requires loaded { IsLoaded query.now }
    requires row { row < query.now.params.rows }
    requires ready { IsReady (parameters_of query.now.params) (seen_of cached_bins sight.now) }
    requires scratch { IsScratch (parameters_of query.now.params) scratch.old }
    requires places { length out.old ≡ planes_of_bundle (parameters_of query.now.params) }
    ensures evaluated { OnOk result
        (out.new ≡ evaluated_bundle (parameters_of query.now.params) query.now.powers.query row
        (seen_of cached_bins sight.now).bins) }
    ensures scratch { scratch.new ≡ scratch.old }
{
    match sight {
        Sight::Ready { cache, .. } => {
            eval_into(cache, &query.powers, row, scratch, out);
            Ok(())
        }
        Sight::Bare { bundle, .. } => write_bare(rt, alloc, query, row, bundle, scratch, out),
    }
}

// Writes the ciphertexts of a bundle without a cache: its cache is built into the scratch's block, and lets it go again.
fn write_bare<R: Threads + Sync>(
    rt: &R,
    alloc: Global,
    query: &Query,
    row: u8,
    bundle: &Arc<Bundle>,
    scratch: &mut Scratch,
    out: &mut [Ciphertext],
) -> Result<(), AllocError>
    requires loaded { IsLoaded query.now }
    requires row { row < query.now.params.rows }
    requires cacheable { IsCacheable (parameters_of query.now.params) (arc_value bundle.now) }
    requires scratch { IsScratch (parameters_of query.now.params) scratch.old }
    requires places { length out.old ≡ planes_of_bundle (parameters_of query.now.params) }
    ensures evaluated { OnOk result
        (out.new ≡ evaluated_bundle (parameters_of query.now.params) query.now.powers.query row
        (arc_value bundle.now)) }
    ensures scratch { scratch.new ≡ scratch.old }
{
    let bundle = bundle.clone()?;
    let Some(block) = scratch.take_block() else {
        unreachable!()
    };
    match Cache::build(rt, alloc, &query.params, bundle, block) {
        Ok(cache) => {
            eval_into(&cache, &query.powers, row, scratch, out);
            let _ = scratch.give_block(cache.into_block());
            Ok(())
        }
        Err(refused) => {
            let _ = scratch.give_block(refused.block);
            Err(AllocError)
        }
    }
}
