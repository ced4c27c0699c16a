//! Queries.
ghost use Rattle.std.specs.Prelude.{◌≡◌, ◌<◌, ◌^◌, None, IfSome, IfOk, OnOk, IfErr, length, map};
ghost use Rattle.std.specs.List.{position};
ghost use Rattle.item_slots.specs.Tags.{tag_of};
ghost use Rattle.noise_ledger.specs.Verdicts.{parameters_of, ArePassed};
ghost use Rattle.psi_receiver.specs.Faults.{is_long, IsAskFault};
ghost use Rattle.psi_receiver.specs.Queries.{IsQueryOf};

use crate::fault::AskFault;
use crate::placement::place_tags;
use crate::query::encrypt_query;
use item_slots::{Tag, tag_of};
use noise_ledger::Params;
use query_codec::join_query;
use std::alloc::{AllocError, Global};
use std::thread::Threads;

// The most bytes of an item.
const LONGEST: usize = 255;

/// The query of items: a query body with the encrypted powers of their slot values, at the positions of their first
/// placement.
///
/// It fails, but for want of memory, exactly where an item is longer than 255 bytes (`TooLong`, which comes first) or the
/// items have no placement (`Crowded`). The parameters are passed ones, and there are fewer than 2^32 items. The same seed
/// always gives the same key and masks.
pub fn ask<R: Threads + Sync>(
    rt: &R,
    alloc: Global,
    params: &Params,
    seed: &[u8; 32],
    items: &[Vec<u8>],
) -> Result<Vec<u8>, AskFault>
    requires passed { ArePassed (parameters_of params.now) }
    requires numbered { length items.now < 2 ^ 32 }
    ensures query { IfOk result (λ body. IsQueryOf (parameters_of params.now) seed.now
        (map (λ item. tag_of item.items) items.now) body.items) }
    ensures short { OnOk result (position (λ item. is_long item.items) items.now ≡ None) }
    ensures fault { IfErr result (IsAskFault params.now.rows
        (position (λ item. is_long item.items) items.now)
        (map (λ item. tag_of item.items) items.now)) }
{
    if let Some(item) = first_long(items) {
        return Err(AskFault::TooLong { item });
    }
    let tags = tags_of(alloc, items)?;
    ask_tags(rt, alloc, params, seed, &tags)
}

/// The query of tags, as [`ask`] makes it of items. It never answers `TooLong`.
pub fn ask_tags<R: Threads + Sync>(
    rt: &R,
    alloc: Global,
    params: &Params,
    seed: &[u8; 32],
    tags: &[Tag],
) -> Result<Vec<u8>, AskFault>
    requires passed { ArePassed (parameters_of params.now) }
    requires numbered { length tags.now < 2 ^ 32 }
    ensures query { IfOk result (λ body. IsQueryOf
        (parameters_of params.now) seed.now tags.now body.items) }
    ensures fault { IfErr result (IsAskFault params.now.rows None tags.now) }
{
    let placed = place_tags(alloc, tags, params.rows)?;
    let pieces = encrypt_query(rt, alloc, params, seed, &placed)?;
    Ok(join_query(alloc, params, &pieces)?)
}

/// The number of the first item that is longer than 255 bytes.
pub fn first_long(items: &[Vec<u8>]) -> Option<u32>
    requires { length items.now < 2 ^ 32 }
    ensures { result ≡ position (λ item. is_long item.items) items.now }
{
    let item = position_of_long(items)?;
    Some(item as u32)
}

// The same number, whatever the number of items.
fn position_of_long(items: &[Vec<u8>]) -> Option<usize>
    ensures position { result ≡ position (λ item. is_long item.items) items.now }
    ensures within { IfSome result (λ item. item < length items.now) }
{
    items.iter().position(|item| item.len() > LONGEST)
}

/// The tags of items.
pub fn tags_of(alloc: Global, items: &[Vec<u8>]) -> Result<Vec<Tag>, AllocError>
    ensures { IfOk result (λ tags. tags.items ≡ map (λ item. tag_of item.items) items.now) }
{
    items.iter().map(|item| tag_of(item)).collect(alloc)
}
