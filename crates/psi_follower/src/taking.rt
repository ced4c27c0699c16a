//! Entries of a history, made on a book.
ghost use Rattle.std.specs.Prelude.{◌≡◌, ◌≢◌, ◌≤◌, ◌<◌, ◌+◌, ◌^◌, ◌++◌, [], ◌∷◌, length, IfOk, OnOk, OnErr, Result};
ghost use Rattle.std.specs.List.{All};
ghost use Rattle.noise_ledger.specs.Verdicts.{ArePassed, parameters_of};
ghost use Rattle.psi_bundle.specs.Steps.{step};
ghost use Rattle.psi_bundle.specs.Shows.{packed_bins};
ghost use Rattle.psi_bundle.specs.Versions.{greatest_stamp};
ghost use Rattle.sender_core.specs.Kept.{start_of, version_of, kept_row, row_of};
ghost use Rattle.psi_follower.specs.Taking.{HasRow, IsOfSet};
ghost use Rattle.psi_bundle.specs.declared.history.Answer.{Answer};
ghost use Rattle.bundle_cache.specs.Caches.{cached_bins, is_cached_under};
ghost use Rattle.sender_core.specs.Kept.{IsAsBefore, IsConsistent, IsStep};
ghost use Rattle.sender_core.specs.Answers.{answer_of_put};
ghost use Rattle.psi_bundle.specs.declared.history.Call.TheVariants as Call;
ghost use Rattle.psi_bundle.specs.Histories.{IsFitting, IsLegal};
ghost use Rattle.psi_follower.specs.Inner.Entering.{AreTaken, IsEntered, IsPacking};

use crate::comparing::is_same;
use crate::follower::FeedFault;
use bundle_cache::Cache;
use noise_ledger::Params;
use psi_bundle::{Answer, Bundle, Call, Entry};
use psi_packer::pack_row;
use sender_core::{Book, Put, Refusal};
use std::alloc::{AllocError, Global};

/// Takes entries from place `first` on, up to the first one that differs.
pub(crate) fn take_each(
    alloc: Global,
    params: &Params,
    book: &mut Book<Cache>,
    first: u64,
    entries: &[Entry],
) -> Result<(), FeedFault>
    requires passed { ArePassed (parameters_of params.now) }
    requires same { book.old.parameters ≡ parameters_of params.now }
    requires reaches { first ≤ length book.old.journal }
    requires few { first + length entries.now ≤ 2 ^ 20 }
    requires of_set { All (IsOfSet book.old.parameters) entries.now }
    requires legal { IsLegal (start_of book.old) book.old.journal }
    ensures taken { AreTaken (start_of book.old) book.old.journal first entries.now result
        book.new.journal }
    ensures parameters { book.new.parameters ≡ book.old.parameters }
    ensures start { start_of book.new ≡ start_of book.old }
{
    let mut place = first;
    for entry in entries {
        take(alloc, params, book, place, entry)?;
        place += 1;
    }
    Ok(())
}

// Takes the entry at a place: it stands there already, or it is the next.
fn take(
    alloc: Global,
    params: &Params,
    book: &mut Book<Cache>,
    place: u64,
    entry: &Entry,
) -> Result<(), FeedFault>
    requires passed { ArePassed (parameters_of params.now) }
    requires same { book.old.parameters ≡ parameters_of params.now }
    requires reaches { place ≤ length book.old.journal }
    requires few { place < 2 ^ 20 }
    requires of_set { IsOfSet book.old.parameters entry.now }
    ensures entered { IsEntered (start_of book.old) book.old.journal place entry.now result
        book.new.journal }
    ensures parameters { book.new.parameters ≡ book.old.parameters }
    ensures start { start_of book.new ≡ start_of book.old }
{
    match book.entry(place) {
        Some(kept) => {
            if is_same(kept, entry) {
                Ok(())
            } else {
                Err(FeedFault::Differs { place })
            }
        }
        None => enter(alloc, params, book, entry),
    }
}

// Makes the next entry's call, where the set gives the entry's answer.
fn enter(
    alloc: Global,
    params: &Params,
    book: &mut Book<Cache>,
    entry: &Entry,
) -> Result<(), FeedFault>
    requires passed { ArePassed (parameters_of params.now) }
    requires same { book.old.parameters ≡ parameters_of params.now }
    requires few { length book.old.journal < 2 ^ 20 }
    requires of_set { IsOfSet book.old.parameters entry.now }
    ensures entered { IsEntered (start_of book.old) book.old.journal
        (length book.old.journal) entry.now result book.new.journal }
    ensures parameters { book.new.parameters ≡ book.old.parameters }
    ensures start { start_of book.new ≡ start_of book.old }
{
    let place = book.count();
    let Ok(packed) = packing(alloc, params, book, &entry.call) else {
        return Err(FeedFault::NoMemory);
    };
    if expected(book, &entry.call, &packed) != entry.answer {
        return Err(FeedFault::Differs { place });
    }
    match make(alloc, book, &entry.call, packed) {
        Ok(()) => Ok(()),
        Err(_) => Err(FeedFault::NoMemory),
    }
}

// What the row of a Repack is packed into, where none of its bundles has a stamp above `from`; else nothing.
fn packing(
    alloc: Global,
    params: &Params,
    book: &Book<Cache>,
    call: &Call,
) -> Result<Vec<Bundle>, AllocError>
    requires passed { ArePassed (parameters_of params.now) }
    requires same { book.now.parameters ≡ parameters_of params.now }
    requires row { HasRow book.now.parameters call.now }
    ensures { IfOk result (λ packed. IsPacking book.now call.now packed.items) }
{
    match *call {
        Call::Repack { row, from } if book.newest(row) <= from => {
            pack_row(alloc, book.bundles(row), params.capacity)
        }
        _ => Ok(Vec::new(alloc)),
    }
}

// The answer that the set gives to a call.
fn expected(book: &Book<Cache>, call: &Call, packed: &[Bundle]) -> Answer
    requires consistent { IsConsistent cached_bins is_cached_under book.now }
    requires row { HasRow book.now.parameters call.now }
    requires packed { IsPacking book.now call.now packed.now }
    ensures { result ≡ (step (version_of book.now) call.now).answer }
{
    match *call {
        Call::Put { tag, .. } => answer_to_put(book.would_put(&tag)),
        Call::Drop { tag } => {
            if book.label(&tag).is_some() {
                Answer::Removed
            } else {
                Answer::Absent
            }
        }
        Call::Ask => Answer::Seen,
        Call::Repack { row, from } => expected_repack(book, row, from, packed),
    }
}

// What a Put did, as the answer of a step.
fn answer_to_put(put: Put) -> Answer
    ensures { result ≡ answer_of_put put }
{
    match put {
        Put::Added => Answer::Added,
        Put::Replaced => Answer::Replaced,
        Put::Full { planes, cells } => Answer::Full { planes, cells },
    }
}

// The answer that the set gives to a Repack.
fn expected_repack(book: &Book<Cache>, row: u8, from: u64, packed: &[Bundle]) -> Answer
    requires consistent { IsConsistent cached_bins is_cached_under book.now }
    requires row { row < book.now.parameters.rows }
    requires packed { IsPacking book.now (Call.Repack row from) packed.now }
    ensures { result ≡ (step (version_of book.now) (Call.Repack row from)).answer }
{
    let stamp = book.newest(row);
    if stamp > from {
        return Answer::Moved { stamp };
    }
    Answer::Done {
        before: book.bundles(row).len() as u16,
        after: packed.len() as u16,
    }
}

// Makes a call on the book.
fn make(
    alloc: Global,
    book: &mut Book<Cache>,
    call: &Call,
    packed: Vec<Bundle>,
) -> Result<(), Refusal>
    requires row { HasRow book.old.parameters call.now }
    requires fits { IsFitting book.old.parameters call.now }
    requires packed { IsPacking book.old call.now packed.items }
    ensures made { OnOk result ((answer : Answer) × IsStep book.old book.new call.now answer) }
    ensures kept { OnErr result (IsAsBefore book.old book.new) }
{
    match *call {
        Call::Put { tag, label } => {
            book.put(alloc, tag, label)?;
        }
        Call::Drop { tag } => {
            book.drop_tag(alloc, tag)?;
        }
        Call::Ask => {
            book.ask(alloc)?;
        }
        Call::Repack { row, from } => {
            book.repack_at(alloc, row, from, packed)?;
        }
    }
    Ok(())
}
