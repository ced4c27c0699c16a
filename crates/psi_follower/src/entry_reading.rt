//! Entries read from bytes.
ghost use Rattle.std.specs.Prelude.{◌≡◌, ◌≢◌, ◌≤◌, ◌+◌, ◌*◌, ◌++◌, true, false, List, ℕ, length, take, drop, slice_index, IfOk, IfErr, IfSome, IsNone};
ghost use Rattle.std.specs.List.{All};
ghost use Rattle.byteorder.specs.Endian.{big_number};
ghost use Rattle.noise_ledger.specs.Verdicts.{ArePassed, parameters_of};
ghost use Rattle.psi_frames.specs.Frames.{added_kind, moved_kind};
ghost use Rattle.psi_bundle.specs.Histories.{most_entries};
ghost use Rattle.psi_follower.specs.EntryBytes.{AreEntries, IsEntriesFault, answers_to};
ghost use Rattle.psi_follower.specs.Inner.EntryFronts.{answer_size, behind_call, call_size, entry_size, front_answer, front_call, front_entry, is_answer_front, is_call_front, is_entry_front};

use crate::entry_bytes::{EntriesFault, Fed};
use byteorder::{BigEndian, ByteOrder};
use item_slots::{Tag, tag_from};
use noise_ledger::Params;
use psi_bundle::{Answer, Call, Entry, Label};
use psi_frames::{
    ABSENT, ADDED, ANSWER, ASK, DROP, FULL, MOVED, PUT, REMOVED, REPACK, REPACKED, REPLACED,
};
use std::alloc::Global;

// The bytes of a tag.
const TAG_BYTES: usize = 22;

// How many bytes a call of a kind has, 0 for another kind.
fn call_size(params: &Params, kind: u8) -> usize
    requires { ArePassed (parameters_of params.now) }
    ensures { result ≡ call_size (parameters_of params.now) kind }
{
    match kind {
        PUT => 1 + TAG_BYTES + 10 * usize::from(params.units),
        DROP => 1 + TAG_BYTES,
        ASK => 1,
        REPACK => 10,
        _ => 0,
    }
}

// Whether these bytes begin with a call.
fn is_call_front(params: &Params, bytes: &[u8]) -> bool
    requires { ArePassed (parameters_of params.now) }
    ensures { result ≡ is_call_front (parameters_of params.now) bytes.now }
{
    match bytes.first() {
        None => false,
        Some(kind) => {
            let size = call_size(params, *kind);
            size > 0 && size <= bytes.len() && (*kind != REPACK || bytes[1] < params.rows)
        }
    }
}

// The tag that stands at a place.
fn tag_at(bytes: &[u8], at: usize) -> Tag
    requires { at + 22 ≤ length bytes.now }
    ensures { result ≡ take 22 (drop at bytes.now) }
{
    let mut tag = [0; TAG_BYTES];
    tag.copy_from_slice(&bytes[at..at + TAG_BYTES]);
    tag_from(tag)
}

// The label that stands at a place, of so many bytes.
fn label_at(bytes: &[u8], at: usize, len: usize) -> Label
    requires few { len ≤ 40 }
    requires room { at + len ≤ length bytes.now }
    ensures { result ≡ take len (drop at bytes.now) }
{
    match Label::of(&bytes[at..at + len]) {
        Some(label) => label,
        None => unreachable!(),
    }
}

// The call that these bytes begin with.
fn front_call(params: &Params, bytes: &[u8]) -> Call
    requires passed { ArePassed (parameters_of params.now) }
    requires front { is_call_front (parameters_of params.now) bytes.now ≡ true }
    ensures call { result ≡ front_call (parameters_of params.now) bytes.now }
{
    match bytes[0] {
        PUT => Call::Put {
            tag: tag_at(bytes, 1),
            label: label_at(bytes, 1 + TAG_BYTES, 10 * usize::from(params.units)),
        },
        DROP => Call::Drop {
            tag: tag_at(bytes, 1),
        },
        ASK => Call::Ask,
        _ => Call::Repack {
            row: bytes[1],
            from: BigEndian::read_u64(&bytes[2..]),
        },
    }
}

// Whether a step has an answer of this kind for the call.
fn answers_to(call: &Call, kind: u8) -> bool
    ensures { result ≡ answers_to call.now kind }
{
    match call {
        Call::Put { .. } => kind == ADDED || kind == REPLACED || kind == FULL,
        Call::Drop { .. } => kind == REMOVED || kind == ABSENT,
        Call::Ask => kind == ANSWER,
        Call::Repack { .. } => kind == REPACKED || kind == MOVED,
    }
}

// How many bytes an answer of a kind has.
fn answer_size(kind: u8) -> usize
    ensures size { result ≡ answer_size kind }
    ensures few { result ≤ 9 }
{
    match kind {
        FULL | MOVED => 9,
        REPACKED => 5,
        _ => 1,
    }
}

// Whether these bytes begin with an answer to the call.
fn is_answer_front(call: &Call, bytes: &[u8]) -> bool
    ensures { result ≡ is_answer_front call.now bytes.now }
{
    match bytes.first() {
        None => false,
        Some(kind) => answers_to(call, *kind) && answer_size(*kind) <= bytes.len(),
    }
}

// The answer that these bytes begin with.
fn front_answer(bytes: &[u8]) -> Answer
    requires some { 1 ≤ length bytes.now }
    requires least { added_kind ≤ slice_index bytes.now 0 }
    requires most { slice_index bytes.now 0 ≤ moved_kind }
    requires room { answer_size (slice_index bytes.now 0) ≤ length bytes.now }
    ensures { result ≡ front_answer bytes.now }
{
    match bytes[0] {
        ADDED => Answer::Added,
        REPLACED => Answer::Replaced,
        REMOVED => Answer::Removed,
        ABSENT => Answer::Absent,
        FULL => Answer::Full {
            planes: BigEndian::read_u32(&bytes[1..]),
            cells: BigEndian::read_u32(&bytes[5..]),
        },
        ANSWER => Answer::Seen,
        REPACKED => Answer::Done {
            before: BigEndian::read_u16(&bytes[1..]),
            after: BigEndian::read_u16(&bytes[3..]),
        },
        _ => Answer::Moved {
            stamp: BigEndian::read_u64(&bytes[1..]),
        },
    }
}

// The most entries of a journal.
const ENTRIES: u64 = 1 << 20;

// The bytes from a place on.
fn from(bytes: &[u8], at: usize) -> &[u8]
    requires { at ≤ length bytes.now }
    ensures { result.now ≡ drop at bytes.now }
{
    &bytes[at..]
}

// The entry that these bytes begin with, and how many bytes it has.
fn read_entry(params: &Params, bytes: &[u8]) -> Option<(Fed, usize)>
    requires passed { ArePassed (parameters_of params.now) }
    ensures front { IfSome result
        (λ read. is_entry_front (parameters_of params.now) bytes.now ≡ true) }
    ensures entry { IfSome result
        (λ read. read.0 ≡ front_entry (parameters_of params.now) bytes.now) }
    ensures size { IfSome result
        (λ read. read.1 ≡ entry_size (parameters_of params.now) bytes.now) }
    ensures within { IfSome result (λ read. read.1 ≤ length bytes.now) }
    ensures none { IsNone result → is_entry_front (parameters_of params.now) bytes.now ≡ false }
{
    if bytes.len() < 8 {
        return None;
    }
    let place = BigEndian::read_u64(bytes);
    let behind = from(bytes, 8);
    if place >= ENTRIES || !is_call_front(params, behind) {
        return None;
    }
    let call = front_call(params, behind);
    let size = call_size(params, behind[0]);
    let (answer, more) = read_answer(&call, from(behind, size))?;
    let entry = Entry { call, answer };
    Some((Fed { place, entry }, 8 + size + more))
}

// The answer to a call that these bytes begin with, and how many bytes it has.
fn read_answer(call: &Call, bytes: &[u8]) -> Option<(Answer, usize)>
    ensures front { IfSome result (λ read. is_answer_front call.now bytes.now ≡ true) }
    ensures answer { IfSome result (λ read. read.0 ≡ front_answer bytes.now) }
    ensures size { IfSome result (λ read. read.1 ≡ answer_size (slice_index bytes.now 0)) }
    ensures within { IfSome result (λ read. read.1 ≤ length bytes.now) }
    ensures none { IsNone result → is_answer_front call.now bytes.now ≡ false }
{
    if is_answer_front(call, bytes) {
        Some((front_answer(bytes), answer_size(bytes[0])))
    } else {
        None
    }
}

/// Reads a list of entries, one behind the other, as `write_entry` writes them. Condition: the parameters pass `check` of the
/// crate `noise_ledger`.
///
/// An entry is read where its place is below 2^20, the row of a Repack is below the parameters' rows, and its answer is of a
/// kind that a step has for its call. No entry's bytes begin another's, so no bytes are two lists.
///
/// # Errors
///
/// `Bad` comes exactly where the bytes are no list of entries, with the offset of the first part that begins none; `NoMemory`
/// where memory runs out.
pub fn read_entries(alloc: Global, params: &Params, bytes: &[u8]) -> Result<Vec<Fed>, EntriesFault>
    requires { ArePassed (parameters_of params.now) }
    ensures entries { IfOk result (λ feds.
        AreEntries (parameters_of params.now) bytes.now feds.items) }
    ensures fault { IfErr result (IsEntriesFault (parameters_of params.now) bytes.now) }
{
    let mut feds = Vec::new(alloc);
    let mut at = 0;
    while at < bytes.len() {
        let Some((fed, size)) = read_entry(params, from(bytes, at)) else {
            return Err(EntriesFault::Bad { offset: at as u64 });
        };
        match feds.push(fed) {
            Ok(()) => at += size,
            Err(_) => return Err(EntriesFault::NoMemory),
        }
    }
    Ok(feds)
}
