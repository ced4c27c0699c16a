//! Entries as bytes.
ghost use Rattle.std.specs.Prelude.{◌≡◌, ◌++◌, length, IfOk, OnOk, IfErr};
ghost use Rattle.byteorder.specs.Endian.{big_bytes};
ghost use Rattle.psi_follower.specs.EntryBytes.{answer_bytes, call_bytes, entry_bytes};

use item_slots::tag_bytes;
use noise_ledger::Params;
use psi_bundle::{Answer, Call, Entry};
use psi_frames::{
    ABSENT, ADDED, ANSWER, ASK, DROP, FULL, MOVED, PUT, REMOVED, REPACK, REPACKED, REPLACED,
};
use std::alloc::{AllocError, Global};

/// An entry with its place in the leader's history.
#[derive(Clone, Copy, Drop)]
pub struct Fed {
    /// The place.
    pub place: u64,
    /// The entry.
    pub entry: Entry,
}

/// Why bytes are not read as entries.
#[derive(Clone, Copy, Debug, PartialEq, Eq)]
pub enum EntriesFault {
    /// They are no list of entries: from this offset on they begin none.
    Bad { offset: u64 },
    /// There was no memory.
    NoMemory,
}

/// The bytes of an entry at a place: the place in 64 bits; the call's kind as of a request, 1 to 4, with the tag of a Put or a
/// Drop, the label of a Put, the row and the 64-bit `from` of a Repack; and the answer's kind as of a reply, 129 to 136, with the
/// planes and cells of Full in 32 bits each, before and after of Done in 16 bits each, and the stamp of Moved in 64 bits.
///
/// # Errors
///
/// If memory runs out.
pub fn write_entry(
    alloc: Global,
    _params: &Params,
    place: u64,
    entry: &Entry,
) -> Result<Vec<u8>, AllocError>
    ensures { IfOk result (λ bytes. bytes.items ≡ entry_bytes place entry.now) }
{
    let mut bytes = Vec::new(alloc);
    bytes.extend_from_slice(&place.to_be_bytes())?;
    push_call(&mut bytes, &entry.call)?;
    push_answer(&mut bytes, &entry.answer)?;
    Ok(bytes)
}

// Appends the bytes of a call.
fn push_call(bytes: &mut Vec<u8>, call: &Call) -> Result<(), AllocError>
    ensures { OnOk result (bytes.new.items ≡ bytes.old.items ++ call_bytes call.now) }
{
    match call {
        Call::Put { tag, label } => {
            bytes.extend_from_slice(&[PUT])?;
            bytes.extend_from_slice(&tag_bytes(tag))?;
            bytes.extend_from_slice(label.bytes())
        }
        Call::Drop { tag } => {
            bytes.extend_from_slice(&[DROP])?;
            bytes.extend_from_slice(&tag_bytes(tag))
        }
        Call::Ask => bytes.extend_from_slice(&[ASK]),
        Call::Repack { row, from } => {
            bytes.extend_from_slice(&[REPACK, *row])?;
            bytes.extend_from_slice(&from.to_be_bytes())
        }
    }
}

// Appends the bytes of an answer.
fn push_answer(bytes: &mut Vec<u8>, answer: &Answer) -> Result<(), AllocError>
    ensures { OnOk result (bytes.new.items ≡ bytes.old.items ++ answer_bytes answer.now) }
{
    match answer {
        Answer::Added => bytes.extend_from_slice(&[ADDED]),
        Answer::Replaced => bytes.extend_from_slice(&[REPLACED]),
        Answer::Removed => bytes.extend_from_slice(&[REMOVED]),
        Answer::Absent => bytes.extend_from_slice(&[ABSENT]),
        Answer::Full { planes, cells } => {
            bytes.extend_from_slice(&[FULL])?;
            bytes.extend_from_slice(&planes.to_be_bytes())?;
            bytes.extend_from_slice(&cells.to_be_bytes())
        }
        Answer::Seen => bytes.extend_from_slice(&[ANSWER]),
        Answer::Done { before, after } => {
            bytes.extend_from_slice(&[REPACKED])?;
            bytes.extend_from_slice(&before.to_be_bytes())?;
            bytes.extend_from_slice(&after.to_be_bytes())
        }
        Answer::Moved { stamp } => {
            bytes.extend_from_slice(&[MOVED])?;
            bytes.extend_from_slice(&stamp.to_be_bytes())
        }
    }
}
