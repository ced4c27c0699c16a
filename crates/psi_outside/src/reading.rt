//! Reading a source to its end.
ghost use Rattle.std.specs.Prelude.{◌≡◌, ◌≤◌, ◌<◌, ◌+◌, ◌++◌, List, [], ℕ, Some, length, IfOk, OnOk, IfErr, OnErr, IfSome};
ghost use Rattle.std.specs.Io.KnownBytes.{Consumes};
ghost use Rattle.psi_outside.specs.Reading.{HasReadCause, IsLonger, IsReadCounted, IsWithin};

use crate::{ReadFault, Source};
use std::alloc::Global;

// The bytes that one read has room for.
const PIECE: usize = 8192;

/// All bytes that a source has left, at most `limit` of them.
///
/// Where the source tells its bytes, Ok gives all of them and leaves none, and `TooLong` comes only where they are more than
/// `limit`. After each fault a front of them was taken: at most `limit` bytes where a read failed, and no
/// more than 8,192 bytes past `limit` in any case, so that a longer source is refused as soon as that is seen. The
/// source's count of faults rises by one where the answer is `Failed`, and stays as it was at every other answer.
pub fn read_all<S: Source>(
    alloc: Global,
    source: &mut S,
    limit: usize,
) -> Result<Vec<u8>, ReadFault>
    ensures bytes { IfOk result (λ bytes.
        IfSome (S.told source.old).left (λ left. bytes.items ≡ left)) }
    ensures end { OnOk result (IfSome (S.told source.old).left
        (λ _. (S.told source.new).left ≡ Some [])) }
    ensures bound { IfOk result (λ bytes. length bytes.items ≤ limit) }
    ensures longer { IfErr result (IsLonger limit (S.told source.old).left) }
    ensures front { OnErr result ((taken : List ℕ)
        × Consumes (S.told source.old).left (S.told source.new).left taken) }
    ensures within { IfErr result (IsWithin limit (S.told source.old).left
        (S.told source.new).left) }
    ensures cause { HasReadCause (S.told source.old).faults (S.told source.new).faults result }
{
    let mut bytes = Vec::new(alloc);
    let mut piece = [0; PIECE];
    loop {
        let count = source.read(&mut piece)?;
        if count == 0 {
            return Ok(bytes);
        }
        append(&mut bytes, &piece[..count], limit)?;
    }
}

// Puts a piece behind the bytes, unless they would be more than the limit.
fn append(bytes: &mut Vec<u8>, piece: &[u8], limit: usize) -> Result<(), ReadFault>
    requires { length bytes.old.items ≤ limit }
    ensures all { OnOk result (bytes.new.items ≡ bytes.old.items ++ piece.now) }
    ensures bound { OnOk result (length bytes.new.items ≤ limit) }
    ensures long { IfErr result (IsLonger limit (Some (bytes.old.items ++ piece.now))) }
    ensures no_fault { IfErr result (IsReadCounted 0 0) }
{
    if piece.len() > limit - bytes.len() {
        return Err(ReadFault::TooLong);
    }
    bytes.extend_from_slice(piece)?;
    Ok(())
}
