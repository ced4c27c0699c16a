//! Tags: 22 bytes that stand for an item.
ghost use Rattle.std.specs.Prelude.{◌≡◌, ◌≤◌, ◌<◌, ◌*◌, ◌%◌, ◌+◌, List, ℕ, length, drop};
ghost use Rattle.std.specs.List.{All};
ghost use Rattle.byteorder.specs.Endian.{big_number};
ghost use Rattle.item_slots.specs.Tags.{tag_of, slot_values, positions_of};

use crate::position_list::Positions;
use byteorder::{BigEndian, ByteOrder};
use sha2::{Digest, Sha256};
use std::marker::Model;

/// The number of bins of a row.
pub(crate) const BINS: u32 = 819;

/// The tag of an item: the first 22 bytes of its SHA-256. Tags are ordered by their bytes.
#[derive(Clone, Copy, PartialEq, Eq, PartialOrd, Ord)]
pub struct Tag {
    bytes: [u8; 22],
}

impl Model for Tag {
    ghost Value = { List ℕ };

    ghost view = { λ t. t.bytes };

    ghost inverse = { λ bytes. record { bytes = bytes } };
}

/// The tag of an item: the first 22 bytes of its SHA-256 (FIPS 180-4).
pub fn tag_of(item: &[u8]) -> Tag
    ensures { result ≡ tag_of item.now }
{
    let digest = Sha256::digest(item);
    let mut bytes = [0; 22];
    bytes.copy_from_slice(&digest[..22]);
    Tag { bytes }
}

/// The tag with these bytes.
pub fn tag_from(bytes: [u8; 22]) -> Tag
    ensures { result ≡ bytes }
{
    Tag { bytes }
}

/// The bytes of a tag.
pub fn tag_bytes(tag: &Tag) -> [u8; 22]
    ensures { result ≡ tag.now }
{
    tag.bytes
}

// The big-endian 16-bit number of a tag from a place on.
fn half_at(bytes: &[u8], at: usize) -> u16
    requires { at + 2 ≤ length bytes.now }
    ensures { result ≡ big_number 2 (drop at bytes.now) }
{
    BigEndian::read_u16(&bytes[at..])
}

/// The five slot values of a tag: its bytes 0 to 9 as big-endian 16-bit numbers.
pub fn slots(tag: &Tag) -> [u16; 5]
    ensures { result ≡ slot_values tag.now }
{
    let bytes = &tag.bytes;
    [
        half_at(bytes, 0),
        half_at(bytes, 2),
        half_at(bytes, 4),
        half_at(bytes, 6),
        half_at(bytes, 8),
    ]
}

// The big-endian 32-bit number of a tag from a place on, as a position among the bins of the rows.
fn position_at(bytes: &[u8], at: usize, rows: u8) -> u16
    requires some { 1 ≤ rows }
    requires few { rows ≤ 4 }
    requires room { at + 4 ≤ length bytes.now }
    ensures value { result ≡ big_number 4 (drop at bytes.now) % (819 * rows) }
    ensures below { result < 819 * rows }
{
    (BigEndian::read_u32(&bytes[at..]) % (BINS * u32::from(rows))) as u16
}

/// The positions of a tag in a set with `rows` rows (1 to 4): its bytes 10 to 21 as three big-endian
/// 32-bit numbers modulo `819·rows`, without repeats, in rising order.
pub fn positions(tag: &Tag, rows: u8) -> Positions
    requires some { 1 ≤ rows }
    requires few { rows ≤ 4 }
    ensures listed { result ≡ positions_of rows tag.now }
    ensures below { All (λ p. p < 819 * rows) result }
    ensures few { length result ≤ 3 }
{
    let bytes = &tag.bytes;
    Positions::of(
        position_at(bytes, 10, rows),
        position_at(bytes, 14, rows),
        position_at(bytes, 18, rows),
    )
}
