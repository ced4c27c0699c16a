//! Numbers of 2 to 5 bytes, the highest first.
ghost use Rattle.std.specs.Prelude.{◌≡◌, ◌+◌, ◌*◌, ◌≤◌, ◌++◌, OnOk, drop, length};
ghost use Rattle.byteorder.specs.Endian.{big_bytes, big_number};
ghost use Rattle.query_codec.specs.ShortNumbers.{short_width};

use byteorder::{BigEndian, ByteOrder};
use std::alloc::AllocError;

/// The bytes of a number of a short ciphertext, of which `drop` bits are left out. `drop` is at most 20.
pub(crate) fn short_width(drop: u8) -> usize
    requires { drop ≤ 20 }
    ensures width { result ≡ short_width drop }
    ensures some { 2 ≤ result }
    ensures few { result ≤ 5 }
{
    (36 - usize::from(drop) + 7) / 8
}

/// Number `i` of the bytes, where each has `width` bytes, 2 to 5.
pub(crate) fn number(width: usize, bytes: &[u8], i: usize) -> u64
    requires some { 2 ≤ width }
    requires few { width ≤ 5 }
    requires within { width * (i + 1) ≤ length bytes.now }
    ensures { result ≡ big_number width (drop (width * i) bytes.now) }
{
    let bytes = &bytes[width * i..];
    match width {
        5 => u64::from(bytes[0]) * (1 << 32) + u64::from(BigEndian::read_u32(&bytes[1..])),
        4 => u64::from(BigEndian::read_u32(bytes)),
        3 => u64::from(BigEndian::read_u24(bytes)),
        _ => u64::from(BigEndian::read_u16(bytes)),
    }
}

/// Appends the lowest `width` bytes of a number, 2 to 5.
pub(crate) fn append_number(text: &mut Vec<u8>, width: usize, x: u64) -> Result<(), AllocError>
    requires some { 2 ≤ width }
    requires few { width ≤ 5 }
    ensures { OnOk result (text.new.items ≡ text.old.items ++ big_bytes width x) }
{
    let bytes = x.to_be_bytes();
    match width {
        5 => text.extend_from_slice(&bytes[3..]),
        4 => text.extend_from_slice(&bytes[4..]),
        3 => text.extend_from_slice(&bytes[5..]),
        _ => text.extend_from_slice(&bytes[6..]),
    }
}

// The bits that are left out, and the bytes of a number then.
#[cfg(test)]
const WIDTHS: [(u8, usize); 6] = [(0, 5), (3, 5), (4, 4), (11, 4), (12, 3), (20, 2)];

#[test]
fn widths(rt: HostRuntime) {
    let mut text = Vec::new(rt.alloc());
    for (drop, width) in WIDTHS {
        assert!(rt; drop <= 20);
        assert_eq!(rt; short_width(drop), width);
        text.clear();
        append_number(&mut text, width, 0x0102_0304_0506_0708).expect(&rt, "memory");
        append_number(&mut text, width, 0x0807_0605_0403_0201).expect(&rt, "memory");
        assert_eq!(rt; text.len(), 2 * width);
        assert_eq!(rt; text[0] as usize, 9 - width);
        assert_eq!(rt; number(width, &text, 1) % (1 << 16), 0x0201);
    }
}
