//! Worked values.
use crate::{Positions, positions, slots, tag_bytes, tag_of};

#[test]
fn tags_of_known_items(rt: HostRuntime) {
    // The digests are FIPS 180-4's of `abc` and of the empty message; the numbers were read off them by hand.
    let rows: [(&[u8], [u8; 4], [u16; 5], [u16; 3]); 2] = [
        (
            b"abc",
            [0xba, 0x78, 0x16, 0xbf],
            [47736, 5823, 36609, 53226, 16705],
            [178, 571, 608],
        ),
        (
            b"",
            [0xe3, 0xb0, 0xc4, 0x42],
            [58288, 50242, 39164, 7188, 39675],
            [135, 272, 803],
        ),
    ];
    for (item, front, values, places) in rows {
        let tag = tag_of(item);
        assert_eq!(rt; &tag_bytes(&tag)[..4], front.as_slice());
        assert_eq!(rt; slots(&tag), values);
        assert_eq!(rt; positions(&tag, 1).list(), places.as_slice());
    }
}

#[test]
fn positions_rise_without_repeats(rt: HostRuntime) {
    let rows: [(u16, u16, u16, &[u16]); 6] = [
        (1, 2, 3, &[1, 2, 3]),
        (3, 2, 1, &[1, 2, 3]),
        (2, 3, 1, &[1, 2, 3]),
        (5, 5, 4, &[4, 5]),
        (4, 5, 5, &[4, 5]),
        (7, 7, 7, &[7]),
    ];
    for (a, b, c, want) in rows {
        let list = Positions::of(a % 3276, b % 3276, c % 3276);
        assert_eq!(rt; list.list(), want);
    }
}
