use super::*;
use noise_ledger::{Params, check};
use std::alloc::{AllocError, Global};

// A body of `len` bytes: a header, a residue and zeros.
fn body(alloc: Global, header: &[u8], residue: &[u8], len: usize) -> Result<Vec<u8>, AllocError> {
    let mut body = Vec::new(alloc);
    body.extend_from_slice(header)?;
    body.extend_from_slice(residue)?;
    body.resize(len, 0)?;
    Ok(body)
}

// A header, the first residue behind it, and the fault of such a query of one ciphertext whose other residues are 0. The
// first modulus is 0x0ffffee001.
const QUERIES: [([u8; 8], [u8; 5], Option<CodecFault>); 3] = [
    ([1, 1, 0, 1, 0, 0, 0, 0], [0x0f, 0xff, 0xfe, 0xe0, 0], None),
    (
        [1, 1, 0, 1, 0, 0, 0, 0],
        [0x0f, 0xff, 0xfe, 0xe0, 1],
        Some(CodecFault::Residue { index: 0 }),
    ),
    (
        [1, 1, 0, 2, 0, 0, 0, 0],
        [0; 5],
        Some(CodecFault::WrongParams),
    ),
];

#[test]
fn queries(rt: HostRuntime) {
    let alloc = rt.alloc();
    let params = Params::of(1, 1, 0);
    assert!(rt; check(&params).is_ok());
    for (header, residue, fault) in QUERIES {
        let query = body(alloc, &header, &residue, 81928).expect(&rt, "memory");
        assert!(rt; read_query(alloc, &params, &query).err() == fault);
    }
    let short = body(alloc, &[1, 1, 0, 1], &[], 81927).expect(&rt, "memory");
    let fault = read_query(alloc, &params, &short).err();
    assert!(rt; fault == Some(CodecFault::Length { want: 81928 }));
    no_body_begins_another();
}

#[test]
fn zero_query(rt: HostRuntime) {
    let alloc = rt.alloc();
    let params = Params::of(1, 1, 0);
    assert!(rt; check(&params).is_ok());
    let zeros = body(alloc, &[1, 1, 0, 1], &[], 81928).expect(&rt, "memory");
    let query = read_query(alloc, &params, &zeros)
        .ok()
        .expect(&rt, "a query");
    assert_eq!(rt; query.len(), 1);
    for list in 0..4 {
        for residue in query[0].residues(list) {
            assert_eq!(rt; *residue, 0);
        }
    }
    let written = write_query(alloc, &params, &query).expect(&rt, "memory");
    assert!(rt; written == zeros);
}

// Bodies of replies, and their faults.
const REPLIES: [(&[u8], Option<CodecFault>); 4] = [
    (b"\x01\x01\0\x01\0\0\0\0\0\0", None),
    (
        b"\x01\x01\0\x01\0\0\0\0\0",
        Some(CodecFault::Length { want: 10 }),
    ),
    (b"\x01\x01\0\x02\0\0\0\0\0\0", Some(CodecFault::WrongParams)),
    (
        b"\x01\x01\0\x01\0\0\0\0\0\x01",
        Some(CodecFault::Length { want: 81930 }),
    ),
];

#[test]
fn replies(rt: HostRuntime) {
    let alloc = rt.alloc();
    let params = Params::of(1, 1, 0);
    assert!(rt; check(&params).is_ok());
    for (body, fault) in REPLIES {
        assert!(rt; read_reply(alloc, &params, body).err() == fault);
    }
    let none = write_reply(alloc, &params, &[0], &[]).expect(&rt, "memory");
    let reply = read_reply(alloc, &params, &none)
        .ok()
        .expect(&rt, "a reply");
    assert!(rt; reply.counts.items() == [0].as_slice());
    assert_eq!(rt; reply.counts.into_vec().len(), 1);
    assert_eq!(rt; reply.cts.items().len(), 0);
    assert_eq!(rt; reply.cts.into_vec().len(), 0);
}
