ghost use Rattle.std.specs.Prelude.{◌<◌};
ghost use Rattle.psi_residue.specs.Numbers.{plain_modulus, ring_degree};
ghost use Rattle.psi_residue.specs.Polynomials.{IsPolynomial};

use super::*;
use batching::pack;
use bfv_core::{Ciphertext, SecretKey, encrypt};
use item_slots::{tag_from, tag_of};
use noise_ledger::{Params, check};
use psi_residue::N;
use query_codec::{CodecFault, read_query, write_query, write_reply};
use std::alloc::{AllocError, Global};

// The tag with the slot values 1, 2, 3, 4 and 5, and three times the number 7: its only position is bin 7 of row 0.
const TAG: [u8; 22] = [
    0, 1, 0, 2, 0, 3, 0, 4, 0, 5, 0, 0, 0, 7, 0, 0, 0, 7, 0, 0, 0, 7,
];

// Another tag with this position alone.
const OTHER: [u8; 22] = [
    0, 6, 0, 7, 0, 8, 0, 9, 0, 10, 0, 0, 0, 7, 0, 0, 0, 7, 0, 0, 0, 7,
];

const SEED: [u8; 32] = [3; 32];

// A slot that is 1 where all others are 0, and whether the tag is found then: its slots are 35 to 39.
const ROWS: [(usize, bool); 4] = [(34, true), (35, false), (39, false), (40, true)];

// Zeros, but 1 at one place.
fn zeros_but(slot: usize) -> [u32; N]
    requires { slot < ring_degree }
    ensures { IsPolynomial plain_modulus result }
{
    let mut values = [0; N];
    values[slot] = 1;
    values
}

// An encryption of slots, with the number 0 or 1.
fn encrypted(alloc: Global, slots: &[u32; N], second: bool) -> Result<Ciphertext, AllocError>
    requires { IsPolynomial plain_modulus slots.now }
{
    let key = SecretKey::of(alloc, &SEED)?;
    let mut plain = [0; N];
    pack(slots, &mut plain);
    encrypt(alloc, &key, &SEED, u32::from(second), &plain)
}

#[test]
fn found_where_five_slots_are_zero(rt: HostRuntime) {
    let alloc = rt.alloc();
    let params = Params::of(1, 1, 0);
    assert!(rt; check(&params).is_ok());
    for (slot, is_found) in ROWS {
        assert!(rt; slot < N);
        let ct = encrypted(alloc, &zeros_but(slot), false).expect(&rt, "memory");
        let reply = write_reply(alloc, &params, &[1], &[ct]).expect(&rt, "memory");
        let found = open_tags(&rt, alloc, &params, &SEED, &[tag_from(TAG)], &reply);
        let found = found.ok().expect(&rt, "a reply");
        assert_eq!(rt; found.len() == 1, is_found);
        for x in &found {
            assert_eq!(rt; (x.item, x.bundle, x.label.bytes().len()), (0, 0, 0));
        }
    }
}

#[test]
fn labels_are_the_units_slots(rt: HostRuntime) {
    let alloc = rt.alloc();
    let params = Params::of(1, 1, 1);
    assert!(rt; check(&params).is_ok());
    let root = encrypted(alloc, &zeros_but(0), false).expect(&rt, "memory");
    let unit = encrypted(alloc, &zeros_but(37), true).expect(&rt, "memory");
    let reply = write_reply(alloc, &params, &[1], &[root, unit]).expect(&rt, "memory");
    let found = open_tags(&rt, alloc, &params, &SEED, &[tag_from(TAG)], &reply);
    let found = found.ok().expect(&rt, "a reply");
    assert_eq!(rt; found.len(), 1);
    assert!(rt; found[0].label.bytes() == [0, 0, 0, 0, 0, 1, 0, 0, 0, 0].as_slice());
}

#[test]
fn items_are_asked_by_their_tags(rt: HostRuntime) {
    let alloc = rt.alloc();
    let params = Params::of(1, 1, 0);
    assert!(rt; check(&params).is_ok());
    let mut item = Vec::new(alloc);
    item.extend_from_slice(b"abc").expect(&rt, "memory");
    let items = [item, Vec::new(alloc)];
    let query = ask(&rt, alloc, &params, &SEED, &items)
        .ok()
        .expect(&rt, "memory");
    let tags = [tag_of(b"abc"), tag_of(b"")];
    let same = ask_tags(&rt, alloc, &params, &SEED, &tags)
        .ok()
        .expect(&rt, "memory");
    assert!(rt; query == same);
    let cts = read_query(alloc, &params, &query)
        .ok()
        .expect(&rt, "a query");
    assert!(rt; cts.len() == 1);
    let reply = write_reply(alloc, &params, &[1], &cts).expect(&rt, "memory");
    let found = open(&rt, alloc, &params, &SEED, &items, &reply)
        .ok()
        .expect(&rt, "a reply");
    assert_eq!(rt; found.len(), 0);
}

#[test]
fn items_without_a_placement(rt: HostRuntime) {
    let alloc = rt.alloc();
    let params = Params::of(1, 1, 0);
    assert!(rt; check(&params).is_ok());
    let tags = [tag_of(b"abc"), tag_from(TAG), tag_from(OTHER)];
    match ask_tags(&rt, alloc, &params, &SEED, &tags) {
        Err(AskFault::Crowded { items }) => assert!(rt; items.as_slice() == [1, 2].as_slice()),
        _ => panic!(rt; "crowded items"),
    }
    match open_tags(&rt, alloc, &params, &SEED, &tags, &[]) {
        Err(OpenFault::Crowded { items }) => assert!(rt; items.as_slice() == [1, 2].as_slice()),
        _ => panic!(rt; "crowded items"),
    }
}

#[test]
fn items_of_256_bytes(rt: HostRuntime) {
    let alloc = rt.alloc();
    let params = Params::of(1, 1, 0);
    assert!(rt; check(&params).is_ok());
    let items = [
        Vec::new(alloc),
        vec![in alloc; 0; 256].expect(&rt, "memory"),
    ];
    match ask(&rt, alloc, &params, &SEED, &items) {
        Err(AskFault::TooLong { item }) => assert_eq!(rt; item, 1),
        _ => panic!(rt; "an item that is too long"),
    }
    match open(&rt, alloc, &params, &SEED, &items, &[]) {
        Err(OpenFault::TooLong { item }) => assert_eq!(rt; item, 1),
        _ => panic!(rt; "an item that is too long"),
    }
}

// A residue of the first modulus and one of the second, by their numbers, and each modulus as five bytes.
const AT_MODULUS: [(usize, [u8; 5]); 2] = [
    (0, [0x0f, 0xff, 0xfe, 0xe0, 0x01]),
    (4097, [0x0f, 0xff, 0xfc, 0x40, 0x01]),
];

// Bytes with five others at a place.
fn with_five(alloc: Global, bytes: &[u8], at: usize, five: &[u8; 5]) -> Result<Vec<u8>, AllocError>
    requires { at < 1048576 }
{
    let mut changed = bytes.get(..at).unwrap_or(&[]).to_vec(alloc)?;
    changed.extend_from_slice(five)?;
    changed.extend_from_slice(bytes.get(at + 5..).unwrap_or(&[]))?;
    Ok(changed)
}

// Behind the 8 bytes of the parameters and the 2 of the count, the residues have five bytes each.
#[test]
fn residues_at_their_moduli_are_told_by_number(rt: HostRuntime) {
    let alloc = rt.alloc();
    let params = Params::of(1, 1, 0);
    assert!(rt; check(&params).is_ok());
    let ct = encrypted(alloc, &zeros_but(0), false).expect(&rt, "memory");
    let reply = write_reply(alloc, &params, &[1], &[ct]).expect(&rt, "memory");
    for (number, modulus) in AT_MODULUS {
        assert!(rt; number < 16384);
        let body = with_five(alloc, &reply, 10 + 5 * number, &modulus).expect(&rt, "memory");
        match open_tags(&rt, alloc, &params, &SEED, &[tag_from(TAG)], &body) {
            Err(OpenFault::Codec(CodecFault::Residue { index })) => {
                assert!(rt; index == number as u64);
            }
            _ => panic!(rt; "a residue at its modulus"),
        }
    }
}

// The laws have no effect. What one of them says, for one tag: the ciphertexts that are read from its query make up the query.
#[test]
fn laws_are_called(rt: HostRuntime) {
    items_are_found();
    opened_is_found();
    members_are_found();
    found_take_slots();
    tags_are_bytes();
    let alloc = rt.alloc();
    let params = Params::of(1, 2, 0);
    assert!(rt; check(&params).is_ok());
    let query = ask_tags(&rt, alloc, &params, &SEED, &[tag_from(TAG)])
        .ok()
        .expect(&rt, "memory");
    let cts = read_query(alloc, &params, &query)
        .ok()
        .expect(&rt, "a query");
    assert!(rt; cts.len() == 2);
    let written = write_query(alloc, &params, &cts).expect(&rt, "memory");
    assert!(rt; written == query);
}
