ghost use Rattle.psi_residue.specs.Numbers.{plain_modulus};
ghost use Rattle.psi_residue.specs.Polynomials.{IsPolynomial};

use super::*;
use bfv_core::{Ciphertext, SecretKey, encrypt};
use psi_residue::{DELTA, N, Q, split};

// Coefficients of c0, and what they become without 0, 4 and 20 low bits, by Python's whole numbers. From the half of `Q2` on a
// number is rounded up, and the greatest come round to 0.
const COEFFICIENTS: [u128; 6] = [
    DELTA as u128,
    Q - 1,
    34359615488,
    34359615489,
    4722344527942660194304,
    848385559965694516282,
];

const SHORTENED: [(u8, [u64; 6]); 3] = [
    (0, [0x0fffef, 0, 0, 1, 68719403008, 12345678901]),
    (4, [0x0fffe, 0, 0, 0, 4294962688, 771604931]),
    (20, [0, 0, 0, 0, 65535, 11773]),
];

#[test]
fn nearest_numbers(rt: HostRuntime) {
    let alloc = rt.alloc();
    let mut first = [0; N];
    let mut second = [0; N];
    for (i, x) in COEFFICIENTS.iter().enumerate() {
        assert!(rt; *x < Q);
        let (a, b) = split(*x);
        first[i] = a;
        second[i] = b;
    }
    let mut ct = Ciphertext::zero(alloc).expect(&rt, "memory");
    ct.set(0, &first);
    ct.set(1, &second);
    let mut z0 = [0; N];
    let mut z1 = [0; N];
    for (drop, expected) in SHORTENED {
        assert!(rt; drop <= 20);
        switch(&ct, drop, &mut z0, &mut z1);
        assert_eq!(rt; &z0[..6], expected.as_slice(), "drop {drop}");
        assert!(rt; z0[6..].iter().all(|z| *z == 0));
        assert!(rt; z1.iter().all(|z| *z == 0));
    }
}

// A plaintext with the coefficient 0, then 1, and then the greatest ones.
fn plaintext() -> [u32; 4096]
    ensures { IsPolynomial plain_modulus result }
{
    let mut plain = [65536; N];
    plain[0] = 0;
    plain[1] = 1;
    plain
}

#[test]
fn short_ciphertexts_open(rt: HostRuntime) {
    let alloc = rt.alloc();
    let seed = [7; 32];
    let key = SecretKey::of(alloc, &seed).expect(&rt, "memory");
    let plain = plaintext();
    let ct = encrypt(alloc, &key, &seed, 0, &plain).expect(&rt, "memory");
    let mut z0 = [0; N];
    let mut z1 = [0; N];
    let mut out = [0; N];
    for drop in [0, 4, 7] {
        assert!(rt; drop <= 20);
        switch(&ct, drop, &mut z0, &mut z1);
        open_short(&key, drop, &z0, &z1, &mut out);
        assert!(rt; out == plain, "drop {drop}");
    }
    laws::short_replies_open();
}
