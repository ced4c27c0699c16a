ghost use Rattle.psi_residue.specs.Numbers.{plain_modulus};
ghost use Rattle.psi_residue.specs.Polynomials.{IsPolynomial};

use super::*;
use psi_residue::{DELTA, N, Q, split};

// Coefficients of c0 where c1 is 0, and what they open to.
const COEFFICIENTS: [u128; 4] = [
    DELTA as u128 * 65536,
    Q - 1,
    36028079771556676,
    36028079771556677,
];

const OPENED: [u32; 4] = [65536, 0, 0, 1];

#[test]
fn nearest_plaintexts(rt: HostRuntime) {
    let alloc = rt.alloc();
    let key = SecretKey::of(alloc, &[0; 32]).expect(&rt, "memory");
    let mut first = [0; N];
    let mut second = [0; N];
    for (i, x) in COEFFICIENTS.iter().enumerate() {
        assert!(rt; *x < Q);
        let (a, b) = split(*x);
        first[i] = a;
        second[i] = b;
    }
    let mut ct = Ciphertext::zero(alloc).expect(&rt, "memory");
    ct.set(0, &first);
    ct.set(1, &second);
    let mut out = [0; N];
    decrypt(&key, &ct, &mut out);
    assert_eq!(rt; &out[..4], OPENED.as_slice());
    assert!(rt; out[4..].iter().all(|x| *x == 0));
}

// The plaintext whose coefficients are all the greatest.
fn greatest() -> [u32; 4096]
    ensures { IsPolynomial plain_modulus result }
{
    [65536; N]
}

// All coefficients of the plaintexts and of the factors are -1 modulo `T`. Coefficient k of the product of two such
// polynomials is the number of pairs of places with the sum k less that of the pairs with the sum k + 4096: 2k - 4094.
#[test]
fn an_evaluation_at_four_powers(rt: HostRuntime) {
    let alloc = rt.alloc();
    let seed = [7; 32];
    let plain = greatest();
    let key = SecretKey::of(alloc, &seed).expect(&rt, "memory");
    let mut out = [0; N];
    let mut sum = Accumulator::open(alloc).expect(&rt, "memory");
    sum.add_plain(&plain);
    sum.clear();
    sum.add_plain(&plain);
    for c in 2396..2400u32 {
        let ct = encrypt(alloc, &key, &seed, c, &plain).expect(&rt, "memory");
        decrypt(&key, &ct, &mut out);
        assert!(rt; out == plain);
        sum.add_product(&plain, &ct);
    }
    let mut ct = Ciphertext::zero(alloc).expect(&rt, "memory");
    sum.read(&mut ct);
    decrypt(&key, &ct, &mut out);
    for (k, x) in out.iter().enumerate() {
        assert_eq!(rt; *x as usize, (4 * (2 * k + 65537 - 4094) + 65536) % 65537);
    }
    laws::evaluations_open();
}
