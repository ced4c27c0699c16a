ghost use Rattle.std.specs.Prelude.{◌<◌};
ghost use Rattle.psi_residue.specs.Numbers.{plain_modulus};
ghost use Rattle.psi_residue.specs.Polynomials.{IsPolynomial};

use super::*;
use psi_residue::{Modulus, pow};

// The value of slot 0, that of each other slot, how many coefficients are not 0, and the coefficients 0, 1 and 4095,
// from Python's whole numbers.
const ROWS: [(u32, u32, usize, [u32; 3]); 2] = [
    (5, 5, 1, [5, 0, 0]),
    (7, 65536, 4096, [65408, 1778, 53364]),
];

// The value of slot 0 and that of each other slot.
fn slot_values(first: u32, others: u32) -> [u32; 4096]
    requires first_below { first < plain_modulus }
    requires others_below { others < plain_modulus }
    ensures { IsPolynomial plain_modulus result }
{
    let mut values = [others; 4096];
    values[0] = first;
    values
}

// The slot values i, 7i, 49i, .. modulo the plaintext modulus.
fn mixed_values() -> [u32; 4096]
    ensures { IsPolynomial plain_modulus result }
{
    let mut values = [1; 4096];
    let mut value = 1;
    for i in 0..4096 {
        value = 7 * value % 65537;
        values[i] = value;
    }
    values
}

// The value at the power `2j + 1` of the root, by Horner's rule.
fn plain_slot(poly: &[u32; 4096], j: usize) -> u32
    requires { IsPolynomial plain_modulus poly.now }
{
    let base = pow(Modulus::T, 6561, 2 * (j as u64 % 4096) + 1);
    let mut slot = 0;
    for i in 0..4096usize {
        slot = (slot * base + u64::from(poly[4095 - i])) % 65537;
    }
    slot as u32
}

// Slots by the transform are those by Horner's rule, and packing them gives the polynomial again.
#[test]
fn slots_one_by_one(rt: HostRuntime) {
    for poly in [
        slot_values(65536, 65536),
        slot_values(65536, 0),
        mixed_values(),
    ] {
        let mut slots = [0; 4096];
        unpack(&poly, &mut slots);
        for (j, slot) in slots.iter().enumerate() {
            assert_eq!(rt; *slot, plain_slot(&poly, j));
        }
        let mut again = [0; 4096];
        pack(&slots, &mut again);
        assert!(rt; again == poly);
    }
}

#[test]
fn packed_and_unpacked(rt: HostRuntime) {
    for (first, others, filled, coefficients) in ROWS {
        assert!(rt; first < 65537);
        assert!(rt; others < 65537);
        let values = slot_values(first, others);
        let mut poly = [0; 4096];
        pack(&values, &mut poly);
        assert_eq!(rt; poly.iter().filter(|x| **x != 0).count(), filled);
        assert_eq!(rt; [poly[0], poly[1], poly[4095]], coefficients);
        let mut slots = [0; 4096];
        unpack(&poly, &mut slots);
        assert!(rt; slots == values);
    }
}
