use super::*;

// A modulus, two residues, and their sum, difference and product, from Python's whole numbers.
const ROWS: [(Modulus, u64, u64, u64, u64, u64); 15] = [
    (Modulus::Q1, 0, 0, 0, 0, 0),
    (Modulus::Q1, 0, 68719403008, 68719403008, 1, 0),
    (Modulus::Q1, 68719403008, 68719403008, 68719403007, 0, 1),
    (
        Modulus::Q1,
        22906467669,
        45812935340,
        0,
        45812935338,
        15270978446,
    ),
    (
        Modulus::Q1,
        68719403007,
        1,
        68719403008,
        68719403006,
        68719403007,
    ),
    (Modulus::Q2, 0, 0, 0, 0, 0),
    (Modulus::Q2, 0, 68719230976, 68719230976, 1, 0),
    (Modulus::Q2, 68719230976, 68719230976, 68719230975, 0, 1),
    (
        Modulus::Q2,
        22906410325,
        45812820652,
        0,
        45812820650,
        61083760868,
    ),
    (
        Modulus::Q2,
        68719230975,
        1,
        68719230976,
        68719230974,
        68719230975,
    ),
    (Modulus::T, 0, 0, 0, 0, 0),
    (Modulus::T, 0, 65536, 65536, 1, 0),
    (Modulus::T, 65536, 65536, 65535, 0, 1),
    (Modulus::T, 21845, 43692, 0, 43690, 36409),
    (Modulus::T, 65535, 1, 65536, 65534, 65535),
];

// A modulus, a residue, an exponent and the power, from Python's `pow`.
const POWERS: [(Modulus, u64, u64, u64); 15] = [
    (Modulus::Q1, 0, 0, 1),
    (Modulus::Q1, 0, 1, 0),
    (Modulus::Q1, 3, 18446744073709551615, 48930705027),
    (Modulus::Q1, 68719403008, 68719403009, 68719403008),
    (Modulus::Q1, 45812935340, 12345678901234, 13958438418),
    (Modulus::Q2, 0, 0, 1),
    (Modulus::Q2, 0, 1, 0),
    (Modulus::Q2, 3, 18446744073709551615, 41971673837),
    (Modulus::Q2, 68719230976, 68719230977, 68719230976),
    (Modulus::Q2, 45812820652, 12345678901234, 59511322314),
    (Modulus::T, 0, 0, 1),
    (Modulus::T, 0, 1, 0),
    (Modulus::T, 3, 18446744073709551615, 21846),
    (Modulus::T, 65536, 65537, 65536),
    (Modulus::T, 43692, 12345678901234, 64305),
];

// A residue and its inverse, from Python's `pow`.
const INVERSES: [(u64, Option<u64>); 10] = [
    (0, None),
    (1, Some(1)),
    (2, Some(32769)),
    (3, Some(21846)),
    (256, Some(65281)),
    (4096, Some(65521)),
    (6561, Some(58355)),
    (40000, Some(10694)),
    (65535, Some(32768)),
    (65536, Some(65536)),
];

// A number below the ciphertext modulus and its residues, from Python's whole numbers.
const RESIDUES: [(u128, u64, u64); 6] = [
    (0, 0, 0),
    (1, 1, 1),
    (4722344527977019809792, 68719403008, 68719230976),
    (2361172263988509904896, 34359701504, 34359615488),
    (36028079771556677, 8600804175, 30074166094),
    (12157665459056928801, 64895753247, 57748822628),
];

#[test]
fn residues(rt: HostRuntime) {
    for (x, first, second) in RESIDUES {
        assert!(rt; x < Q && first < Q1 && second < Q2);
        assert_eq!(rt; split(x), (first, second));
        assert_eq!(rt; compose(first, second), x);
    }
}

#[test]
fn arithmetic(rt: HostRuntime) {
    for (m, a, b, sum, difference, product) in ROWS {
        assert!(rt; a < value(m));
        assert!(rt; b < value(m));
        assert_eq!(rt; add(m, a, b), sum);
        assert_eq!(rt; sub(m, a, b), difference);
        assert_eq!(rt; mul(m, a, b), product);
    }
}

#[test]
fn powers(rt: HostRuntime) {
    for (m, a, e, power) in POWERS {
        assert!(rt; a < value(m));
        assert_eq!(rt; pow(m, a, e), power);
    }
}

#[test]
fn inverses(rt: HostRuntime) {
    for (a, inverse) in INVERSES {
        assert!(rt; a < T);
        assert_eq!(rt; inv_t(a), inverse);
    }
}
