use super::*;

#[derive(Clone, Copy)]
struct Row {
    roots: [u16; 3],
    coefficients: [u32; 4],
    places: [(u32, u32); 3],
}

// Roots, the coefficients of their polynomial and its values at some places, from Python's whole numbers.
const ROWS: [Row; 2] = [
    Row {
        roots: [0, 1, 2],
        coefficients: [0, 2, 65534, 1],
        places: [(0, 0), (5, 60), (65536, 65531)],
    },
    Row {
        roots: [65535, 65535, 1],
        coefficients: [65533, 0, 3, 1],
        places: [(0, 65533), (5, 196), (65536, 65535)],
    },
];

#[test]
fn products(rt: HostRuntime) {
    let mut none = [7];
    from_roots(&[], &mut none);
    assert_eq!(rt; none, [1]);
    for row in ROWS {
        let mut out = [7; 4];
        from_roots(&row.roots, &mut out);
        assert_eq!(rt; out, row.coefficients);
        for (place, value) in row.places {
            assert!(rt; place < 65537);
            assert_eq!(rt; eval(&out, place), value);
        }
    }
}

#[test]
fn factors(rt: HostRuntime) {
    let mut out = [0; 3];
    from_roots(&[1, 2], &mut out);
    assert_eq!(rt; out, [2, 65534, 1]);
    assert_eq!(rt; eval(&out, 1), 0);
    divide_root(&mut out, 2, 1);
    assert_eq!(rt; out, [65535, 1, 0]);
    times_root(&mut out, 1, 3);
    assert_eq!(rt; out, [6, 65532, 1]);
    roots_stand();
    values_of_products();
}
