use super::*;

// The six fields, and what they come to: computed from the formulas with Python's whole numbers.
type Row = (u8, u8, u16, u8, u8, u16, Result<Ledger, ParamFault>);

const ROWS: [Row; 13] = [
    (
        1,
        1,
        1,
        0,
        0,
        0,
        Ok(Ledger {
            carry: 268431362,
            noise: 16049511219954,
            used: 2103673641478292964,
        }),
    ),
    (
        1,
        1,
        2244,
        0,
        0,
        0,
        Ok(Ledger {
            carry: 602359971982,
            noise: 36015102917820702,
            used: 4720643599858264736316,
        }),
    ),
    (
        1,
        1,
        2245,
        0,
        0,
        0,
        Err(ParamFault::Noise {
            bound: 4722747273476240663100,
        }),
    ),
    (
        1,
        1,
        2401,
        0,
        0,
        0,
        Err(ParamFault::Size {
            ciphertexts: 2401,
            cells: 2402,
        }),
    ),
    (
        1,
        4,
        204,
        4,
        0,
        0,
        Err(ParamFault::Size {
            ciphertexts: 816,
            cells: 4100,
        }),
    ),
    (1, 1, 4096, 0, 0, 0, Err(ParamFault::Range { field: 2 })),
    (1, 1, 0, 0, 0, 0, Err(ParamFault::Range { field: 2 })),
    (1, 0, 1, 0, 0, 0, Err(ParamFault::Range { field: 1 })),
    (1, 5, 1, 0, 0, 0, Err(ParamFault::Range { field: 1 })),
    (1, 1, 1, 5, 0, 0, Err(ParamFault::Range { field: 4 })),
    (2, 0, 0, 5, 1, 1, Err(ParamFault::Range { field: 0 })),
    (1, 1, 1, 0, 1, 0, Err(ParamFault::Range { field: 5 })),
    (1, 1, 1, 0, 0, 1, Err(ParamFault::Range { field: 6 })),
];

#[test]
fn verdicts(rt: HostRuntime) {
    for (form, rows, capacity, units, drop, spare, expected) in ROWS {
        let params = Params {
            form,
            rows,
            capacity,
            units,
            drop,
            spare,
        };
        assert!(rt;
            check(&params) == expected,
            "rows {rows}, capacity {capacity}, units {units}"
        );
    }
}

#[test]
fn bytes(rt: HostRuntime) {
    let params = Params::of(1, 1, 0);
    assert_eq!(rt; params.to_bytes(), [1, 1, 0, 1, 0, 0, 0, 0]);
    assert_eq!(rt; Params::from_bytes(&[1, 1, 0, 1, 0, 0, 0, 0]), params);
    let other = Params {
        form: 2,
        rows: 3,
        capacity: 0x0405,
        units: 6,
        drop: 7,
        spare: 0x0809,
    };
    assert_eq!(rt; other.to_bytes(), [2, 3, 4, 5, 6, 7, 8, 9]);
    assert_eq!(rt; Params::from_bytes(&[2, 3, 4, 5, 6, 7, 8, 9]), other);
}
