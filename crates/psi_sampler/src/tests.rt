use super::*;
use psi_residue::N;

// The places whose coefficients the tables have: the first ones and the last.
const PLACES: [usize; 9] = [0, 1, 2, 3, 4, 5, 6, 7, 4095];

#[derive(Clone, Copy)]
struct Row {
    c: u32,
    error: [i8; 9],
    first: [u64; 9],
    second: [u64; 9],
}

// All values are those that `tools/outside_sampler.py` prints, which it computes from RFC 8439.
#[test]
fn coefficients_of_the_zero_seed(rt: HostRuntime) {
    let seed = [0; 32];
    let mut drawn = [0; N];
    key(&seed, &mut drawn);
    for (place, want) in PLACES.iter().zip([-1, -1, -1, 1, 1, -1, 1, 1, 0]) {
        assert_eq!(rt; drawn[*place], want);
    }
    let rows = [
        Row {
            c: 0,
            error: [5, -1, -3, 3, 0, 3, -1, -5, 1],
            first: [
                22446710136,
                63624839259,
                50711791083,
                56706832240,
                2929198230,
                37293145873,
                15018075350,
                21284872273,
                3253613853,
            ],
            second: [
                50495033569,
                17488344868,
                39042459594,
                15819487463,
                9341082100,
                31110249958,
                44395685155,
                38042841553,
                25942466166,
            ],
        },
        Row {
            c: 2399,
            error: [0, 0, -2, -1, 2, 1, 4, -3, -2],
            first: [
                51171501101,
                41979836974,
                66220500586,
                27494148173,
                64715759281,
                28904589734,
                28361162721,
                54110915472,
                28943647714,
            ],
            second: [
                10474530720,
                37182635602,
                56873138924,
                1437840750,
                17653014352,
                34527162850,
                13043007370,
                8293431552,
                32584883839,
            ],
        },
    ];
    for row in rows {
        let mut first = [0; N];
        let mut second = [0; N];
        assert!(rt; row.c < 2400);
        error(&seed, row.c, &mut drawn);
        mask(&seed, row.c, &mut first, &mut second);
        for (i, place) in PLACES.iter().enumerate() {
            assert_eq!(rt; drawn[*place], row.error[i]);
            assert_eq!(rt; first[*place], row.first[i]);
            assert_eq!(rt; second[*place], row.second[i]);
        }
    }
}
