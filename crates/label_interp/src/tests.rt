use super::*;

// Points and the coefficients of their polynomial, from Python's whole numbers.
#[test]
fn through_points(rt: HostRuntime) {
    let mut out = [9; 6];
    interpolate(&[], &mut out);
    assert_eq!(rt; out, [0; 6]);
    interpolate(&[(3, 9)], &mut out);
    assert_eq!(rt; out, [9, 0, 0, 0, 0, 0]);
    interpolate(&[(1, 10), (2, 20)], &mut out);
    assert_eq!(rt; out, [0, 10, 0, 0, 0, 0]);
    interpolate(&[(0, 5), (65536, 7), (2, 65536)], &mut out);
    assert_eq!(rt; out, [5, 43689, 43691, 0, 0, 0]);
    let points = [
        (20558, 14838),
        (48731, 61481),
        (32318, 49906),
        (13365, 32680),
        (1718, 28407),
    ];
    interpolate(&points, &mut out);
    assert_eq!(rt; out, [22202, 17888, 44713, 50409, 35604, 0]);
    one_polynomial_alone();
}
