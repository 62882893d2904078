//! The edges of the kinds of number, by hand.

use crate::{Mod2To63, Mod1000, Residue, Scalar, Weighed};

const MAX: i128 = 170141183460469231731687303715884105727;

const MAX_WEIGHT: u128 = 170141183460469231731687303715884105727;

const TWO_TO_63: i128 = 9223372036854775808;

const TWO_TO_64: i128 = 18446744073709551616;

fn pair(value: i128) -> Weighed {
    Weighed::new(value, value.unsigned_abs())
}

fn over() -> Weighed {
    Weighed::new(1, 0)
}

/// Each row: two numbers, their sum, their product.
#[test]
fn sums_and_products(rt: HostRuntime) {
    let largest = Some((MAX, MAX_WEIGHT));
    let lowest = Some((-MAX, MAX_WEIGHT));
    let rows = [
        (pair(MAX), pair(0), largest, Some((0, 0))),
        (pair(MAX), pair(1), None, largest),
        (pair(MAX), pair(-1), None, lowest),
        (pair(-MAX), pair(1), None, lowest),
        (
            Weighed::new(0, MAX_WEIGHT),
            pair(1),
            None,
            Some((0, MAX_WEIGHT)),
        ),
        (
            Weighed::new(0, MAX_WEIGHT - 1),
            pair(1),
            Some((1, MAX_WEIGHT)),
            Some((0, MAX_WEIGHT - 1)),
        ),
        (Weighed::new(0, 3), pair(-2), Some((-2, 5)), Some((0, 6))),
        (
            pair(TWO_TO_64),
            pair(TWO_TO_63),
            Some((27670116110564327424, 27670116110564327424)),
            None,
        ),
        (
            pair(TWO_TO_64),
            pair(-5),
            Some((18446744073709551611, 18446744073709551621)),
            Some((-92233720368547758080, 92233720368547758080)),
        ),
        (over(), pair(0), None, Some((0, 0))),
        (over(), pair(1), None, None),
        (over(), pair(-MAX), None, None),
        (over(), over(), None, None),
    ];
    for (a, b, sum, product) in rows.iter() {
        assert_eq!(rt; a.add(*b).parts(), *sum);
        assert_eq!(rt; b.add(*a).parts(), *sum);
        assert_eq!(rt; a.mul(*b).parts(), *product);
        assert_eq!(rt; b.mul(*a).parts(), *product);
    }
    assert_eq!(rt; Weighed::zero().parts(), Some((0, 0)));
    assert_eq!(rt; Weighed::one().parts(), Some((1, 1)));
    assert_eq!(rt; pair(-3).top(Weighed::new(2, 9)).parts(), Some((3, 9)));
    assert_eq!(rt; pair(-3).top(over()).parts(), None);
}

#[test]
fn reads_and_shows(rt: HostRuntime) {
    assert_eq!(rt; Weighed::new(0, MAX_WEIGHT).parts(), Some((0, MAX_WEIGHT)));
    assert_eq!(rt; Weighed::new(0, MAX_WEIGHT + 1).parts(), None);
    assert_eq!(rt; Weighed::new(-2, 1).parts(), None);
    assert_eq!(rt; Weighed::new(i128::MIN, MAX_WEIGHT + 1).parts(), None);
    assert_eq!(rt; Weighed::of_file(i128::MIN), None);
    assert_eq!(rt; Weighed::of_file(-MAX), Some(pair(-MAX)));
    assert_eq!(rt; Weighed::new(-2, 7).shown(), Some(-2));
    assert_eq!(rt; over().shown(), None);
    assert!(rt; over().is_over());
    assert!(rt; !pair(MAX).is_over());
}

/// A value of -2 with a weight of 5, and bytes that no number writes.
#[test]
fn bytes(rt: HostRuntime) {
    let mut bytes = [0; 32];
    bytes[0] = 254;
    for i in 1..16 {
        bytes[i] = 255;
    }
    bytes[16] = 5;
    assert_eq!(rt; Weighed::new(-2, 5).to_wire(), bytes);
    assert_eq!(rt; Weighed::of_wire(bytes), Weighed::new(-2, 5));
    bytes[16] = 1;
    assert_eq!(rt; Weighed::of_wire(bytes), over());
    let mut heavy = [0; 32];
    heavy[31] = 128;
    assert_eq!(rt; Weighed::of_wire(heavy), over());
    let mut all = [0; 32];
    for i in 16..32 {
        all[i] = 255;
    }
    assert_eq!(rt; over().to_wire(), all);
    assert_eq!(rt; Weighed::of_wire(all), over());
    all[0] = 1;
    assert_eq!(rt; Weighed::of_wire(all), over());
}

#[test]
fn residues(rt: HostRuntime) {
    let a: Residue<Mod1000> = Residue::new(1999);
    let b: Residue<Mod1000> = Residue::new(2);
    assert_eq!(rt; a.shown(), Some(999));
    assert_eq!(rt; a.add(b).shown(), Some(1));
    assert_eq!(rt; a.mul(a).shown(), Some(1));
    assert_eq!(rt; b.top(a), a);
    assert_eq!(rt; Residue::<Mod1000>::of_file(-1), Some(a));
    assert_eq!(rt;
        Residue::<Mod1000>::of_file(i128::MIN),
        Some(Residue::new(272))
    );
    assert!(rt; !a.is_over());
    let large: Residue<Mod2To63> = Residue::new(u64::MAX);
    assert_eq!(rt; large.shown(), Some(TWO_TO_63 - 1));
    assert_eq!(rt; large.add(Residue::one()), Residue::zero());
    assert_eq!(rt; large.mul(large), Residue::one());
    let mut bytes = [0; 32];
    bytes[0] = 231;
    bytes[1] = 3;
    assert_eq!(rt; a.to_wire(), bytes);
    bytes[1] = 7;
    bytes[20] = 1;
    assert_eq!(rt; Residue::<Mod1000>::of_wire(bytes), Residue::new(23));
}
