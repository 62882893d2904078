//! Each mode, by hand.
use crate::{Mode, place, vector_cell};
use scalar_laws::{Mod1000, Residue, Scalar, Weighed};

fn pair(value: i128) -> Weighed {
    Weighed::new(value, value.unsigned_abs())
}

/// What the cell is after these came for it.
fn cell_after(values: &[i128], mode: Mode) -> Option<i128> {
    let mut cell = pair(1);
    for value in values.iter() {
        cell = vector_cell(cell, pair(*value), mode);
    }
    cell.shown()
}

fn place_after<S: Scalar>(old: Option<S>, values: &[S], mode: Mode) -> Option<S> {
    let mut stored = old;
    for value in values.iter() {
        stored = place(stored, *value, mode);
    }
    stored
}

/// Each row: a mode, and what 4 and -6 make of a vector's cell of 1, of an absent place and of a place of 1.
#[test]
fn each_mode(rt: HostRuntime) {
    let values = [pair(4), pair(-6)];
    let sum = Weighed::new(-2, 10);
    let rows = [
        (Mode::Add, Some(-1), Some(sum), Weighed::new(-1, 11)),
        (Mode::Insert, Some(-6), Some(pair(4)), pair(1)),
        (Mode::AbsMax, Some(6), Some(pair(6)), pair(6)),
        (Mode::Replace, Some(-6), None, pair(-6)),
        (Mode::Zero, Some(0), None, pair(0)),
    ];
    for (mode, cell, made, kept) in rows.iter() {
        assert_eq!(rt; cell_after(&[4, -6], *mode), *cell);
        assert_eq!(rt; place_after(None, &values, *mode), *made);
        assert_eq!(rt; place_after(Some(pair(1)), &values, *mode), Some(*kept));
        assert_eq!(rt; place_after(None, &values[..0], *mode), None);
    }
}

/// The same over the numbers modulo 1000.
#[test]
fn residues(rt: HostRuntime) {
    let values: [Residue<Mod1000>; 2] = [Residue::new(999), Residue::new(3)];
    assert_eq!(rt;
        place_after(None, &values, Mode::Add),
        Some(Residue::new(2))
    );
    assert_eq!(rt;
        place_after(None, &values, Mode::AbsMax),
        Some(Residue::new(999))
    );
    assert_eq!(rt;
        vector_cell(values[0], values[1], Mode::Zero),
        Residue::zero()
    );
}
