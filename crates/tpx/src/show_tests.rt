//! Tables of matrices that are shown.
use crate::test_runs::{A, A_SHOWN, COORDINATE, expect, joined, show};
use std::alloc::Global;
use std::process::Abort;
use std::test::Fail;

/// A matrix that is shown, and what the run leaves. Longer texts are given in pieces.
#[derive(Clone, Copy)]
struct Case {
    /// What the run shows.
    name: &'static str,
    ranks: &'static str,
    file: &'static str,
    matrix: &'static [&'static str],
    status: u8,
    /// What is on standard output.
    text: &'static [&'static str],
    /// What is on standard error.
    message: &'static str,
}

/// The file `e.mtx` on one rank, which is shown.
const CASE: Case = Case {
    name: "",
    ranks: "1",
    file: "e.mtx",
    matrix: &[],
    status: 0,
    text: &[],
    message: "",
};

/// Each case leaves what stands in it.
fn each(rt: &impl Abort, alloc: Global, cases: &[Case]) -> Result<(), Fail> {
    for case in cases {
        is_shown(rt, alloc, case)?;
    }
    Ok(())
}

/// The case leaves what stands in it.
fn is_shown(rt: &impl Abort, alloc: Global, case: &Case) -> Result<(), Fail> {
    let matrix = joined(alloc, case.matrix)?;
    let ran = show(alloc, case.ranks, case.file, matrix.as_bytes())?;
    let text = joined(alloc, case.text)?;
    let message = case.message.as_bytes();
    expect(rt, &ran, case.status, text.as_bytes(), message, case.name);
    Ok(())
}

const SHOWN: [Case; 7] = [
    Case {
        name: "entries come by row and column",
        ranks: "2",
        file: "a.mtx",
        matrix: &[A],
        text: &[A_SHOWN],
        ..CASE
    },
    Case {
        name: "entries come by row and column, of 32 ranks",
        ranks: "32",
        file: "a.mtx",
        matrix: &[A],
        text: &[A_SHOWN],
        ..CASE
    },
    Case {
        name: "sizes may be zero",
        ranks: "3",
        matrix: &[COORDINATE, "0 0 0\n"],
        text: &[COORDINATE, "0 0 0\n"],
        ..CASE
    },
    Case {
        name: "entries of one place are added",
        ranks: "2",
        file: "b.mtx",
        matrix: &[COORDINATE, "1 1 2\n1 1 4\n1 1 4\n"],
        text: &[COORDINATE, "1 1 1\n1 1 8\n"],
        ..CASE
    },
    Case {
        name: "the greatest weight",
        file: "c.mtx",
        matrix: &[
            COORDINATE,
            "1 1 1\n1 1 -170141183460469231731687303715884105727\n",
        ],
        text: &[
            COORDINATE,
            "1 1 1\n1 1 -170141183460469231731687303715884105727\n",
        ],
        ..CASE
    },
    Case {
        name: "a symmetric pattern",
        ranks: "2",
        file: "p.mtx",
        matrix: &["%%MatrixMarket matrix coordinate pattern symmetric\n%\n3 3 2\n2 1\n3 3\n"],
        text: &[COORDINATE, "3 3 3\n1 2 1\n2 1 1\n3 3 1\n"],
        ..CASE
    },
    Case {
        name: "a skew-symmetric matrix",
        file: "s.mtx",
        matrix: &["%%MatrixMarket MATRIX Coordinate INTEGER skew-symmetric\r\n\t2 2  1\n\n+02 1 7"],
        text: &[COORDINATE, "2 2 2\n1 2 -7\n2 1 7\n"],
        ..CASE
    },
];

/// Weights that are too great overflow.
const OVER: [Case; 2] = [
    Case {
        name: "the greatest weight and 1",
        file: "c.mtx",
        matrix: &[
            COORDINATE,
            "1 1 2\n1 1 170141183460469231731687303715884105727\n1 1 1\n",
        ],
        status: 7,
        message: "tpx: overflow\n",
        ..CASE
    },
    Case {
        name: "the greatest weight and its opposite",
        ranks: "2",
        file: "c.mtx",
        matrix: &[
            COORDINATE,
            "1 1 2\n1 1 170141183460469231731687303715884105727\n1 1 -170141183460469231731687303715884105727\n",
        ],
        status: 7,
        message: "tpx: overflow\n",
        ..CASE
    },
];

/// The file is refused.
const REFUSED: Case = Case { status: 5, ..CASE };

const FAULTS: [Case; 6] = [
    Case {
        name: "no text",
        message: "tpx: e.mtx: NoBanner\n",
        ..REFUSED
    },
    Case {
        name: "a banner in small letters",
        matrix: &["%%matrixmarket matrix coordinate integer general\n"],
        message: "tpx: e.mtx: NoBanner\n",
        ..REFUSED
    },
    Case {
        name: "real numbers",
        matrix: &["%%MatrixMarket matrix coordinate real general\n1 1 0\n"],
        message: "tpx: e.mtx: UnsupportedField\n",
        ..REFUSED
    },
    Case {
        name: "a number of more than 127 bits",
        matrix: &[
            "%%MatrixMarket matrix coordinate integer general\n1 1 1\n1 1 170141183460469231731687303715884105728\n",
        ],
        message: "tpx: e.mtx: NumberTooWide 3\n",
        ..REFUSED
    },
    Case {
        name: "an array",
        matrix: &["%%MatrixMarket matrix array integer general\n1 1\n1\n"],
        message: "tpx: e.mtx: WrongForm\n",
        ..REFUSED
    },
    Case {
        name: "too many entries",
        matrix: &["%%MatrixMarket matrix coordinate integer general\n1 1 8388609\n"],
        message: "tpx: e.mtx: TooManyEntries\n",
        ..REFUSED
    },
];

/// On four ranks.
const ON_FOUR: Case = Case { ranks: "4", ..CASE };

/// Limits are the greatest that is accepted.
const LIMITS: [Case; 6] = [
    Case {
        name: "the greatest number of rows",
        matrix: &[COORDINATE, "16777216 1 0\n"],
        text: &[COORDINATE, "16777216 1 0\n"],
        ..ON_FOUR
    },
    Case {
        name: "the greatest number of columns",
        matrix: &[COORDINATE, "1 16777216 0\n"],
        text: &[COORDINATE, "1 16777216 0\n"],
        ..ON_FOUR
    },
    Case {
        name: "one row more",
        matrix: &[COORDINATE, "16777217 1 0\n"],
        status: 5,
        message: "tpx: e.mtx: BadSize\n",
        ..ON_FOUR
    },
    Case {
        name: "one column more",
        matrix: &[COORDINATE, "1 16777217 0\n"],
        status: 5,
        message: "tpx: e.mtx: BadSize\n",
        ..ON_FOUR
    },
    Case {
        name: "the greatest number of entries",
        matrix: &[COORDINATE, "1 1 8388608\n"],
        status: 5,
        message: "tpx: e.mtx: TooFew 0\n",
        ..ON_FOUR
    },
    Case {
        name: "one entry more",
        matrix: &[COORDINATE, "1 1 8388609\n"],
        status: 5,
        message: "tpx: e.mtx: TooManyEntries\n",
        ..ON_FOUR
    },
];

#[test]
fn matrices_leave_what_stands_in_the_tables(rt: HostRuntime) -> Result<(), Fail> {
    let alloc = rt.alloc();
    each(&rt, alloc, &SHOWN)?;
    each(&rt, alloc, &OVER)?;
    each(&rt, alloc, &FAULTS)?;
    each(&rt, alloc, &LIMITS)
}
