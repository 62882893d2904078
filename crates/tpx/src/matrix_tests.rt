//! Whole runs of jobs with matrices.

use crate::test_runs::{
    A_SHOWN, ARRAY, BY_SCHEDULE, CASE, COORDINATE, Case, WITH_TRAFFIC, each, each_fault,
    each_twisted,
};
use std::test::Fail;

pub const ONE_RANK: &str = "ranks = 1\n";

pub const TWO_RANKS: &str = "ranks = 2\n";

pub const UNIFORM: &str = "[[map]]\nname = \"u\"\nkind = \"uniform\"\nsize = 3\n";

pub const CYCLIC: &str = "[[map]]\nname = \"c\"\nkind = \"cyclic\"\nsize = 3\n";

/// A cyclic map of the name of the uniform one.
const CYCLIC_AS_U: &str = "[[map]]\nname = \"u\"\nkind = \"cyclic\"\nsize = 3\n";

pub const VECTOR_X: &str = "[[vector]]\nname = \"x\"\nmap = \"u\"\nfile = \"x.mtx\"\n";

pub const ASSEMBLED: &str =
    "[[matrix]]\nname = \"A\"\nkind = \"assembled\"\nrows = \"u\"\ndomain = \"u\"\nfile = \"a.mtx\"\n";

const SPLIT: &str =
    "[[matrix]]\nname = \"A\"\nkind = \"split\"\nrows = \"u\"\ndomain = \"u\"\nfile = \"a.mtx\"\n";

const Y_OF_X: &str = "[[do]]\nop = \"apply\"\nname = \"y\"\nmatrix = \"A\"\nx = \"x\"\n";

/// What follows it, where the product is that with the transpose.
const TRANSPOSED: &str = "transposed = true\n";

pub const PRINT_Y: &str = "[[do]]\nop = \"print\"\nvalue = \"y\"\n";

pub const PRINT_A: &str = "[[do]]\nop = \"print\"\nvalue = \"A\"\n";

/// The job that applies the matrix to x, and prints what comes of it.
const APPLIED: &[&str] = &[TWO_RANKS, UNIFORM, VECTOR_X, ASSEMBLED, Y_OF_X, PRINT_Y];

/// What it prints, behind the first line.
const Y: &str = "3 1\n502\n30\n-1\n";

/// The letters by which the matrix is assembled.
pub const LETTERS_OF_A: &str =
    "phase 0 OFFER A\nletter 0 0 1 1\nletter 0 1 0 2\nphase 1 ROWS A\nletter 1 0 1 1\nletter 1 1 0 2\nphase 2 WANT A\nletter 2 0 1 1\nletter 2 1 0 1\n";

/// Those by which it is applied.
const LETTERS_OF_Y: &str = "phase 3 DATA y\nletter 3 0 1 1\nletter 3 1 0 1\n";

/// Those of a split matrix.
const LETTERS_OF_SPLIT: &str =
    "phase 0 WANT A\nletter 0 0 1 0\nletter 0 1 0 1\nphase 1 OFFER A\nletter 1 0 1 1\nletter 1 1 0 2\n";

/// The matrix is applied.
const PRODUCT: Case = Case {
    job: APPLIED,
    text: &[ARRAY, Y],
    ..CASE
};

const ASSEMBLED_RUNS: [Case; 6] = [
    Case {
        name: "an assembled matrix is applied",
        ..PRODUCT
    },
    Case {
        name: "its rows go to their owners, then x to the rows",
        words: WITH_TRAFFIC,
        text: &[ARRAY, Y, "traffic 4 8\n", LETTERS_OF_A, LETTERS_OF_Y],
        ..PRODUCT
    },
    Case {
        name: "one rank has phases without letters",
        words: WITH_TRAFFIC,
        job: &[ONE_RANK, UNIFORM, VECTOR_X, ASSEMBLED, Y_OF_X, PRINT_Y],
        text: &[
            ARRAY,
            Y,
            "traffic 4 0\nphase 0 OFFER A\nphase 1 ROWS A\nphase 2 WANT A\nphase 3 DATA y\n",
        ],
        ..CASE
    },
    Case {
        name: "owners in a cyclic map are asked for twice",
        words: &["run", "j.toml", "--order", "lifo", "--traffic"],
        job: &[TWO_RANKS, CYCLIC_AS_U, VECTOR_X, ASSEMBLED, Y_OF_X, PRINT_Y],
        text: &[
            ARRAY,
            Y,
            "traffic 9 15\nphase 0 REG A\nletter 0 0 1 1\nletter 0 1 0 1\nphase 1 ASK A\nletter 1 0 1 0\nletter 1 1 0 1\nphase 2 TELL A\nletter 2 0 1 1\nletter 2 1 0 0\nphase 3 OFFER A\nletter 3 0 1 0\nletter 3 1 0 1\nphase 4 ROWS A\nletter 4 1 0 1\nphase 5 ASK A\nletter 5 0 1 0\nletter 5 1 0 0\nphase 6 TELL A\nletter 6 0 1 0\nletter 6 1 0 0\nphase 7 WANT A\nletter 7 0 1 0\nletter 7 1 0 0\nphase 8 DATA y\n",
        ],
        ..CASE
    },
    Case {
        name: "a second product takes the plans of the first",
        words: WITH_TRAFFIC,
        job: &[
            TWO_RANKS,
            UNIFORM,
            VECTOR_X,
            ASSEMBLED,
            Y_OF_X,
            "[[do]]\nop = \"apply\"\nname = \"z\"\nmatrix = \"A\"\nx = \"x\"\ny = \"y\"\nbeta = 1\n[[do]]\nop = \"print\"\nvalue = \"z\"\n",
        ],
        text: &[
            ARRAY,
            "3 1\n1004\n60\n-2\ntraffic 5 10\n",
            LETTERS_OF_A,
            LETTERS_OF_Y,
            "phase 4 DATA z\nletter 4 0 1 1\nletter 4 1 0 1\n",
        ],
        ..CASE
    },
    Case {
        name: "the transpose is applied by the same plan in reverse",
        words: WITH_TRAFFIC,
        job: &[
            TWO_RANKS, UNIFORM, VECTOR_X, ASSEMBLED, Y_OF_X, TRANSPOSED, PRINT_Y,
        ],
        text: &[
            ARRAY,
            "3 1\n-98\n30\n5\ntraffic 4 8\n",
            LETTERS_OF_A,
            LETTERS_OF_Y,
        ],
        ..CASE
    },
];

const SPLIT_RUNS: [Case; 3] = [
    Case {
        name: "a split matrix is applied, and its sums go to their owners",
        words: WITH_TRAFFIC,
        job: &[TWO_RANKS, UNIFORM, VECTOR_X, SPLIT, Y_OF_X, PRINT_Y],
        text: &[
            ARRAY,
            Y,
            "traffic 4 7\n",
            LETTERS_OF_SPLIT,
            "phase 2 DATA y\nletter 2 0 1 1\nphase 3 DATA y\nletter 3 0 1 1\nletter 3 1 0 2\n",
        ],
        ..CASE
    },
    Case {
        name: "its transpose is applied by both plans in reverse",
        words: WITH_TRAFFIC,
        job: &[
            TWO_RANKS, UNIFORM, VECTOR_X, SPLIT, Y_OF_X, TRANSPOSED, PRINT_Y,
        ],
        text: &[
            ARRAY,
            "3 1\n-98\n30\n5\ntraffic 4 7\n",
            LETTERS_OF_SPLIT,
            "phase 2 DATA y\nletter 2 0 1 2\nletter 2 1 0 1\nphase 3 DATA y\nletter 3 1 0 1\n",
        ],
        ..CASE
    },
    Case {
        name: "a split matrix has plans, and no rows are sent",
        words: WITH_TRAFFIC,
        job: &[TWO_RANKS, UNIFORM, VECTOR_X, SPLIT],
        text: &["traffic 2 4\n", LETTERS_OF_SPLIT],
        ..CASE
    },
];

const MATRICES: [Case; 3] = [
    Case {
        name: "an assembled matrix is printed",
        words: WITH_TRAFFIC,
        job: &[TWO_RANKS, UNIFORM, VECTOR_X, ASSEMBLED, PRINT_A],
        text: &[A_SHOWN, "traffic 3 6\n", LETTERS_OF_A],
        ..CASE
    },
    Case {
        name: "a scaled matrix has the structure of the first",
        words: WITH_TRAFFIC,
        job: &[
            TWO_RANKS,
            UNIFORM,
            VECTOR_X,
            ASSEMBLED,
            "[[do]]\nop = \"scale\"\nname = \"S\"\nvalue = \"A\"\nalpha = -1\n[[do]]\nop = \"print\"\nvalue = \"S\"\n",
        ],
        text: &[
            COORDINATE,
            "3 3 4\n1 1 -2\n1 3 -5\n2 2 -3\n3 1 1\ntraffic 3 6\n",
            LETTERS_OF_A,
        ],
        ..CASE
    },
    Case {
        name: "a matrix is moved to other rows",
        words: WITH_TRAFFIC,
        job: &[
            TWO_RANKS,
            UNIFORM,
            CYCLIC,
            ASSEMBLED,
            "[[do]]\nop = \"move\"\nname = \"B\"\nfrom = \"A\"\nmap = \"c\"\n[[do]]\nop = \"print\"\nvalue = \"B\"\n",
        ],
        text: &[
            A_SHOWN,
            "traffic 6 12\n",
            LETTERS_OF_A,
            "phase 3 WANT B\nletter 3 0 1 1\nletter 3 1 0 1\nphase 4 ROWS B\nletter 4 0 1 1\nletter 4 1 0 1\nphase 5 WANT B\nletter 5 0 1 1\nletter 5 1 0 1\n",
        ],
        ..CASE
    },
];

#[test]
fn jobs_with_matrices_leave_what_stands_in_the_tables(rt: HostRuntime) -> Result<(), Fail> {
    let alloc = rt.alloc();
    each(&rt, alloc, &ASSEMBLED_RUNS)?;
    each(&rt, alloc, &SPLIT_RUNS)?;
    each(&rt, alloc, &MATRICES)
}

/// The letters of the product come in another order.
const BY_LINES: Case = Case {
    words: BY_SCHEDULE,
    ..PRODUCT
};

/// Letters are left.
const LEFT: Case = Case {
    words: BY_SCHEDULE,
    job: APPLIED,
    status: 6,
    ..CASE
};

const SCHEDULES: [Case; 5] = [
    // The second letter reaches rank 0 while it is still in phase 0.
    Case {
        name: "letters may come early",
        schedule: &["0 0 1\n1 1 0\n0 1 0\n1 0 1\n2 1 0\n2 0 1\n3 1 0\n3 0 1\n"],
        ..BY_LINES
    },
    Case {
        name: "repeated letters change nothing",
        schedule: &["0 0 1\n1 1 0\n0 0 1\n0 1 0\n1 0 1\n2 1 0\n2 0 1\n3 1 0\n3 0 1\n3 0 1\n"],
        ..BY_LINES
    },
    Case {
        name: "a schedule without lines leaves the first letters",
        message: "tpx: undelivered 2\n0 0 1\n0 1 0\n",
        ..LEFT
    },
    Case {
        name: "a schedule with one letter twice leaves letters",
        schedule: &["0 0 1\n0 0 1\n"],
        message: "tpx: undelivered 2\n0 1 0\n1 1 0\n",
        ..LEFT
    },
    Case {
        name: "a letter of a phase that its sender has not reached",
        schedule: &["0 0 1\n1 0 1\n"],
        status: 8,
        message: "tpx: line 2: 1 0 1 is not in flight\n",
        ..LEFT
    },
];

const REFUSED: [Case; 2] = [
    Case {
        name: "a vector of another size",
        job: APPLIED,
        x: "%%MatrixMarket matrix array integer general\n2 1\n1\n10\n",
        status: 5,
        message: "tpx: j.toml: SizeMismatch x\n",
        ..CASE
    },
    Case {
        name: "rows that are on two ranks",
        job: &[
            TWO_RANKS,
            "[[map]]\nname = \"r\"\nkind = \"lists\"\nsize = 1\nlists = [[0], [0]]\n[[map]]\nname = \"u\"\nkind = \"uniform\"\nsize = 1\n[[matrix]]\nname = \"A\"\nkind = \"assembled\"\nrows = \"r\"\ndomain = \"u\"\nfile = \"a.mtx\"\n",
        ],
        status: 5,
        message: "tpx: j.toml: BadMap r\n",
        ..CASE
    },
];

#[test]
fn letters_of_matrices_may_come_in_any_order(rt: HostRuntime) -> Result<(), Fail> {
    let alloc = rt.alloc();
    each(&rt, alloc, &SCHEDULES)?;
    each(&rt, alloc, &REFUSED)
}

/// Rank 0 is sent the last number of x, and rank 1 the first, each with 1 more. Of a split matrix rank 1 is sent the second number
/// of x, and each sum that goes to its owner has 1 more.
const TWISTED: [Case; 2] = [
    Case {
        name: "numbers of x are what the wire gives",
        text: &[ARRAY, "3 1\n507\n30\n-2\n"],
        ..PRODUCT
    },
    Case {
        name: "so are sums",
        job: &[TWO_RANKS, UNIFORM, VECTOR_X, SPLIT, Y_OF_X, PRINT_Y],
        text: &[ARRAY, "3 1\n503\n34\n0\n"],
        ..CASE
    },
];

#[test]
fn products_are_of_what_the_wire_gives(rt: HostRuntime) -> Result<(), Fail> {
    each_twisted(&rt, rt.alloc(), 1, &TWISTED)
}

#[test]
fn a_wire_may_fail_at_each_call_of_a_product(rt: HostRuntime) -> Result<(), Fail> {
    let case = Case {
        name: "each of eight letters is posted and taken",
        ..PRODUCT
    };
    each_fault(&rt, rt.alloc(), &case, 16)
}

/// A map of one index.
pub const SINGLE: &str = "[[map]]\nname = \"u\"\nkind = \"uniform\"\nsize = 1\n";

/// The greatest number.
const GREATEST: &str =
    "%%MatrixMarket matrix coordinate integer general\n1 1 1\n1 1 170141183460469231731687303715884105727\n";

/// The greatest number and 1, at one place.
const TWO_ENTRIES: &str =
    "%%MatrixMarket matrix coordinate integer general\n1 1 2\n1 1 170141183460469231731687303715884105727\n1 1 1\n";

/// A matrix and a vector of the greatest number.
const OF_GREATEST: Case = Case {
    x: "%%MatrixMarket matrix array integer general\n1 1\n170141183460469231731687303715884105727\n",
    a: GREATEST,
    ..CASE
};

/// The entries of one place are too great together.
const OF_TWO: Case = Case {
    a: TWO_ENTRIES,
    x: "%%MatrixMarket matrix array integer general\n1 1\n1\n",
    ..CASE
};

const OVERFLOWS: [Case; 7] = [
    Case {
        name: "0 times a number that is over is 0",
        job: &[
            ONE_RANK,
            SINGLE,
            VECTOR_X,
            ASSEMBLED,
            Y_OF_X,
            "alpha = 0\n",
            PRINT_Y,
        ],
        text: &[ARRAY, "1 1\n0\n"],
        ..OF_GREATEST
    },
    Case {
        name: "a product that is over",
        job: &[
            ONE_RANK,
            SINGLE,
            VECTOR_X,
            ASSEMBLED,
            Y_OF_X,
            "alpha = 1\n",
            PRINT_Y,
        ],
        status: 7,
        message: "tpx: overflow\n",
        ..OF_GREATEST
    },
    Case {
        name: "a scaled matrix that is over, and is not printed",
        job: &[
            ONE_RANK,
            SINGLE,
            ASSEMBLED,
            "[[do]]\nop = \"scale\"\nname = \"S\"\nvalue = \"A\"\nalpha = -2\n",
        ],
        status: 7,
        message: "tpx: overflow\n",
        ..OF_GREATEST
    },
    Case {
        name: "an assembled matrix that is over",
        job: &[TWO_RANKS, SINGLE, ASSEMBLED],
        status: 7,
        message: "tpx: overflow\n",
        ..OF_TWO
    },
    Case {
        name: "a split matrix of which no part is over",
        job: &[TWO_RANKS, SINGLE, SPLIT],
        ..OF_TWO
    },
    Case {
        name: "a split matrix of which a part is over",
        job: &[ONE_RANK, SINGLE, SPLIT],
        status: 7,
        message: "tpx: overflow\n",
        ..OF_TWO
    },
    Case {
        name: "a sum of two parts that is over",
        job: &[TWO_RANKS, SINGLE, VECTOR_X, SPLIT, Y_OF_X],
        status: 7,
        message: "tpx: overflow\n",
        ..OF_TWO
    },
];

#[test]
fn numbers_of_matrices_may_be_over(rt: HostRuntime) -> Result<(), Fail> {
    each(&rt, rt.alloc(), &OVERFLOWS)
}

/// A job of three ranks with two matrices and every statement that makes no matrix of others.
const LONG: &[&str] = &[
    "ranks = 3\n[[map]]\nname = \"u\"\nkind = \"uniform\"\nsize = 5\n[[map]]\nname = \"c\"\nkind = \"cyclic\"\nsize = 5\n[[map]]\nname = \"l\"\nkind = \"lists\"\nsize = 5\nlists = [[0, 2, 4], [1, 2], [4, 3, 0]]\n",
    "[[vector]]\nname = \"x\"\nmap = \"u\"\nfile = \"x.mtx\"\n[[parts]]\nname = \"p\"\nmap = \"l\"\nfill = 1\n",
    "[[matrix]]\nname = \"A\"\nkind = \"assembled\"\nrows = \"c\"\ndomain = \"u\"\nfile = \"a.mtx\"\n[[matrix]]\nname = \"S\"\nkind = \"split\"\nrows = \"u\"\ndomain = \"c\"\nfile = \"a.mtx\"\n",
    "[[do]]\nop = \"move\"\nname = \"y\"\nfrom = \"x\"\nmap = \"c\"\n[[do]]\nop = \"apply\"\nname = \"v\"\nmatrix = \"A\"\nx = \"x\"\n[[do]]\nop = \"apply\"\nname = \"z\"\nmatrix = \"S\"\nx = \"x\"\ny = \"v\"\nalpha = 2\nbeta = 3\ntransposed = true\n[[do]]\nop = \"update\"\nname = \"d\"\nx = \"v\"\ny = \"z\"\nbeta = -2\n",
    "[[do]]\nop = \"scale\"\nname = \"B\"\nvalue = \"A\"\nalpha = -3\n[[do]]\nop = \"move\"\nname = \"M\"\nfrom = \"B\"\nmap = \"u\"\n[[do]]\nop = \"apply\"\nname = \"e\"\nmatrix = \"M\"\nx = \"x\"\n[[do]]\nop = \"apply\"\nname = \"f\"\nmatrix = \"M\"\nx = \"e\"\ny = \"x\"\nalpha = -1\nbeta = 2\ntransposed = true\n",
    "[[do]]\nop = \"spread\"\nname = \"s\"\nfrom = \"f\"\nmap = \"l\"\n[[do]]\nop = \"import\"\nname = \"i\"\nfrom = \"e\"\nonto = \"s\"\nmode = \"add\"\n[[do]]\nop = \"update\"\nname = \"j\"\nx = \"i\"\ny = \"p\"\nbeta = 2\n[[do]]\nop = \"export\"\nname = \"k\"\nfrom = \"j\"\nonto = \"x\"\nmode = \"add\"\n",
    "[[do]]\nop = \"scale\"\nname = \"T\"\nvalue = \"S\"\nalpha = 2\n[[do]]\nop = \"apply\"\nname = \"g\"\nmatrix = \"T\"\nx = \"y\"\ny = \"k\"\nbeta = -1\n",
    "[[do]]\nop = \"print\"\nvalue = \"d\"\n[[do]]\nop = \"print\"\nvalue = \"M\"\n[[do]]\nop = \"print\"\nvalue = \"j\"\n[[do]]\nop = \"print\"\nvalue = \"g\"\n",
];

/// Its text, computed apart from this program.
const LONG_TEXT: &[&str] = &[
    ARRAY,
    "5 1\n78\n-275\n90\n12\n86\n",
    COORDINATE,
    "5 5 7\n1 1 -6\n1 4 9\n2 3 -15\n2 5 -21\n3 2 -15\n4 4 0\n5 1 18\n",
    COORDINATE,
    "% part 0\n5 1 3\n1 1 -362\n3 1 -1897\n5 1 -2681\n",
    COORDINATE,
    "% part 1\n5 1 2\n2 1 319\n3 1 -1897\n",
    COORDINATE,
    "% part 2\n5 1 3\n1 1 -362\n4 1 56\n5 1 -2681\n",
    ARRAY,
    "5 1\n727\n-231\n3771\n-56\n5346\n",
];

const LONG_RUN: Case = Case {
    name: "a long job prints one text in every order",
    job: LONG,
    x: "%%MatrixMarket matrix array integer general\n5 1\n1\n-2\n3\n0\n4\n",
    a: "%%MatrixMarket matrix coordinate integer general\n5 5 8\n1 1 2\n1 4 -3\n2 5 7\n3 2 1\n3 2 4\n4 4 0\n5 1 -6\n2 3 5\n",
    text: LONG_TEXT,
    ..CASE
};

const IN_EVERY_ORDER: [Case; 7] = [
    Case { ..LONG_RUN },
    Case {
        words: &["run", "j.toml", "--order", "lifo"],
        ..LONG_RUN
    },
    Case {
        words: &["run", "j.toml", "--order=seed", "--seed=0"],
        ..LONG_RUN
    },
    Case {
        words: &["run", "j.toml", "--order=seed", "--seed=1"],
        ..LONG_RUN
    },
    Case {
        words: &["run", "j.toml", "--order=seed", "--seed=2"],
        ..LONG_RUN
    },
    Case {
        words: &["run", "j.toml", "--order=seed", "--seed=3"],
        ..LONG_RUN
    },
    Case {
        words: &["run", "j.toml", "--order=seed", "--seed=4"],
        ..LONG_RUN
    },
];

#[test]
fn a_long_job_prints_one_text_in_every_order(rt: HostRuntime) -> Result<(), Fail> {
    each(&rt, rt.alloc(), &IN_EVERY_ORDER)
}
