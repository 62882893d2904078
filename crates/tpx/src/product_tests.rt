//! Whole runs of jobs that transpose and multiply matrices.

use crate::matrix_tests::{
    ASSEMBLED, CYCLIC, LETTERS_OF_A, ONE_RANK, PRINT_Y, SINGLE, TWO_RANKS, UNIFORM, VECTOR_X,
};
use crate::test_runs::{
    A_SHOWN, ARRAY, BY_SCHEDULE, CASE, COORDINATE, Case, WITH_TRAFFIC, each, each_fault,
    each_in_every_order, each_twisted,
};
use std::test::Fail;

pub const THREE_RANKS: &str = "ranks = 3\n";

pub const T_OF_A: &str = "[[do]]\nop = \"transpose\"\nname = \"T\"\nmatrix = \"A\"\n";

const PRINT_T: &str = "[[do]]\nop = \"print\"\nvalue = \"T\"\n";

pub const PRINT_C: &str = "[[do]]\nop = \"print\"\nvalue = \"C\"\n";

/// What is printed of the transpose.
const T_SHOWN: &str =
    "%%MatrixMarket matrix coordinate integer general\n3 3 4\n1 1 2\n1 3 -1\n2 2 3\n3 1 5\n";

/// The letters by which it is made: its rows go to their owners, and then each rank says which indices its columns lack.
pub const LETTERS_OF_T: &str =
    "phase 3 ROWS T\nletter 3 0 1 1\nletter 3 1 0 1\nphase 4 WANT T\nletter 4 0 1 1\nletter 4 1 0 1\n";

/// A uniform map n, up to its size.
pub const MAP_N: &str = "[[map]]\nname = \"n\"\nkind = \"uniform\"\nsize = ";

/// A uniform map m.
pub const MAP_M: &str = "[[map]]\nname = \"m\"\nkind = \"uniform\"\nsize = ";

pub const A_ON_N_M: &str =
    "[[matrix]]\nname = \"A\"\nkind = \"assembled\"\nrows = \"n\"\ndomain = \"m\"\nfile = \"a.mtx\"\n";

/// A second matrix, whose file is `x.mtx`.
const B_ON_M_N: &str =
    "[[matrix]]\nname = \"B\"\nkind = \"assembled\"\nrows = \"m\"\ndomain = \"n\"\nfile = \"x.mtx\"\n";

const A_TIMES_B: &str = "[[do]]\nop = \"multiply\"\nname = \"C\"\na = \"A\"\nb = \"B\"\n";

/// A matrix is transposed.
const TRANSPOSE: Case = Case {
    job: &[TWO_RANKS, UNIFORM, ASSEMBLED, T_OF_A, PRINT_T],
    text: &[T_SHOWN],
    ..CASE
};

const TRANSPOSES: [Case; 6] = [
    Case {
        name: "rows and columns change places",
        ..TRANSPOSE
    },
    Case {
        name: "a transpose that is transposed",
        job: &[
            TWO_RANKS,
            UNIFORM,
            ASSEMBLED,
            T_OF_A,
            "[[do]]\nop = \"transpose\"\nname = \"C\"\nmatrix = \"T\"\n",
            PRINT_C,
        ],
        text: &[A_SHOWN],
        ..CASE
    },
    Case {
        name: "two rows and three columns",
        job: &[
            TWO_RANKS, MAP_N, "2\n", MAP_M, "3\n", A_ON_N_M, T_OF_A, PRINT_T,
        ],
        a: "%%MatrixMarket matrix coordinate integer general\n2 3 3\n1 1 2\n1 3 5\n2 2 3\n",
        text: &[COORDINATE, "3 2 3\n1 1 2\n2 2 3\n3 1 5\n"],
        ..CASE
    },
    Case {
        name: "a row with a stored zero",
        job: &[
            TWO_RANKS, MAP_N, "1\n", MAP_M, "3\n", A_ON_N_M, T_OF_A, PRINT_T,
        ],
        a: "%%MatrixMarket matrix coordinate integer general\n1 3 2\n1 1 4\n1 3 0\n",
        text: &[COORDINATE, "3 1 2\n1 1 4\n3 1 0\n"],
        ..CASE
    },
    Case {
        name: "a matrix without places",
        job: &[
            THREE_RANKS,
            MAP_N,
            "2\n",
            MAP_M,
            "0\n",
            A_ON_N_M,
            T_OF_A,
            PRINT_T,
        ],
        a: "%%MatrixMarket matrix coordinate integer general\n2 0 0\n",
        text: &[COORDINATE, "0 2 0\n"],
        ..CASE
    },
    // The transpose has its rows on the cyclic map, and is applied to a vector on the uniform one.
    Case {
        name: "the row map and the domain map change places",
        job: &[
            THREE_RANKS,
            UNIFORM,
            CYCLIC,
            VECTOR_X,
            "[[matrix]]\nname = \"A\"\nkind = \"assembled\"\nrows = \"u\"\ndomain = \"c\"\nfile = \"a.mtx\"\n",
            T_OF_A,
            PRINT_T,
            "[[do]]\nop = \"apply\"\nname = \"y\"\nmatrix = \"T\"\nx = \"x\"\n",
            PRINT_Y,
        ],
        text: &[T_SHOWN, ARRAY, "3 1\n-98\n30\n5\n"],
        ..CASE
    },
];

/// A product of two matrices of two rows and two columns.
const PRODUCT: Case = Case {
    job: &[
        TWO_RANKS, MAP_N, "2\n", MAP_M, "2\n", A_ON_N_M, B_ON_M_N, A_TIMES_B, PRINT_C,
    ],
    ..CASE
};

/// The rows 1 2 and 3 4, whose columns change places.
const TURNED: Case = Case {
    a: "%%MatrixMarket matrix coordinate integer general\n2 2 4\n1 1 1\n1 2 2\n2 1 3\n2 2 4\n",
    x: "%%MatrixMarket matrix coordinate integer general\n2 2 2\n1 2 1\n2 1 1\n",
    text: &[COORDINATE, "2 2 4\n1 1 2\n1 2 1\n2 1 4\n2 2 3\n"],
    ..PRODUCT
};

const PRODUCTS: [Case; 10] = [
    Case {
        name: "two columns that change places",
        ..TURNED
    },
    Case {
        name: "a row times a column, of which the sum is 0",
        job: &[
            TWO_RANKS, MAP_N, "1\n", MAP_M, "2\n", A_ON_N_M, B_ON_M_N, A_TIMES_B, PRINT_C,
        ],
        a: "%%MatrixMarket matrix coordinate integer general\n1 2 2\n1 1 1\n1 2 1\n",
        x: "%%MatrixMarket matrix coordinate integer general\n2 1 2\n1 1 1\n2 1 -1\n",
        text: &[COORDINATE, "1 1 1\n1 1 0\n"],
        ..CASE
    },
    Case {
        name: "a column times a row, with a stored zero and a row without places",
        job: &[
            TWO_RANKS, MAP_N, "3\n", MAP_M, "1\n", A_ON_N_M, B_ON_M_N, A_TIMES_B, PRINT_C,
        ],
        a: "%%MatrixMarket matrix coordinate integer general\n3 1 2\n1 1 1\n3 1 -3\n",
        x: "%%MatrixMarket matrix coordinate integer general\n1 3 2\n1 1 2\n1 3 0\n",
        text: &[COORDINATE, "3 3 4\n1 1 2\n1 3 0\n3 1 -6\n3 3 0\n"],
        ..CASE
    },
    Case {
        name: "two rows that reach one column, one of them by a stored zero",
        a: "%%MatrixMarket matrix coordinate integer general\n2 2 4\n1 1 1\n1 2 2\n2 1 3\n2 2 0\n",
        x: "%%MatrixMarket matrix coordinate integer general\n2 2 2\n1 1 1\n2 2 1\n",
        text: &[COORDINATE, "2 2 4\n1 1 1\n1 2 2\n2 1 3\n2 2 0\n"],
        ..PRODUCT
    },
    Case {
        name: "no column of the first is a row of the second",
        a: "%%MatrixMarket matrix coordinate integer general\n2 2 1\n1 1 5\n",
        x: "%%MatrixMarket matrix coordinate integer general\n2 2 1\n2 2 7\n",
        text: &[COORDINATE, "2 2 0\n"],
        ..PRODUCT
    },
    Case {
        name: "rows without places",
        job: &[
            THREE_RANKS,
            MAP_N,
            "3\n",
            MAP_M,
            "2\n",
            A_ON_N_M,
            B_ON_M_N,
            A_TIMES_B,
            PRINT_C,
        ],
        a: "%%MatrixMarket matrix coordinate integer general\n3 2 2\n1 1 1\n3 2 2\n",
        x: "%%MatrixMarket matrix coordinate integer general\n2 3 1\n1 2 4\n",
        text: &[COORDINATE, "3 3 1\n1 2 4\n"],
        ..CASE
    },
    Case {
        name: "no columns",
        job: &[
            TWO_RANKS, MAP_N, "2\n", MAP_M, "0\n", A_ON_N_M, B_ON_M_N, A_TIMES_B, PRINT_C,
        ],
        a: "%%MatrixMarket matrix coordinate integer general\n2 0 0\n",
        x: "%%MatrixMarket matrix coordinate integer general\n0 2 0\n",
        text: &[COORDINATE, "2 2 0\n"],
        ..CASE
    },
    Case {
        name: "two rows times three that change nothing",
        job: &[
            TWO_RANKS,
            MAP_N,
            "2\n",
            MAP_M,
            "3\n",
            A_ON_N_M,
            "[[matrix]]\nname = \"B\"\nkind = \"assembled\"\nrows = \"m\"\ndomain = \"m\"\nfile = \"x.mtx\"\n",
            A_TIMES_B,
            PRINT_C,
        ],
        a: "%%MatrixMarket matrix coordinate integer general\n2 3 3\n1 1 2\n1 3 5\n2 2 3\n",
        x: "%%MatrixMarket matrix coordinate integer general\n3 3 3\n1 1 1\n2 2 1\n3 3 1\n",
        text: &[COORDINATE, "2 3 3\n1 1 2\n1 3 5\n2 2 3\n"],
        ..CASE
    },
    Case {
        name: "the transpose times the matrix",
        job: &[
            TWO_RANKS,
            UNIFORM,
            ASSEMBLED,
            T_OF_A,
            "[[do]]\nop = \"multiply\"\nname = \"C\"\na = \"T\"\nb = \"A\"\n",
            PRINT_C,
        ],
        text: &[COORDINATE, "3 3 5\n1 1 5\n1 3 10\n2 2 9\n3 1 10\n3 3 25\n"],
        ..CASE
    },
    // A x is 502, 30, -1, and A times that is 999, 90, -502.
    Case {
        name: "a product is applied",
        job: &[
            TWO_RANKS,
            UNIFORM,
            VECTOR_X,
            ASSEMBLED,
            "[[do]]\nop = \"multiply\"\nname = \"C\"\na = \"A\"\nb = \"A\"\n",
            PRINT_C,
            "[[do]]\nop = \"apply\"\nname = \"y\"\nmatrix = \"C\"\nx = \"x\"\n",
            PRINT_Y,
        ],
        text: &[
            COORDINATE,
            "3 3 5\n1 1 -1\n1 3 10\n2 2 9\n3 1 -2\n3 3 -5\n",
            ARRAY,
            "3 1\n999\n90\n-502\n",
        ],
        ..CASE
    },
];

#[test]
fn transposes_and_products_leave_what_stands_in_the_tables(rt: HostRuntime) -> Result<(), Fail> {
    let alloc = rt.alloc();
    each_in_every_order(&rt, alloc, &TRANSPOSES)?;
    each_in_every_order(&rt, alloc, &PRODUCTS)
}

const LETTERS: [Case; 4] = [
    Case {
        name: "columns go to their owners, and become rows",
        words: WITH_TRAFFIC,
        text: &[T_SHOWN, "traffic 5 10\n", LETTERS_OF_A, LETTERS_OF_T],
        ..TRANSPOSE
    },
    Case {
        name: "rows of the second matrix go to the columns of the first",
        words: WITH_TRAFFIC,
        text: &[
            COORDINATE,
            "2 2 4\n1 1 2\n1 2 1\n2 1 4\n2 2 3\ntraffic 8 14\n",
            "phase 0 OFFER A\nletter 0 0 1 1\nletter 0 1 0 1\nphase 1 ROWS A\nletter 1 0 1 1\nletter 1 1 0 1\nphase 2 WANT A\nletter 2 0 1 1\nletter 2 1 0 1\n",
            "phase 3 OFFER B\nletter 3 0 1 0\nletter 3 1 0 0\nphase 4 ROWS B\nphase 5 WANT B\nletter 5 0 1 1\nletter 5 1 0 1\n",
            "phase 6 ROWS C\nletter 6 0 1 1\nletter 6 1 0 1\nphase 7 WANT C\nletter 7 0 1 1\nletter 7 1 0 1\n",
        ],
        ..TURNED
    },
    // Rows of the transpose reach rank 0 before what rank 1 wants of it, and come a second time.
    Case {
        name: "rows that come early, and again, are counted once",
        words: BY_SCHEDULE,
        schedule: &[
            "0 0 1\n1 1 0\n0 1 0\n1 0 1\n2 0 1\n3 1 0\n3 1 0\n2 1 0\n3 0 1\n4 1 0\n3 1 0\n4 0 1\n",
        ],
        ..TRANSPOSE
    },
    Case {
        name: "a schedule that ends before the rows came",
        words: BY_SCHEDULE,
        schedule: &["0 0 1\n0 1 0\n1 0 1\n1 1 0\n2 0 1\n2 1 0\n3 1 0\n"],
        status: 6,
        text: &[],
        message: "tpx: undelivered 2\n3 0 1\n4 0 1\n",
        ..TRANSPOSE
    },
];

#[test]
fn the_letters_of_transposes_and_products(rt: HostRuntime) -> Result<(), Fail> {
    each(&rt, rt.alloc(), &LETTERS)
}

#[test]
fn rows_are_not_changed_on_their_way(rt: HostRuntime) -> Result<(), Fail> {
    let alloc = rt.alloc();
    each_twisted(&rt, alloc, 1, &TRANSPOSES[..5])?;
    each_twisted(&rt, alloc, 1, &PRODUCTS[..9])
}

#[test]
fn a_wire_may_fail_at_each_call_of_a_transpose(rt: HostRuntime) -> Result<(), Fail> {
    let case = Case {
        name: "each of ten letters is posted and taken",
        ..TRANSPOSE
    };
    each_fault(&rt, rt.alloc(), &case, 20)
}

/// A row with the greatest number and 1, times a column.
const LONG_ROW: Case = Case {
    job: &[
        TWO_RANKS, MAP_N, "1\n", MAP_M, "2\n", A_ON_N_M, B_ON_M_N, A_TIMES_B, PRINT_C,
    ],
    a: "%%MatrixMarket matrix coordinate integer general\n1 2 2\n1 1 170141183460469231731687303715884105727\n1 2 1\n",
    ..CASE
};

const OVERFLOWS: [Case; 3] = [
    Case {
        name: "the greatest number, and 0",
        x: "%%MatrixMarket matrix coordinate integer general\n2 1 2\n1 1 1\n2 1 0\n",
        text: &[
            COORDINATE,
            "1 1 1\n1 1 170141183460469231731687303715884105727\n",
        ],
        ..LONG_ROW
    },
    Case {
        name: "the greatest number less 1",
        x: "%%MatrixMarket matrix coordinate integer general\n2 1 2\n1 1 1\n2 1 -1\n",
        status: 7,
        message: "tpx: overflow\n",
        ..LONG_ROW
    },
    Case {
        name: "a transpose of the greatest number",
        job: &[ONE_RANK, SINGLE, ASSEMBLED, T_OF_A, PRINT_T],
        a: "%%MatrixMarket matrix coordinate integer general\n1 1 1\n1 1 170141183460469231731687303715884105727\n",
        text: &[
            COORDINATE,
            "1 1 1\n1 1 170141183460469231731687303715884105727\n",
        ],
        ..CASE
    },
];

#[test]
fn products_may_be_over(rt: HostRuntime) -> Result<(), Fail> {
    each(&rt, rt.alloc(), &OVERFLOWS)
}
