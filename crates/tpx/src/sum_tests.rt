//! Whole runs of jobs that add matrices, also those that other statements made.

use crate::matrix_tests::{
    ASSEMBLED, CYCLIC, LETTERS_OF_A, ONE_RANK, PRINT_A, SINGLE, TWO_RANKS, UNIFORM,
};
use crate::product_tests::{A_ON_N_M, LETTERS_OF_T, MAP_M, MAP_N, PRINT_C, T_OF_A, THREE_RANKS};
use crate::test_runs::{
    A_SHOWN, CASE, COORDINATE, Case, WITH_TRAFFIC, each, each_in_every_order, each_twisted,
};
use std::test::Fail;

/// A second matrix of the sizes of the first one.
const B_ON_N_M: &str =
    "[[matrix]]\nname = \"B\"\nkind = \"assembled\"\nrows = \"n\"\ndomain = \"m\"\nfile = \"x.mtx\"\n";

const A_PLUS_B: &str = "[[do]]\nop = \"add\"\nname = \"C\"\na = \"A\"\nb = \"B\"\n";

/// The matrix less its transpose.
const DIFFERENCE: Case = Case {
    job: &[
        TWO_RANKS,
        UNIFORM,
        ASSEMBLED,
        T_OF_A,
        "[[do]]\nop = \"add\"\nname = \"C\"\na = \"A\"\nb = \"T\"\nbeta = -1\n",
        PRINT_C,
    ],
    text: &[COORDINATE, "3 3 4\n1 1 0\n1 3 6\n2 2 0\n3 1 -6\n"],
    ..CASE
};

/// The sum of a matrix and of what it is on other rows.
const SUM_OF_MOVED: Case = Case {
    job: &[
        TWO_RANKS,
        UNIFORM,
        CYCLIC,
        ASSEMBLED,
        "[[do]]\nop = \"move\"\nname = \"B\"\nfrom = \"A\"\nmap = \"c\"\n",
        A_PLUS_B,
        PRINT_C,
    ],
    text: &[COORDINATE, "3 3 4\n1 1 4\n1 3 10\n2 2 6\n3 1 -2\n"],
    ..CASE
};

const SUMS: [Case; 6] = [
    Case {
        name: "a difference whose zeros stay",
        ..DIFFERENCE
    },
    Case {
        name: "the rows of the second matrix are on another map",
        ..SUM_OF_MOVED
    },
    Case {
        name: "twice a matrix less itself",
        job: &[
            TWO_RANKS,
            UNIFORM,
            ASSEMBLED,
            "[[do]]\nop = \"add\"\nname = \"C\"\na = \"A\"\nb = \"A\"\nalpha = 2\nbeta = -1\n",
            PRINT_C,
        ],
        text: &[A_SHOWN],
        ..CASE
    },
    Case {
        name: "two factors that are 0",
        job: &[
            TWO_RANKS,
            UNIFORM,
            ASSEMBLED,
            T_OF_A,
            "[[do]]\nop = \"add\"\nname = \"C\"\na = \"A\"\nb = \"T\"\nalpha = 0\nbeta = 0\n",
            PRINT_C,
        ],
        text: &[COORDINATE, "3 3 4\n1 1 0\n1 3 0\n2 2 0\n3 1 0\n"],
        ..CASE
    },
    Case {
        name: "a place that one of them has",
        job: &[
            TWO_RANKS, MAP_N, "2\n", MAP_M, "3\n", A_ON_N_M, B_ON_N_M, A_PLUS_B, PRINT_C,
        ],
        a: "%%MatrixMarket matrix coordinate integer general\n2 3 2\n1 1 2\n1 3 5\n",
        x: "%%MatrixMarket matrix coordinate integer general\n2 3 2\n1 3 -5\n2 2 7\n",
        text: &[COORDINATE, "2 3 3\n1 1 2\n1 3 0\n2 2 7\n"],
        ..CASE
    },
    Case {
        name: "two matrices without places",
        job: &[
            THREE_RANKS,
            MAP_N,
            "2\n",
            MAP_M,
            "3\n",
            A_ON_N_M,
            B_ON_N_M,
            A_PLUS_B,
            PRINT_C,
        ],
        a: "%%MatrixMarket matrix coordinate integer general\n2 3 0\n",
        x: "%%MatrixMarket matrix coordinate integer general\n2 3 0\n",
        text: &[COORDINATE, "2 3 0\n"],
        ..CASE
    },
];

const LETTERS: [Case; 2] = [
    Case {
        name: "no rows are sent where both matrices have them on one map",
        words: WITH_TRAFFIC,
        text: &[
            COORDINATE,
            "3 3 4\n1 1 0\n1 3 6\n2 2 0\n3 1 -6\ntraffic 6 12\n",
            LETTERS_OF_A,
            LETTERS_OF_T,
            "phase 5 WANT C\nletter 5 0 1 1\nletter 5 1 0 1\n",
        ],
        ..DIFFERENCE
    },
    Case {
        name: "else the owners are asked for, and the rows are sent",
        words: WITH_TRAFFIC,
        text: &[
            COORDINATE,
            "3 3 4\n1 1 4\n1 3 10\n2 2 6\n3 1 -2\ntraffic 12 24\n",
            LETTERS_OF_A,
            "phase 3 WANT B\nletter 3 0 1 1\nletter 3 1 0 1\nphase 4 ROWS B\nletter 4 0 1 1\nletter 4 1 0 1\nphase 5 WANT B\nletter 5 0 1 1\nletter 5 1 0 1\n",
            "phase 6 REG C\nletter 6 0 1 1\nletter 6 1 0 1\nphase 7 ASK C\nletter 7 0 1 0\nletter 7 1 0 0\nphase 8 TELL C\nletter 8 0 1 0\nletter 8 1 0 0\n",
            "phase 9 WANT C\nletter 9 0 1 1\nletter 9 1 0 1\nphase 10 ROWS C\nletter 10 0 1 1\nletter 10 1 0 1\nphase 11 WANT C\nletter 11 0 1 1\nletter 11 1 0 1\n",
        ],
        ..SUM_OF_MOVED
    },
];

#[test]
fn sums_leave_what_stands_in_the_tables(rt: HostRuntime) -> Result<(), Fail> {
    let alloc = rt.alloc();
    each_in_every_order(&rt, alloc, &SUMS)?;
    each_twisted(&rt, alloc, 1, &SUMS)?;
    each(&rt, alloc, &LETTERS)
}

/// A third of the greatest number, times 2 and times -1, on one rank.
const THIRDS: Case = Case {
    job: &[
        ONE_RANK,
        SINGLE,
        ASSEMBLED,
        "[[do]]\nop = \"add\"\nname = \"C\"\na = \"A\"\nb = \"A\"\nalpha = 2\nbeta = -1\n",
        PRINT_C,
    ],
    a: "%%MatrixMarket matrix coordinate integer general\n1 1 1\n1 1 56713727820156410577229101238628035242\n",
    ..CASE
};

const OVERFLOWS: [Case; 2] = [
    Case {
        name: "a sum whose magnitudes are just not over",
        text: &[
            COORDINATE,
            "1 1 1\n1 1 56713727820156410577229101238628035242\n",
        ],
        ..THIRDS
    },
    Case {
        name: "a sum whose magnitudes are over",
        a: "%%MatrixMarket matrix coordinate integer general\n1 1 1\n1 1 56713727820156410577229101238628035243\n",
        status: 7,
        message: "tpx: overflow\n",
        ..THIRDS
    },
];

#[test]
fn sums_may_be_over(rt: HostRuntime) -> Result<(), Fail> {
    each(&rt, rt.alloc(), &OVERFLOWS)
}

/// What a statement made is an operand of others, and all are printed.
const CHAIN: [Case; 1] = [Case {
    name: "each statement takes what the one before made",
    job: &[
        THREE_RANKS,
        UNIFORM,
        CYCLIC,
        ASSEMBLED,
        PRINT_A,
        T_OF_A,
        "[[do]]\nop = \"multiply\"\nname = \"P\"\na = \"A\"\nb = \"T\"\n",
        "[[do]]\nop = \"move\"\nname = \"M\"\nfrom = \"P\"\nmap = \"c\"\n",
        "[[do]]\nop = \"add\"\nname = \"D\"\na = \"M\"\nb = \"A\"\nbeta = 10\n",
        "[[do]]\nop = \"scale\"\nname = \"F\"\nvalue = \"D\"\nalpha = -1\n",
        "[[do]]\nop = \"transpose\"\nname = \"C\"\nmatrix = \"F\"\n",
        PRINT_C,
    ],
    // A A' has the rows 29 . -2, . 9 . and -2 . 1; with 10 A they are 49 . 48, . 39 . and -12 . 1.
    text: &[
        A_SHOWN,
        COORDINATE,
        "3 3 5\n1 1 -49\n1 3 12\n2 2 -39\n3 1 -48\n3 3 -1\n",
    ],
    ..CASE
}];

#[test]
fn what_a_statement_made_is_an_operand_of_others(rt: HostRuntime) -> Result<(), Fail> {
    each_in_every_order(&rt, rt.alloc(), &CHAIN)
}
