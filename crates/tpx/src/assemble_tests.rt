//! Whole runs of jobs that assemble split matrices.

use crate::matrix_tests::{ONE_RANK, PRINT_Y, SINGLE, TWO_RANKS, UNIFORM};
use crate::test_runs::{
    ARRAY, BY_SCHEDULE, CASE, COORDINATE, Case, WITH_TRAFFIC, each, each_in_every_order,
};
use std::test::Fail;

const SPLIT_S: &str =
    "[[matrix]]\nname = \"S\"\nkind = \"split\"\nrows = \"u\"\ndomain = \"u\"\nfile = \"a.mtx\"\n";

/// A second matrix, whose file is `x.mtx`.
const BASE_B: &str =
    "[[matrix]]\nname = \"B\"\nkind = \"assembled\"\nrows = \"u\"\ndomain = \"u\"\nfile = \"x.mtx\"\n";

/// The statement, up to the mode.
const C_OF_S: &str = "[[do]]\nop = \"assemble\"\nname = \"C\"\nfrom = \"S\"\nmode = \"";

const ONTO_B: &str = "\"\nonto = \"B";

const PRINT_C: &str = "\"\n[[do]]\nop = \"print\"\nvalue = \"C\"\n";

/// Two numbers of one place, of which the first is on the rank that owns the row, and a matrix with 1 at this place.
const ONE_PLACE: Case = Case {
    a: "%%MatrixMarket matrix coordinate integer general\n1 1 2\n1 1 4\n1 1 6\n",
    x: "%%MatrixMarket matrix coordinate integer general\n1 1 1\n1 1 1\n",
    ..CASE
};

const OF_ONE_PLACE: [Case; 11] = [
    Case {
        name: "without a mode numbers are added",
        job: &[
            TWO_RANKS,
            SINGLE,
            SPLIT_S,
            "[[do]]\nop = \"assemble\"\nname = \"C\"\nfrom = \"S",
            PRINT_C,
        ],
        text: &[COORDINATE, "1 1 1\n1 1 10\n"],
        ..ONE_PLACE
    },
    Case {
        name: "add makes the place",
        job: &[TWO_RANKS, SINGLE, SPLIT_S, C_OF_S, "add", PRINT_C],
        text: &[COORDINATE, "1 1 1\n1 1 10\n"],
        ..ONE_PLACE
    },
    Case {
        name: "insert makes the place, with the owner's number",
        job: &[TWO_RANKS, SINGLE, SPLIT_S, C_OF_S, "insert", PRINT_C],
        text: &[COORDINATE, "1 1 1\n1 1 4\n"],
        ..ONE_PLACE
    },
    Case {
        name: "absmax makes the place",
        job: &[TWO_RANKS, SINGLE, SPLIT_S, C_OF_S, "absmax", PRINT_C],
        text: &[COORDINATE, "1 1 1\n1 1 6\n"],
        ..ONE_PLACE
    },
    Case {
        name: "replace makes no place",
        job: &[TWO_RANKS, SINGLE, SPLIT_S, C_OF_S, "replace", PRINT_C],
        text: &[COORDINATE, "1 1 0\n"],
        ..ONE_PLACE
    },
    Case {
        name: "zero makes no place",
        job: &[TWO_RANKS, SINGLE, SPLIT_S, C_OF_S, "zero", PRINT_C],
        text: &[COORDINATE, "1 1 0\n"],
        ..ONE_PLACE
    },
    Case {
        name: "numbers are added to that of the place",
        job: &[
            TWO_RANKS, SINGLE, SPLIT_S, BASE_B, C_OF_S, "add", ONTO_B, PRINT_C,
        ],
        text: &[COORDINATE, "1 1 1\n1 1 11\n"],
        ..ONE_PLACE
    },
    Case {
        name: "insert changes no place",
        job: &[
            TWO_RANKS, SINGLE, SPLIT_S, BASE_B, C_OF_S, "insert", ONTO_B, PRINT_C,
        ],
        text: &[COORDINATE, "1 1 1\n1 1 1\n"],
        ..ONE_PLACE
    },
    Case {
        name: "replace takes the number that came last",
        job: &[
            TWO_RANKS, SINGLE, SPLIT_S, BASE_B, C_OF_S, "replace", ONTO_B, PRINT_C,
        ],
        text: &[COORDINATE, "1 1 1\n1 1 6\n"],
        ..ONE_PLACE
    },
    Case {
        name: "the greatest of both and of that of the place",
        job: &[
            TWO_RANKS, SINGLE, SPLIT_S, BASE_B, C_OF_S, "absmax", ONTO_B, PRINT_C,
        ],
        text: &[COORDINATE, "1 1 1\n1 1 6\n"],
        ..ONE_PLACE
    },
    Case {
        name: "the place is set to 0",
        job: &[
            TWO_RANKS, SINGLE, SPLIT_S, BASE_B, C_OF_S, "zero", ONTO_B, PRINT_C,
        ],
        text: &[COORDINATE, "1 1 1\n1 1 0\n"],
        ..ONE_PLACE
    },
];

/// Rank 0 has 4 at (0, 0), 2 at (2, 0) and -7 at (0, 2), rank 1 has 6 at (0, 0), 5 at (2, 1) and 0 at (1, 1). Row 2 is that of
/// rank 1. The other matrix has the rows 1 . ., 8 . . and -3 0 9.
const PLACES: Case = Case {
    a: "%%MatrixMarket matrix coordinate integer general\n3 3 6\n1 1 4\n1 1 6\n3 1 2\n3 2 5\n1 3 -7\n2 2 0\n",
    x: "%%MatrixMarket matrix coordinate integer general\n3 3 5\n1 1 1\n2 1 8\n3 1 -3\n3 2 0\n3 3 9\n",
    ..CASE
};

const OF_PLACES: [Case; 10] = [
    Case {
        name: "add",
        job: &[TWO_RANKS, UNIFORM, SPLIT_S, C_OF_S, "add", PRINT_C],
        text: &[COORDINATE, "3 3 5\n1 1 10\n1 3 -7\n2 2 0\n3 1 2\n3 2 5\n"],
        ..PLACES
    },
    Case {
        name: "insert",
        job: &[TWO_RANKS, UNIFORM, SPLIT_S, C_OF_S, "insert", PRINT_C],
        text: &[COORDINATE, "3 3 5\n1 1 4\n1 3 -7\n2 2 0\n3 1 2\n3 2 5\n"],
        ..PLACES
    },
    Case {
        name: "absmax",
        job: &[TWO_RANKS, UNIFORM, SPLIT_S, C_OF_S, "absmax", PRINT_C],
        text: &[COORDINATE, "3 3 5\n1 1 6\n1 3 7\n2 2 0\n3 1 2\n3 2 5\n"],
        ..PLACES
    },
    Case {
        name: "replace",
        job: &[TWO_RANKS, UNIFORM, SPLIT_S, C_OF_S, "replace", PRINT_C],
        text: &[COORDINATE, "3 3 0\n"],
        ..PLACES
    },
    Case {
        name: "zero",
        job: &[TWO_RANKS, UNIFORM, SPLIT_S, C_OF_S, "zero", PRINT_C],
        text: &[COORDINATE, "3 3 0\n"],
        ..PLACES
    },
    Case {
        name: "add onto places",
        job: &[
            TWO_RANKS, UNIFORM, SPLIT_S, BASE_B, C_OF_S, "add", ONTO_B, PRINT_C,
        ],
        text: &[
            COORDINATE,
            "3 3 7\n1 1 11\n1 3 -7\n2 1 8\n2 2 0\n3 1 -1\n3 2 5\n3 3 9\n",
        ],
        ..PLACES
    },
    Case {
        name: "insert onto places",
        job: &[
            TWO_RANKS, UNIFORM, SPLIT_S, BASE_B, C_OF_S, "insert", ONTO_B, PRINT_C,
        ],
        text: &[
            COORDINATE,
            "3 3 7\n1 1 1\n1 3 -7\n2 1 8\n2 2 0\n3 1 -3\n3 2 0\n3 3 9\n",
        ],
        ..PLACES
    },
    Case {
        name: "absmax onto places",
        job: &[
            TWO_RANKS, UNIFORM, SPLIT_S, BASE_B, C_OF_S, "absmax", ONTO_B, PRINT_C,
        ],
        text: &[
            COORDINATE,
            "3 3 7\n1 1 6\n1 3 7\n2 1 8\n2 2 0\n3 1 3\n3 2 5\n3 3 9\n",
        ],
        ..PLACES
    },
    Case {
        name: "replace onto places",
        job: &[
            TWO_RANKS, UNIFORM, SPLIT_S, BASE_B, C_OF_S, "replace", ONTO_B, PRINT_C,
        ],
        text: &[COORDINATE, "3 3 5\n1 1 6\n2 1 8\n3 1 2\n3 2 5\n3 3 9\n"],
        ..PLACES
    },
    Case {
        name: "zero onto places",
        job: &[
            TWO_RANKS, UNIFORM, SPLIT_S, BASE_B, C_OF_S, "zero", ONTO_B, PRINT_C,
        ],
        text: &[COORDINATE, "3 3 5\n1 1 0\n2 1 8\n3 1 0\n3 2 0\n3 3 9\n"],
        ..PLACES
    },
];

/// Matrices of which some or all parts have no places, and a matrix that is applied once it is assembled.
const OTHERS: [Case; 4] = [
    Case {
        name: "a split matrix without places leaves the other as it is",
        job: &[
            "ranks = 3\n",
            UNIFORM,
            SPLIT_S,
            BASE_B,
            C_OF_S,
            "zero",
            ONTO_B,
            PRINT_C,
        ],
        a: "%%MatrixMarket matrix coordinate integer general\n3 3 0\n",
        x: "%%MatrixMarket matrix coordinate integer general\n3 3 2\n2 2 5\n3 1 0\n",
        text: &[COORDINATE, "3 3 2\n2 2 5\n3 1 0\n"],
        ..CASE
    },
    Case {
        name: "numbers of one rank are added before they are combined",
        job: &[ONE_RANK, SINGLE, SPLIT_S, C_OF_S, "absmax", PRINT_C],
        a: "%%MatrixMarket matrix coordinate integer general\n1 1 3\n1 1 4\n1 1 -5\n1 1 6\n",
        text: &[COORDINATE, "1 1 1\n1 1 5\n"],
        ..CASE
    },
    Case {
        name: "a split matrix that was scaled",
        job: &[
            TWO_RANKS,
            SINGLE,
            SPLIT_S,
            "[[do]]\nop = \"scale\"\nname = \"M\"\nvalue = \"S\"\nalpha = -3\n[[do]]\nop = \"assemble\"\nname = \"C\"\nfrom = \"M\"\nmode = \"",
            "insert",
            PRINT_C,
        ],
        text: &[COORDINATE, "1 1 1\n1 1 -12\n"],
        ..ONE_PLACE
    },
    // Of each row the sum of its numbers.
    Case {
        name: "what is assembled is applied",
        job: &[
            TWO_RANKS,
            UNIFORM,
            "[[vector]]\nname = \"x\"\nmap = \"u\"\nfill = 1\n",
            SPLIT_S,
            "[[do]]\nop = \"assemble\"\nname = \"C\"\nfrom = \"S\"\n[[do]]\nop = \"apply\"\nname = \"y\"\nmatrix = \"C\"\nx = \"x\"\n",
            PRINT_Y,
        ],
        text: &[ARRAY, "3 1\n3\n0\n7\n"],
        ..PLACES
    },
];

#[test]
fn assembled_matrices_are_what_stands_in_the_tables(rt: HostRuntime) -> Result<(), Fail> {
    let alloc = rt.alloc();
    each_in_every_order(&rt, alloc, &OF_ONE_PLACE)?;
    each_in_every_order(&rt, alloc, &OF_PLACES)?;
    each_in_every_order(&rt, alloc, &OTHERS)
}

/// Rows of a split matrix go to their owners by its row plan, whatever the mode makes of them.
const LETTERS: [Case; 2] = [
    Case {
        name: "the letters where numbers are added",
        words: WITH_TRAFFIC,
        job: &[TWO_RANKS, UNIFORM, SPLIT_S, C_OF_S, "add", PRINT_C],
        text: &[
            COORDINATE,
            "3 3 5\n1 1 10\n1 3 -7\n2 2 0\n3 1 2\n3 2 5\ntraffic 4 8\n",
            "phase 0 WANT S\nletter 0 0 1 1\nletter 0 1 0 2\nphase 1 OFFER S\nletter 1 0 1 1\nletter 1 1 0 2\n",
            "phase 2 ROWS C\nletter 2 0 1 1\nletter 2 1 0 2\nphase 3 WANT C\nletter 3 0 1 1\nletter 3 1 0 2\n",
        ],
        ..PLACES
    },
    Case {
        name: "the letters where no place is made",
        words: WITH_TRAFFIC,
        job: &[TWO_RANKS, UNIFORM, SPLIT_S, C_OF_S, "zero", PRINT_C],
        text: &[
            COORDINATE,
            "3 3 0\ntraffic 4 8\n",
            "phase 0 WANT S\nletter 0 0 1 1\nletter 0 1 0 2\nphase 1 OFFER S\nletter 1 0 1 1\nletter 1 1 0 2\n",
            "phase 2 ROWS C\nletter 2 0 1 1\nletter 2 1 0 2\nphase 3 WANT C\nletter 3 0 1 0\nletter 3 1 0 0\n",
        ],
        ..PLACES
    },
];

/// Three ranks, of which each owns a row, and ranks 0 and 1 have numbers for that of rank 2.
const ROW_OF_RANK_2: &str =
    "ranks = 3\n[[map]]\nname = \"u\"\nkind = \"uniform\"\nsize = 3\n[[map]]\nname = \"d\"\nkind = \"uniform\"\nsize = 1\n[[matrix]]\nname = \"S\"\nkind = \"split\"\nrows = \"u\"\ndomain = \"d\"\nfile = \"a.mtx\"\n";

const BASE_ON_D: &str =
    "[[matrix]]\nname = \"B\"\nkind = \"assembled\"\nrows = \"u\"\ndomain = \"d\"\nfile = \"x.mtx\"\n";

/// The letters of the phases 0 and 1 of three ranks.
const PLANNED: &str =
    "0 0 1\n0 0 2\n0 1 0\n0 1 2\n0 2 0\n0 2 1\n1 0 1\n1 0 2\n1 1 0\n1 1 2\n1 2 0\n1 2 1\n";

/// Those of the phases 2 to 4, in which the other matrix is assembled.
const BASE_MADE: &str =
    "2 0 1\n2 0 2\n2 1 0\n2 1 2\n2 2 0\n2 2 1\n3 0 2\n4 0 1\n4 0 2\n4 1 0\n4 1 2\n4 2 0\n4 2 1\n";

/// Those of the phase 3, where there is no other matrix.
const ENDED: &str = "3 0 1\n3 0 2\n3 1 0\n3 1 2\n3 2 0\n3 2 1\n";

/// Those of the phase 6, where there is one.
const ENDED_ONTO: &str = "6 0 1\n6 0 2\n6 1 0\n6 1 2\n6 2 0\n6 2 1\n";

/// Rank 2 has no number of its own for its row.
const INSERTED: Case = Case {
    words: BY_SCHEDULE,
    job: &[ROW_OF_RANK_2, C_OF_S, "insert", PRINT_C],
    a: "%%MatrixMarket matrix coordinate integer general\n3 1 2\n3 1 5\n3 1 7\n",
    ..CASE
};

/// The place is in the other matrix already.
const REPLACED: Case = Case {
    words: BY_SCHEDULE,
    job: &[ROW_OF_RANK_2, BASE_ON_D, C_OF_S, "replace", ONTO_B, PRINT_C],
    a: "%%MatrixMarket matrix coordinate integer general\n3 1 2\n3 1 5\n3 1 7\n",
    x: "%%MatrixMarket matrix coordinate integer general\n3 1 1\n3 1 1\n",
    ..CASE
};

/// With a third line, which is dealt to rank 2.
const WITH_OWN: &str =
    "%%MatrixMarket matrix coordinate integer general\n3 1 3\n3 1 5\n3 1 7\n3 1 9\n";

const PICKED: [Case; 10] = [
    Case {
        name: "insert takes the letter of rank 0 where it is the first",
        schedule: &[PLANNED, "2 0 2\n2 1 2\n", ENDED],
        text: &[COORDINATE, "3 1 1\n3 1 5\n"],
        ..INSERTED
    },
    Case {
        name: "insert takes the letter of rank 1 where it is the first",
        schedule: &[PLANNED, "2 1 2\n2 0 2\n", ENDED],
        text: &[COORDINATE, "3 1 1\n3 1 7\n"],
        ..INSERTED
    },
    Case {
        name: "insert takes no letter that is repeated",
        schedule: &[PLANNED, "2 1 2\n2 1 2\n2 0 2\n2 1 2\n", ENDED],
        text: &[COORDINATE, "3 1 1\n3 1 7\n"],
        ..INSERTED
    },
    Case {
        name: "insert takes the number of the owner, if it has one",
        schedule: &[PLANNED, "2 0 2\n2 1 2\n", ENDED],
        a: WITH_OWN,
        text: &[COORDINATE, "3 1 1\n3 1 9\n"],
        ..INSERTED
    },
    Case {
        name: "and in the other order",
        schedule: &[PLANNED, "2 1 2\n2 0 2\n", ENDED],
        a: WITH_OWN,
        text: &[COORDINATE, "3 1 1\n3 1 9\n"],
        ..INSERTED
    },
    Case {
        name: "replace takes the letter of rank 1 where it is the last",
        schedule: &[PLANNED, BASE_MADE, "5 0 2\n5 1 2\n", ENDED_ONTO],
        text: &[COORDINATE, "3 1 1\n3 1 7\n"],
        ..REPLACED
    },
    Case {
        name: "replace takes the letter of rank 0 where it is the last",
        schedule: &[PLANNED, BASE_MADE, "5 1 2\n5 0 2\n", ENDED_ONTO],
        text: &[COORDINATE, "3 1 1\n3 1 5\n"],
        ..REPLACED
    },
    Case {
        name: "replace takes no letter that is repeated",
        schedule: &[PLANNED, BASE_MADE, "5 0 2\n5 1 2\n5 0 2\n", ENDED_ONTO],
        text: &[COORDINATE, "3 1 1\n3 1 7\n"],
        ..REPLACED
    },
    Case {
        name: "replace does not take the number of the owner where a letter came",
        schedule: &[PLANNED, BASE_MADE, "5 1 2\n5 0 2\n", ENDED_ONTO],
        a: WITH_OWN,
        text: &[COORDINATE, "3 1 1\n3 1 5\n"],
        ..REPLACED
    },
    Case {
        name: "add takes each letter once",
        job: &[ROW_OF_RANK_2, C_OF_S, "add", PRINT_C],
        schedule: &[PLANNED, "2 1 2\n2 0 2\n2 1 2\n", ENDED],
        text: &[COORDINATE, "3 1 1\n3 1 12\n"],
        ..INSERTED
    },
];

#[test]
fn rows_of_split_matrices_come_in_letters(rt: HostRuntime) -> Result<(), Fail> {
    let alloc = rt.alloc();
    each(&rt, alloc, &LETTERS)?;
    each(&rt, alloc, &PICKED)
}

/// The greatest number and 1, of two ranks.
const GREATEST_AND_1: Case = Case {
    a: "%%MatrixMarket matrix coordinate integer general\n1 1 2\n1 1 170141183460469231731687303715884105727\n1 1 1\n",
    ..CASE
};

const OVERFLOWS: [Case; 3] = [
    Case {
        name: "a sum that is over",
        job: &[TWO_RANKS, SINGLE, SPLIT_S, C_OF_S, "add", PRINT_C],
        status: 7,
        message: "tpx: overflow\n",
        ..GREATEST_AND_1
    },
    Case {
        name: "the greater of two is not over",
        job: &[TWO_RANKS, SINGLE, SPLIT_S, C_OF_S, "absmax", PRINT_C],
        text: &[
            COORDINATE,
            "1 1 1\n1 1 170141183460469231731687303715884105727\n",
        ],
        ..GREATEST_AND_1
    },
    Case {
        name: "the first of two is not over",
        job: &[TWO_RANKS, SINGLE, SPLIT_S, C_OF_S, "insert", PRINT_C],
        text: &[
            COORDINATE,
            "1 1 1\n1 1 170141183460469231731687303715884105727\n",
        ],
        ..GREATEST_AND_1
    },
];

#[test]
fn assembled_matrices_may_be_over(rt: HostRuntime) -> Result<(), Fail> {
    each(&rt, rt.alloc(), &OVERFLOWS)
}
