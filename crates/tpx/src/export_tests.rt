//! Whole runs of jobs that import, spread and export.

use crate::test_runs::{
    ARRAY, BY_SCHEDULE, CASE, COORDINATE, Case, WITH_TRAFFIC, each, each_twisted,
};
use std::test::Fail;

/// The head of a job in which a vector x is on a uniform map, and a map of lists has index 1 on both ranks.
const SPREAD: &str =
    "ranks = 2\n[[map]]\nname = \"u\"\nkind = \"uniform\"\nsize = 3\n[[map]]\nname = \"l\"\nkind = \"lists\"\nsize = 3\nlists = [[0, 1], [1, 2]]\n[[vector]]\nname = \"x\"\nmap = \"u\"\nfill = 1\n";

const P_OF_X: &str = "[[do]]\nop = \"spread\"\nname = \"p\"\nfrom = \"x\"\nmap = \"l\"\n";

const PRINT_P: &str = "[[do]]\nop = \"print\"\nvalue = \"p\"\n";

/// The job that spreads ones over the lists, and exports them onto a vector on the uniform map, up to the fill of this vector.
pub const THERE: &str =
    "ranks = 2\n[[map]]\nname = \"u\"\nkind = \"uniform\"\nsize = 3\n[[map]]\nname = \"l\"\nkind = \"lists\"\nsize = 3\nlists = [[0, 1], [1, 2]]\n[[vector]]\nname = \"x\"\nmap = \"u\"\nfill = 1\n[[vector]]\nname = \"v\"\nmap = \"u\"\nfill = ";

/// Then up to the mode.
pub const AND_BACK: &str =
    "\n[[do]]\nop = \"spread\"\nname = \"p\"\nfrom = \"x\"\nmap = \"l\"\n[[do]]\nop = \"export\"\nname = \"y\"\nfrom = \"p\"\nonto = \"v\"\nmode = \"";

/// And then to the end.
pub const PRINT_Y: &str = "\"\n[[do]]\nop = \"print\"\nvalue = \"y\"\n";

const SPREADS: [Case; 2] = [
    Case {
        name: "a spread vector is on each list",
        job: &[SPREAD, P_OF_X, PRINT_P],
        text: &[
            COORDINATE,
            "% part 0\n3 1 2\n1 1 1\n2 1 1\n",
            COORDINATE,
            "% part 1\n3 1 2\n2 1 1\n3 1 1\n",
        ],
        ..CASE
    },
    Case {
        name: "spread cells that the vector lacks are 0",
        job: &[
            "ranks = 2\n[[map]]\nname = \"v\"\nkind = \"lists\"\nsize = 3\nlists = [[], [2]]\n[[map]]\nname = \"l\"\nkind = \"lists\"\nsize = 3\nlists = [[2, 0], []]\n[[vector]]\nname = \"x\"\nmap = \"v\"\nfill = 8\n",
            P_OF_X,
            PRINT_P,
        ],
        text: &[
            COORDINATE,
            "% part 0\n3 1 2\n1 1 0\n3 1 8\n",
            COORDINATE,
            "% part 1\n3 1 0\n",
        ],
        ..CASE
    },
];

const COMBINED: [Case; 7] = [
    Case {
        name: "ones added to 0",
        job: &[THERE, "0", AND_BACK, "add", PRINT_Y],
        text: &[ARRAY, "3 1\n1\n2\n1\n"],
        ..CASE
    },
    Case {
        name: "ones added to 100",
        job: &[THERE, "100", AND_BACK, "add", PRINT_Y],
        text: &[ARRAY, "3 1\n101\n102\n101\n"],
        ..CASE
    },
    Case {
        name: "absmax of ones and 0",
        job: &[THERE, "0", AND_BACK, "absmax", PRINT_Y],
        text: &[ARRAY, "3 1\n1\n1\n1\n"],
        ..CASE
    },
    Case {
        name: "absmax of ones and -9",
        job: &[THERE, "-9", AND_BACK, "absmax", PRINT_Y],
        text: &[ARRAY, "3 1\n9\n9\n9\n"],
        ..CASE
    },
    Case {
        name: "zero",
        job: &[THERE, "7", AND_BACK, "zero", PRINT_Y],
        text: &[ARRAY, "3 1\n0\n0\n0\n"],
        ..CASE
    },
    Case {
        name: "replace",
        job: &[THERE, "7", AND_BACK, "replace", PRINT_Y],
        text: &[ARRAY, "3 1\n1\n1\n1\n"],
        ..CASE
    },
    Case {
        name: "insert",
        job: &[THERE, "7", AND_BACK, "insert", PRINT_Y],
        text: &[ARRAY, "3 1\n1\n1\n1\n"],
        ..CASE
    },
];

/// Ones are spread, and added to a vector of 0.
const ADDED: Case = Case {
    job: &[THERE, "0", AND_BACK, "add", PRINT_Y],
    text: &[ARRAY, "3 1\n1\n2\n1\n"],
    ..CASE
};

const LETTERS: [Case; 4] = [
    Case {
        name: "an export has offers in place of wants",
        words: WITH_TRAFFIC,
        text: &[
            ARRAY,
            "3 1\n1\n2\n1\ntraffic 4 6\nphase 0 WANT p\nletter 0 0 1 0\nletter 0 1 0 1\nphase 1 DATA p\nletter 1 0 1 1\nphase 2 OFFER y\nletter 2 0 1 0\nletter 2 1 0 1\nphase 3 DATA y\nletter 3 1 0 1\n",
        ],
        ..ADDED
    },
    Case {
        name: "a second export takes the plan of the first",
        words: WITH_TRAFFIC,
        job: &[
            THERE,
            "0",
            AND_BACK,
            "add",
            PRINT_Y,
            "[[do]]\nop = \"export\"\nname = \"z\"\nfrom = \"p\"\nonto = \"y\"\nmode = \"add\"\n[[do]]\nop = \"print\"\nvalue = \"z\"\n",
        ],
        text: &[
            ARRAY,
            "3 1\n1\n2\n1\n",
            ARRAY,
            "3 1\n2\n4\n2\n",
            "traffic 5 7\nphase 0 WANT p\nletter 0 0 1 0\nletter 0 1 0 1\nphase 1 DATA p\nletter 1 0 1 1\nphase 2 OFFER y\nletter 2 0 1 0\nletter 2 1 0 1\nphase 3 DATA y\nletter 3 1 0 1\nphase 4 DATA z\nletter 4 1 0 1\n",
        ],
        ..CASE
    },
    Case {
        name: "letters phase by phase",
        words: BY_SCHEDULE,
        schedule: &["0 0 1\n0 1 0\n1 0 1\n2 0 1\n2 1 0\n3 1 0\n"],
        ..ADDED
    },
    Case {
        name: "repeated letters are added once",
        words: BY_SCHEDULE,
        schedule: &[
            "0 0 1\n0 0 1\n0 1 0\n0 1 0\n1 0 1\n1 0 1\n2 0 1\n2 0 1\n2 1 0\n2 1 0\n3 1 0\n3 1 0\n",
        ],
        ..ADDED
    },
];

#[test]
fn spreads_and_exports_leave_what_stands_in_the_tables(rt: HostRuntime) -> Result<(), Fail> {
    let alloc = rt.alloc();
    each(&rt, alloc, &SPREADS)?;
    each(&rt, alloc, &COMBINED)?;
    each(&rt, alloc, &LETTERS)
}

/// Index 1 comes to rank 1 as 2, and back as 3, where rank 0 has 1 of its own.
const TWISTED: [Case; 5] = [
    Case {
        name: "add",
        job: &[THERE, "0", AND_BACK, "add", PRINT_Y],
        text: &[ARRAY, "3 1\n1\n4\n1\n"],
        ..CASE
    },
    Case {
        name: "absmax",
        job: &[THERE, "0", AND_BACK, "absmax", PRINT_Y],
        text: &[ARRAY, "3 1\n1\n3\n1\n"],
        ..CASE
    },
    Case {
        name: "replace",
        job: &[THERE, "0", AND_BACK, "replace", PRINT_Y],
        text: &[ARRAY, "3 1\n1\n3\n1\n"],
        ..CASE
    },
    Case {
        name: "insert",
        job: &[THERE, "0", AND_BACK, "insert", PRINT_Y],
        text: &[ARRAY, "3 1\n1\n3\n1\n"],
        ..CASE
    },
    Case {
        name: "zero",
        job: &[THERE, "0", AND_BACK, "zero", PRINT_Y],
        text: &[ARRAY, "3 1\n0\n0\n0\n"],
        ..CASE
    },
];

#[test]
fn only_what_is_sent_is_changed_on_its_way(rt: HostRuntime) -> Result<(), Fail> {
    each_twisted(&rt, rt.alloc(), 1, &TWISTED)
}

/// Two ranks both have a cell of the one index, exported with `add` onto a vector of 0.
const BOTH_HAVE_IT: Case = Case {
    job: &[
        "ranks = 2\n[[map]]\nname = \"o\"\nkind = \"lists\"\nsize = 1\nlists = [[0], [0]]\n[[map]]\nname = \"u\"\nkind = \"uniform\"\nsize = 1\n[[vector]]\nname = \"v\"\nmap = \"u\"\nfill = 0\n[[parts]]\nname = \"p\"\nmap = \"o\"\nfiles = [\"p0\", \"p1\"]\n[[do]]\nop = \"export\"\nname = \"y\"\nfrom = \"p\"\nonto = \"v\"\nmode = \"add\"\n[[do]]\nop = \"print\"\nvalue = \"y\"\n",
    ],
    ..CASE
};

/// The weight of a sum decides whether it overflows.
const WEIGHTS: [Case; 4] = [
    Case {
        name: "the most and 0",
        parts: &["1 1\n170141183460469231731687303715884105727\n", "1 1\n0\n"],
        text: &[ARRAY, "1 1\n170141183460469231731687303715884105727\n"],
        ..BOTH_HAVE_IT
    },
    Case {
        name: "the most and its opposite",
        parts: &[
            "1 1\n170141183460469231731687303715884105727\n",
            "1 1\n-170141183460469231731687303715884105727\n",
        ],
        status: 7,
        message: "tpx: overflow\n",
        ..BOTH_HAVE_IT
    },
    Case {
        name: "0 and the most",
        parts: &["1 1\n0\n", "1 1\n170141183460469231731687303715884105727\n"],
        text: &[ARRAY, "1 1\n170141183460469231731687303715884105727\n"],
        ..BOTH_HAVE_IT
    },
    Case {
        name: "1 and the most",
        parts: &["1 1\n1\n", "1 1\n170141183460469231731687303715884105727\n"],
        status: 7,
        message: "tpx: overflow\n",
        ..BOTH_HAVE_IT
    },
];

/// The head of a job with parts of which the target lacks index 1.
const MORE_THAN_THE_TARGET: &str =
    "ranks = 2\n[[map]]\nname = \"o\"\nkind = \"lists\"\nsize = 2\nlists = [[0, 1], [1]]\n[[map]]\nname = \"t\"\nkind = \"lists\"\nsize = 2\nlists = [[0], []]\n[[vector]]\nname = \"v\"\nmap = \"t\"\nfill = 1\n[[parts]]\nname = \"p\"\nmap = \"o\"\nfiles = [\"p0\", \"p1\"]\n";

const SKIPPED: [Case; 1] = [Case {
    name: "indices that the target lacks are skipped",
    job: &[
        MORE_THAN_THE_TARGET,
        "[[do]]\nop = \"export\"\nname = \"y\"\nfrom = \"p\"\nonto = \"v\"\nmode = \"add\"\n[[do]]\nop = \"print\"\nvalue = \"y\"\n",
    ],
    parts: &["2 1\n4\n5\n", "1 1\n6\n"],
    text: &[COORDINATE, "2 1 1\n1 1 5\n"],
    ..CASE
}];

/// The parts are scaled by 2.
const SCALED: Case = Case {
    job: &[
        MORE_THAN_THE_TARGET,
        "[[do]]\nop = \"scale\"\nname = \"q\"\nvalue = \"p\"\nalpha = 2\n",
    ],
    ..CASE
};

/// Each cell of each part may overflow.
const SCALES: [Case; 4] = [
    Case {
        name: "no cell is over",
        parts: &["2 1\n4\n5\n", "1 1\n6\n"],
        ..SCALED
    },
    Case {
        name: "the first cell of rank 0",
        parts: &[
            "2 1\n170141183460469231731687303715884105727\n5\n",
            "1 1\n6\n",
        ],
        status: 7,
        message: "tpx: overflow\n",
        ..SCALED
    },
    Case {
        name: "the second cell of rank 0",
        parts: &[
            "2 1\n4\n-170141183460469231731687303715884105727\n",
            "1 1\n6\n",
        ],
        status: 7,
        message: "tpx: overflow\n",
        ..SCALED
    },
    Case {
        name: "the cell of rank 1",
        parts: &[
            "2 1\n4\n5\n",
            "1 1\n170141183460469231731687303715884105727\n",
        ],
        status: 7,
        message: "tpx: overflow\n",
        ..SCALED
    },
];

#[test]
fn parts_leave_what_stands_in_the_tables(rt: HostRuntime) -> Result<(), Fail> {
    let alloc = rt.alloc();
    each(&rt, alloc, &WEIGHTS)?;
    each(&rt, alloc, &SKIPPED)?;
    each(&rt, alloc, &SCALES)
}
