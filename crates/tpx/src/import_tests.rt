//! Whole runs of jobs that import, and statements that do not fit.

use crate::test_runs::{CASE, COORDINATE, Case, each};
use std::test::Fail;

/// The job that imports x into parts with a cell of the first index on each rank, up to the mode.
const ONTO_Q: &str =
    "ranks = 2\n[[map]]\nname = \"u\"\nkind = \"uniform\"\nsize = 3\n[[map]]\nname = \"l\"\nkind = \"lists\"\nsize = 3\nlists = [[0], [2, 0]]\n[[vector]]\nname = \"x\"\nmap = \"u\"\nfile = \"x.mtx\"\n[[parts]]\nname = \"q\"\nmap = \"l\"\nfill = -5\n[[do]]\nop = \"import\"\nname = \"p\"\nfrom = \"x\"\nonto = \"q\"\nmode = \"";

const PRINT_P: &str = "\"\n[[do]]\nop = \"print\"\nvalue = \"p\"\n";

/// Imported cells are combined, and others stay.
const COMBINED: [Case; 5] = [
    Case {
        name: "absmax",
        job: &[ONTO_Q, "absmax", PRINT_P],
        text: &[
            COORDINATE,
            "% part 0\n3 1 1\n1 1 5\n",
            COORDINATE,
            "% part 1\n3 1 2\n1 1 5\n3 1 100\n",
        ],
        ..CASE
    },
    Case {
        name: "add",
        job: &[ONTO_Q, "add", PRINT_P],
        text: &[
            COORDINATE,
            "% part 0\n3 1 1\n1 1 -4\n",
            COORDINATE,
            "% part 1\n3 1 2\n1 1 -4\n3 1 95\n",
        ],
        ..CASE
    },
    Case {
        name: "replace",
        job: &[ONTO_Q, "replace", PRINT_P],
        text: &[
            COORDINATE,
            "% part 0\n3 1 1\n1 1 1\n",
            COORDINATE,
            "% part 1\n3 1 2\n1 1 1\n3 1 100\n",
        ],
        ..CASE
    },
    Case {
        name: "insert",
        job: &[ONTO_Q, "insert", PRINT_P],
        text: &[
            COORDINATE,
            "% part 0\n3 1 1\n1 1 1\n",
            COORDINATE,
            "% part 1\n3 1 2\n1 1 1\n3 1 100\n",
        ],
        ..CASE
    },
    Case {
        name: "zero",
        job: &[ONTO_Q, "zero", PRINT_P],
        text: &[
            COORDINATE,
            "% part 0\n3 1 1\n1 1 0\n",
            COORDINATE,
            "% part 1\n3 1 2\n1 1 0\n3 1 0\n",
        ],
        ..CASE
    },
];

/// The job that imports a vector with index 0 alone onto parts, up to the mode.
const OF_LESS: &str =
    "ranks = 2\n[[map]]\nname = \"o\"\nkind = \"lists\"\nsize = 2\nlists = [[0, 1], [1]]\n[[map]]\nname = \"t\"\nkind = \"lists\"\nsize = 2\nlists = [[0], []]\n[[vector]]\nname = \"v\"\nmap = \"t\"\nfill = 1\n[[parts]]\nname = \"p\"\nmap = \"o\"\nfiles = [\"p0\", \"p1\"]\n[[do]]\nop = \"import\"\nname = \"q\"\nfrom = \"v\"\nonto = \"p\"\nmode = \"";

const PRINT_Q: &str = "\"\n[[do]]\nop = \"print\"\nvalue = \"q\"\n";

/// The parts that it imports onto.
const ONTO: Case = Case {
    parts: &["2 1\n5\n-4\n", "1 1\n-6\n"],
    ..CASE
};

/// What is printed of the cells that the vector lacks.
const STAY: &str =
    "\n2 1 -4\n%%MatrixMarket matrix coordinate integer general\n% part 1\n2 1 1\n2 1 -6\n";

/// Imported cells that the vector lacks stay.
const LACKED: [Case; 5] = [
    Case {
        name: "add",
        job: &[OF_LESS, "add", PRINT_Q],
        text: &[COORDINATE, "% part 0\n2 1 2\n1 1 ", "6", STAY],
        ..ONTO
    },
    Case {
        name: "replace",
        job: &[OF_LESS, "replace", PRINT_Q],
        text: &[COORDINATE, "% part 0\n2 1 2\n1 1 ", "1", STAY],
        ..ONTO
    },
    Case {
        name: "insert",
        job: &[OF_LESS, "insert", PRINT_Q],
        text: &[COORDINATE, "% part 0\n2 1 2\n1 1 ", "1", STAY],
        ..ONTO
    },
    Case {
        name: "absmax",
        job: &[OF_LESS, "absmax", PRINT_Q],
        text: &[COORDINATE, "% part 0\n2 1 2\n1 1 ", "5", STAY],
        ..ONTO
    },
    Case {
        name: "zero",
        job: &[OF_LESS, "zero", PRINT_Q],
        text: &[COORDINATE, "% part 0\n2 1 2\n1 1 ", "0", STAY],
        ..ONTO
    },
];

#[test]
fn imports_leave_what_stands_in_the_tables(rt: HostRuntime) -> Result<(), Fail> {
    let alloc = rt.alloc();
    each(&rt, alloc, &COMBINED)?;
    each(&rt, alloc, &LACKED)
}

/// The head of a job with vectors and parts of several sizes and numbers of columns, and the begin of a statement.
const OF_ALL_SIZES: &str =
    "ranks = 2\n[[map]]\nname = \"u\"\nkind = \"uniform\"\nsize = 3\n[[map]]\nname = \"l\"\nkind = \"lists\"\nsize = 3\nlists = [[0, 1], [1, 2]]\n[[map]]\nname = \"s\"\nkind = \"uniform\"\nsize = 2\n[[vector]]\nname = \"x\"\nmap = \"u\"\nfill = 1\n[[vector]]\nname = \"short\"\nmap = \"s\"\nfill = 1\n[[vector]]\nname = \"wide\"\nmap = \"u\"\ncolumns = 2\nfill = 1\n[[parts]]\nname = \"p\"\nmap = \"l\"\nfill = 1\n[[do]]\n";

/// The job is refused.
const REFUSED: Case = Case {
    name: "what does not fit is refused",
    status: 5,
    ..CASE
};

const STATEMENTS: [Case; 9] = [
    Case {
        job: &[
            OF_ALL_SIZES,
            "op = \"import\"\nname = \"y\"\nfrom = \"p\"\nonto = \"p\"\nmode = \"add\"\n",
        ],
        message: "tpx: j.toml: WrongSort 0\n",
        ..REFUSED
    },
    Case {
        job: &[
            OF_ALL_SIZES,
            "op = \"import\"\nname = \"y\"\nfrom = \"x\"\nonto = \"x\"\nmode = \"add\"\n",
        ],
        message: "tpx: j.toml: WrongSort 0\n",
        ..REFUSED
    },
    Case {
        job: &[
            OF_ALL_SIZES,
            "op = \"export\"\nname = \"y\"\nfrom = \"x\"\nonto = \"x\"\nmode = \"add\"\n",
        ],
        message: "tpx: j.toml: WrongSort 0\n",
        ..REFUSED
    },
    Case {
        job: &[
            OF_ALL_SIZES,
            "op = \"export\"\nname = \"y\"\nfrom = \"p\"\nonto = \"p\"\nmode = \"add\"\n",
        ],
        message: "tpx: j.toml: WrongSort 0\n",
        ..REFUSED
    },
    Case {
        job: &[
            OF_ALL_SIZES,
            "op = \"import\"\nname = \"y\"\nfrom = \"short\"\nonto = \"p\"\nmode = \"add\"\n",
        ],
        message: "tpx: j.toml: MapMismatch 0\n",
        ..REFUSED
    },
    Case {
        job: &[
            OF_ALL_SIZES,
            "op = \"export\"\nname = \"y\"\nfrom = \"p\"\nonto = \"short\"\nmode = \"add\"\n",
        ],
        message: "tpx: j.toml: MapMismatch 0\n",
        ..REFUSED
    },
    Case {
        job: &[
            OF_ALL_SIZES,
            "op = \"import\"\nname = \"y\"\nfrom = \"wide\"\nonto = \"p\"\nmode = \"add\"\n",
        ],
        message: "tpx: j.toml: MapMismatch 0\n",
        ..REFUSED
    },
    Case {
        job: &[
            OF_ALL_SIZES,
            "op = \"export\"\nname = \"y\"\nfrom = \"p\"\nonto = \"wide\"\nmode = \"add\"\n",
        ],
        message: "tpx: j.toml: MapMismatch 0\n",
        ..REFUSED
    },
    Case {
        job: &[
            OF_ALL_SIZES,
            "op = \"export\"\nname = \"y\"\nfrom = \"p\"\nonto = \"y\"\nmode = \"add\"\n",
        ],
        message: "tpx: j.toml: UnknownName y\n",
        ..REFUSED
    },
];

const SPREADS_AND_MODES: [Case; 5] = [
    Case {
        job: &[
            OF_ALL_SIZES,
            "op = \"spread\"\nname = \"y\"\nfrom = \"p\"\nmap = \"l\"\n",
        ],
        message: "tpx: j.toml: WrongSort 0\n",
        ..REFUSED
    },
    Case {
        job: &[
            OF_ALL_SIZES,
            "op = \"spread\"\nname = \"y\"\nfrom = \"short\"\nmap = \"l\"\n",
        ],
        message: "tpx: j.toml: MapMismatch 0\n",
        ..REFUSED
    },
    Case {
        job: &[
            OF_ALL_SIZES,
            "op = \"move\"\nname = \"y\"\nfrom = \"x\"\nmap = \"l\"\n",
        ],
        message: "tpx: j.toml: BadMap l\n",
        ..REFUSED
    },
    Case {
        job: &[
            OF_ALL_SIZES,
            "op = \"export\"\nname = \"y\"\nfrom = \"p\"\nonto = \"x\"\n",
        ],
        message: "tpx: j.toml: Missing do.0.mode\n",
        ..REFUSED
    },
    Case {
        job: &[
            OF_ALL_SIZES,
            "op = \"export\"\nname = \"y\"\nfrom = \"p\"\nonto = \"x\"\nmode = \"sum\"\n",
        ],
        message: "tpx: j.toml: WrongKind do.0.mode\n",
        ..REFUSED
    },
];

#[test]
fn statements_that_do_not_fit_are_refused(rt: HostRuntime) -> Result<(), Fail> {
    let alloc = rt.alloc();
    each(&rt, alloc, &STATEMENTS)?;
    each(&rt, alloc, &SPREADS_AND_MODES)
}
