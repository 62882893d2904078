//! Jobs that are refused: each fault of a job text once, those of the statements on matrices, and the size of a file.

use crate::matrix_tests::{ASSEMBLED, CYCLIC, PRINT_A, SINGLE, TWO_RANKS, UNIFORM, VECTOR_X};
use crate::test_runs::{CASE, Case, each};
use std::test::Fail;

/// The job is refused.
const REFUSED: Case = Case { status: 5, ..CASE };

const SPLIT_S: &str =
    "[[matrix]]\nname = \"S\"\nkind = \"split\"\nrows = \"u\"\ndomain = \"u\"\nfile = \"a.mtx\"\n";

const EACH_FAULT: [Case; 12] = [
    Case {
        name: "no TOML document",
        job: &[TWO_RANKS, "[[map]\n"],
        message: "tpx: j.toml: NotToml\n",
        ..REFUSED
    },
    Case {
        name: "a key that is missing",
        job: &[
            TWO_RANKS,
            UNIFORM,
            ASSEMBLED,
            "[[do]]\nop = \"transpose\"\nname = \"T\"\n",
        ],
        message: "tpx: j.toml: Missing do.0.matrix\n",
        ..REFUSED
    },
    Case {
        name: "a word that is no statement",
        job: &[TWO_RANKS, UNIFORM, "[[do]]\nop = \"invert\"\n"],
        message: "tpx: j.toml: WrongKind do.0.op\n",
        ..REFUSED
    },
    Case {
        name: "a key that the statement has not",
        job: &[
            TWO_RANKS,
            UNIFORM,
            ASSEMBLED,
            "[[do]]\nop = \"multiply\"\nname = \"C\"\na = \"A\"\nb = \"A\"\nalpha = 2\n",
        ],
        message: "tpx: j.toml: UnknownKey do.0.alpha\n",
        ..REFUSED
    },
    Case {
        name: "a value that there is not",
        job: &[
            TWO_RANKS,
            UNIFORM,
            ASSEMBLED,
            "[[do]]\nop = \"multiply\"\nname = \"C\"\na = \"A\"\nb = \"B\"\n",
        ],
        message: "tpx: j.toml: UnknownName B\n",
        ..REFUSED
    },
    Case {
        name: "too many ranks",
        job: &["ranks = 33\n"],
        message: "tpx: j.toml: Limit ranks\n",
        ..REFUSED
    },
    Case {
        name: "rows that two ranks have",
        job: &[
            TWO_RANKS,
            UNIFORM,
            "[[map]]\nname = \"l\"\nkind = \"lists\"\nsize = 3\nlists = [[0, 1], [1, 2]]\n",
            ASSEMBLED,
            "[[do]]\nop = \"move\"\nname = \"B\"\nfrom = \"A\"\nmap = \"l\"\n",
        ],
        message: "tpx: j.toml: BadMap l\n",
        ..REFUSED
    },
    Case {
        name: "a name that is taken",
        job: &[
            TWO_RANKS,
            UNIFORM,
            ASSEMBLED,
            "[[do]]\nop = \"transpose\"\nname = \"A\"\nmatrix = \"A\"\n",
        ],
        message: "tpx: j.toml: NameTaken A\n",
        ..REFUSED
    },
    // The second factor has its rows on a map of the same lists, which is another one.
    Case {
        name: "a domain map that is not the row map of the other",
        job: &[
            TWO_RANKS,
            UNIFORM,
            "[[map]]\nname = \"v\"\nkind = \"uniform\"\nsize = 3\n",
            ASSEMBLED,
            "[[matrix]]\nname = \"B\"\nkind = \"assembled\"\nrows = \"v\"\ndomain = \"u\"\nfile = \"a.mtx\"\n",
            PRINT_A,
            "[[do]]\nop = \"multiply\"\nname = \"C\"\na = \"A\"\nb = \"B\"\n",
        ],
        message: "tpx: j.toml: MapMismatch 1\n",
        ..REFUSED
    },
    Case {
        name: "an index that the vector lacks",
        job: &[
            TWO_RANKS,
            UNIFORM,
            "[[map]]\nname = \"l\"\nkind = \"lists\"\nsize = 3\nlists = [[0], [2]]\n[[vector]]\nname = \"x\"\nmap = \"l\"\nfill = 1\n[[do]]\nop = \"move\"\nname = \"y\"\nfrom = \"x\"\nmap = \"u\"\n",
        ],
        message: "tpx: j.toml: NotCovered 0\n",
        ..REFUSED
    },
    Case {
        name: "a split matrix is not transposed",
        job: &[
            TWO_RANKS,
            UNIFORM,
            SPLIT_S,
            "[[do]]\nop = \"transpose\"\nname = \"T\"\nmatrix = \"S\"\n",
        ],
        message: "tpx: j.toml: WrongSort 0\n",
        ..REFUSED
    },
    Case {
        name: "a matrix file of another size",
        job: &[TWO_RANKS, UNIFORM, ASSEMBLED],
        a: "%%MatrixMarket matrix coordinate integer general\n3 2 1\n1 1 2\n",
        message: "tpx: j.toml: SizeMismatch A\n",
        ..REFUSED
    },
];

const OPERANDS: [Case; 8] = [
    Case {
        name: "a split matrix is not multiplied",
        job: &[
            TWO_RANKS,
            UNIFORM,
            ASSEMBLED,
            SPLIT_S,
            "[[do]]\nop = \"multiply\"\nname = \"C\"\na = \"A\"\nb = \"S\"\n",
        ],
        message: "tpx: j.toml: WrongSort 0\n",
        ..REFUSED
    },
    Case {
        name: "a vector is not added to a matrix",
        job: &[
            TWO_RANKS,
            UNIFORM,
            VECTOR_X,
            ASSEMBLED,
            "[[do]]\nop = \"add\"\nname = \"C\"\na = \"A\"\nb = \"x\"\n",
        ],
        message: "tpx: j.toml: WrongSort 0\n",
        ..REFUSED
    },
    Case {
        name: "matrices of other sizes are not added",
        job: &[
            TWO_RANKS,
            UNIFORM,
            "[[map]]\nname = \"v\"\nkind = \"uniform\"\nsize = 2\n",
            ASSEMBLED,
            "[[matrix]]\nname = \"B\"\nkind = \"assembled\"\nrows = \"u\"\ndomain = \"v\"\nfile = \"a.mtx\"\n[[do]]\nop = \"add\"\nname = \"C\"\na = \"A\"\nb = \"B\"\n",
        ],
        message: "tpx: j.toml: MapMismatch 0\n",
        ..REFUSED
    },
    Case {
        name: "an assembled matrix is not assembled again",
        job: &[
            TWO_RANKS,
            UNIFORM,
            ASSEMBLED,
            "[[do]]\nop = \"assemble\"\nname = \"C\"\nfrom = \"A\"\n",
        ],
        message: "tpx: j.toml: WrongSort 0\n",
        ..REFUSED
    },
    Case {
        name: "a split matrix is not assembled onto a split one",
        job: &[
            TWO_RANKS,
            UNIFORM,
            SPLIT_S,
            "[[do]]\nop = \"assemble\"\nname = \"C\"\nfrom = \"S\"\nonto = \"S\"\n",
        ],
        message: "tpx: j.toml: WrongSort 0\n",
        ..REFUSED
    },
    Case {
        name: "nor onto one on other rows",
        job: &[
            TWO_RANKS,
            UNIFORM,
            CYCLIC,
            SPLIT_S,
            "[[matrix]]\nname = \"B\"\nkind = \"assembled\"\nrows = \"c\"\ndomain = \"u\"\nfile = \"a.mtx\"\n[[do]]\nop = \"assemble\"\nname = \"C\"\nfrom = \"S\"\nonto = \"B\"\n",
        ],
        message: "tpx: j.toml: MapMismatch 0\n",
        ..REFUSED
    },
    Case {
        name: "a mode that there is not",
        job: &[
            TWO_RANKS,
            UNIFORM,
            SPLIT_S,
            "[[do]]\nop = \"assemble\"\nname = \"C\"\nfrom = \"S\"\nmode = \"sum\"\n",
        ],
        message: "tpx: j.toml: WrongKind do.0.mode\n",
        ..REFUSED
    },
    Case {
        name: "a split matrix is not printed",
        job: &[
            TWO_RANKS,
            SINGLE,
            SPLIT_S,
            "[[do]]\nop = \"print\"\nvalue = \"S\"\n",
        ],
        message: "tpx: j.toml: WrongSort 0\n",
        ..REFUSED
    },
];

#[test]
fn what_does_not_fit_is_refused(rt: HostRuntime) -> Result<(), Fail> {
    let alloc = rt.alloc();
    each(&rt, alloc, &EACH_FAULT)?;
    each(&rt, alloc, &OPERANDS)
}
