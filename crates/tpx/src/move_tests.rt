//! Whole runs of jobs whose vectors move between maps.

use crate::test_runs::{
    BY_SCHEDULE, CASE, COORDINATE, Case, WITH_TRAFFIC, X, each, each_fault, each_twisted,
};
use std::test::Fail;

/// The head of a job in which x is on a uniform map, and there is a cyclic one.
const X_ON_UNIFORM: &str =
    "ranks = 2\n[[map]]\nname = \"u\"\nkind = \"uniform\"\nsize = 3\n[[map]]\nname = \"c\"\nkind = \"cyclic\"\nsize = 3\n[[vector]]\nname = \"x\"\nmap = \"u\"\nfile = \"x.mtx\"\n";

/// The same with x on the cyclic map.
const X_ON_CYCLIC: &str =
    "ranks = 2\n[[map]]\nname = \"u\"\nkind = \"uniform\"\nsize = 3\n[[map]]\nname = \"c\"\nkind = \"cyclic\"\nsize = 3\n[[vector]]\nname = \"x\"\nmap = \"c\"\nfile = \"x.mtx\"\n";

const Y_TO_CYCLIC: &str = "[[do]]\nop = \"move\"\nname = \"y\"\nfrom = \"x\"\nmap = \"c\"\n";

const Y_TO_UNIFORM: &str = "[[do]]\nop = \"move\"\nname = \"y\"\nfrom = \"x\"\nmap = \"u\"\n";

const Z_TO_CYCLIC: &str = "[[do]]\nop = \"move\"\nname = \"z\"\nfrom = \"x\"\nmap = \"c\"\n";

const PRINT_Y: &str = "[[do]]\nop = \"print\"\nvalue = \"y\"\n";

/// The letters of the move of x from the uniform to the cyclic map.
const TRAFFIC_TO_CYCLIC: &str =
    "traffic 2 4\nphase 0 WANT y\nletter 0 0 1 1\nletter 0 1 0 1\nphase 1 DATA y\nletter 1 0 1 1\nletter 1 1 0 1\n";

/// The job that moves x from the uniform to the cyclic map, and prints it.
pub const TO_CYCLIC: &[&str] = &[X_ON_UNIFORM, Y_TO_CYCLIC, PRINT_Y];

/// The job that moves x from the cyclic to the uniform map, and prints it.
const FROM_CYCLIC: &[&str] = &[X_ON_CYCLIC, Y_TO_UNIFORM, PRINT_Y];

/// The moved vector is the same.
const MOVED: Case = Case {
    name: "a moved vector is the same in every order",
    job: TO_CYCLIC,
    schedule: &["0 0 1\n1 1 0\n0 1 0\n1 0 1\n"],
    text: &[X],
    ..CASE
};

const IN_EVERY_ORDER: [Case; 4] = [
    Case { ..MOVED },
    Case {
        words: &["run", "j.toml", "--order", "lifo"],
        ..MOVED
    },
    Case {
        words: &["run", "j.toml", "--order", "seed", "--seed", "7"],
        ..MOVED
    },
    Case {
        words: BY_SCHEDULE,
        ..MOVED
    },
];

/// The moved vector is the same by each schedule.
const DELIVERED: Case = Case {
    name: "every order of deliveries gives one text",
    words: BY_SCHEDULE,
    ..MOVED
};

/// Every order of the letters of this job in which `0 1 0` comes before `1 0 1`, and `0 0 1` before `1 1 0`, since a sender
/// awaits the one before it posts the other: a quarter of all orders of four.
const EVERY_SCHEDULE: [Case; 6] = [
    Case {
        schedule: &["0 0 1\n0 1 0\n1 0 1\n1 1 0\n"],
        ..DELIVERED
    },
    Case {
        schedule: &["0 0 1\n0 1 0\n1 1 0\n1 0 1\n"],
        ..DELIVERED
    },
    Case {
        schedule: &["0 0 1\n1 1 0\n0 1 0\n1 0 1\n"],
        ..DELIVERED
    },
    Case {
        schedule: &["0 1 0\n0 0 1\n1 0 1\n1 1 0\n"],
        ..DELIVERED
    },
    Case {
        schedule: &["0 1 0\n0 0 1\n1 1 0\n1 0 1\n"],
        ..DELIVERED
    },
    Case {
        schedule: &["0 1 0\n1 0 1\n0 0 1\n1 1 0\n"],
        ..DELIVERED
    },
];

const SCHEDULES: [Case; 4] = [
    Case {
        name: "a line that names no letter in flight",
        words: BY_SCHEDULE,
        job: TO_CYCLIC,
        schedule: &["1 0 1\n"],
        status: 8,
        message: "tpx: line 1: 1 0 1 is not in flight\n",
        ..CASE
    },
    Case {
        name: "a schedule with no line leaves letters",
        words: BY_SCHEDULE,
        job: TO_CYCLIC,
        status: 6,
        message: "tpx: undelivered 2\n0 0 1\n0 1 0\n",
        ..CASE
    },
    Case {
        name: "a schedule with one letter twice leaves letters",
        words: BY_SCHEDULE,
        job: TO_CYCLIC,
        schedule: &["0 0 1\n0 0 1\n"],
        status: 6,
        message: "tpx: undelivered 2\n0 1 0\n1 1 0\n",
        ..CASE
    },
    Case {
        name: "letters that are delivered again change nothing",
        words: &["run", "j.toml", "--schedule", "s", "--traffic"],
        job: TO_CYCLIC,
        schedule: &["0 0 1\n0 0 1\n1 1 0\n0 1 0\n0 0 1\n1 1 0\n1 0 1\n1 0 1\n1 1 0\n"],
        text: &[X, TRAFFIC_TO_CYCLIC],
        ..CASE
    },
];

#[test]
fn a_moved_vector_is_the_same_in_every_order(rt: HostRuntime) -> Result<(), Fail> {
    let alloc = rt.alloc();
    each(&rt, alloc, &IN_EVERY_ORDER)?;
    each(&rt, alloc, &EVERY_SCHEDULE)?;
    each(&rt, alloc, &SCHEDULES)
}

const TWISTED: [Case; 1] = [Case {
    name: "what is sent is what the wire gives",
    job: TO_CYCLIC,
    text: &["%%MatrixMarket matrix array integer general\n3 1\n1\n11\n101\n"],
    ..CASE
}];

#[test]
fn what_is_sent_is_what_the_wire_gives(rt: HostRuntime) -> Result<(), Fail> {
    each_twisted(&rt, rt.alloc(), 1, &TWISTED)
}

/// Four letters are posted and taken, and where owners are asked for ten.
const FAILING: [(Case, u64); 2] = [
    (
        Case {
            name: "a wire may fail at each call of a move",
            job: TO_CYCLIC,
            text: &[X],
            ..CASE
        },
        8,
    ),
    (
        Case {
            name: "a wire may fail at each call where owners are asked for",
            job: FROM_CYCLIC,
            text: &[X],
            ..CASE
        },
        20,
    ),
];

#[test]
fn a_wire_may_fail_at_each_call(rt: HostRuntime) -> Result<(), Fail> {
    for (case, calls) in &FAILING {
        each_fault(&rt, rt.alloc(), case, *calls)?;
    }
    Ok(())
}

const TRAFFICS: [Case; 3] = [
    Case {
        name: "a move has wants and data",
        words: WITH_TRAFFIC,
        job: TO_CYCLIC,
        text: &[X, TRAFFIC_TO_CYCLIC],
        ..CASE
    },
    Case {
        name: "a second move takes the plan of the first",
        words: WITH_TRAFFIC,
        job: &[X_ON_UNIFORM, Y_TO_CYCLIC, Z_TO_CYCLIC, PRINT_Y],
        text: &[
            X,
            "traffic 3 6\nphase 0 WANT y\nletter 0 0 1 1\nletter 0 1 0 1\nphase 1 DATA y\nletter 1 0 1 1\nletter 1 1 0 1\nphase 2 DATA z\nletter 2 0 1 1\nletter 2 1 0 1\n",
        ],
        ..CASE
    },
    Case {
        name: "owners in a cyclic map are asked for",
        words: WITH_TRAFFIC,
        job: FROM_CYCLIC,
        text: &[
            X,
            "traffic 5 10\nphase 0 REG y\nletter 0 0 1 1\nletter 0 1 0 1\nphase 1 ASK y\nletter 1 0 1 0\nletter 1 1 0 0\nphase 2 TELL y\nletter 2 0 1 0\nletter 2 1 0 0\nphase 3 WANT y\nletter 3 0 1 1\nletter 3 1 0 1\nphase 4 DATA y\nletter 4 0 1 1\nletter 4 1 0 1\n",
        ],
        ..CASE
    },
];

const REFUSED: [Case; 3] = [
    Case {
        name: "a map that does not cover the other",
        job: &[
            "ranks = 2\n[[map]]\nname = \"l\"\nkind = \"lists\"\nsize = 2\nlists = [[0], []]\n[[map]]\nname = \"u\"\nkind = \"uniform\"\nsize = 2\n[[vector]]\nname = \"x\"\nmap = \"l\"\nfill = 1\n[[do]]\nop = \"move\"\nname = \"y\"\nfrom = \"x\"\nmap = \"u\"\n",
        ],
        status: 5,
        message: "tpx: j.toml: NotCovered 0\n",
        ..CASE
    },
    Case {
        name: "a vector on a map with one index twice",
        job: &[
            "ranks = 2\n[[map]]\nname = \"r\"\nkind = \"lists\"\nsize = 1\nlists = [[0], [0]]\n[[vector]]\nname = \"x\"\nmap = \"r\"\nfill = 1\n",
        ],
        status: 5,
        message: "tpx: j.toml: BadMap r\n",
        ..CASE
    },
    Case {
        name: "a size over the limit",
        job: &[
            "ranks = 2\n[[map]]\nname = \"l\"\nkind = \"lists\"\nsize = 1099511627777\nlists = [[0], []]\n",
        ],
        status: 5,
        message: "tpx: j.toml: Limit map.0.size\n",
        ..CASE
    },
];

/// Two maps of three indices of 2^40.
const FEW_OF_MANY: &str =
    "ranks = 2\n[[map]]\nname = \"a\"\nkind = \"lists\"\nsize = 1099511627776\nlists = [[0, 1099511627775], [5]]\n[[map]]\nname = \"b\"\nkind = \"lists\"\nsize = 1099511627776\nlists = [[5], [1099511627775, 0]]\n[[vector]]\nname = \"x\"\nmap = \"a\"\n";

/// The move of x between them.
const Y_TO_B: &str = "\n[[do]]\nop = \"move\"\nname = \"y\"\nfrom = \"x\"\nmap = \"b\"\n";

const OF_MANY: [Case; 2] = [
    Case {
        name: "few indices of many are moved",
        words: WITH_TRAFFIC,
        job: &[FEW_OF_MANY, "fill = 7", Y_TO_B, PRINT_Y],
        text: &[
            COORDINATE,
            "1099511627776 1 3\n1 1 7\n6 1 7\n1099511627776 1 7\ntraffic 5 10\nphase 0 REG y\nletter 0 0 1 1\nletter 0 1 0 1\nphase 1 ASK y\nletter 1 0 1 0\nletter 1 1 0 1\nphase 2 TELL y\nletter 2 0 1 1\nletter 2 1 0 0\nphase 3 WANT y\nletter 3 0 1 1\nletter 3 1 0 2\nphase 4 DATA y\nletter 4 0 1 2\nletter 4 1 0 1\n",
        ],
        ..CASE
    },
    Case {
        name: "cells that a file does not name are 0",
        job: &[FEW_OF_MANY, "file = \"x.mtx\"", Y_TO_B, PRINT_Y],
        x: "%%MatrixMarket matrix coordinate integer general\n1099511627776 1 2\n1 1 4\n3 1 9\n",
        text: &[
            COORDINATE,
            "1099511627776 1 3\n1 1 4\n6 1 0\n1099511627776 1 0\n",
        ],
        ..CASE
    },
];

#[test]
fn moves_leave_what_stands_in_the_tables(rt: HostRuntime) -> Result<(), Fail> {
    let alloc = rt.alloc();
    each(&rt, alloc, &TRAFFICS)?;
    each(&rt, alloc, &REFUSED)?;
    each(&rt, alloc, &OF_MANY)
}
