//! Whole runs of jobs in which ranks have different numbers for one cell.
ghost use Rattle.std.specs.Prelude.{◌≡◌, None};
ghost use Rattle.outside.specs.declared.name.Name.{Name};

use crate::test_runs::{
    ARRAY, BY_SCHEDULE, CASE, Case, WITH_TRAFFIC, each, expect, joined, run_case,
};
use outside::{MailRoom, TwistWire, Wire};
use std::alloc::{AllocError, Global};
use std::process::Abort;
use std::test::Fail;

/// The letters of the phases 0 to 2 of a job of 3 ranks.
const TOLD: &str =
    "0 0 1\n0 0 2\n0 1 0\n0 1 2\n0 2 0\n0 2 1\n1 0 1\n1 0 2\n1 1 0\n1 1 2\n1 2 0\n1 2 1\n2 0 1\n2 0 2\n2 1 0\n2 1 2\n2 2 0\n2 2 1\n";

/// Those of the phase 3.
const OFFERED: &str = "3 0 1\n3 0 2\n3 1 0\n3 1 2\n3 2 0\n3 2 1\n";

/// A job in which ranks 0 and 1 have the index of a vector of rank 2, up to what rank 2 has.
const CONFLICT: &str =
    "ranks = 3\n[[map]]\nname = \"o\"\nkind = \"lists\"\nsize = 1\nlists = [[0], [0], ";

const EXPORT: &str =
    "]\n[[map]]\nname = \"t\"\nkind = \"lists\"\nsize = 1\nlists = [[], [], [0]]\n[[vector]]\nname = \"v\"\nmap = \"t\"\nfill = 1\n[[parts]]\nname = \"p\"\nmap = \"o\"\nfiles = [\"p0\", \"p1\", \"p2\"]\n[[do]]\nop = \"export\"\nname = \"y\"\nfrom = \"p\"\nonto = \"v\"\nmode = \"replace\"\n[[do]]\nop = \"print\"\nvalue = \"y\"\n";

/// Rank 2 has no number of its own.
const ALONE: Case = Case {
    words: BY_SCHEDULE,
    job: &[CONFLICT, "[]", EXPORT],
    parts: &["1 1\n5\n", "1 1\n7\n", "0 1\n"],
    ..CASE
};

/// Rank 2 has one.
const WITH_OWN: Case = Case {
    words: BY_SCHEDULE,
    job: &[CONFLICT, "[0]", EXPORT],
    parts: &["1 1\n5\n", "1 1\n7\n", "1 1\n9\n"],
    ..CASE
};

/// Both orders of the letters of the last phase, and orders with repeated ones.
const PICKED: [Case; 7] = [
    Case {
        name: "the letter of rank 1 comes last",
        schedule: &[TOLD, OFFERED, "4 0 2\n4 1 2\n"],
        text: &[ARRAY, "1 1\n7\n"],
        ..ALONE
    },
    Case {
        name: "the letter of rank 1 comes last, where rank 2 has a number",
        schedule: &[TOLD, OFFERED, "4 0 2\n4 1 2\n"],
        text: &[ARRAY, "1 1\n7\n"],
        ..WITH_OWN
    },
    Case {
        name: "the letter of rank 0 comes last",
        schedule: &[TOLD, OFFERED, "4 1 2\n4 0 2\n"],
        text: &[ARRAY, "1 1\n5\n"],
        ..ALONE
    },
    Case {
        name: "the letter of rank 0 comes last, where rank 2 has a number",
        schedule: &[TOLD, OFFERED, "4 1 2\n4 0 2\n"],
        text: &[ARRAY, "1 1\n5\n"],
        ..WITH_OWN
    },
    Case {
        name: "a repeated letter of rank 0 is not picked again",
        schedule: &[TOLD, OFFERED, "4 0 2\n4 1 2\n4 0 2\n"],
        text: &[ARRAY, "1 1\n7\n"],
        ..ALONE
    },
    Case {
        name: "a repeated letter of rank 1 is not picked again",
        schedule: &[TOLD, OFFERED, "4 1 2\n4 0 2\n4 1 2\n"],
        text: &[ARRAY, "1 1\n5\n"],
        ..ALONE
    },
    Case {
        name: "a letter that is repeated at once",
        schedule: &[TOLD, OFFERED, "4 0 2\n4 0 2\n4 1 2\n"],
        text: &[ARRAY, "1 1\n7\n"],
        ..ALONE
    },
];

const ORDERS: [Case; 2] = [
    // Rank 2 has not been told yet what rank 0 offers it when it is sent the number of rank 1.
    Case {
        name: "a letter that comes early counts from then",
        schedule: &[
            TOLD,
            "3 0 1\n3 2 1\n4 1 2\n3 1 0\n3 2 0\n4 0 2\n3 0 2\n3 1 2\n",
        ],
        text: &[ARRAY, "1 1\n5\n"],
        ..WITH_OWN
    },
    // The offers to rank 1 come before those to rank 0, so that the number of rank 0 is sent last.
    Case {
        name: "offers go to every rank, and numbers where there are some",
        words: WITH_TRAFFIC,
        text: &[
            ARRAY,
            "1 1\n5\ntraffic 5 26\nphase 0 REG y\nletter 0 0 1 0\nletter 0 0 2 0\nletter 0 1 0 0\nletter 0 1 2 0\nletter 0 2 0 1\nletter 0 2 1 0\nphase 1 ASK y\nletter 1 0 1 0\nletter 1 0 2 0\nletter 1 1 0 1\nletter 1 1 2 0\nletter 1 2 0 0\nletter 1 2 1 0\nphase 2 TELL y\nletter 2 0 1 1\nletter 2 0 2 0\nletter 2 1 0 0\nletter 2 1 2 0\nletter 2 2 0 0\nletter 2 2 1 0\nphase 3 OFFER y\nletter 3 0 1 0\nletter 3 0 2 1\nletter 3 1 0 0\nletter 3 1 2 1\nletter 3 2 0 0\nletter 3 2 1 0\nphase 4 DATA y\nletter 4 0 2 1\nletter 4 1 2 1\n",
        ],
        ..ALONE
    },
];

#[test]
fn the_letter_that_comes_last_is_picked(rt: HostRuntime) -> Result<(), Fail> {
    let alloc = rt.alloc();
    each(&rt, alloc, &PICKED)?;
    each(&rt, alloc, &ORDERS)
}

/// A cell of the vector: what it had, what the part of its own rank has for it, and what those of ranks 0 to 2 have.
#[derive(Clone, Copy)]
struct Target {
    old: i64,
    own: Option<i64>,
    others: [Option<i64>; 3],
}

/// The vector is on rank 3, as a whole.
const TARGETS: [Target; 5] = [
    Target {
        old: -6,
        own: None,
        others: [Some(5), Some(-7), Some(6)],
    },
    Target {
        old: -20,
        own: None,
        others: [Some(-2), None, Some(3)],
    },
    Target {
        old: 1,
        own: Some(9),
        others: [None, Some(8), None],
    },
    Target {
        old: -5,
        own: Some(1),
        others: [None, None, None],
    },
    Target {
        old: -2,
        own: None,
        others: [None, None, None],
    },
];

/// The same cells as files: of the parts, and of the vector.
const FIVE_PARTS: [&str; 5] = [
    "2 1\n5\n-2\n",
    "2 1\n-7\n8\n",
    "2 1\n3\n6\n",
    "2 1\n9\n1\n",
    "5 1\n-6\n-20\n1\n-5\n-2\n",
];

/// The numbers that come for a cell: that of its own rank, and then those that arrive in this order, `by` being added to each
/// on its way.
fn numbers_for(
    alloc: Global,
    target: &Target,
    order: [usize; 3],
    by: i64,
) -> Result<Vec<i64>, AllocError> {
    let mut numbers = Vec::new(alloc);
    if let Some(own) = target.own {
        numbers.push(own)?;
    }
    for from in order {
        if let Some(Some(sent)) = target.others.get(from) {
            numbers.push(sent.wrapping_add(by))?;
        }
    }
    Ok(numbers)
}

/// The table of the combine modes: what a cell of a vector has that had `old`, after all these numbers came for it, the picked
/// one being the last.
fn by_table(mode: &str, old: i64, numbers: &[i64]) -> i64 {
    let Some(picked) = numbers.last() else {
        return old;
    };
    let mut sum = old;
    let mut greatest = old.wrapping_abs();
    for number in numbers {
        sum = sum.wrapping_add(*number);
        greatest = greatest.max(number.wrapping_abs());
    }
    match mode {
        "add" => sum,
        "absmax" => greatest,
        "zero" => 0,
        _ => *picked,
    }
}

/// The text that is printed where the numbers of ranks 0 to 2 come in this order.
fn text_by_table(
    alloc: Global,
    mode: &str,
    order: [usize; 3],
    by: i64,
) -> Result<String, AllocError> {
    let mut text = joined(alloc, &[ARRAY, "5 1\n"])?;
    for target in &TARGETS {
        let numbers = numbers_for(alloc, target, order, by)?;
        let number = by_table(mode, target.old, &numbers);
        text.push_str(&format!(in alloc; "{number}\n")?)?;
    }
    Ok(text)
}

/// The job that exports the parts onto the vector, up to the mode.
const FOUR_PARTS: &str =
    "ranks = 4\n[[map]]\nname = \"o\"\nkind = \"lists\"\nsize = 5\nlists = [[0, 1], [0, 2], [1, 0], [2, 3]]\n[[map]]\nname = \"t\"\nkind = \"lists\"\nsize = 5\nlists = [[], [], [], [0, 1, 2, 3, 4]]\n[[vector]]\nname = \"v\"\nmap = \"t\"\nfile = \"p4\"\n[[parts]]\nname = \"p\"\nmap = \"o\"\nfiles = [\"p0\", \"p1\", \"p2\", \"p3\"]\n[[do]]\nop = \"export\"\nname = \"y\"\nfrom = \"p\"\nonto = \"v\"\nmode = \"";

/// And then to the end.
const PRINT_Y: &str = "\"\n[[do]]\nop = \"print\"\nvalue = \"y\"\n";

/// The cells are exported, with the letters of the last phase in this order.
const EXPORTED: Case = Case {
    words: BY_SCHEDULE,
    parts: &FIVE_PARTS,
    ..CASE
};

/// The job in each mode, whose name is the name of the mode.
const MODES: [Case; 5] = [
    Case {
        name: "insert",
        job: &[FOUR_PARTS, "insert", PRINT_Y],
        ..EXPORTED
    },
    Case {
        name: "replace",
        job: &[FOUR_PARTS, "replace", PRINT_Y],
        ..EXPORTED
    },
    Case {
        name: "add",
        job: &[FOUR_PARTS, "add", PRINT_Y],
        ..EXPORTED
    },
    Case {
        name: "absmax",
        job: &[FOUR_PARTS, "absmax", PRINT_Y],
        ..EXPORTED
    },
    Case {
        name: "zero",
        job: &[FOUR_PARTS, "zero", PRINT_Y],
        ..EXPORTED
    },
];

/// The letters of the phases 0 to 3 of this job.
const BEFORE: &str =
    "0 0 1\n0 0 2\n0 0 3\n0 1 0\n0 1 2\n0 1 3\n0 2 0\n0 2 1\n0 2 3\n0 3 0\n0 3 1\n0 3 2\n1 0 1\n1 0 2\n1 0 3\n1 1 0\n1 1 2\n1 1 3\n1 2 0\n1 2 1\n1 2 3\n1 3 0\n1 3 1\n1 3 2\n2 0 1\n2 0 2\n2 0 3\n2 1 0\n2 1 2\n2 1 3\n2 2 0\n2 2 1\n2 2 3\n2 3 0\n2 3 1\n2 3 2\n3 0 1\n3 0 2\n3 0 3\n3 1 0\n3 1 2\n3 1 3\n3 2 0\n3 2 1\n3 2 3\n3 3 0\n3 3 1\n3 3 2\n";

/// The orders of ranks 0 to 2, and for each a schedule in which their numbers come in it.
const ORDERS_OF_THREE: [([usize; 3], &[&str]); 6] = [
    ([0, 1, 2], &[BEFORE, "4 0 3\n4 1 3\n4 2 3\n"]),
    ([0, 2, 1], &[BEFORE, "4 0 3\n4 2 3\n4 1 3\n"]),
    ([1, 0, 2], &[BEFORE, "4 1 3\n4 0 3\n4 2 3\n"]),
    ([1, 2, 0], &[BEFORE, "4 1 3\n4 2 3\n4 0 3\n"]),
    ([2, 0, 1], &[BEFORE, "4 2 3\n4 0 3\n4 1 3\n"]),
    ([2, 1, 0], &[BEFORE, "4 2 3\n4 1 3\n4 0 3\n"]),
];

/// Runs that job in this mode with its numbers in this order: it prints what the table says of each cell.
fn is_by_table<W: Wire>(
    rt: &impl Abort,
    alloc: Global,
    case: &Case,
    order: [usize; 3],
    by: i64,
    wire: &mut W,
) -> Result<(), Fail>
    requires nothing_pending { (name : Name) → W.pending wire.old name ≡ None }
{
    let text = text_by_table(alloc, case.name, order, by)?;
    let ran = run_case(alloc, case, wire)?;
    expect(rt, &ran, 0, text.as_bytes(), b"", case.name);
    Ok(())
}

/// Each mode is as its table where the numbers come in this order.
fn each_mode(
    rt: &impl Abort,
    alloc: Global,
    order: [usize; 3],
    schedule: &'static [&'static str],
) -> Result<(), Fail> {
    for mode in &MODES {
        let case = Case { schedule, ..*mode };
        is_by_table(rt, alloc, &case, order, 0, &mut MailRoom::new(alloc))?;
    }
    Ok(())
}

/// The same where 4 is added to each number on its way.
fn each_mode_twisted(
    rt: &impl Abort,
    alloc: Global,
    order: [usize; 3],
    schedule: &'static [&'static str],
) -> Result<(), Fail> {
    for mode in &MODES {
        let case = Case { schedule, ..*mode };
        is_by_table(rt, alloc, &case, order, 4, &mut TwistWire::new(alloc, 4))?;
    }
    Ok(())
}

#[test]
fn each_mode_is_as_its_table_in_every_order(rt: HostRuntime) -> Result<(), Fail> {
    for (order, schedule) in &ORDERS_OF_THREE {
        each_mode(&rt, rt.alloc(), *order, schedule)?;
    }
    Ok(())
}

#[test]
fn each_mode_is_as_its_table_of_what_the_wire_gives(rt: HostRuntime) -> Result<(), Fail> {
    for (order, schedule) in &ORDERS_OF_THREE {
        each_mode_twisted(&rt, rt.alloc(), *order, schedule)?;
    }
    Ok(())
}

/// The table itself, by hand: each mode, and what is printed where the numbers of the ranks come in this order.
const BY_HAND: [(&str, [usize; 3], &str); 6] = [
    ("add", [0, 1, 2], "5 1\n-2\n-19\n18\n-4\n-2\n"),
    ("absmax", [0, 1, 2], "5 1\n7\n20\n9\n5\n-2\n"),
    ("zero", [0, 1, 2], "5 1\n0\n0\n0\n0\n-2\n"),
    ("replace", [0, 1, 2], "5 1\n6\n3\n8\n1\n-2\n"),
    ("insert", [0, 1, 2], "5 1\n6\n3\n8\n1\n-2\n"),
    ("replace", [2, 1, 0], "5 1\n5\n-2\n8\n1\n-2\n"),
];

/// The table says this.
fn says(
    rt: &impl Abort,
    alloc: Global,
    mode: &str,
    order: [usize; 3],
    lines: &str,
) -> Result<(), Fail> {
    let text = text_by_table(alloc, mode, order, 0)?;
    let wanted = format!(in alloc; "{ARRAY}{lines}")?;
    assert_eq!(rt; text.as_bytes(), wanted.as_bytes(), "{mode}");
    Ok(())
}

#[test]
fn the_table_is_as_worked_by_hand(rt: HostRuntime) -> Result<(), Fail> {
    for (mode, order, lines) in &BY_HAND {
        says(&rt, rt.alloc(), mode, *order, lines)?;
    }
    Ok(())
}
