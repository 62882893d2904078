//! The order in which a run's input is refused, over files in memory.
use crate::{Given, InputFault, TextFault, read_given};
use outside::{Failed, Files, MemFiles};
use run_words::OrderWord;
use schedule::Order;
use std::alloc::{AllocError, Global};
use std::test::Fail;

/// Two vectors on a map of two indices, from the files `one` and `two`.
const JOB: &str = "ranks = 2
[[map]]
name = \"m\"
kind = \"uniform\"
size = 2
[[vector]]
name = \"x\"
map = \"m\"
file = \"one\"
[[vector]]
name = \"y\"
map = \"m\"
file = \"two\"
";

/// A vector from the file of the job.
const JOB_OF_ITSELF: &str = "ranks = 1
[[map]]
name = \"m\"
kind = \"uniform\"
size = 1
[[vector]]
name = \"x\"
map = \"m\"
file = \"job\"
";

/// An array file of two rows, and one of one row.
const TWO_ROWS: &str = "%%MatrixMarket matrix array integer general\n2 1\n5\n6\n";

const ONE_ROW: &str = "%%MatrixMarket matrix array integer general\n1 1\n7\n";

/// Files in memory that tell nothing of what they hold.
#[derive(Drop)]
struct QuietFiles {
    files: MemFiles,
}

impl Files for QuietFiles {
    ghost use Rattle.std.specs.Prelude.{None};

    ghost told = { λ _. None };

    ghost faults = { λ quiet name. quiet.files.plan.faults };

    fn read_at(&mut self, name: &str, at: u64, buf: &mut [u8]) -> Result<usize, Failed> {
        self.files.read_at(name, at, buf)
    }
}

/// Files of these names and texts, of whose reads those with these numbers fail. An empty text is no file.
fn files_of(
    alloc: Global,
    texts: &[(&str, &str)],
    fails: &[u64],
) -> Result<QuietFiles, AllocError> {
    let mut files = MemFiles::new(alloc);
    for (name, text) in texts {
        if !text.is_empty() {
            files.put(name, text.as_bytes())?;
        }
    }
    files.fail_at(fails)?;
    Ok(QuietFiles { files })
}

/// A fault of a text in words.
fn fault_words(alloc: Global, fault: &TextFault) -> Result<String, AllocError> {
    match fault {
        TextFault::Job(fault) => format!(in alloc; "{fault}"),
        TextFault::Schedule(fault) => format!(in alloc; "{fault}"),
        TextFault::Matrix(fault) => format!(in alloc; "{fault}"),
        TextFault::SizeMismatch { value } => format!(in alloc; "SizeMismatch {}", value.as_str()),
    }
}

/// An order in words.
fn order_words(alloc: Global, order: &Order) -> Result<String, AllocError> {
    match order {
        Order::Fifo => String::from_str(alloc, "Fifo"),
        Order::Lifo => String::from_str(alloc, "Lifo"),
        Order::Seed(seed) => format!(in alloc; "Seed {seed}"),
        Order::Listed(entries) => format!(in alloc; "Listed {}", entries.len()),
    }
}

/// What was answered, in words: the order and the number of files, or the fault.
fn in_words(alloc: Global, answer: &Result<Given, InputFault>) -> Result<String, AllocError> {
    match answer {
        Ok(given) => {
            let order = order_words(alloc, &given.order)?;
            format!(in alloc; "{} {}", order.as_str(), given.files.len())
        }
        Err(InputFault::Memory) => String::from_str(alloc, "Memory"),
        Err(InputFault::Unread { name }) => format!(in alloc; "Unread {}", name.as_str()),
        Err(InputFault::Refused { name, fault }) => {
            let words = fault_words(alloc, fault)?;
            format!(in alloc; "{}: {}", name.as_str(), words.as_str())
        }
    }
}

/// What is answered for the job `job` and this order, in words, whether the files tell what they hold or not.
fn answered(
    alloc: Global,
    texts: &[(&str, &str)],
    fails: &[u64],
    order: OrderWord,
) -> Result<(String, String), AllocError> {
    let mut quiet = files_of(alloc, texts, fails)?;
    let first = in_words(alloc, &read_given(alloc, &mut quiet, "job", order))?;
    let mut told = files_of(alloc, texts, fails)?.files;
    let second = in_words(alloc, &read_given(alloc, &mut told, "job", order))?;
    Ok((first, second))
}

/// The first step that refuses decides: the job, the schedule, the files in order, their sizes.
#[test]
fn first_refusals(rt: HostRuntime) -> Result<(), Fail> {
    let alloc = rt.alloc();
    let good = "0 0 1\n";
    let cases = [
        (JOB, good, TWO_ROWS, TWO_ROWS, "Listed 1 2"),
        ("ranks = 0", "", "", "", "job: Limit"),
        ("ranks =", "x", "x", "x", "job: NotToml"),
        ("", "x", "x", "x", "Unread job"),
        (JOB, "", "x", "x", "Unread plan"),
        (JOB, "x", "", "x", "plan: BadLine"),
        (JOB, good, "x", "", "one: NoBanner"),
        (JOB, good, "", "x", "Unread one"),
        (JOB, good, ONE_ROW, "x", "two: NoBanner"),
        (JOB, good, ONE_ROW, "", "Unread two"),
        (JOB, good, ONE_ROW, ONE_ROW, "job: SizeMismatch x"),
        (JOB, good, TWO_ROWS, ONE_ROW, "job: SizeMismatch y"),
    ];
    for (job, plan, one, two, words) in cases {
        let texts = [("job", job), ("plan", plan), ("one", one), ("two", two)];
        let (first, second) = answered(alloc, &texts, &[], OrderWord::Listed("plan"))?;
        assert_eq!(rt; first.as_str(), words);
        assert_eq!(rt; second.as_str(), words);
    }
    Ok(())
}

/// The other orders have no file.
#[test]
fn orders(rt: HostRuntime) -> Result<(), Fail> {
    let alloc = rt.alloc();
    let texts = [("job", JOB), ("one", TWO_ROWS), ("two", TWO_ROWS)];
    for (order, words) in [
        (OrderWord::Fifo, "Fifo 2"),
        (OrderWord::Lifo, "Lifo 2"),
        (OrderWord::Seed(7), "Seed 7 2"),
    ] {
        let (first, second) = answered(alloc, &texts, &[], order)?;
        assert_eq!(rt; first.as_str(), words);
        assert_eq!(rt; second.as_str(), words);
    }
    Ok(())
}

/// A file that stands for the job and for something else is read once: each file takes two reads, and one more would fail.
#[test]
fn one_file_twice(rt: HostRuntime) -> Result<(), Fail> {
    let alloc = rt.alloc();
    let texts = [("job", JOB)];
    let (first, second) = answered(alloc, &texts, &[2], OrderWord::Listed("job"))?;
    assert_eq!(rt; first.as_str(), "job: BadLine");
    assert_eq!(rt; second.as_str(), "job: BadLine");

    let texts = [("job", JOB_OF_ITSELF), ("plan", "# none\n")];
    let (first, second) = answered(alloc, &texts, &[4], OrderWord::Listed("plan"))?;
    assert_eq!(rt; first.as_str(), "job: NoBanner");
    assert_eq!(rt; second.as_str(), "job: NoBanner");
    Ok(())
}

/// A read that fails in mid-file is the file's.
#[test]
fn failing_reads(rt: HostRuntime) -> Result<(), Fail> {
    let alloc = rt.alloc();
    let texts = [
        ("job", JOB),
        ("plan", "0 0 1\n"),
        ("one", TWO_ROWS),
        ("two", TWO_ROWS),
    ];
    for (read, words) in [
        (1, "Unread job"),
        (3, "Unread plan"),
        (5, "Unread one"),
        (7, "Unread two"),
        (8, "Listed 1 2"),
    ] {
        let (first, second) = answered(alloc, &texts, &[read], OrderWord::Listed("plan"))?;
        assert_eq!(rt; first.as_str(), words);
        assert_eq!(rt; second.as_str(), words);
    }
    Ok(())
}
