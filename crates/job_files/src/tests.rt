//! Jobs with small files, and what is read of them.
use crate::reading::read_wanted;
use crate::{FileKind, FilesFault, HeldText, WantedFile, read_files};
use mm_text::FileData;
use model_defs::{Job, ListOf, MapForm, MapSpec, MatrixSpec, Origin, PartsSpec, Text, VectorSpec};
use outside::{Failed, Files, MemFiles};
use std::alloc::{AllocError, Global};
use std::test::Fail;

const ONE: &str = "%%MatrixMarket matrix array integer general\n2 1\n5\n6\n";

const TWO: &str = "%%MatrixMarket matrix array integer general\n1 1\n7\n";

const MATRIX: &str = "%%MatrixMarket matrix coordinate integer general\n2 2 1\n1 2 9\n";

/// A list of texts.
fn texts(alloc: Global, names: &[&str]) -> Result<ListOf<Text>, AllocError> {
    let mut list = Vec::new(alloc);
    for name in names {
        list.push(Text::new(alloc, name)?)?;
    }
    Ok(ListOf::new(list))
}

/// A uniform map of this size.
fn map_of(alloc: Global, size: u64) -> Result<MapSpec, AllocError> {
    Ok(MapSpec {
        name: Text::new(alloc, "m")?,
        size,
        form: MapForm::Uniform,
    })
}

/// A job of a matrix, of parts of two files and of a vector, on maps of sizes 2 and 2^24 + 1.
fn job_of(
    alloc: Global,
    vector: &str,
    map: u32,
    parts: &[&str],
    matrix: &str,
) -> Result<Job, AllocError> {
    let mut maps = Vec::new(alloc);
    maps.push(map_of(alloc, 2)?)?;
    maps.push(map_of(alloc, 16_777_217)?)?;
    let mut vectors = Vec::new(alloc);
    vectors.push(VectorSpec {
        name: Text::new(alloc, "x")?,
        map,
        columns: 1,
        from: Origin::Files(texts(alloc, &[vector])?),
    })?;
    let mut all_parts = Vec::new(alloc);
    all_parts.push(PartsSpec {
        name: Text::new(alloc, "p")?,
        map: 0,
        columns: 1,
        from: Origin::Files(texts(alloc, parts)?),
    })?;
    let mut matrices = Vec::new(alloc);
    matrices.push(MatrixSpec {
        name: Text::new(alloc, "a")?,
        split: false,
        rows: 0,
        domain: 0,
        file: Text::new(alloc, matrix)?,
    })?;
    Ok(Job {
        ranks: 2,
        maps: ListOf::new(maps),
        vectors: ListOf::new(vectors),
        parts: ListOf::new(all_parts),
        matrices: ListOf::new(matrices),
        steps: ListOf::new(Vec::new(alloc)),
    })
}

/// What was read, in words: rows and the first value of each file, or the fault.
fn in_words(alloc: Global, answer: Result<Vec<FileData>, FilesFault>) -> Result<String, Fail> {
    let mut words = String::new(alloc);
    match answer {
        Err(FilesFault::Memory) => words.push_str("Memory")?,
        Err(FilesFault::Unread { name }) => words.push_str(format!(in alloc;
            "Unread {name}"
        )?.as_str())?,
        Err(FilesFault::Refused { name, fault }) => {
            words.push_str(format!(in alloc; "{name} {fault:?}")?.as_str())?
        }
        Ok(files) => {
            for file in &files {
                let first = match file.lines.as_slice().first() {
                    Some(line) => line.value,
                    None => 0,
                };
                words.push_str(format!(in alloc; "{} {first};", file.rows)?.as_str())?;
            }
        }
    }
    Ok(words)
}

/// Files in memory that tell nothing of what they hold.
#[derive(Drop)]
struct QuietFiles {
    files: MemFiles,
}

impl Files for QuietFiles {
    ghost use Rattle.std.specs.Prelude.{None};

    ghost told = { λ _. None };

    ghost faults = { λ quiet name. quiet.files.plan.faults };

    fn read_at(&mut self, name: &str, at: u64, buf: &mut [u8]) -> Result<usize, Failed> {
        self.files.read_at(name, at, buf)
    }
}

/// Three files, of whose reads those with these numbers fail.
fn three_files(alloc: Global, fails: &[u64]) -> Result<QuietFiles, AllocError> {
    let mut files = MemFiles::new(alloc);
    files.put("one", ONE.as_bytes())?;
    files.put("two", TWO.as_bytes())?;
    files.put("matrix", MATRIX.as_bytes())?;
    files.fail_at(fails)?;
    Ok(QuietFiles { files })
}

/// Each job with what is answered for its files.
#[test]
fn jobs(rt: HostRuntime) -> Result<(), Fail> {
    let alloc = rt.alloc();
    let cases = [
        // the vector, the parts, the matrix
        ("one", 0, "two", "one", "matrix", "2 5;1 7;2 5;2 9;"),
        // the file of a vector on a large map is a coordinate file, and is that of a matrix, too
        ("matrix", 1, "two", "one", "matrix", "2 9;1 7;2 5;2 9;"),
        // one text in two forms
        ("one", 0, "two", "one", "one", "one WrongForm"),
        ("one", 1, "two", "one", "matrix", "one WrongForm"),
        ("one", 0, "two", "gone", "matrix", "Unread gone"),
    ];
    for (vector, map, first, second, matrix, words) in cases {
        let mut files = three_files(alloc, &[])?;
        let job = job_of(alloc, vector, map, &[first, second], matrix)?;
        let answer = read_files(alloc, &mut files, &[], &job);
        assert_eq!(rt; in_words(alloc, answer)?.as_str(), words);
    }
    Ok(())
}

/// A text that is held is not read, and a name that two values have is read once.
#[test]
fn held_texts(rt: HostRuntime) -> Result<(), Fail> {
    let alloc = rt.alloc();
    let mut files = three_files(alloc, &[0])?;
    let job = job_of(alloc, "one", 0, &["one", "one"], "matrix")?;
    let held = [
        HeldText {
            name: "matrix",
            text: MATRIX.as_bytes(),
        },
        HeldText {
            name: "one",
            text: ONE.as_bytes(),
        },
    ];
    let answer = read_files(alloc, &mut files, &held, &job);
    assert_eq!(rt; in_words(alloc, answer)?.as_str(), "2 5;2 5;2 5;2 9;");

    let mut files = three_files(alloc, &[2])?;
    let answer = read_files(alloc, &mut files, &held[..1], &job);
    assert_eq!(rt; in_words(alloc, answer)?.as_str(), "2 5;2 5;2 5;2 9;");

    let held = [HeldText {
        name: "matrix",
        text: b"[[do]]\n",
    }];
    let mut files = three_files(alloc, &[])?;
    let answer = read_files(alloc, &mut files, &held, &job);
    assert_eq!(rt; in_words(alloc, answer)?.as_str(), "matrix NoBanner");
    Ok(())
}

/// The files have room together, also where one of them is read before.
#[test]
fn room(rt: HostRuntime) -> Result<(), Fail> {
    let alloc = rt.alloc();
    let one = WantedFile {
        name: "one",
        kind: FileKind::Array,
    };
    let two = WantedFile {
        name: "two",
        kind: FileKind::Array,
    };
    for (room, words) in [
        (4, "one TooManyEntries"),
        (5, "2 5;1 7;2 5;"),
        (2, "two TooManyEntries"),
        (1, "one TooManyEntries"),
    ] {
        let mut files = three_files(alloc, &[])?;
        let answer = read_wanted(alloc, &mut files, &[], &[one, two, one], room);
        assert_eq!(rt; in_words(alloc, answer)?.as_str(), words);
    }
    Ok(())
}
