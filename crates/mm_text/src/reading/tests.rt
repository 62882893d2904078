//! Small texts with what they are read as, and the reads that fail.
use crate::profile::Profile;
use crate::reading::text::read_text;
use crate::{FileData, Form, MmFault, parse_matrix, read_again, read_matrix};
use outside::{Failed, Files};
use std::alloc::Global;
use std::test::Fail;

/// A file in memory, whose read with the number `fails` fails.
#[derive(Drop)]
struct OneFile {
    bytes: Vec<u8>,
    reads: u64,
    fails: u64,
    faults: u64,
}

impl Files for OneFile {
    ghost use Rattle.std.specs.Prelude.{None};

    ghost told = { λ _. None };

    ghost faults = { λ files _. files.faults };

    fn read_at(&mut self, _name: &str, at: u64, buf: &mut [u8]) -> Result<usize, Failed> {
        let number = self.reads;
        self.reads = number.saturating_add(1);
        if number == self.fails {
            self.faults = self.faults.saturating_add(1);
            return Err(Failed);
        }
        let start = (at as usize).min(self.bytes.len());
        let count = buf.len().min(self.bytes.len() - start);
        buf[..count].copy_from_slice(&self.bytes[start..start + count]);
        Ok(count)
    }
}

/// What was read, in words: sizes, mirror, number of entries and the entries, or the fault.
fn in_words(alloc: Global, found: Result<FileData, MmFault>) -> Result<String, Fail> {
    match found {
        Err(fault) => Ok(format!(in alloc; "{fault:?}")?),
        Ok(file) => {
            let mut words = format!(in alloc;
                "{} {} {:?} {}",
                file.rows,
                file.cols,
                file.mirror,
                file.lines.len()
            )?;
            for line in &file.lines {
                words.push_str(format!(in alloc;
                    "; {} {} {}",
                    line.row, line.col, line.value
                )?.as_str())?;
            }
            Ok(words)
        }
    }
}

/// What a text is read as.
fn answer(alloc: Global, want: Form, text: &str) -> Result<String, Fail> {
    in_words(
        alloc,
        read_text(
            alloc,
            text.as_bytes(),
            Profile::new(want, 8_388_608, 16_777_216),
        ),
    )
}

/// What the lines behind the banner of a coordinate file are read as.
fn coordinate(alloc: Global, lines: &str) -> Result<String, Fail> {
    let text = format!(in alloc; "%%MatrixMarket matrix coordinate integer general\n{lines}")?;
    answer(alloc, Form::Coordinate, text.as_str())
}

/// What the lines behind the banner of an array file are read as.
fn array(alloc: Global, lines: &str) -> Result<String, Fail> {
    let text = format!(in alloc; "%%MatrixMarket matrix array integer general\n{lines}")?;
    answer(alloc, Form::Array, text.as_str())
}

#[test]
fn banners(rt: HostRuntime) -> Result<(), Fail> {
    let cases = [
        ("", "NoBanner"),
        ("\n", "NoBanner"),
        (
            "%MatrixMarket matrix coordinate integer general\n",
            "NoBanner",
        ),
        (
            "%%matrixmarket matrix coordinate integer general\n",
            "NoBanner",
        ),
        ("%%MatrixMarket\n", "BadBanner"),
        ("%%MatrixMarket matrix coordinate integer\n", "BadBanner"),
        (
            "%%MatrixMarket matrix coordinate integer general x\n",
            "BadBanner",
        ),
        (
            "%%MatrixMarket vector coordinate integer general\n",
            "BadBanner",
        ),
        (
            "%%MatrixMarket matrix coordinate whole general\n",
            "BadBanner",
        ),
        (
            "%%MatrixMarket matrix coordinate real hermitian\n",
            "UnsupportedField",
        ),
        (
            "%%MatrixMarket matrix array complex general\n",
            "UnsupportedField",
        ),
        (
            "%%MatrixMarket matrix array pattern general\n",
            "UnsupportedField",
        ),
        (
            "%%MatrixMarket matrix coordinate integer hermitian\n",
            "UnsupportedSymmetry",
        ),
        (
            "%%MatrixMarket matrix array integer symmetric\n",
            "UnsupportedSymmetry",
        ),
        (
            "%%MatrixMarket matrix coordinate pattern skew-symmetric\n",
            "UnsupportedSymmetry",
        ),
        ("%%MatrixMarket matrix array integer general\n", "WrongForm"),
        (
            "%%MatrixMarket matrix coordinate integer general",
            "BadSize",
        ),
        (
            " \t%%MatrixMarket  MATRIX\tCoordinate Integer GENERAL \r\n0 0 0",
            "0 0 Plain 0",
        ),
    ];
    for (text, words) in cases {
        assert_eq!(rt; answer(rt.alloc(), Form::Coordinate, text)?.as_str(), words);
    }
    Ok(())
}

#[test]
fn sizes(rt: HostRuntime) -> Result<(), Fail> {
    let cases = [
        ("% only a comment\n\n", "BadSize"),
        ("1 1\n", "BadSize"),
        ("1 1 1 1\n", "BadSize"),
        ("-1 1 0\n", "BadSize"),
        ("+ 1 0\n", "BadSize"),
        ("16777217 1 0\n", "BadSize"),
        ("1 16777217 0\n", "BadSize"),
        ("1 1 8388609\n", "TooManyEntries"),
        (
            "1 1 99999999999999999999999999999999999999999\n",
            "TooManyEntries",
        ),
        ("99999999999999999999999999999999999999999 1 0\n", "BadSize"),
        (
            "+016777216 +0000000000000000000000000000016777216 0\n",
            "16777216 16777216 Plain 0",
        ),
    ];
    for (lines, words) in cases {
        assert_eq!(rt; coordinate(rt.alloc(), lines)?.as_str(), words);
    }
    assert_eq!(rt; array(rt.alloc(), "3 1 3\n")?.as_str(), "BadSize");
    assert_eq!(rt;
        array(rt.alloc(), "4096 4096\n")?.as_str(),
        "TooManyEntries"
    );
    Ok(())
}

#[test]
fn entries(rt: HostRuntime) -> Result<(), Fail> {
    let cases = [
        ("2 2 1\n1 1 5", "2 2 Plain 1; 0 0 5"),
        ("2 2 1\n1\t 2  -5 \t\r\n", "2 2 Plain 1; 0 1 -5"),
        ("2 2 1\n\n %\n% 9 9 9\n2 1 +0\n \r\n%", "2 2 Plain 1; 1 0 0"),
        ("2 2 1\n1 1\n", "BadLine { line: 3 }"),
        ("2 2 1\n1 1 1 1\n", "BadLine { line: 3 }"),
        ("2 2 1\n1 1 -\n", "BadLine { line: 3 }"),
        ("2 2 1\n1 1 1.0\n", "BadLine { line: 3 }"),
        ("2 2 1\n-1 1 1\n", "BadLine { line: 3 }"),
        ("2 2 1\n1 1 7\r\r\n", "BadLine { line: 3 }"),
        ("2 2 1\n9 9 x\n", "BadLine { line: 3 }"),
        ("2 2 1\n0 1 1\n", "OutOfRange { line: 3 }"),
        ("2 2 1\n1 3 1\n", "OutOfRange { line: 3 }"),
        (
            "2 2 1\n%\n18446744073709551617 1 1\n",
            "OutOfRange { line: 4 }",
        ),
        (
            "2 2 1\n3 1 999999999999999999999999999999999999999999\n",
            "OutOfRange { line: 3 }",
        ),
        (
            "2 2 1\n1 1 -170141183460469231731687303715884105728\n",
            "NumberTooWide { line: 3 }",
        ),
        ("2 2 2\n1 1 1\n%\n", "TooFew { have: 1 }"),
        ("2 2 1\n1 1 1\n\n2 2 2\n", "Extra { line: 5 }"),
        ("2 2 1\n1 1 1\nx", "Extra { line: 4 }"),
        ("2 2 2\n1 1 x\n1 1 1\n1 1 1\n", "BadLine { line: 3 }"),
    ];
    for (lines, words) in cases {
        assert_eq!(rt; coordinate(rt.alloc(), lines)?.as_str(), words);
    }
    Ok(())
}

#[test]
fn arrays(rt: HostRuntime) -> Result<(), Fail> {
    let cases = [
        (
            "2 2\n1\n2\n3\n4\n",
            "2 2 Plain 4; 0 0 1; 1 0 2; 0 1 3; 1 1 4",
        ),
        ("0 5\n", "0 5 Plain 0"),
        ("1 1\n1 1\n", "BadLine { line: 3 }"),
        ("1 1\n", "TooFew { have: 0 }"),
        ("1 1\n1\n2\n", "Extra { line: 4 }"),
        (
            "1 1\n170141183460469231731687303715884105728\n",
            "NumberTooWide { line: 3 }",
        ),
    ];
    for (lines, words) in cases {
        assert_eq!(rt; array(rt.alloc(), lines)?.as_str(), words);
    }
    Ok(())
}

#[test]
fn symmetries(rt: HostRuntime) -> Result<(), Fail> {
    let cases = [
        (
            "%%MatrixMarket matrix coordinate pattern symmetric\n%\n3 3 2\n2 1\n3 3\n",
            "3 3 Same 2; 1 0 1; 2 2 1",
        ),
        (
            "%%MatrixMarket MATRIX Coordinate INTEGER skew-symmetric\n2 2 1\n+02 1 7\n",
            "2 2 Negated 1; 1 0 7",
        ),
        (
            "%%MatrixMarket matrix coordinate integer symmetric\n2 3 0\n",
            "NotSquare",
        ),
        (
            "%%MatrixMarket matrix coordinate integer skew-symmetric\n2 3 8388609\n",
            "NotSquare",
        ),
        (
            "%%MatrixMarket matrix coordinate integer skew-symmetric\n2 2 1\n2 2 999999999999999999999999999999999999999999\n",
            "SkewDiagonal { line: 3 }",
        ),
        (
            "%%MatrixMarket matrix coordinate integer skew-symmetric\n2 2 1\n3 3 1\n",
            "OutOfRange { line: 3 }",
        ),
    ];
    for (text, words) in cases {
        assert_eq!(rt; answer(rt.alloc(), Form::Coordinate, text)?.as_str(), words);
    }
    Ok(())
}

/// A file with a comment of 200,000 bytes and a value of 200,000 zeros and a 7, read in pieces.
#[test]
fn long_lines(rt: HostRuntime) -> Result<(), Fail> {
    let alloc = rt.alloc();
    let mut bytes: Vec<u8> = Vec::new(alloc);
    bytes.extend_from_slice(b"%%MatrixMarket matrix coordinate integer general\n%")?;
    for _ in 0..200_000 {
        bytes.push(b'%')?;
    }
    bytes.extend_from_slice(b"\n1 1 1\n1 1 ")?;
    for _ in 0..200_000 {
        bytes.push(b'0')?;
    }
    bytes.push(b'7')?;
    let mut files = OneFile {
        bytes,
        reads: 0,
        fails: u64::MAX,
        faults: 0,
    };
    let found = read_matrix(alloc, &mut files, "long.mtx", Form::Coordinate, 1, 1);
    assert_eq!(rt; in_words(alloc, found)?.as_str(), "1 1 Plain 1; 0 0 7");
    Ok(())
}

/// What the lines behind the banner are read as, where so many rows are allowed.
fn with_rows(alloc: Global, most: u64, lines: &str) -> Result<String, Fail> {
    let text = format!(in alloc; "%%MatrixMarket matrix coordinate integer general\n{lines}")?;
    let mut files = OneFile {
        bytes: text.as_bytes().to_vec(alloc)?,
        reads: 0,
        fails: u64::MAX,
        faults: 0,
    };
    let most = most.min(1_099_511_627_776);
    let found = read_matrix(alloc, &mut files, "a.mtx", Form::Coordinate, u32::MAX, most);
    in_words(alloc, found)
}

/// The greatest of each size and number that is accepted, and the least that is not.
#[test]
fn limits(rt: HostRuntime) -> Result<(), Fail> {
    let alloc = rt.alloc();
    let rows = 1_099_511_627_776;
    let cases = [
        ("1099511627776 1 0\n", "1099511627776 1 Plain 0"),
        ("1099511627777 1 0\n", "BadSize"),
        ("1 16777216 0\n", "1 16777216 Plain 0"),
        ("1 16777217 0\n", "BadSize"),
        ("1 1 4294967295\n", "TooFew { have: 0 }"),
        ("1 1 4294967296\n", "TooManyEntries"),
    ];
    for (lines, words) in cases {
        assert_eq!(rt; with_rows(alloc, rows, lines)?.as_str(), words);
    }
    assert_eq!(rt; with_rows(alloc, 2, "2 1 0\n")?.as_str(), "2 1 Plain 0");
    assert_eq!(rt; with_rows(alloc, 2, "3 1 0\n")?.as_str(), "BadSize");
    let most = "170141183460469231731687303715884105727";
    let above = "170141183460469231731687303715884105728";
    for sign in ["", "+", "-"] {
        let lines = format!(in alloc; "1 1 1\n1 1 {sign}{most}\n")?;
        let shown = if sign == "-" { "-" } else { "" };
        let words = format!(in alloc; "1 1 Plain 1; 0 0 {shown}{most}")?;
        assert_eq!(rt; coordinate(alloc, lines.as_str())?.as_str(), words.as_str());
        let lines = format!(in alloc; "1 1 1\n1 1 {sign}{above}\n")?;
        assert_eq!(rt;
            coordinate(alloc, lines.as_str())?.as_str(),
            "NumberTooWide { line: 3 }"
        );
    }
    assert_eq!(rt;
        array(alloc, "16777216 0\n")?.as_str(),
        "16777216 0 Plain 0"
    );
    assert_eq!(rt; array(alloc, "16777217 0\n")?.as_str(), "BadSize");
    Ok(())
}

/// What a text of 63 bytes is read as, where so many bytes are allowed.
fn with_bytes(alloc: Global, most: usize) -> Result<String, Fail> {
    let text = b"%%MatrixMarket matrix coordinate integer general\n1 1 1\n1 1 7\n%%";
    let mut profile = Profile::new(Form::Coordinate, 1, 1);
    profile.bytes = most.min(100);
    in_words(alloc, read_text(alloc, text, profile))
}

/// A text with as many bytes as are allowed is read, and one byte more is too long.
#[test]
fn bytes_of_a_text(rt: HostRuntime) -> Result<(), Fail> {
    assert_eq!(rt; with_bytes(rt.alloc(), 63)?.as_str(), "1 1 Plain 1; 0 0 7");
    assert_eq!(rt; with_bytes(rt.alloc(), 62)?.as_str(), "TooLong");
    assert_eq!(rt; with_bytes(rt.alloc(), 61)?.as_str(), "TooLong");
    Ok(())
}

/// Each fault is printed by its name.
#[test]
fn names_of_faults(rt: HostRuntime) -> Result<(), Fail> {
    let faults = [
        (MmFault::ReadFault, "ReadFault"),
        (MmFault::NoBanner, "NoBanner"),
        (MmFault::BadBanner, "BadBanner"),
        (MmFault::UnsupportedField, "UnsupportedField"),
        (MmFault::UnsupportedSymmetry, "UnsupportedSymmetry"),
        (MmFault::WrongForm, "WrongForm"),
        (MmFault::BadSize, "BadSize"),
        (MmFault::BadLine { line: 1 }, "BadLine"),
        (MmFault::OutOfRange { line: 1 }, "OutOfRange"),
        (MmFault::NotSquare, "NotSquare"),
        (MmFault::SkewDiagonal { line: 1 }, "SkewDiagonal"),
        (MmFault::TooFew { have: 1 }, "TooFew"),
        (MmFault::Extra { line: 1 }, "Extra"),
        (MmFault::NumberTooWide { line: 1 }, "NumberTooWide"),
        (MmFault::TooManyEntries, "TooManyEntries"),
        (MmFault::TooLong, "TooLong"),
        (MmFault::NoMem, "NoMem"),
    ];
    for (fault, name) in faults {
        assert_eq!(rt; format!(in rt.alloc(); "{fault}")?.as_str(), name);
    }
    Ok(())
}

/// A read that fails is a fault of the reads, whichever it is.
#[test]
fn failed_reads(rt: HostRuntime) -> Result<(), Fail> {
    let alloc = rt.alloc();
    for fails in 0..3 {
        let mut bytes: Vec<u8> = Vec::new(alloc);
        bytes.extend_from_slice(
            b"%%MatrixMarket matrix coordinate integer general\n1 1 1\n1 1 1\n",
        )?;
        let mut files = OneFile {
            bytes,
            reads: 0,
            fails,
            faults: 0,
        };
        let found = read_matrix(alloc, &mut files, "a.mtx", Form::Coordinate, 1, 1);
        let words = if fails < 2 {
            "ReadFault"
        } else {
            "1 1 Plain 1; 0 0 1"
        };
        assert_eq!(rt; in_words(alloc, found)?.as_str(), words);
    }
    Ok(())
}

/// What a text of 3 rows, 2 columns and 2 entries is, once it was read, in other forms and within other limits: what it
/// is where it is read for the first time.
#[test]
fn texts_that_were_read(rt: HostRuntime) -> Result<(), Fail> {
    let alloc = rt.alloc();
    let text = b"%%MatrixMarket matrix coordinate integer general\n3 2 2\n1 1 5\n3 2 -1\n";
    let file = parse_matrix(alloc, text, Form::Coordinate, 9, 9)?;
    let cases = [
        (Form::Coordinate, 2, 3, "3 2 Plain 2; 0 0 5; 2 1 -1"),
        (Form::Array, 2, 3, "WrongForm"),
        (Form::Coordinate, 1, 2, "BadSize"),
        (Form::Coordinate, 1, 3, "TooManyEntries"),
    ];
    for (want, room, most, words) in cases {
        let again = read_again(alloc, &file, Form::Coordinate, want, room, most);
        assert_eq!(rt; in_words(alloc, again)?.as_str(), words);
        let anew = parse_matrix(alloc, text, want, room, most);
        assert_eq!(rt; in_words(alloc, anew)?.as_str(), words);
    }
    Ok(())
}
