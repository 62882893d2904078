//! The text of a schedule.
ghost use Rattle.std.specs.Prelude.{◌≡◌, ◌≤◌, true, length};
ghost use Rattle.text_lines.specs.Lines.{kept_from, lines_of};
ghost use Rattle.schedule.specs.Texts.{IsReadAs, entries_of, name_of_line, number_of, schedule_of};

use crate::{Entry, ScheduleFault};
use outside::Name;
use std::alloc::Global;
use text_lines::{digits, next_kept, three_words, without_return};

/// The most bytes of a text.
const MOST_BYTES: usize = 67_108_864;

/// The first byte of a comment.
const MARK: u8 = b'#';

/// A number below 2^32 in decimal digits.
fn number(word: &[u8]) -> Option<u32>
    ensures { result ≡ number_of word.now }
{
    let number = digits(word)?;
    if number <= u64::from(u32::MAX) {
        Some(number as u32)
    } else {
        None
    }
}

/// The letter that a line names: its phase, its sender and its receiver.
fn name_of_line(line: &[u8]) -> Option<Name>
    ensures { result ≡ name_of_line line.now }
{
    let (first, second, third) = three_words(without_return(line))?;
    let phase = number(first)?;
    let from = number(second)?;
    let to = number(third)?;
    Some(Name { phase, from, to })
}

/// The entries of the lines, or the first line that names no letter.
fn read_lines(alloc: Global, bytes: &[u8]) -> Result<Vec<Entry>, ScheduleFault>
    requires { length bytes.now ≤ MOST_BYTES }
    ensures { IsReadAs result (entries_of (kept_from MARK 1 (lines_of true bytes.now))) }
{
    let mut entries = Vec::new(alloc);
    let mut rest = bytes;
    let mut first = 1;
    while let Some(kept) = next_kept(MARK, rest, first, true) {
        match name_of_line(kept.line) {
            None => return Err(ScheduleFault::BadLine { line: kept.number }),
            Some(name) => {
                entries.push(Entry {
                    line: kept.number,
                    name,
                })?;
                rest = kept.rest;
                first = kept.number + 1;
            }
        }
    }
    Ok(entries)
}

/// Reads the text of a schedule: each line names a letter by its phase, its sender and its receiver, ranks and phases
/// counted from 0. Lines without words and lines that begin with `#` are skipped, and counted: an entry has the number of
/// its line, from 1.
///
/// `TooLong` comes exactly where the text has more than 67,108,864 bytes. Else `BadLine` comes exactly where a line is not
/// three words, each one or more decimal digits of a number below 2^32, with the first such line. `NoMem` means that memory
/// ran out.
pub fn read_schedule(alloc: Global, bytes: &[u8]) -> Result<Vec<Entry>, ScheduleFault>
    ensures { IsReadAs result (schedule_of bytes.now) }
{
    if bytes.len() > MOST_BYTES {
        return Err(ScheduleFault::TooLong);
    }
    read_lines(alloc, bytes)
}
