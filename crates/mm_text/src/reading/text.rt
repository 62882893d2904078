//! A text as a file.
ghost use Rattle.std.specs.Prelude.{◌≡◌, ◌+◌, ◌*◌, ◌/◌, ◌<◌, ◌≤◌, ◌^◌, length, if◌then◌else◌};
ghost use Rattle.mm_text.specs.Limits.{IsReadable, most_bytes, most_rows};
ghost use Rattle.mm_text.specs.Lines.{kept_from, lines_of};
ghost use Rattle.mm_text.specs.Outcomes.{Gives};
ghost use Rattle.mm_text.specs.Reading.{entries_in, file_of, lines_read, reading, file_sized};

use crate::profile::Profile;
use crate::reading::banner::{Banner, Kind, read_banner};
use crate::reading::entries::read_entry;
use crate::reading::sizes::{Sizes, read_sizes};
use crate::{FileData, Line, MmFault};
use std::alloc::Global;
use text_lines::{next_kept, next_line};

/// The byte that a comment begins with.
const MARK: u8 = b'%';

/// The fault where the lines end: more follows in a text that is too long.
fn end_fault(whole: bool, fault: MmFault) -> MmFault
    ensures { result ≡ (if whole then fault else MmFault.TooLong) }
{
    if whole { fault } else { MmFault::TooLong }
}

/// Room for so many entries, and for no more than so many bytes can hold.
fn reserved_len(count: u64, bytes: usize) -> usize
    ensures count { result ≤ count }
    ensures bytes { result ≤ bytes / 2 + 1 }
{
    let most = bytes / 2 + 1;
    if count < most as u64 {
        count as usize
    } else {
        most
    }
}

/// The entries of the lines after the size line, of which the first has this number.
fn read_entries(
    alloc: Global,
    banner: Banner,
    sizes: Sizes,
    whole: bool,
    number: u32,
    bytes: &[u8],
) -> Result<Vec<Line>, MmFault>
    requires rows { sizes.rows ≤ most_rows }
    requires cols { sizes.cols ≤ most_rows }
    requires count { sizes.count < 2 ^ 32 }
    requires dense { banner.kind ≡ Kind.Dense → sizes.count ≡ sizes.rows * sizes.cols }
    requires numbers { number + length bytes.now < 2 ^ 32 }
    ensures { Gives (λ lines. lines.items) result
        (entries_in whole banner sizes (kept_from number (lines_of whole bytes.now))) }
{
    let mut lines = Vec::with_capacity(alloc, reserved_len(sizes.count, bytes.len()))?;
    let mut rest = bytes;
    let mut first = number;
    for at in 0..sizes.count {
        match next_kept(MARK, rest, first, whole) {
            None => return Err(end_fault(whole, MmFault::TooFew { have: at as u32 })),
            Some(kept) => {
                let line = read_entry(banner, sizes, kept.number, at, kept.line)?;
                lines.push(line)?;
                rest = kept.rest;
                first = kept.number + 1;
            }
        }
    }
    match next_kept(MARK, rest, first, whole) {
        Some(kept) => Err(MmFault::Extra { line: kept.number }),
        None => {
            if whole {
                Ok(lines)
            } else {
                Err(MmFault::TooLong)
            }
        }
    }
}

/// The file of a banner and of the lines after it.
fn read_sized(
    alloc: Global,
    banner: Banner,
    profile: Profile,
    whole: bool,
    bytes: &[u8],
) -> Result<FileData, MmFault>
    requires readable { IsReadable profile }
    requires length { length bytes.now ≤ most_bytes }
    ensures { Gives file_of result (file_sized whole profile banner (kept_from 2 (lines_of whole bytes.now))) }
{
    match next_kept(MARK, bytes, 2, whole) {
        None => Err(end_fault(whole, MmFault::BadSize)),
        Some(kept) => {
            let sizes = read_sizes(banner, profile, kept.line)?;
            let lines = read_entries(alloc, banner, sizes, whole, kept.number + 1, kept.rest)?;
            Ok(FileData {
                rows: sizes.rows,
                cols: sizes.cols,
                mirror: banner.mirror,
                lines,
            })
        }
    }
}

/// The file of lines.
fn read_lines(
    alloc: Global,
    profile: Profile,
    whole: bool,
    bytes: &[u8],
) -> Result<FileData, MmFault>
    requires readable { IsReadable profile }
    requires length { length bytes.now ≤ most_bytes }
    ensures { Gives file_of result (lines_read whole profile (lines_of whole bytes.now)) }
{
    match next_line(bytes, whole) {
        None => Err(end_fault(whole, MmFault::NoBanner)),
        Some((first, rest)) => {
            let banner = read_banner(profile.form, first)?;
            read_sized(alloc, banner, profile, whole, rest)
        }
    }
}

/// The file of a text, or its first fault.
pub fn read_text(alloc: Global, bytes: &[u8], profile: Profile) -> Result<FileData, MmFault>
    requires { IsReadable profile }
    ensures { Gives file_of result (reading profile bytes.now) }
{
    if bytes.len() <= profile.bytes {
        read_lines(alloc, profile, true, bytes)
    } else {
        read_lines(alloc, profile, false, &bytes[..profile.bytes])
    }
}
