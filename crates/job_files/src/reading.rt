//! Reading the files that a job wants, one after the other.
ghost use Rattle.std.specs.Prelude.{◌≡◌, ◌≢◌, ◌<◌, ◌≤◌, ℕ, List, IfErr, IfOk, IfSome, IsErrOf, length, map};
ghost use Rattle.outside.specs.Reads.{AgreesWith, HasText, Reads, Source};
ghost use Rattle.mm_text.specs.Outcomes.{Gives, IsTextFault};
ghost use Rattle.mm_text.specs.Reading.{HasFault, IsFile, file_of, reading};
ghost use Rattle.job_files.specs.Held.{GivesHeld, SomeSource, TellsHeld};
ghost use Rattle.job_files.specs.Places.{place_from};
ghost use Rattle.job_files.specs.Steps.{AnswersNext, GivesFiles, GivesWithin, NamesNext, ReadsMany, fault_at};
ghost use Rattle.job_files.specs.Wanted.{profile_for, seen, wanted_as};

use crate::fault::FilesFault;
use crate::held::{HeldText, held_text};
use crate::wanted::{FileKind, WantedFile, wanted_files};
use mm_text::{FileData, MmFault, parse_matrix, read_again, read_matrix};
use model_defs::Job;
use outside::Files;
use std::alloc::Global;

/// The most entries of all files of a job together.
const MOST_ENTRIES: u32 = 8_388_608;

/// The place of the first of these files that has this name.
fn place_of(files: &[WantedFile], name: &str) -> Option<usize>
    ensures place { result ≡ place_from 0 name.now files.now }
    ensures within { IfSome result (λ place. place < length files.now) }
{
    for (place, file) in files.iter().enumerate() {
        if file.name == name {
            return Some(place);
        }
    }
    None
}

/// What the text of a file is that was read as another kind, or with other room.
fn again(
    alloc: Global,
    file: &FileData,
    before: FileKind,
    kind: FileKind,
    room: u32,
) -> Result<FileData, MmFault>
    ensures text { (old : ℕ) (text : List ℕ) → IsFile (profile_for old before) text (file_of file.now)
        → Gives file_of result (reading (profile_for room kind) text) }
    ensures room { IfOk result (λ found. length found.lines.items ≤ room) }
    ensures no_read { IfErr result (λ fault. fault ≢ MmFault.ReadFault) }
{
    read_again(
        alloc,
        file,
        before.form(),
        kind.form(),
        room,
        kind.most_rows(),
    )
}

/// The file of a text that is held.
fn parsed(alloc: Global, text: &[u8], kind: FileKind, room: u32) -> Result<FileData, MmFault>
    ensures answer { Gives file_of result (reading (profile_for room kind) text.now) }
    ensures room { IfOk result (λ found. length found.lines.items ≤ room) }
    ensures no_read { IfErr result (λ fault. fault ≢ MmFault.ReadFault) }
{
    parse_matrix(alloc, text, kind.form(), room, kind.most_rows())
}

/// Reads the file of this name.
fn read<F: Files>(
    alloc: Global,
    files: &mut F,
    name: &str,
    kind: FileKind,
    room: u32,
) -> Result<FileData, MmFault>
    ensures reads { Reads F.told F.faults files.old files.new name.now (IsErrOf result MmFault.ReadFault) }
    ensures file { IfOk result (λ found.
        HasText (F.told files.old) name.now (λ text. IsFile (profile_for room kind) text (file_of found))) }
    ensures fault { IfErr result (λ fault. IsTextFault fault
        → HasText (F.told files.old) name.now (λ text. HasFault (profile_for room kind) text fault)) }
    ensures room { IfOk result (λ found. length found.lines.items ≤ room) }
{
    read_matrix(alloc, files, name, kind.form(), room, kind.most_rows())
}

/// The next file behind those that were read. A text that was read, or that is held, is not read again.
fn next_file<F: Files>(
    alloc: Global,
    files: &mut F,
    held: &[HeldText],
    earlier: &[WantedFile],
    read_before: &[FileData],
    want: &WantedFile,
    room: u32,
) -> Result<FileData, MmFault>
    requires { length read_before.now ≡ length earlier.now }
    ensures reads { Reads F.told F.faults files.old files.new want.now.name.now (IsErrOf result MmFault.ReadFault) }
    ensures answers { AnswersNext (F.told files.old) held.now (seen earlier.now) (map file_of read_before.now) room
        (wanted_as want.now.kind want.now.name.now) result }
    ensures room { IfOk result (λ found. length found.lines.items ≤ room) }
{
    match place_of(earlier, want.name) {
        Some(place) => again(
            alloc,
            &read_before[place],
            earlier[place].kind,
            want.kind,
            room,
        ),
        None => match held_text(held, want.name) {
            Some(text) => parsed(alloc, text, want.kind, room),
            None => read(alloc, files, want.name, want.kind, room),
        },
    }
}

/// The fault where the file of this name was to be read.
fn fault_of<'a>(name: &'a str, fault: MmFault) -> FilesFault<'a>
    ensures { result ≡ fault_at name.entry fault }
{
    match fault {
        MmFault::ReadFault => FilesFault::Unread { name },
        MmFault::NoMem => FilesFault::Memory,
        MmFault::NoBanner
        | MmFault::BadBanner
        | MmFault::UnsupportedField
        | MmFault::UnsupportedSymmetry
        | MmFault::WrongForm
        | MmFault::BadSize
        | MmFault::BadLine { .. }
        | MmFault::OutOfRange { .. }
        | MmFault::NotSquare
        | MmFault::SkewDiagonal { .. }
        | MmFault::TooFew { .. }
        | MmFault::Extra { .. }
        | MmFault::NumberTooWide { .. }
        | MmFault::TooManyEntries
        | MmFault::TooLong => FilesFault::Refused { name, fault },
    }
}

/// The next file behind those that were read, or the fault with its name.
fn next_or_fault<'a, F: Files>(
    alloc: Global,
    files: &mut F,
    held: &[HeldText],
    earlier: &[WantedFile<'a>],
    read_before: &[FileData],
    want: &WantedFile<'a>,
    room: u32,
) -> Result<FileData, FilesFault<'a>>
    requires { length read_before.now ≡ length earlier.now }
    ensures reads { ReadsMany F.told F.faults files.old files.new result }
    ensures names { NamesNext (F.told files.old) held.now (seen earlier.now) (map file_of read_before.now) room
        (wanted_as want.now.kind want.now.name.now) result }
    ensures room { IfOk result (λ found. length found.lines.items ≤ room) }
{
    match next_file(alloc, files, held, earlier, read_before, want, room) {
        Ok(found) => Ok(found),
        Err(fault) => Err(fault_of(want.name, fault)),
    }
}

/// Reads these files in order, which have together room for so many entries.
pub fn read_wanted<'a, F: Files>(
    alloc: Global,
    files: &mut F,
    held: &[HeldText],
    wanted: &[WantedFile<'a>],
    entries: u32,
) -> Result<Vec<FileData>, FilesFault<'a>>
    requires { TellsHeld (F.told files.old) held.now }
    ensures reads { ReadsMany F.told F.faults files.old files.new result }
    ensures gives { SomeSource (F.told files.old) held.now (λ source. GivesWithin source entries (seen wanted.now) result) }
{
    let mut read = Vec::new(alloc);
    let mut room = entries;
    for (at, want) in wanted.iter().enumerate() {
        let found = match next_or_fault(
            alloc,
            files,
            held,
            &wanted[..at],
            read.as_slice(),
            want,
            room,
        ) {
            Ok(found) => found,
            Err(fault) => return Err(fault),
        };
        room -= found.lines.len() as u32;
        match read.push(found) {
            Ok(()) => {}
            Err(_) => return Err(FilesFault::Memory),
        }
    }
    Ok(read)
}

/// Reads the files of a job's given values: those of the vectors, then of the parts with the ranks ascending, then of the
/// matrices, each fully tested before the next.
///
/// The file of a vector is an array file, or where its map has more than 16,777,216 indices a coordinate file of at most
/// 2^40 rows; the file of each part is an array file, and that of a matrix a coordinate file, all of at most 16,777,216
/// rows. All files have together at most 8,388,608 entries. Sizes are not compared with those of the job.
///
/// A name that several values have is read once, and a name whose text the caller holds is not read at all. So one source
/// explains what all reads gave: a text for each name, which agrees with what the files tell and with the held texts.
///
/// `Refused` has the name and the first fault of the first file, in this order, that is refused; `Unread` comes exactly
/// where a read of this name failed, and so for the first name that no file has; `Memory` where memory ran out. The files
/// stay, whatever is answered.
///
/// The condition: the texts that are held are those that the files tell, where they tell any.
pub fn read_files<'a, F: Files>(
    alloc: Global,
    files: &mut F,
    held: &[HeldText],
    job: &'a Job,
) -> Result<Vec<FileData>, FilesFault<'a>>
    requires { TellsHeld (F.told files.old) held.now }

    // The files stay, no count of faults falls, and Unread comes exactly where the count of its name rose.
    ensures reads { ReadsMany F.told F.faults files.old files.new result }

    // What is answered is what one source gives: the files of the job, or the first that is refused.
    ensures gives { SomeSource (F.told files.old) held.now (λ source. GivesFiles source job.now result) }
{
    match wanted_files(alloc, job) {
        Ok(wanted) => read_wanted(alloc, files, held, wanted.as_slice(), MOST_ENTRIES),
        Err(_) => Err(FilesFault::Memory),
    }
}
