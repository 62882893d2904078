//! The command `show`: a coordinate file, its matrix, and the text of it.
ghost use Rattle.std.specs.Prelude.{◌≡◌, false, ◌≤◌, ◌⊎◌, [], ◌∷◌, IfErr, IfOk, OnOk};
ghost use Rattle.scalar_laws.specs.Weighed.{weighed_conversions};
ghost use Rattle.outside.specs.Faults.{Rose};
ghost use Rattle.outside.specs.Reads.{HasText, Reads};
ghost use Rattle.outside.specs.Writes.{Writes};
ghost use Rattle.mm_text.specs.Reading.{IsFile, file_of};
ghost use Rattle.gathered_rows.specs.Conditions.{CanBeGathered};
ghost use Rattle.tpx.specs.Endings.{is_over, show_ending, shown_of, shown_profile, text_of};
ghost use Rattle.run_input.specs.Sources.{SomeSource};
ghost use Rattle.tpx.specs.Steps.{Gives, IsUnread, IsWireFailed, RoseAt, StopsReading, StopsShowing, Touches, UnreadIsAmong, fault_at};

use crate::fault::Fault;
use crate::shown::shown_cells;
use gathered_rows::gathered_cells;
use mm_text::{FileData, Form, MmFault, Shown, SinkFault, read_matrix, write_coordinate};
use outside::{Files, Sink};
use run_input::{FileName, TextFault};
use scalar_laws::Weighed;
use std::alloc::Global;

/// The most entries of a file.
const MOST_ENTRIES: u32 = 8_388_608;

/// The most rows of a file.
const MOST_ROWS: u64 = 16_777_216;

/// How a command ends at a fault of reading a matrix from the file of this name.
fn fault_of<'a>(file: &'a str, fault: MmFault) -> Fault<'a>
    ensures { result ≡ fault_at file.entry fault }
{
    match fault {
        MmFault::ReadFault => Fault::Unread {
            file: FileName::Word(file),
        },
        MmFault::NoMem => Fault::Memory,
        MmFault::NoBanner
        | MmFault::BadBanner
        | MmFault::UnsupportedField
        | MmFault::UnsupportedSymmetry
        | MmFault::WrongForm
        | MmFault::BadSize
        | MmFault::BadLine { .. }
        | MmFault::OutOfRange { .. }
        | MmFault::NotSquare
        | MmFault::SkewDiagonal { .. }
        | MmFault::TooFew { .. }
        | MmFault::Extra { .. }
        | MmFault::NumberTooWide { .. }
        | MmFault::TooManyEntries
        | MmFault::TooLong => Fault::Refused {
            file: FileName::Word(file),
            fault: TextFault::Matrix(fault),
        },
    }
}

/// Reads a coordinate file.
fn read_shown<'a, F: Files>(
    alloc: Global,
    files: &mut F,
    name: &'a str,
) -> Result<FileData, Fault<'a>>
    ensures reads { Reads F.told F.faults files.old files.new name.now (IsUnread result) }
    ensures accepted { IfOk result (λ found.
        HasText (F.told files.old) name.now (λ text. IsFile shown_profile text (file_of found))) }
    ensures sound { IfOk result (λ found. CanBeGathered weighed_conversions (file_of found)) }
    ensures fault { IfErr result (StopsReading (F.told files.old) name.now) }
{
    match read_matrix(
        alloc,
        files,
        name,
        Form::Coordinate,
        MOST_ENTRIES,
        MOST_ROWS,
    ) {
        Ok(found) => Ok(found),
        Err(fault) => Err(fault_of(name, fault)),
    }
}

/// The cells of the matrix of a file as they are printed, by row and then column.
fn matrix_cells<'a>(alloc: Global, ranks: u32, file: &FileData) -> Result<Vec<Shown>, Fault<'a>>
    requires from { 1 ≤ ranks }
    requires to { ranks ≤ 32 }
    requires file { CanBeGathered weighed_conversions (file_of file.now) }
    ensures shown { IfOk result (λ cells. cells.items ≡ shown_of (file_of file.now)) }
    ensures none_over { OnOk result (is_over (file_of file.now) ≡ false) }
    ensures fault { IfErr result (StopsShowing (is_over (file_of file.now))) }
{
    let cells = gathered_cells::<Weighed>(alloc, ranks, file)?;
    shown_cells(alloc, &cells)
}

/// Writes the matrix of a file.
fn write_matrix<'a, O: Sink>(out: &mut O, file: &FileData, cells: &[Shown]) -> Result<(), Fault<'a>>
    requires { cells.now ≡ shown_of (file_of file.now) }
    ensures writes { Writes O.told O.faults out.old out.new (text_of (file_of file.now)) result }
    ensures fault { IfErr result (λ fault. fault ≡ Fault.Unwritten) }
{
    match write_coordinate(out, file.rows, file.cols, None, cells) {
        Ok(()) => Ok(()),
        Err(SinkFault) => Err(Fault::Unwritten),
    }
}

/// Shows the matrix of a coordinate file, whose entries are dealt to this many ranks: each row is brought to its owner
/// in the contiguous uniform map of `Tpetra::Map`, what names one place is added there, and the text has the places by
/// row and then column. Nothing is written before the file was read whole and no number is over.
pub fn show<'a, F: Files, O: Sink>(
    alloc: Global,
    ranks: u32,
    name: &'a str,
    files: &mut F,
    out: &mut O,
) -> Result<(), Fault<'a>>
    requires from { 1 ≤ ranks }
    requires to { ranks ≤ 32 }
    ensures reads { Reads F.told F.faults files.old files.new name.now (IsUnread result) }
    ensures gives { SomeSource (F.told files.old) (λ source.
        Gives O.told out.old out.new result (show_ending name.now (source name.now))) }
    ensures named { UnreadIsAmong (name.now ∷ []) result }
    ensures on_no_wire { IsWireFailed result → ⊥ }
    ensures untouched { Touches result ⊎ (out.new ≡ out.old) }
    ensures unwritten { IfErr result (λ fault. fault ≡ Fault.Unwritten → Rose (O.faults out.old) (O.faults out.new)) }
    ensures no_fault { OnOk result (O.faults out.new ≡ O.faults out.old) }
    ensures never_falls { O.faults out.old ≤ O.faults out.new }
    ensures unread { RoseAt (F.faults files.old) (F.faults files.new) result }
{
    let file = read_shown(alloc, files, name)?;
    let cells = matrix_cells(alloc, ranks, &file)?;
    write_matrix(out, &file, &cells)
}
