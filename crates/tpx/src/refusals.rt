//! The messages that a file is refused.
ghost use Rattle.std.specs.Prelude.{◌≡◌};
ghost use Rattle.outside.specs.Writes.{Writes};
ghost use Rattle.tpx.specs.Messages.{fault_line, refusal_line, refused_message};
ghost use Rattle.tpx.specs.Refusals.{fault_name, fault_number, job_fault_text, matrix_fault_text, numbered, schedule_fault_text};

use crate::messages::write_pieces;
use itoa::Buffer;
use job_text::JobFault;
use mm_text::MmFault;
use outside::{Sink, SinkFault};
use run_input::TextFault;
use schedule::ScheduleFault;

/// The name of a fault of a matrix file.
fn name_of(fault: &MmFault) -> &'static str
    ensures { result.now ≡ fault_name fault.now }
{
    match fault {
        MmFault::ReadFault => "ReadFault",
        MmFault::NoBanner => "NoBanner",
        MmFault::BadBanner => "BadBanner",
        MmFault::UnsupportedField => "UnsupportedField",
        MmFault::UnsupportedSymmetry => "UnsupportedSymmetry",
        MmFault::WrongForm => "WrongForm",
        MmFault::BadSize => "BadSize",
        MmFault::BadLine { .. } => "BadLine",
        MmFault::OutOfRange { .. } => "OutOfRange",
        MmFault::NotSquare => "NotSquare",
        MmFault::SkewDiagonal { .. } => "SkewDiagonal",
        MmFault::TooFew { .. } => "TooFew",
        MmFault::Extra { .. } => "Extra",
        MmFault::NumberTooWide { .. } => "NumberTooWide",
        MmFault::TooManyEntries => "TooManyEntries",
        MmFault::TooLong => "TooLong",
        MmFault::NoMem => "NoMem",
    }
}

/// The number that a fault names, if it names one.
fn number_of(fault: &MmFault) -> Option<u32>
    ensures { result ≡ fault_number fault.now }
{
    match fault {
        MmFault::BadLine { line }
        | MmFault::OutOfRange { line }
        | MmFault::SkewDiagonal { line }
        | MmFault::Extra { line }
        | MmFault::NumberTooWide { line } => Some(*line),
        MmFault::TooFew { have } => Some(*have),
        MmFault::ReadFault
        | MmFault::NoBanner
        | MmFault::BadBanner
        | MmFault::UnsupportedField
        | MmFault::UnsupportedSymmetry
        | MmFault::WrongForm
        | MmFault::BadSize
        | MmFault::NotSquare
        | MmFault::TooManyEntries
        | MmFault::TooLong
        | MmFault::NoMem => None,
    }
}

/// Writes the message that a file has the fault of this name, with what is said behind it.
fn write_fault<'a, E: Sink>(
    err: &mut E,
    file: &'a str,
    name: &'a str,
    space: &'a str,
    number: &'a str,
) -> Result<(), SinkFault>
    ensures { let text = fault_line file.now name.now space.now number.now in
        Writes E.told E.faults err.old err.new text result }
{
    write_pieces(err, &["tpx: ", file, ": ", name, space, number, "\n"])
}

/// Writes the message that a file has the fault of this name and number.
fn write_numbered<E: Sink>(
    err: &mut E,
    file: &str,
    name: &str,
    number: u32,
) -> Result<(), SinkFault>
    ensures { Writes E.told E.faults err.old err.new (refusal_line file.now (numbered name.now number)) result }
{
    let mut digits = Buffer::new();
    write_fault(err, file, name, " ", digits.format(number))
}

/// Writes the message that a matrix file is refused.
fn write_matrix_fault<E: Sink>(err: &mut E, file: &str, fault: &MmFault) -> Result<(), SinkFault>
    ensures { Writes E.told E.faults err.old err.new (refusal_line file.now (matrix_fault_text fault.now)) result }
{
    let name = name_of(fault);
    match number_of(fault) {
        None => write_fault(err, file, name, "", ""),
        Some(number) => write_numbered(err, file, name, number),
    }
}

/// Writes the message that a job is refused.
fn write_job_fault<E: Sink>(err: &mut E, file: &str, fault: &JobFault) -> Result<(), SinkFault>
    ensures { Writes E.told E.faults err.old err.new (refusal_line file.now (job_fault_text fault.now)) result }
{
    match fault {
        JobFault::NotToml => write_fault(err, file, "NotToml", "", ""),
        JobFault::Missing { key } => write_fault(err, file, "Missing", " ", key.as_str()),
        JobFault::WrongKind { key } => write_fault(err, file, "WrongKind", " ", key.as_str()),
        JobFault::UnknownKey { key } => write_fault(err, file, "UnknownKey", " ", key.as_str()),
        JobFault::UnknownName { name } => write_fault(err, file, "UnknownName", " ", name.as_str()),
        JobFault::Limit { key } => write_fault(err, file, "Limit", " ", key.as_str()),
        JobFault::BadMap { name } => write_fault(err, file, "BadMap", " ", name.as_str()),
        JobFault::MapMismatch { statement } => write_numbered(err, file, "MapMismatch", *statement),
        JobFault::NotCovered { statement } => write_numbered(err, file, "NotCovered", *statement),
        JobFault::WrongSort { statement } => write_numbered(err, file, "WrongSort", *statement),
        JobFault::NoMem => write_fault(err, file, "NoMem", "", ""),
        JobFault::NameTaken { name } => write_fault(err, file, "NameTaken", " ", name.as_str()),
    }
}

/// Writes the message that a schedule is refused.
fn write_schedule_fault<E: Sink>(
    err: &mut E,
    file: &str,
    fault: &ScheduleFault,
) -> Result<(), SinkFault>
    ensures { Writes E.told E.faults err.old err.new (refusal_line file.now (schedule_fault_text fault.now)) result }
{
    match fault {
        ScheduleFault::BadLine { line } => write_numbered(err, file, "BadLine", *line),
        ScheduleFault::NoMem => write_fault(err, file, "NoMem", "", ""),
        ScheduleFault::TooLong => write_fault(err, file, "TooLong", "", ""),
    }
}

/// Writes the message that a file is refused.
pub(crate) fn write_refusal<E: Sink>(
    err: &mut E,
    file: &str,
    fault: &TextFault,
) -> Result<(), SinkFault>
    ensures { Writes E.told E.faults err.old err.new (refused_message file.now fault.now) result }
{
    match fault {
        TextFault::Job(fault) => write_job_fault(err, file, fault),
        TextFault::Schedule(fault) => write_schedule_fault(err, file, fault),
        TextFault::Matrix(fault) => write_matrix_fault(err, file, fault),
        TextFault::SizeMismatch { value } => {
            write_fault(err, file, "SizeMismatch", " ", value.as_str())
        }
    }
}
