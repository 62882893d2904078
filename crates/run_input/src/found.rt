//! The files of a job's given values.
ghost use Rattle.std.specs.Prelude.{◌≡◌, IfOk};
ghost use Rattle.job_files.specs.Held.{SomeSource as SomeHeldSource, TellsHeld};
ghost use Rattle.job_files.specs.Walk.{file_names_read};
ghost use Rattle.model_defs.specs.Valid.{IsValid};
ghost use Rattle.run_input.specs.Answering.{Answers, found_files};
ghost use Rattle.run_input.specs.Faults.{NamesOneOf, files_fault_at};
ghost use Rattle.run_input.specs.Reading.{ReadsMany};
ghost use Rattle.run_input.specs.Sources.{SomeSource};
ghost use Rattle.run_input.specs.Texts.{GivesTexts, TellsTexts};
ghost use Rattle.run_input.specs.Walk.{files_at, fitting_files_at};

use crate::names::{copied_names, taken_name};
use crate::sizes::compare;
use crate::texts::Texts;
use crate::{FileName, InputFault, TextFault};
use job_files::{FilesFault, HeldText, read_files};
use mm_text::FileData;
use model_defs::{Job, Text};
use outside::Files;
use std::alloc::Global;

/// The fault where a file of a job is not read. These are the names of its files, one of which the fault takes.
fn files_fault<'a>(names: Vec<Text>, fault: FilesFault) -> InputFault<'a>
    requires { NamesOneOf names.items fault }
    ensures { result ≡ files_fault_at fault.entry }
{
    match fault {
        FilesFault::Memory => InputFault::Memory,
        FilesFault::Unread { name } => InputFault::Unread {
            name: FileName::InJob(taken_name(names, name)),
        },
        FilesFault::Refused { name, fault } => InputFault::Refused {
            name: FileName::InJob(taken_name(names, name)),
            fault: TextFault::Matrix(fault),
        },
    }
}

/// Reads the files of a job's given values, where these texts are held. The names are copied before, so that no memory is
/// wanted once a read failed.
fn read_beside<'a, F: Files>(
    alloc: Global,
    files: &mut F,
    held: &[HeldText],
    job: &Job,
) -> Result<Vec<FileData>, InputFault<'a>>
    requires { TellsHeld (F.told files.old) held.now }
    ensures reads { ReadsMany F.told F.faults files.old files.new result }
    ensures gives { SomeHeldSource (F.told files.old) held.now (λ source.
        Answers found_files (file_names_read job.now source) (files_at source job.now) result) }
{
    let names = match copied_names(alloc, job) {
        Ok(names) => names,
        Err(_) => return Err(InputFault::Memory),
    };
    match read_files(alloc, files, held, job) {
        Ok(found) => Ok(found),
        Err(fault) => Err(files_fault(names, fault)),
    }
}

/// Reads the files of the given values. The texts of the job and of the schedule are not read again.
fn read_job_files<'a, F: Files>(
    alloc: Global,
    files: &mut F,
    texts: &Texts<'a>,
) -> Result<Vec<FileData>, InputFault<'a>>
    requires { TellsTexts (F.told files.old) texts.now }
    ensures reads { ReadsMany F.told F.faults files.old files.new result }
    ensures gives { SomeSource (F.told files.old) (λ source. GivesTexts source texts.now
        × Answers found_files (file_names_read texts.now.job source) (files_at source texts.now.job) result) }
{
    let job = HeldText {
        name: texts.job_text.name,
        text: &texts.job_text.bytes,
    };
    match &texts.schedule {
        None => read_beside(alloc, files, &[job], &texts.job),
        Some(read) => {
            let schedule = HeldText {
                name: read.name,
                text: &read.bytes,
            };
            read_beside(alloc, files, &[job, schedule], &texts.job)
        }
    }
}

/// Reads the files of the given values, and compares their sizes with those that the job states.
pub(crate) fn read_found<'a, F: Files>(
    alloc: Global,
    files: &mut F,
    texts: &Texts<'a>,
) -> Result<Vec<FileData>, InputFault<'a>>
    requires told { TellsTexts (F.told files.old) texts.now }
    requires valid { IsValid texts.now.job }
    ensures reads { ReadsMany F.told F.faults files.old files.new result }
    ensures gives { SomeSource (F.told files.old) (λ source. GivesTexts source texts.now
        × Answers found_files (file_names_read texts.now.job source)
        (fitting_files_at source texts.now.job_text.name.now texts.now.job) result) }
{
    let found = match read_job_files(alloc, files, texts) {
        Ok(found) => found,
        Err(fault) => return Err(fault),
    };
    match compare(alloc, texts.job_text.name, &texts.job, &found) {
        Ok(()) => Ok(found),
        Err(fault) => Err(fault),
    }
}
