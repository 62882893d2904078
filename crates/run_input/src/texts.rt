//! The texts of the job and of the schedule.
ghost use Rattle.std.specs.Prelude.{◌≡◌, [], ◌∷◌, IfErr, IfOk, Ok};
ghost use Rattle.outside.specs.Reads.{Source};
ghost use Rattle.job_text.specs.Whole.{job_of};
ghost use Rattle.model_defs.specs.Valid.{IsValid};
ghost use Rattle.run_words.specs.Given.{listed};
ghost use Rattle.run_words.specs.Seen.{order_view};
ghost use Rattle.schedule.specs.Texts.{schedule_of};
ghost use Rattle.run_input.specs.Answering.{Answers, Stops};
ghost use Rattle.run_input.specs.Faults.{job_fault_at, schedule_fault_at};
ghost use Rattle.run_input.specs.Orders.{order_given};
ghost use Rattle.run_input.specs.Reading.{ReadsMany};
ghost use Rattle.run_input.specs.Sources.{SomeSource};
ghost use Rattle.run_input.specs.Texts.{AreRead, GivesText, GivesTextIfRead, IsApart, TellsText, TellsTextIfRead, TellsTexts};
ghost use Rattle.run_input.specs.Walk.{input_of, job_at, or_refused, order_at, reads_for, schedule_names};

use crate::front::read_front;
use crate::{FileName, InputFault, TextFault};
use job_text::{JobFault, read_job};
use model_defs::Job;
use outside::Files;
use run_words::OrderWord;
use schedule::{Entry, Order, ScheduleFault, read_schedule};
use std::alloc::Global;

/// The most bytes of a job text.
const MOST_JOB_BYTES: usize = 1_048_576;

/// The most bytes of a schedule.
const MOST_SCHEDULE_BYTES: usize = 67_108_864;

/// The text of a file that was read.
#[derive(Drop)]
pub(crate) struct ReadText<'a> {
    pub name: &'a str,
    pub bytes: Vec<u8>,
}

/// The job, the order of deliveries, and the texts that they were read from.
#[derive(Drop)]
pub(crate) struct Texts<'a> {
    pub job: Job,
    pub order: Order,
    pub job_text: ReadText<'a>,
    pub schedule: Option<ReadText<'a>>,
}

/// The fault where the text of this name is no job.
fn job_fault<'a>(name: &'a str, fault: JobFault) -> InputFault<'a>
    ensures { result ≡ job_fault_at name.entry fault }
{
    match fault {
        JobFault::NoMem => InputFault::Memory,
        JobFault::NotToml
        | JobFault::Missing { .. }
        | JobFault::WrongKind { .. }
        | JobFault::UnknownKey { .. }
        | JobFault::UnknownName { .. }
        | JobFault::Limit { .. }
        | JobFault::BadMap { .. }
        | JobFault::MapMismatch { .. }
        | JobFault::NotCovered { .. }
        | JobFault::WrongSort { .. }
        | JobFault::NameTaken { .. } => InputFault::Refused {
            name: FileName::Word(name),
            fault: TextFault::Job(fault),
        },
    }
}

/// The fault where the text of this name is no schedule.
fn schedule_fault<'a>(name: &'a str, fault: ScheduleFault) -> InputFault<'a>
    ensures { result ≡ schedule_fault_at name.entry fault }
{
    match fault {
        ScheduleFault::NoMem => InputFault::Memory,
        ScheduleFault::BadLine { .. } | ScheduleFault::TooLong => InputFault::Refused {
            name: FileName::Word(name),
            fault: TextFault::Schedule(fault),
        },
    }
}

/// The job of a text of this name.
fn job_in<'a>(alloc: Global, name: &'a str, bytes: &[u8]) -> Result<Job, InputFault<'a>>
    ensures { Answers (λ job. job) [] (or_refused name.now TextFault.Job (job_of bytes.now)) result }
{
    match read_job(alloc, bytes) {
        Ok(job) => Ok(job),
        Err(fault) => Err(job_fault(name, fault)),
    }
}

/// The lines of a schedule of this name.
fn entries_in<'a>(alloc: Global, name: &'a str, bytes: &[u8]) -> Result<Vec<Entry>, InputFault<'a>>
    ensures { Answers (λ entries. entries.items) [] (or_refused name.now TextFault.Schedule (schedule_of bytes.now)) result }
{
    match read_schedule(alloc, bytes) {
        Ok(entries) => Ok(entries),
        Err(fault) => Err(schedule_fault(name, fault)),
    }
}

/// Reads the job of this name, and keeps its text.
fn read_job_text<'a, F: Files>(
    alloc: Global,
    files: &mut F,
    name: &'a str,
) -> Result<(Job, ReadText<'a>), InputFault<'a>>
    ensures reads { ReadsMany F.told F.faults files.old files.new result }
    ensures told { IfOk result (λ read. TellsText (F.told files.old) read.1) }
    ensures named { IfOk result (λ read. read.1.name.now ≡ name.now) }
    ensures job { IfOk result (λ read. job_of read.1.bytes.items ≡ Ok read.0) }
    ensures fault { IfErr result (λ fault. SomeSource (F.told files.old) (λ source.
        Stops (name.now ∷ []) (job_at source name.now) fault)) }
{
    let bytes = match read_front(alloc, files, name, MOST_JOB_BYTES) {
        Ok(bytes) => bytes,
        Err(fault) => return Err(fault),
    };
    let job = match job_in(alloc, name, &bytes) {
        Ok(job) => job,
        Err(fault) => return Err(fault),
    };
    Ok((job, ReadText { name, bytes }))
}

/// Reads the schedule of this name, and keeps its text, where it is not that of the job.
fn read_listed<'a, F: Files>(
    alloc: Global,
    files: &mut F,
    job: &ReadText<'a>,
    name: &'a str,
) -> Result<(Order, Option<ReadText<'a>>), InputFault<'a>>
    requires { TellsText (F.told files.old) job.now }
    ensures reads { ReadsMany F.told F.faults files.old files.new result }
    ensures told { IfOk result (λ read. TellsTextIfRead (F.told files.old) read.1) }
    ensures apart { IfOk result (λ read. IsApart job.now read.1) }
    ensures order { IfOk result (λ read. (source : Source) → GivesText source job.now → GivesTextIfRead source read.1
        → order_at source (listed name.now) ≡ Ok (order_given read.0)) }
    ensures fault { IfErr result (λ fault. SomeSource (F.told files.old) (λ source.
        GivesText source job.now × Stops (name.now ∷ []) (order_at source (listed name.now)) fault)) }
{
    if name == job.name {
        let entries = match entries_in(alloc, name, &job.bytes) {
            Ok(entries) => entries,
            Err(fault) => return Err(fault),
        };
        return Ok((Order::Listed(entries), None));
    }
    let bytes = match read_front(alloc, files, name, MOST_SCHEDULE_BYTES) {
        Ok(bytes) => bytes,
        Err(fault) => return Err(fault),
    };
    let entries = match entries_in(alloc, name, &bytes) {
        Ok(entries) => entries,
        Err(fault) => return Err(fault),
    };
    Ok((Order::Listed(entries), Some(ReadText { name, bytes })))
}

/// The order that the words ask for, and the text of the schedule where one was read.
fn read_order<'a, F: Files>(
    alloc: Global,
    files: &mut F,
    job: &ReadText<'a>,
    asked: OrderWord<'a>,
) -> Result<(Order, Option<ReadText<'a>>), InputFault<'a>>
    requires { TellsText (F.told files.old) job.now }
    ensures reads { ReadsMany F.told F.faults files.old files.new result }
    ensures told { IfOk result (λ read. TellsTextIfRead (F.told files.old) read.1) }
    ensures apart { IfOk result (λ read. IsApart job.now read.1) }
    ensures order { IfOk result (λ read. (source : Source) → GivesText source job.now → GivesTextIfRead source read.1
        → order_at source (order_view asked.entry) ≡ Ok (order_given read.0)) }
    ensures fault { IfErr result (λ fault. SomeSource (F.told files.old) (λ source.
        GivesText source job.now × Stops (schedule_names (order_view asked.entry)) (order_at source (order_view asked.entry)) fault)) }
{
    match asked {
        OrderWord::Fifo => Ok((Order::Fifo, None)),
        OrderWord::Lifo => Ok((Order::Lifo, None)),
        OrderWord::Seed(seed) => Ok((Order::Seed(seed), None)),
        OrderWord::Listed(name) => read_listed(alloc, files, job, name),
    }
}

/// Reads the job of this name, then the schedule where the words name one, and keeps their texts.
pub(crate) fn read_texts<'a, F: Files>(
    alloc: Global,
    files: &mut F,
    name: &'a str,
    asked: OrderWord<'a>,
) -> Result<Texts<'a>, InputFault<'a>>
    ensures reads { ReadsMany F.told F.faults files.old files.new result }
    ensures told { IfOk result (λ texts. TellsTexts (F.told files.old) texts) }
    ensures read { IfOk result (λ texts. AreRead name.now (order_view asked.entry) texts) }
    ensures valid { IfOk result (λ texts. IsValid texts.job) }
    ensures fault { IfErr result (λ fault. SomeSource (F.told files.old) (λ source.
        Stops (reads_for source name.now (order_view asked.entry)) (input_of source name.now (order_view asked.entry)) fault)) }
{
    let (job, job_text) = match read_job_text(alloc, files, name) {
        Ok(read) => read,
        Err(fault) => return Err(fault),
    };
    let (order, schedule) = match read_order(alloc, files, &job_text, asked) {
        Ok(read) => read,
        Err(fault) => return Err(fault),
    };
    Ok(Texts {
        job,
        order,
        job_text,
        schedule,
    })
}
