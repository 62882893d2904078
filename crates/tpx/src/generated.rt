//! The command `gen`: the job of a size, the play of its ranks in fifo order, and a summary of what they have.
ghost use Rattle.std.specs.Prelude.{◌≡◌, ◌≤◌, ◌⊎◌, IfErr, IfOk, None, OnOk, Option, Some};
ghost use Rattle.outside.specs.declared.name.Name.{Name};
ghost use Rattle.outside.specs.Faults.{Rose};
ghost use Rattle.outside.specs.Reads.{Source};
ghost use Rattle.outside.specs.Writes.{Writes};
ghost use Rattle.message_play.specs.Plays.{wire_state};
ghost use Rattle.schedule.specs.Orders.{Complete};
ghost use Rattle.generated_job.specs.Generated.{most_generated};
ghost use Rattle.run_input.specs.Answering.{input_view};
ghost use Rattle.run_output.specs.Summaries.{summary_text};
ghost use Rattle.tpx.specs.Calls.{SomeCall, is_settled};
ghost use Rattle.tpx.specs.Endings.{generated_input};
ghost use Rattle.tpx.specs.Faults.{result_status};
ghost use Rattle.tpx.specs.Runs.{end_of};
ghost use Rattle.tpx.specs.Steps.{Gives, HasPlayed, IsWireFailed, Touches};
ghost use Rattle.tpx.specs.Words.{gen};

use crate::fault::Fault;
use crate::run::play;
use generated_job::laws::generated_jobs_are_valid;
use generated_job::{generated_files, generated_job};
use model_defs::laws::jobs_are_protocols;
use outside::{Sink, SinkFault, Wire};
use run_input::Given;
use run_output::{Summary, summary_of, write_summary};
use scalar_laws::Weighed;
use schedule::Order;
use schedule::laws::choosers_complete;
use std::alloc::Global;
use std::rc::Rc;

/// Fifo delivers each letter of the job.
fn all_are_delivered(size: u32)
    ensures { end_of (generated_input size) ≡ Complete }
{
    choosers_complete();
    jobs_are_protocols::<Weighed>();
}

/// The job of this size with its files, in fifo order. Only `Memory` may come.
fn given_of<'a>(alloc: Global, size: u32) -> Result<Given, Fault<'a>>
    requires few { size ≤ most_generated }
    ensures input { IfOk result (λ given. input_view given ≡ generated_input size) }
    ensures fault { IfErr result (λ fault. fault ≡ Fault.Memory) }
{
    let job = generated_job(alloc, size)?;
    let files = generated_files(alloc, size)?;
    let job = Rc::new(alloc, job)?;
    Ok(Given {
        job,
        files,
        order: Order::Fifo,
    })
}

/// Writes a summary. Only `Unwritten` may come.
fn write_lines<'a, O: Sink>(out: &mut O, summary: &Summary) -> Result<(), Fault<'a>>
    ensures writes { Writes O.told O.faults out.old out.new (summary_text summary.now) result }
    ensures fault { IfErr result (λ fault. fault ≡ Fault.Unwritten) }
{
    match write_summary(out, summary) {
        Ok(()) => Ok(()),
        Err(SinkFault) => Err(Fault::Unwritten),
    }
}

/// Makes the job of this size, plays its ranks over the wire in fifo order, and writes a summary of the printed values and of
/// the letters. Nothing is written before all letters were delivered, no number is over, and neither is one of the two sums.
pub fn run_generated<'a, W: Wire, O: Sink>(
    alloc: Global,
    size: u32,
    wire: &mut W,
    out: &mut O,
) -> Result<(), Fault<'a>>
    requires some { 1 ≤ size }
    requires few { size ≤ most_generated }
    requires nothing_pending { (name : Name) → W.pending wire.old name ≡ None }
    ensures gives { (told : Option Source) → SomeCall told (Some (gen size)) (is_settled (result_status result)) (wire_state W.pending W.posted W.taken W.given W.is_honest wire.old) (wire_state W.pending W.posted W.taken W.given W.is_honest wire.new)
        (Gives O.told out.old out.new result) }
    ensures played { HasPlayed result }
    ensures untouched { Touches result ⊎ (out.new ≡ out.old) }
    ensures unwritten { IfErr result (λ fault. fault ≡ Fault.Unwritten → Rose (O.faults out.old) (O.faults out.new)) }
    ensures no_write_fault { OnOk result (O.faults out.new ≡ O.faults out.old) }
    ensures out_never_falls { O.faults out.old ≤ O.faults out.new }
    ensures wire_fault { IsWireFailed result → Rose (W.faults wire.old) (W.faults wire.new) }
    ensures no_wire_fault { IsWireFailed result ⊎ (W.faults wire.new ≡ W.faults wire.old) }
    ensures wire_never_falls { W.faults wire.old ≤ W.faults wire.new }
{
    generated_jobs_are_valid(size);
    all_are_delivered(size);
    let given = match given_of(alloc, size) {
        Ok(given) => given,
        Err(fault) => return Err(fault),
    };
    let outcome = match play(alloc, &given, wire) {
        Ok(outcome) => outcome,
        Err(fault) => return Err(fault),
    };
    match summary_of(size, &outcome.sheets, &outcome.letters) {
        Some(summary) => write_lines(out, &summary),
        None => Err(Fault::Overflow),
    }
}
