//! The command `run`: a job, its files and an order of deliveries, the play of the ranks, and the text of what they have.
ghost use Rattle.std.specs.Prelude.{◌≡◌, ◌≤◌, ◌⊎◌, ℕ, List, All, IfErr, IfOk, None, OnOk, Some, map};
ghost use Rattle.mm_text.specs.Reading.{file_of};
ghost use Rattle.outside.specs.declared.name.Name.{Name};
ghost use Rattle.outside.specs.Faults.{Rose};
ghost use Rattle.message_play.specs.Plays.{wire_state};
ghost use Rattle.model_defs.specs.Fitting.{IsFitting};
ghost use Rattle.model_defs.specs.Valid.{IsValid};
ghost use Rattle.rank_sim.specs.Writable.{IsWritable};
ghost use Rattle.run_input.specs.Answering.{input_view};
ghost use Rattle.run_input.specs.Sources.{SomeSource};
ghost use Rattle.run_words.specs.Seen.{words_view};
ghost use Rattle.tpx.specs.Calls.{SomeCall, is_settled};
ghost use Rattle.tpx.specs.Endings.{reads};
ghost use Rattle.tpx.specs.Faults.{result_status};
ghost use Rattle.tpx.specs.Running.{IsPlayedRun, outcome_of};
ghost use Rattle.tpx.specs.Steps.{Gives, HasPlayed, IsUnread, IsWireFailed, RoseAt, Touches, UnreadIsAmong, fault_given};
ghost use Rattle.tpx.specs.Words.{run};

use crate::fault::Fault;
use crate::output::{output_of, write_output};
use outside::{Files, Sink, Wire};
use rank_sim::laws::complete_runs_show_eval;
use rank_sim::{End, Outcome, RunFault, run};
use run_input::{Given, InputFault, read_given};
use run_words::RunWords;
use scalar_laws::Weighed;
use std::alloc::Global;

/// How the command ends where a run is not given what it needs.
fn fault_of<'a>(fault: InputFault<'a>) -> Fault<'a>
    ensures { result ≡ fault_given fault.entry }
{
    match fault {
        InputFault::Memory => Fault::Memory,
        InputFault::Unread { name } => Fault::Unread { file: name },
        InputFault::Refused { name, fault } => Fault::Refused { file: name, fault },
    }
}

/// How the command goes on where the ranks were played to this end.
fn outcome_of<'a>(ended: Result<End, RunFault>) -> Result<Outcome, Fault<'a>>
    ensures outcome { result ≡ outcome_of ended }
    ensures began { HasPlayed result }
{
    match ended {
        Ok(End::Done(outcome)) => Ok(outcome),
        Ok(End::Undelivered(names)) => Err(Fault::Undelivered { names }),
        Ok(End::Over) => Err(Fault::Overflow),
        Err(RunFault::NotInFlight { line, name }) => Err(Fault::WrongLine { line, name }),
        Err(RunFault::WireFault) => Err(Fault::WireFailed),
        Err(RunFault::NoMem) => Err(Fault::Memory),
    }
}

/// Plays the ranks of a job over a wire on which nothing is pending.
pub fn play<'a, W: Wire>(alloc: Global, given: &Given, wire: &mut W) -> Result<Outcome, Fault<'a>>
    requires valid { IsValid given.now.job.value }
    requires fitting { IsFitting given.now.job.value (map file_of given.now.files.items) }
    requires nothing_pending { (name : Name) → W.pending wire.old name ≡ None }
    ensures played { IsPlayedRun (input_view given.now) (wire_state W.pending W.posted W.taken W.given W.is_honest wire.old) (wire_state W.pending W.posted W.taken W.given W.is_honest wire.new) result }
    ensures writable { IfOk result (λ outcome. All IsWritable outcome.sheets.items) }
    ensures began { HasPlayed result }
    ensures unread { IsUnread result → ⊥ }
    ensures wire_fault { IsWireFailed result → Rose (W.faults wire.old) (W.faults wire.new) }
    ensures no_wire_fault { IsWireFailed result ⊎ (W.faults wire.new ≡ W.faults wire.old) }
    ensures wire_never_falls { W.faults wire.old ≤ W.faults wire.new }
{
    complete_runs_show_eval::<Weighed>();
    outcome_of(run(alloc, &given.job, &given.files, wire, &given.order))
}

/// Runs a job: reads what it is given, plays its ranks over the wire in the order that the words ask for, and writes the
/// printed values, and then the traffic listing where it was asked for. Nothing is written before all letters were
/// delivered, no number is over, and all memory was taken that the writing needs. Nothing is posted before all that the run
/// is given was read and tested.
pub fn run_job<'a, F: Files, W: Wire, O: Sink>(
    alloc: Global,
    words: RunWords<'a>,
    files: &mut F,
    wire: &mut W,
    out: &mut O,
) -> Result<(), Fault<'a>>
    requires nothing_pending { (name : Name) → W.pending wire.old name ≡ None }
    ensures gives { SomeCall (F.told files.old) (Some (run (words_view words.entry))) (is_settled (result_status result)) (wire_state W.pending W.posted W.taken W.given W.is_honest wire.old) (wire_state W.pending W.posted W.taken W.given W.is_honest wire.new)
        (Gives O.told out.old out.new result) }
    ensures named { SomeSource (F.told files.old) (λ source. UnreadIsAmong (reads (Some (run (words_view words.entry))) source) result) }
    ensures same_files { F.told files.new ≡ F.told files.old }
    ensures files_never_fall { (name : List ℕ) → F.faults files.old name ≤ F.faults files.new name }
    ensures unread { RoseAt (F.faults files.old) (F.faults files.new) result }
    ensures no_read_fault { IsUnread result ⊎ ((name : List ℕ) → F.faults files.new name ≡ F.faults files.old name) }
    ensures untouched { Touches result ⊎ (out.new ≡ out.old) }
    ensures unwritten { IfErr result (λ fault. fault ≡ Fault.Unwritten → Rose (O.faults out.old) (O.faults out.new)) }
    ensures no_write_fault { OnOk result (O.faults out.new ≡ O.faults out.old) }
    ensures out_never_falls { O.faults out.old ≤ O.faults out.new }
    ensures wire_fault { IsWireFailed result → Rose (W.faults wire.old) (W.faults wire.new) }
    ensures no_wire_fault { IsWireFailed result ⊎ (W.faults wire.new ≡ W.faults wire.old) }
    ensures wire_never_falls { W.faults wire.old ≤ W.faults wire.new }
    ensures same_wire { HasPlayed result ⊎ (wire.new ≡ wire.old) }
{
    let given = match read_given(alloc, files, words.job, words.order) {
        Ok(given) => given,
        Err(fault) => return Err(fault_of(fault)),
    };
    let outcome = match play(alloc, &given, wire) {
        Ok(outcome) => outcome,
        Err(fault) => return Err(fault),
    };
    let output = match output_of(alloc, outcome) {
        Ok(output) => output,
        Err(fault) => return Err(fault),
    };
    write_output(out, &output, words.traffic)
}
