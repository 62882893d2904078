//! What a run writes.
ghost use Rattle.std.specs.Prelude.{◌≡◌, All, IfErr, IfOk};
ghost use Rattle.outside.specs.Writes.{Writes};
ghost use Rattle.rank_sim.specs.Writable.{IsWritable};
ghost use Rattle.std.specs.List.{flat_map};
ghost use Rattle.run_output.specs.Pages.{IsReady, page_text};
ghost use Rattle.tpx.specs.Running.{IsOutputOf, listed, output_text};

use crate::fault::Fault;
use model_defs::{LetterLine, PhaseLine};
use outside::{Sink, SinkFault};
use rank_sim::Outcome;
use run_output::{Page, pages_of, write_pages, write_traffic};
use std::alloc::Global;

/// What a run writes, with all memory that the writing needs.
#[derive(Drop)]
pub struct Output {
    pub pages: Vec<Page>,
    pub phases: Vec<PhaseLine>,
    pub letters: Vec<LetterLine>,
}

/// What is written of an outcome. Only `Memory` may come.
pub fn output_of<'a>(alloc: Global, outcome: Outcome) -> Result<Output, Fault<'a>>
    requires { All IsWritable outcome.sheets.items }
    ensures output { IfOk result (IsOutputOf outcome) }
    ensures fault { IfErr result (λ fault. fault ≡ Fault.Memory) }
{
    let Outcome {
        sheets,
        phases,
        letters,
    } = outcome;
    let pages = pages_of(alloc, sheets)?;
    Ok(Output {
        pages,
        phases,
        letters,
    })
}

/// Writes the printed values. Only `Unwritten` may come.
fn write_values<'a, O: Sink>(out: &mut O, output: &Output) -> Result<(), Fault<'a>>
    requires { All IsReady output.now.pages.items }
    ensures writes { Writes O.told O.faults out.old out.new (flat_map page_text output.now.pages.items) result }
    ensures fault { IfErr result (λ fault. fault ≡ Fault.Unwritten) }
{
    match write_pages(out, &output.pages) {
        Ok(()) => Ok(()),
        Err(SinkFault) => Err(Fault::Unwritten),
    }
}

/// Writes the traffic listing where it was asked for. Only `Unwritten` may come.
fn write_listing<'a, O: Sink>(out: &mut O, output: &Output, traffic: bool) -> Result<(), Fault<'a>>
    ensures writes { Writes O.told O.faults out.old out.new (listed traffic output.now) result }
    ensures fault { IfErr result (λ fault. fault ≡ Fault.Unwritten) }
{
    if !traffic {
        return Ok(());
    }
    match write_traffic(out, &output.phases, &output.letters) {
        Ok(()) => Ok(()),
        Err(SinkFault) => Err(Fault::Unwritten),
    }
}

/// Writes the printed values, and then the traffic listing where it was asked for. Only `Unwritten` may come.
pub fn write_output<'a, O: Sink>(
    out: &mut O,
    output: &Output,
    traffic: bool,
) -> Result<(), Fault<'a>>
    requires { All IsReady output.now.pages.items }
    ensures writes { Writes O.told O.faults out.old out.new (output_text traffic output.now) result }
    ensures fault { IfErr result (λ fault. fault ≡ Fault.Unwritten) }
{
    if let Err(fault) = write_values(out, output) {
        return Err(fault);
    }
    write_listing(out, output, traffic)
}
