//! What ranks that are finished have together, as it is shown.
ghost use Rattle.std.specs.Prelude.{◌≡◌, ◌<◌, ◌++◌, true, List, Ok, IfOk, OnOk};
ghost use Rattle.mm_text.specs.Reading.{File};
ghost use Rattle.peers.specs.Protocols.{Letter};
ghost use Rattle.model_defs.specs.Makers.{value_count};
ghost use Rattle.model_defs.specs.Shapes.{shape};
ghost use Rattle.model_defs.specs.Sheets.{sheets_by, sheets_of, step_sheets};
ghost use Rattle.rank_sim.specs.Ranks.{AreFinished, HaveFinished, PrintsBelow};
ghost use Rattle.rank_sim.specs.Runs.{IsOutcome, ShowsEnd, gathered_values, is_complete};

use crate::letters::letter_lines;
use crate::ranks::{any_over, pieces_of};
use crate::{End, Outcome};
use job_sheets::value_sheets;
use model_defs::{Job, Sheet, Step};
use phase_list::phase_lines;
use rank_core::Rank;
use scalar_laws::Scalar;
use std::alloc::{AllocError, Global};

/// The sheets of a value. `Err` means that memory ran out.
fn sheets_of_value<S: Scalar + Drop>(
    alloc: Global,
    job: &Job,
    ranks: &[Rank<S>],
    value: u32,
) -> Result<Vec<Sheet>, AllocError>
    requires finished { HaveFinished S.semiring S.conversions job.now ranks.now }
    requires value { value < value_count job.now }
    ensures sheets { IfOk result (λ sheets. (files : List File) (letters : List Letter) → AreFinished S.semiring S.conversions job.now files letters ranks.now
        → sheets.items ≡ sheets_by S.conversions job.now (shape job.now value).sort (shape job.now value) (gathered_values S.semiring S.conversions job.now files letters value)) }
{
    let pieces = pieces_of(alloc, ranks, value)?;
    value_sheets(alloc, job, value, &pieces)
}

/// The sheets of a statement: those of the value that it prints. `Err` means that memory ran out.
fn sheets_of_step<S: Scalar + Drop>(
    alloc: Global,
    job: &Job,
    ranks: &[Rank<S>],
    step: &Step,
) -> Result<Vec<Sheet>, AllocError>
    requires finished { HaveFinished S.semiring S.conversions job.now ranks.now }
    requires known { PrintsBelow (value_count job.now) step.now }
    ensures sheets { IfOk result (λ sheets. (files : List File) (letters : List Letter) → AreFinished S.semiring S.conversions job.now files letters ranks.now
        → sheets.items ≡ step_sheets S.conversions job.now (gathered_values S.semiring S.conversions job.now files letters) step.now) }
{
    match step {
        Step::Print { value } => sheets_of_value(alloc, job, ranks, *value),
        _ => Ok(Vec::new(alloc)),
    }
}

/// Puts sheets at the end.
fn add_sheets(sheets: &mut Vec<Sheet>, more: Vec<Sheet>) -> Result<(), AllocError>
    ensures sheets { OnOk result (sheets.new.items ≡ sheets.old.items ++ more.items) }
{
    for sheet in more {
        sheets.push(sheet)?;
    }
    Ok(())
}

/// The sheets of all printed values, in the order of the statements. `Err` means that memory ran out.
fn all_sheets<S: Scalar + Drop>(
    alloc: Global,
    job: &Job,
    ranks: &[Rank<S>],
) -> Result<Vec<Sheet>, AllocError>
    requires finished { HaveFinished S.semiring S.conversions job.now ranks.now }
    ensures sheets { IfOk result (λ sheets. (files : List File) (letters : List Letter) → AreFinished S.semiring S.conversions job.now files letters ranks.now
        → sheets.items ≡ sheets_of S.conversions job.now (gathered_values S.semiring S.conversions job.now files letters)) }
{
    let mut sheets = Vec::new(alloc);
    for step in job.steps.as_slice() {
        let more = sheets_of_step(alloc, job, ranks, step)?;
        add_sheets(&mut sheets, more)?;
    }
    Ok(sheets)
}

/// What a job shows whose ranks are finished. `Err` means that memory ran out.
fn outcome<S: Scalar + Drop>(
    alloc: Global,
    job: &Job,
    ranks: &[Rank<S>],
) -> Result<Outcome, AllocError>
    requires finished { HaveFinished S.semiring S.conversions job.now ranks.now }
    ensures shows { IfOk result (λ outcome. (files : List File) (letters : List Letter) → AreFinished S.semiring S.conversions job.now files letters ranks.now
        → IsOutcome S.conversions job.now files (gathered_values S.semiring S.conversions job.now files letters) outcome) }
{
    let phases = phase_lines(alloc, job)?;
    let letters = letter_lines(alloc, job, ranks, phases.as_slice())?;
    Ok(Outcome {
        sheets: all_sheets(alloc, job, ranks)?,
        phases,
        letters,
    })
}

/// How a job ends whose ranks are finished: it shows its values, unless a cell of one of them is over. `Err` means that memory
/// ran out.
pub(crate) fn end_of<S: Scalar + Drop>(
    alloc: Global,
    job: &Job,
    ranks: &[Rank<S>],
) -> Result<End, AllocError>
    requires finished { HaveFinished S.semiring S.conversions job.now ranks.now }
    ensures complete { IfOk result (λ end. is_complete (Ok end) ≡ true) }
    ensures shows { IfOk result (λ end. (files : List File) (letters : List Letter) → AreFinished S.semiring S.conversions job.now files letters ranks.now
        → ShowsEnd S.conversions job.now files (gathered_values S.semiring S.conversions job.now files letters) end) }
{
    if any_over(ranks) {
        return Ok(End::Over);
    }
    Ok(End::Done(outcome(alloc, job, ranks)?))
}
