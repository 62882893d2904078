//! The letters of a job whose ranks are finished, as they are listed: by phase, then sender, then receiver.
ghost use Rattle.std.specs.Prelude.{◌≡◌, ◌<◌, ◌++◌, List, IfOk, OnOk, length};
ghost use Rattle.mm_text.specs.Reading.{File};
ghost use Rattle.peers.specs.Protocols.{Letter};
ghost use Rattle.model_defs.specs.Phases.{phases as phases_of};
ghost use Rattle.model_defs.specs.Traffic.{letter_lines as lines_of, phase_lines_of};
ghost use Rattle.rank_sim.specs.LetterLines.{line_of, lines_from, lines_of_phase};
ghost use Rattle.rank_sim.specs.Ranks.{AreFinished, HaveFinished};

use model_defs::{Job, LetterLine, PhaseLine};
use outside::Name;
use rank_core::Rank;
use scalar_laws::Scalar;
use std::alloc::{AllocError, Global};

/// Puts the line of a letter at the end, if the letter is one of the job's.
fn add_line<S: Scalar + Drop>(
    lines: &mut Vec<LetterLine>,
    job: &Job,
    ranks: &[Rank<S>],
    name: Name,
) -> Result<(), AllocError>
    requires finished { HaveFinished S.semiring S.conversions job.now ranks.now }
    requires phase { name.phase < length (phases_of job.now) }
    requires receiver { name.to < job.now.ranks }
    ensures lines { OnOk result ((files : List File) (letters : List Letter) → AreFinished S.semiring S.conversions job.now files letters ranks.now
        → lines.new.items ≡ lines.old.items ++ line_of job.now files name) }
{
    match ranks[name.to as usize].entries_from(name.phase, name.from) {
        Some(entries) => Ok(lines.push(LetterLine { name, entries })?),
        None => Ok(()),
    }
}

/// Puts the lines of the letters of a phase from a rank at the end, by receiver.
fn add_lines_from<S: Scalar + Drop>(
    lines: &mut Vec<LetterLine>,
    job: &Job,
    ranks: &[Rank<S>],
    phase: u32,
    from: u32,
) -> Result<(), AllocError>
    requires finished { HaveFinished S.semiring S.conversions job.now ranks.now }
    requires phase { phase < length (phases_of job.now) }
    requires sender { from < job.now.ranks }
    ensures lines { OnOk result ((files : List File) (letters : List Letter) → AreFinished S.semiring S.conversions job.now files letters ranks.now
        → lines.new.items ≡ lines.old.items ++ lines_from job.now files phase from job.now.ranks) }
{
    for to in 0..job.ranks {
        add_line(lines, job, ranks, Name { phase, from, to })?;
    }
    Ok(())
}

/// Puts the lines of the letters of a phase at the end, by sender, then receiver.
fn add_lines_of_phase<S: Scalar + Drop>(
    lines: &mut Vec<LetterLine>,
    job: &Job,
    ranks: &[Rank<S>],
    phase: u32,
) -> Result<(), AllocError>
    requires finished { HaveFinished S.semiring S.conversions job.now ranks.now }
    requires phase { phase < length (phases_of job.now) }
    ensures lines { OnOk result ((files : List File) (letters : List Letter) → AreFinished S.semiring S.conversions job.now files letters ranks.now
        → lines.new.items ≡ lines.old.items ++ lines_of_phase job.now files phase job.now.ranks) }
{
    for from in 0..job.ranks {
        add_lines_from(lines, job, ranks, phase, from)?;
    }
    Ok(())
}

/// The lines of all letters of a job with these phases: who sent it to whom in which phase, and how many entries it has. Each
/// receiver is asked for the letters to it. `Err` means that memory ran out.
pub(crate) fn letter_lines<S: Scalar + Drop>(
    alloc: Global,
    job: &Job,
    ranks: &[Rank<S>],
    phases: &[PhaseLine],
) -> Result<Vec<LetterLine>, AllocError>
    requires finished { HaveFinished S.semiring S.conversions job.now ranks.now }
    requires phases { phases.now ≡ phase_lines_of job.now }
    ensures lines { IfOk result (λ lines. (files : List File) (letters : List Letter) → AreFinished S.semiring S.conversions job.now files letters ranks.now
        → lines.items ≡ lines_of job.now files) }
{
    let mut lines = Vec::new(alloc);
    for line in phases {
        add_lines_of_phase(&mut lines, job, ranks, line.phase)?;
    }
    Ok(lines)
}
