//! The phases of a job as a listing of its traffic names them.
ghost use Rattle.std.specs.Prelude.{◌≡◌, ◌<◌, ◌^◌, IfOk, length};
ghost use Rattle.model_defs.specs.Traffic.{phase_lines_from, phase_lines_of};
ghost use Rattle.model_defs.specs.Valid.{IsValid};

use crate::all_phases::phases;
use crate::maker::name_at;
use model_defs::{Job, Phase, PhaseLine, Text};
use std::alloc::{AllocError, Global};

/// The lines of these phases, which count from 0. `Err` means that memory ran out.
pub(crate) fn lines_of(
    alloc: Global,
    job: &Job,
    phases: &[Phase],
) -> Result<Vec<PhaseLine>, AllocError>
    requires few { length phases.now < 2 ^ 32 }
    ensures lines { IfOk result (λ lines. lines.items ≡ phase_lines_from job.now 0 phases.now) }
{
    let mut lines = Vec::new(alloc);
    for (n, phase) in phases.iter().enumerate() {
        lines.push(PhaseLine {
            phase: n as u32,
            kind: phase.kind,
            name: Text::new(alloc, name_at(job, phase.value))?,
        })?;
    }
    Ok(lines)
}

/// The phases of a job, each with its number, the kind of its letters and the name of the value for which it is. Phases
/// count from 0. The job is valid. `Err` means that memory ran out. The job stays as it is.
pub fn phase_lines(alloc: Global, job: &Job) -> Result<Vec<PhaseLine>, AllocError>
    requires valid { IsValid job.now }
    ensures lines { IfOk result (λ lines. lines.items ≡ phase_lines_of job.now) }
{
    let phases = phases(alloc, job)?;
    lines_of(alloc, job, phases.as_slice())
}
