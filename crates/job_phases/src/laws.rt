//! The laws of a job's phases. Each function has an empty body: what it proves is its contract.
ghost use Rattle.job_phases.specs.Laws.{JobsGoByPhase, LocalJobsHaveNoPhases, NamesAreByPhase, OthersArePosted, OthersAreAwaited};

use scalar_laws::Scalar;

/// The letters of every job go phase by phase: before a letter come all letters to its sender of earlier phases, and what
/// its sender makes depends on these alone, of each phase in the order given.
pub fn jobs_go_by_phase<S: Scalar>()
    ensures { JobsGoByPhase S.semiring S.conversions }
{}

/// In each phase a rank posts a letter to each other rank, and awaits one from each other rank, but for letters of numbers
/// without entries, which are left out.
pub fn others_are_posted_and_awaited()
    ensures names { NamesAreByPhase }
    ensures posts { OthersArePosted }
    ensures awaits { OthersAreAwaited }
{}

/// A job without matrices whose statements go cell by cell, or print, has no phases.
pub fn local_jobs_have_no_phases()
    ensures { LocalJobsHaveNoPhases }
{}
