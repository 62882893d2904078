//! What the statements say that make a value of the cells of another one.
ghost use Rattle.std.specs.Prelude.{◌≡◌, ℕ, Some};
ghost use Rattle.model_defs.specs.declared.job.Job.{Job};
ghost use Rattle.model_defs.specs.Makers.{Made, maker_of};
ghost use Rattle.model_defs.specs.Shapes.{shape};
ghost use Rattle.rank_stages.specs.DataLaws.{copied_by};
ghost use Rattle.value_phases.specs.ValuePhases.{IsCopy, copy_transfer, mode_of, onto_of};

use combine_modes::Mode;
use model_defs::{Job, Plan, Step};
use phase_list::{MadeBy, maker_at};

/// The statement that makes value k of the cells of another value.
pub fn copying_step(job: &Job, k: usize) -> &Step
    requires copy { IsCopy job.now k }
    ensures made { Made result.now ≡ maker_of job.now k }
{
    match maker_at(job, k) {
        MadeBy::Statement(step) => step,
        MadeBy::Vector(_) | MadeBy::Parts(_) | MadeBy::Matrix(_) | MadeBy::Nothing => {
            unreachable!()
        }
    }
}

/// The value of whose cells it makes one.
pub fn source_of(step: &Step) -> usize
    requires copies { (source : ℕ) × (copied_by (Made step.now) ≡ Some source) }
    ensures source { copied_by (Made step.now) ≡ Some result }
{
    match step {
        Step::Move { from, .. }
        | Step::Import { from, .. }
        | Step::Export { from, .. }
        | Step::Spread { from, .. } => *from as usize,
        Step::Update { .. }
        | Step::Scale { .. }
        | Step::Apply { .. }
        | Step::Transpose { .. }
        | Step::Multiply { .. }
        | Step::Add { .. }
        | Step::Assemble { .. }
        | Step::Print { .. } => unreachable!(),
    }
}

/// The value with whose cells these are combined, if it names one.
pub fn onto_of(step: &Step) -> Option<usize>
    ensures onto { result ≡ onto_of (Made step.now) }
{
    match step {
        Step::Import { onto, .. } | Step::Export { onto, .. } => Some(*onto as usize),
        Step::Move { .. }
        | Step::Spread { .. }
        | Step::Update { .. }
        | Step::Scale { .. }
        | Step::Apply { .. }
        | Step::Transpose { .. }
        | Step::Multiply { .. }
        | Step::Add { .. }
        | Step::Assemble { .. }
        | Step::Print { .. } => None,
    }
}

/// How they are combined. Zeros are replaced.
pub fn mode_of(step: &Step) -> Mode
    ensures mode { result ≡ mode_of (Made step.now) }
{
    match step {
        Step::Import { mode, .. } | Step::Export { mode, .. } => *mode,
        Step::Move { .. }
        | Step::Spread { .. }
        | Step::Update { .. }
        | Step::Scale { .. }
        | Step::Apply { .. }
        | Step::Transpose { .. }
        | Step::Multiply { .. }
        | Step::Add { .. }
        | Step::Assemble { .. }
        | Step::Print { .. } => Mode::Replace,
    }
}

/// The plan of its transfer from the one map to the other: an export goes to the owners of its target, and all others come from
/// the owners of their source.
pub fn plan_of(step: &Step, source: u32, target: u32) -> Plan
    ensures plan { (job : Job) (k x : ℕ) → source ≡ (shape job x).rows → target ≡ (shape job k).rows → result ≡ (copy_transfer job k x (Made step.now)).plan }
{
    match step {
        Step::Export { .. } => Plan::ExportPlan { source, target },
        Step::Move { .. }
        | Step::Import { .. }
        | Step::Spread { .. }
        | Step::Update { .. }
        | Step::Scale { .. }
        | Step::Apply { .. }
        | Step::Transpose { .. }
        | Step::Multiply { .. }
        | Step::Add { .. }
        | Step::Assemble { .. }
        | Step::Print { .. } => Plan::ImportPlan { source, target },
    }
}
