//! The integers that a job states have weighed numbers, since they are 64 bits wide. What is read from behind a reference brings
//! no bound along, so each of them is looked at once; nothing is computed.
ghost use Rattle.std.specs.Prelude.{IsSome};
ghost use Rattle.std.specs.List.{flat_map};
ghost use Rattle.scalar_laws.specs.Weighed.{weighed_conversions};
ghost use Rattle.model_defs.specs.Makers.{makers};
ghost use Rattle.model_defs.specs.Numbers.{maker_integers, origin_integers, step_integers};
ghost use Rattle.rank_sim.specs.Stated.{AreWeighed};

use model_defs::{Job, Origin, PartsSpec, Step, VectorSpec};

/// An integer of 64 bits has a weighed number.
fn is_weighed(_value: i64)
    ensures number { IsSome (weighed_conversions.of_file _value) }
{}

/// So has the number for each cell, where it is given.
fn is_weighed_origin(from: &Origin)
    ensures numbers { AreWeighed (origin_integers from.now) }
{
    if let Origin::Fill(value) = from {
        is_weighed(*value);
    }
}

/// So have the factors of a statement.
fn is_weighed_step(step: &Step)
    ensures numbers { AreWeighed (step_integers step.now) }
{
    match step {
        Step::Update { alpha, beta, .. }
        | Step::Apply { alpha, beta, .. }
        | Step::Add { alpha, beta, .. } => {
            is_weighed(*alpha);
            is_weighed(*beta);
        }
        Step::Scale { alpha, .. } => is_weighed(*alpha),
        _ => (),
    }
}

/// So has each number that a vector is filled with.
fn are_weighed_vectors(specs: &[VectorSpec])
    ensures numbers { AreWeighed (flat_map (λ spec. origin_integers spec.from) specs.now) }
{
    for spec in specs {
        is_weighed_origin(&spec.from);
    }
}

/// So has each number that parts are filled with.
fn are_weighed_parts(specs: &[PartsSpec])
    ensures numbers { AreWeighed (flat_map (λ spec. origin_integers spec.from) specs.now) }
{
    for spec in specs {
        is_weighed_origin(&spec.from);
    }
}

/// So have the factors of all statements.
fn are_weighed_steps(steps: &[Step])
    ensures numbers { AreWeighed (flat_map step_integers steps.now) }
{
    for step in steps {
        is_weighed_step(step);
    }
}

/// So has each integer that a job states.
pub(crate) fn stated_are_weighed(job: &Job)
    ensures numbers { AreWeighed (flat_map maker_integers (makers job.now)) }
{
    are_weighed_vectors(job.vectors.as_slice());
    are_weighed_parts(job.parts.as_slice());
    are_weighed_steps(job.steps.as_slice());
}
