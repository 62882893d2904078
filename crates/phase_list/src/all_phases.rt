//! The phases of a job, value after value.
ghost use Rattle.std.specs.Prelude.{◌≡◌, IfOk, OnOk};
ghost use Rattle.model_defs.specs.Phases.{phases, value_acts};
ghost use Rattle.model_defs.specs.ShapeLists.{at_list};
ghost use Rattle.model_defs.specs.Shapes.{shape};
ghost use Rattle.phase_list.specs.Walks.{Walks};

use crate::by_value::transfers;
use crate::walk::{Walk, add_structure, add_transfers};
use model_defs::{Job, Phase, Shape, shapes};
use std::alloc::{AllocError, Global};

/// Adds the phases of value `k`.
fn add_value(
    alloc: Global,
    walk: &mut Walk,
    job: &Job,
    shapes: &[Shape],
    k: usize,
) -> Result<(), AllocError>
    requires shapes { at_list shapes.now ≡ shape job.now }
    ensures { OnOk result (Walks job.now walk.old walk.new (value_acts job.now k)) }
{
    let list = transfers(alloc, job, shapes, k)?;
    add_transfers(walk, job, shapes, k, list.as_slice())?;
    add_structure(walk, job, shapes, k)
}

/// The phases of a job, in the order in which its ranks go through them.
///
/// A phase has the kind of its letters and the number of the value for which it is, from 0. A map that is not uniform is
/// registered in the directory once, before the first plan that needs it (`Tpetra::Directory`); a plan is made once, also
/// where several matrices share their structure. `Err` means that memory ran out. The job stays as it is.
pub fn phases(alloc: Global, job: &Job) -> Result<Vec<Phase>, AllocError>
    ensures phases { IfOk result (λ list. list.items ≡ phases job.now) }
{
    let shapes = shapes(alloc, job)?;
    let mut walk = Walk {
        phases: Vec::new(alloc),
        made: Vec::new(alloc),
    };
    for k in 0..shapes.len() {
        add_value(alloc, &mut walk, job, shapes.as_slice(), k)?;
    }
    Ok(walk.phases)
}
