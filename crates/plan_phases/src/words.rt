//! The words of a rank's letters in the phases in which plans are made.
ghost use Rattle.std.specs.Prelude.{◌≡◌, ℕ, ◌<◌, List, length, IfOk};
ghost use Rattle.mm_text.specs.Reading.{File};
ghost use Rattle.model_defs.specs.declared.phase.About.TheVariants.{RegisterMap};
ghost use Rattle.model_defs.specs.Letters.{entries_about};
ghost use Rattle.model_defs.specs.ShapeLists.{at_list};
ghost use Rattle.model_defs.specs.Shapes.{shape};
ghost use Rattle.model_defs.specs.Valid.{IsValid};
ghost use Rattle.plan_phases.specs.BookCalls.{IsSendingBook};

use crate::maps::owner_map;
use model_defs::{About, Job, Shape};
use rank_plans::PlanBook;
use rank_share::own_map;
use scalar_laws::Scalar;
use std::alloc::{AllocError, Global};

/// The words of the rank's letter to rank `to`, another one, in the phase that it entered last and that is about a map or a plan:
/// the indices that it registers there, those whose owners it asks for, the owners that it answers, or the indices that it lacks of
/// that rank. `shapes` are those of the job's values. `Err` means that memory ran out.
pub fn phase_words<S: Scalar>(
    alloc: Global,
    book: &PlanBook,
    job: &Job,
    shapes: &[Shape],
    about: About,
    to: u32,
) -> Result<Vec<u64>, AllocError>
    requires shapes { at_list shapes.now ≡ shape job.now }
    requires sends { (files : List File) × IsSendingBook S.semiring S.conversions job.now files book.now about to }
    ensures words { IfOk result (λ words. (files : List File) (k : ℕ) (e : IsSendingBook S.semiring S.conversions job.now files book.now about to)
        → words.items ≡ entries_about job.now files k about e.stage.rank to) }
{
    match about {
        About::RegisterMap { map } => registered_words(alloc, book, job, map, to),
        About::AskOwners { plan } => book.ask_words(plan, to),
        About::TellOwners { plan } => book.tell_words(plan, owner_map(shapes, plan), to),
        About::SharePlan { plan } => book.share_words(plan, to),
        About::SendNumbers { .. } => unreachable!(),
    }
}

/// The indices of a map that the rank registers at rank `to`: those of its list whose home is that rank. `Err` means that memory ran
/// out.
fn registered_words(
    alloc: Global,
    book: &PlanBook,
    job: &Job,
    map: u32,
    to: u32,
) -> Result<Vec<u64>, AllocError>
    requires valid { IsValid job.now }
    requires known { map < length job.now.maps }
    requires ranks { book.now.ranks ≡ job.now.ranks }
    requires known_rank { to < job.now.ranks }
    ensures words { IfOk result (λ words. (files : List File) (k : ℕ) → words.items ≡ entries_about job.now files k (RegisterMap map) book.now.me to) }
{
    let own = own_map(alloc, job, map, book.me())?;
    let size = job.maps.as_slice()[map as usize].size;
    book.register_words(&own, size, to)
}
