//! A rank absorbs the words of letters in the phases in which plans are made.
ghost use Rattle.std.specs.Prelude.{List, [], ◌∷◌, OnOk};
ghost use Rattle.mm_text.specs.Reading.{File};
ghost use Rattle.rank_phases.specs.Stages.{absorbing};
ghost use Rattle.plan_phases.specs.BookStages.{IsBookStage, with_book};
ghost use Rattle.plan_phases.specs.BookCalls.{IsAbsorbingBook};

use model_defs::{About, Job};
use rank_plans::PlanBook;
use scalar_laws::Scalar;
use std::alloc::AllocError;

/// Absorbs the words of the letter of rank `from` in the phase that the rank is in and that is about a map or a plan: it owns the
/// indices that it registers; its questions are kept; its answers say owners; or what it lacks is kept. All else stays. `Err`
/// means that memory ran out.
pub fn absorb_words<S: Scalar>(
    book: &mut PlanBook,
    job: &Job,
    about: About,
    from: u32,
    words: &[u64],
) -> Result<(), AllocError>
    requires absorbs { (files : List File) × IsAbsorbingBook S.semiring S.conversions job.now files book.old about from words.now }
    ensures absorbed { OnOk result ((files : List File) (e : IsAbsorbingBook S.semiring S.conversions job.now files book.old about from words.now)
        → IsBookStage S.semiring S.conversions job.now files book.new (with_book e.view book.new) (absorbing e.stage ((e.name, e.bytes) ∷ []))) }
{
    match about {
        About::RegisterMap { map } => book.absorb_register(map, from, words),
        About::AskOwners { plan } => book.absorb_ask(plan, from, words),
        About::TellOwners { plan } => book.absorb_tell(plan, from, words),
        About::SharePlan { plan } => book.absorb_share(plan, from, words),
        About::SendNumbers { .. } => unreachable!(),
    }
}
