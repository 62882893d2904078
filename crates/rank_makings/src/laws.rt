//! Laws of values in the making. Each function has an empty body: what it proves is its contract.
ghost use Rattle.rank_makings.specs.Laws.{ComingsStay, FillsHaveColumns, LettersHaveForm, WordsAreFew};

use scalar_laws::Scalar;

/// What comes stays what it is while letters of its phase come. Its letters have room for their words, and what a wire gives for them has
/// a letter's form.
pub fn comings_stay<S: Scalar>()
    ensures stay { ComingsStay S.semiring S.conversions }
    ensures few { WordsAreFew }
    ensures forms { LettersHaveForm S.semiring S.conversions }
{}

/// A matrix under construction has the columns of the rank's column plan.
pub fn fills_have_columns<S: Scalar>()
    ensures columns { FillsHaveColumns S.semiring S.conversions }
{}
