//! The laws of the combine modes, for every kind of number. Each function has an empty body: what it proves is its
//! contract.
ghost use Rattle.combine_modes.specs.Laws.{OneByOneIsTheTable, ValuesAreTheTable, OrderIsThePick, OnlySomePick, RanksAreTheTable, TablesAreTheTable};

use scalar_laws::Scalar;

/// Taking the values for a cell one after the other, in any order, gives the table of the combine modes for all of them.
/// The picked one is the last, and for an absent place of a matrix with `Insert` the first.
pub fn one_after_the_other<S: Scalar>()
    ensures values { ValuesAreTheTable S.semiring }
    ensures some { OneByOneIsTheTable S.semiring }
{}

/// The table does not depend on the order of the values. `Add`, `AbsMax` and `Zero` do not depend on the picked one either.
pub fn any_order<S: Scalar>()
    ensures order { OrderIsThePick S.semiring }
    ensures unpicked { OnlySomePick S.semiring }
{}

/// Where ranks bring a value for a cell, each once, the target's own first and then the others in any order, the result
/// is the table over all ranks, with the pick that follows from that order: of a cell, and of a whole vector or matrix.
pub fn ranks_in_any_order<S: Scalar>()
    ensures cell { RanksAreTheTable S.semiring }
    ensures whole { TablesAreTheTable S.semiring }
{}
