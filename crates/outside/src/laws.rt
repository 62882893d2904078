//! Laws of the names of letters.
ghost use Rattle.std.specs.Prelude.{◌≡◌};
ghost use Rattle.outside.specs.Letters.{name_order};
ghost use Rattle.outside.specs.declared.name.Name.{Name as LetterName};

use crate::Name;

/// Names are ordered by phase, then sender, then receiver.
pub fn names_in_order()
    ensures { (a b : LetterName) → ⟦<Name as Ord>⟧.cmp a b ≡ name_order a b }
{}
