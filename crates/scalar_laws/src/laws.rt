//! Theorems over the definitions, each the contract of a function that does nothing.
ghost use Rattle.std.specs.Prelude.{◌≡◌, ◌≤◌, ◌<◌, ◌*◌, ◌*ℤ◌, ◌↔◌, ℕ, ℤ, true, IsTrue, List, unsigned_abs};
ghost use Rattle.scalar_laws.specs.Semiring.{IsSemiring};
ghost use Rattle.scalar_laws.specs.Conversions.{AreConversions};
ghost use Rattle.scalar_laws.specs.Number.{Number, is_number, max_weight, made, is_over_number, zero_number, one_number, plus, times, top};
ghost use Rattle.scalar_laws.specs.NumberSums.{number_sum, value_sum, weight_sum};
ghost use Rattle.scalar_laws.specs.Weighed.{num_of, stored, weighed_semiring};
ghost use Rattle.scalar_laws.specs.declared.weighed.Weighed.{Weighed};

use crate::Scalar;

/// Every kind of number is a commutative semiring with a commutative and associative `top`; what
/// is over is not shown, the bytes of a number give it back, and `==` is equality.
pub fn kind_of_number<S: Scalar>()
    ensures semiring { IsSemiring S.semiring }
    ensures conversions { AreConversions S.conversions }
    ensures equal { (a b : S) → S.eq a b ≡ true → a ≡ b }
{}

/// `Weighed` has exactly the weighed numbers, each once, and computes with them.
pub fn weighed_numbers()
    ensures number { (a : Weighed) → is_number (num_of a) ≡ true }
    ensures each { (n : Number) → is_number n ≡ true → num_of (stored n) ≡ n }
    ensures once { (a b : Weighed) → num_of a ≡ num_of b → a ≡ b }

    ensures zero { num_of weighed_semiring.nought ≡ zero_number }
    ensures one { num_of weighed_semiring.one ≡ one_number }
    ensures sum { (a b : Weighed) → num_of (weighed_semiring.plus a b) ≡ plus (num_of a) (num_of b) }
    ensures product { (a b : Weighed) → num_of (weighed_semiring.times a b) ≡ times (num_of a) (num_of b) }
    ensures greatest { (a b : Weighed) → num_of (weighed_semiring.top a b) ≡ top (num_of a) (num_of b) }
{}

/// Whether a result is Over depends on the weights alone: a sum of pairs has the sum of the values
/// with the sum of the weights, a product the products, and is Over where that weight exceeds the
/// limit.
pub fn over_by_weight()
    ensures over { (v : ℤ) (w : ℕ) → IsTrue (is_over_number (made v w)) ↔ (max_weight < w) }
    ensures sum { (pairs : List (ℤ × ℕ)) → number_sum pairs ≡ made (value_sum pairs) (weight_sum pairs) }
    ensures product { (v x : ℤ) (w y : ℕ) → unsigned_abs v ≤ w → unsigned_abs x ≤ y
        → times (made v w) (made x y) ≡ made (v *ℤ x) (w * y) }
{}
