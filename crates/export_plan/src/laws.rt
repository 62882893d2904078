//! Laws over the definitions. Each function here does nothing: its contract holds of every export.
ghost use Rattle.std.specs.Prelude.{◌≡◌, ◌∷◌, ◌<◌, ℕ, [], List, Option, length, count_by};
ghost use Rattle.std.specs.List.{range_with_len};
ghost use Rattle.map_core.specs.Layouts.{stands, AreDistinct};
ghost use Rattle.map_core.specs.Classes.{lacked_of_each, lacked_positions, unowned, AreOwners};
ghost use Rattle.map_core.specs.Plans.{export_list};
ghost use Rattle.export_plan.specs.Exports.{export_lists, offered_to, Export};

/// Each source position of an export is in exactly one class: it is one of the same, permuted, sent to one rank, or its
/// index has no owner and is not held. Nothing is offered to the rank itself, and the positions that are sent to a rank are
/// those of the indices that are offered to it.
pub fn export_law()
    ensures one_class { (e : Export) (owners : List (Option ℕ)) → AreDistinct e.source → AreOwners e.me e.ranks e.target e.source owners
        → e.offered ≡ lacked_of_each e.ranks e.target e.source owners → (l : ℕ) → l < length e.source
        → count_by (stands l) (range_with_len 0 (export_lists e).same ∷ (export_lists e).permute_from ∷ unowned e.target e.source owners ∷ (export_lists e).exports) ≡ 1 }
    ensures sent { (e : Export) (owners : List (Option ℕ)) → AreDistinct e.source → e.offered ≡ lacked_of_each e.ranks e.target e.source owners
        → (q : ℕ) → q < e.ranks → export_list (export_lists e) q ≡ lacked_positions e.target e.source owners q }
    ensures none_of_own { (e : Export) (owners : List (Option ℕ)) → AreOwners e.me e.ranks e.target e.source owners
        → e.offered ≡ lacked_of_each e.ranks e.target e.source owners → offered_to e e.me ≡ [] }
{}
