//! Laws over the definitions. Each function here does nothing: its contract holds of every import.
ghost use Rattle.std.specs.Prelude.{◌≡◌, ◌∷◌, ◌<◌, ℕ, [], List, Option, length, count_by};
ghost use Rattle.std.specs.List.{range_with_len};
ghost use Rattle.map_core.specs.Layouts.{stands, AreDistinct};
ghost use Rattle.map_core.specs.Classes.{lacked_of_each, lacked_positions, unowned, AreOwners};
ghost use Rattle.map_core.specs.Plans.{remote_list};
ghost use Rattle.import_plan.specs.Imports.{import_lists, wanted_from, Import};

/// Each target position of an import is in exactly one class: it is one of the same, permuted, received from one rank, or
/// its index has no owner and is not held. Nothing is wanted of the rank itself, and the positions that receive from a rank
/// are those of the indices that are wanted from it.
pub fn import_law()
    ensures one_class { (i : Import) (owners : List (Option ℕ)) → AreDistinct i.target → AreOwners i.me i.ranks i.source i.target owners
        → i.wanted ≡ lacked_of_each i.ranks i.source i.target owners → (l : ℕ) → l < length i.target
        → count_by (stands l) (range_with_len 0 (import_lists i).same ∷ (import_lists i).permute_to ∷ unowned i.source i.target owners ∷ (import_lists i).remotes) ≡ 1 }
    ensures received { (i : Import) (owners : List (Option ℕ)) → AreDistinct i.target → i.wanted ≡ lacked_of_each i.ranks i.source i.target owners
        → (q : ℕ) → q < i.ranks → remote_list (import_lists i) q ≡ lacked_positions i.source i.target owners q }
    ensures none_of_own { (i : Import) (owners : List (Option ℕ)) → AreOwners i.me i.ranks i.source i.target owners
        → i.wanted ≡ lacked_of_each i.ranks i.source i.target owners → wanted_from i i.me ≡ [] }
{}
