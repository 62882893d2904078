//! Laws over the definitions. Each function here does nothing: its contract holds of all that it speaks of.
ghost use Rattle.std.specs.Prelude.{◌≡◌, ◌<◌, ℕ, true, false, List, length, None};
ghost use Rattle.map_core.specs.Layouts.{stands, owner, Layout, IsOneToOne};
ghost use Rattle.map_core.specs.Homes.{is_home};
ghost use Rattle.directory.specs.Registrations.{registered_by, registrations};

/// Where all ranks of a one-to-one layout, in any order, registered the indices of their lists whose home is `h`, the rank
/// that registered an index of that home is its owner in the layout, and no index of another home is registered.
pub fn owner_law()
    ensures home { (m : Layout) (P h : ℕ) (ranks : List ℕ) (g : ℕ) → IsOneToOne m
        → ((p : ℕ) → p < length m.lists → stands p ranks ≡ true) → is_home P m.size h g ≡ true
        → registered_by (registrations m P h ranks) g ≡ owner m g }
    ensures elsewhere { (m : Layout) (P h : ℕ) (ranks : List ℕ) (g : ℕ) → is_home P m.size h g ≡ false
        → registered_by (registrations m P h ranks) g ≡ None }
{}
