//! Laws over the definitions. Each function here does nothing: its contract holds of every layout that it speaks of.
ghost use Rattle.std.specs.Prelude.{◌≡◌, ◌+◌, ◌%◌, ◌<◌, ◌≤◌, ◌↔◌, ℕ, ◌∷◌, true, false, List, map, length, take, sum, count_by, Option, IsSome, None, Some};
ghost use Rattle.std.specs.List.{concat, range_with_len};
ghost use Rattle.map_core.specs.Layouts.{stands, local_index, global_index, rank_list, owner, Layout, IsLayout, IsOneToOne, IsTotal};
ghost use Rattle.map_core.specs.Classes.{same_count, permuted, unowned, lacked_positions, AreOwners};
ghost use Rattle.map_core.specs.Plans.{reversed, PlanLists};
ghost use Rattle.map_core.specs.Uniform.{uniform_count, uniform_first, uniform_layout};
ghost use Rattle.map_core.specs.Blocks.{blocks_layout};
ghost use Rattle.map_core.specs.Cyclic.{cyclic_layout};
ghost use Rattle.map_core.specs.Homes.{is_home};

use crate::{Gid, LocalMap};

/// The two directions of a rank's map are inverse: a global index has a local index exactly where that local index has
/// the global index.
pub fn index_law(map: &LocalMap)
    ensures inverse { (g l : ℕ) → (local_index map.now g ≡ Some l) ↔ (global_index map.now l ≡ Some g) }
{
    let _ = map.len();
}

/// The owner of an index in any layout: a rank whose list has it, in a one-to-one layout the only one, and none
/// exactly where it stands in no list. In a total layout each index below the size has an owner.
pub fn owner_law()
    ensures has { (m : Layout) (g p : ℕ) → owner m g ≡ Some p → stands g (rank_list m p) ≡ true }
    ensures below { (m : Layout) (g p : ℕ) → owner m g ≡ Some p → p < length m.lists }
    ensures only { (m : Layout) (g p : ℕ) → IsOneToOne m → stands g (rank_list m p) ≡ true → owner m g ≡ Some p }
    ensures none { (m : Layout) (g : ℕ) → (owner m g ≡ None) ↔ (stands g (concat m.lists) ≡ false) }
    ensures total { (m : Layout) (g : ℕ) → IsTotal m → g < m.size → IsSome (owner m g) }
{}

/// The contiguous uniform layout of `size` indices over `ranks` ranks is one-to-one and total. Each rank has as many
/// indices as `uniform_count` says, and the lists of the ranks, one after another, are all indices in order
/// (`Tpetra::Map`, uniform contiguous).
pub fn uniform_law(ranks: u32, size: Gid)
    requires some_rank { 1 ≤ ranks }
    ensures is_layout { IsLayout (uniform_layout ranks size) }
    ensures one_to_one { IsOneToOne (uniform_layout ranks size) }
    ensures total { IsTotal (uniform_layout ranks size) }
    ensures ranks { length (uniform_layout ranks size).lists ≡ ranks }
    ensures counts { (p : ℕ) → p < ranks
        → length (rank_list (uniform_layout ranks size) p) ≡ uniform_count ranks size p }
    ensures in_order { concat (uniform_layout ranks size).lists ≡ range_with_len 0 size }
    ensures owners { (g p : ℕ) → p < ranks → uniform_first ranks size p ≤ g
        → g < uniform_first ranks size p + uniform_count ranks size p
        → owner (uniform_layout ranks size) g ≡ Some p }
{}

/// In the contiguous uniform layout of `size` indices over `ranks` ranks the indices of a rank are all below those of
/// a later one, so the owner never falls as the index rises.
pub fn uniform_order_law(ranks: u32, size: Gid)
    requires some_rank { 1 ≤ ranks }
    ensures consecutive { (p q g h : ℕ) → p < q
        → stands g (rank_list (uniform_layout ranks size) p) ≡ true
        → stands h (rank_list (uniform_layout ranks size) q) ≡ true → g < h }
    ensures monotone { (i j p q : ℕ) → i ≤ j
        → owner (uniform_layout ranks size) i ≡ Some p
        → owner (uniform_layout ranks size) j ≡ Some q → p ≤ q }
    ensures below { (i p : ℕ) → owner (uniform_layout ranks size) i ≡ Some p → p < ranks }
    ensures owned { (i : ℕ) → i < size → IsSome (owner (uniform_layout ranks size) i) }
{}

/// The plan of the way back from the way back is the plan itself.
pub fn plan_reverse_law()
    ensures twice { (p : PlanLists) → reversed (reversed p) ≡ p }
{}

/// Each position of a list is in exactly one class: the same ones, the permuted ones, those whose index is not held and has
/// no owner, or the lacked ones of one rank.
pub fn class_law()
    ensures one_class { (me ranks : ℕ) (held xs : List ℕ) (owners : List (Option ℕ)) → AreOwners me ranks held xs owners → (l : ℕ) → l < length xs
        → count_by (stands l) (range_with_len 0 (same_count held xs) ∷ permuted held xs ∷ unowned held xs owners ∷ map (lacked_positions held xs owners) (range_with_len 0 ranks)) ≡ 1 }
{}

/// The layout of consecutive runs of the lengths `counts` is one-to-one and total. The lists of the ranks, one after
/// another, are all indices in order, so a rank owns the indices from the sum of the counts before it on, as many as its
/// count says (`Tpetra::Map`, contiguous).
pub fn blocks_law(counts: &[u32])
    ensures is_layout { IsLayout (blocks_layout counts.now) }
    ensures one_to_one { IsOneToOne (blocks_layout counts.now) }
    ensures total { IsTotal (blocks_layout counts.now) }
    ensures ranks { length (blocks_layout counts.now).lists ≡ length counts.now }
    ensures in_order { concat (blocks_layout counts.now).lists ≡ range_with_len 0 (sum counts.now) }
    ensures owners { (g p : ℕ) → sum (take p counts.now) ≤ g → g < sum (take (p + 1) counts.now)
        → owner (blocks_layout counts.now) g ≡ Some p }
{}

/// The cyclic layout of `size` indices over `ranks` ranks is one-to-one and total. Each rank has as many indices as in
/// the contiguous uniform layout, and the owner of an index is its remainder by the number of ranks.
pub fn cyclic_law(ranks: u32, size: Gid)
    requires some_rank { 1 ≤ ranks }
    ensures is_layout { IsLayout (cyclic_layout ranks size) }
    ensures one_to_one { IsOneToOne (cyclic_layout ranks size) }
    ensures total { IsTotal (cyclic_layout ranks size) }
    ensures ranks { length (cyclic_layout ranks size).lists ≡ ranks }
    ensures counts { (p : ℕ) → p < ranks
        → length (rank_list (cyclic_layout ranks size) p) ≡ uniform_count ranks size p }
    ensures owners { (g : ℕ) → g < size → owner (cyclic_layout ranks size) g ≡ Some (g % ranks) }
{}

/// The home of an index in a directory is the rank that would own it in the contiguous uniform layout of that size.
pub fn home_law(ranks: u32, size: Gid)
    requires some_rank { 1 ≤ ranks }
    ensures home { (g h : ℕ) → h < ranks
        → (is_home ranks size h g ≡ true) ↔ (owner (uniform_layout ranks size) g ≡ Some h) }
{}
