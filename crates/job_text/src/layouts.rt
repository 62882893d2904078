//! What is tested of layouts.
ghost use Rattle.std.specs.Prelude.{◌≡◌, ◌<◌, IfSome, is_some, length};
ghost use Rattle.std.specs.List.{concat, list_all, slice_index_or};
ghost use Rattle.map_core.specs.Layouts.{stands, rank_list};
ghost use Rattle.job_text.specs.Layouts.{covers, index_count, is_one_to_one, is_total};

use map_core::{Gid, Layout, LocalMap};

/// Whether each index has one owner at most.
pub fn has_one_owner(layout: &Layout) -> bool
    ensures { result ≡ is_one_to_one layout.now }
{
    layout.is_one_to_one()
}

/// Whether each index below the size stands in the list of a rank.
pub fn has_all(layout: &Layout) -> bool
    ensures { result ≡ is_total layout.now }
{
    layout.is_total()
}

/// How many indices the ranks have together.
pub fn count_indices(layout: &Layout) -> u64
    ensures { result ≡ index_count layout.now }
{
    let mut count = 0;
    for rank in 0..layout.ranks() {
        count += layout.list(rank).len() as u64;
    }
    count
}

/// A rank whose list has an index, if there is one. The rank `near` is asked first.
#[tactic(auto, using(crate::proofs::LayoutTests::stands_rest, crate::proofs::LayoutTests::stands_in_one))]
fn rank_with(layout: &Layout, near: u32, gid: Gid) -> Option<u32>
    requires { near < length layout.now.lists }
    ensures found { is_some result ≡ stands gid (concat layout.now.lists) }
    ensures within { IfSome result (λ rank. rank < length layout.now.lists) }
{
    if layout.list(near).local_of(gid).is_some() {
        return Some(near);
    }
    for rank in 0..layout.ranks() {
        if layout.list(rank).local_of(gid).is_some() {
            return Some(rank);
        }
    }
    None
}

/// A rank of the layout that has the index at a place of a list, if there is one.
#[tactic(auto, using(std::proofs::lemmas::Option::get_or_from_slice_get))]
fn rank_with_place(layout: &Layout, near: u32, list: &LocalMap, place: u32) -> Option<u32>
    requires known { near < length layout.now.lists }
    requires within { place < length list.now }
    ensures found { is_some result ≡ stands (slice_index_or list.now place 0) (concat layout.now.lists) }
    ensures within { IfSome result (λ rank. rank < length layout.now.lists) }
{
    match list.global_of(place) {
        Some(gid) => rank_with(layout, near, gid),
        None => None,
    }
}

/// Whether the layout has each index of a list. Neighbours in the list are often on one rank, so that rank is asked first.
fn has_list(layout: &Layout, list: &LocalMap) -> bool
    ensures { result ≡ list_all (λ g. stands g (concat layout.now.lists)) list.now }
{
    let _ranks = layout.ranks();
    let mut near = 0;
    for place in 0..list.len() {
        match rank_with_place(layout, near, list, place) {
            None => return false,
            Some(rank) => near = rank,
        }
    }
    true
}

/// Whether the wide layout has each index of the narrow one, list by list.
fn has_lists(wide: &Layout, narrow: &Layout) -> bool
    ensures { result ≡ covers wide.now narrow.now }
{
    for rank in 0..narrow.ranks() {
        if !has_list(wide, narrow.list(rank)) {
            return false;
        }
    }
    true
}

/// Whether the wide layout has each index of the narrow one. Where both have one size and one of them is total, nothing is
/// enumerated.
#[tactic(auto, using(crate::proofs::LayoutTests::total_covers, crate::proofs::LayoutTests::covers_total))]
pub fn is_covered(wide: &Layout, narrow: &Layout) -> bool
    ensures { result ≡ covers wide.now narrow.now }
{
    if wide.size() == narrow.size() {
        if has_all(wide) {
            return true;
        }
        if has_all(narrow) {
            return false;
        }
    }
    has_lists(wide, narrow)
}
