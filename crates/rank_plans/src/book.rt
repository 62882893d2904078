//! The maps and plans of one rank.
ghost use Rattle.std.specs.Prelude.{◌≡◌, ◌<◌, ◌≤◌, ℕ, [], true, Some, is_some};
ghost use Rattle.rank_plans.specs.Books.{directory_of, has_map, has_plan, made_of};

use crate::places::{map_place, task_place};
use crate::registered::Registered;
use crate::task::PlanTask;
use model_defs::Plan;
use std::alloc::Global;
use std::marker::Model;

/// What one rank of a job keeps of the maps that are registered and of the plans that are begun (`Tpetra::Directory`,
/// `Tpetra::Import`). Maps and plans are named by their numbers in the job, ranks are counted from 0, and indices are global
/// ones, counted from 0. A map or plan is found by going through those that are kept.
///
/// Where a call answers `Err`, memory ran out, and nothing is promised of what the book says then.
#[derive(Drop)]
pub struct PlanBook {
    pub(crate) alloc: Global,
    pub(crate) me: u32,
    pub(crate) ranks: u32,
    pub(crate) maps: Vec<Registered>,
    pub(crate) plans: Vec<PlanTask>,
}

impl Model for PlanBook {
    ghost use Rattle.rank_plans.specs.Books.{Book, IsBook};

    ghost Value = { Book };

    ghost view = { λ a. record { me = a.me; ranks = a.ranks; maps = a.maps.items; plans = a.plans.items } };

    ghost invariant = { λ a. IsBook (record { me = a.me; ranks = a.ranks; maps = a.maps.items; plans = a.plans.items }) };
}

impl PlanBook {
    /// The book of rank `me` of 1 to 32 ranks. No map is registered, and no plan is begun.
    pub fn new(alloc: Global, me: u32, ranks: u32) -> PlanBook
        requires ranks_limit { ranks ≤ 32 }
        requires own_rank { me < ranks }
        ensures empty { result ≡ record { me = me; ranks = ranks; maps = []; plans = [] } }
    {
        PlanBook {
            alloc,
            me,
            ranks,
            maps: Vec::new(alloc),
            plans: Vec::new(alloc),
        }
    }

    /// The rank whose book this is. The owners that directories have are ranks.
    pub fn me(&self) -> u32
        ensures me { result ≡ self.now.me }
        ensures known { self.now.me < self.now.ranks }
        ensures ranks_limit { self.now.ranks ≤ 32 }
        ensures owners { (m g q : ℕ) → directory_of self.now m g ≡ Some q → q < self.now.ranks }
    {
        self.me
    }

    /// How many ranks there are: 1 to 32.
    pub fn ranks(&self) -> u32
        ensures ranks { result ≡ self.now.ranks }
        ensures some_rank { 1 ≤ self.now.ranks }
        ensures ranks_limit { self.now.ranks ≤ 32 }
    {
        self.ranks
    }

    /// Whether the registration of the map was begun.
    pub fn has_map(&self, map: u32) -> bool
        ensures begun { result ≡ has_map self.now map }
    {
        if map_place(&self.maps, map) < self.maps.len() {
            return true;
        }
        false
    }

    /// Whether the plan was begun.
    pub fn has_plan(&self, plan: Plan) -> bool
        ensures begun { result ≡ has_plan self.now plan }
    {
        if task_place(&self.plans, plan) < self.plans.len() {
            return true;
        }
        false
    }

    /// The plan that was made, whose positions are local indices. It may be shared by `map_core::Plan::share`.
    pub fn plan(&self, plan: Plan) -> &map_core::Plan
        requires made { is_some (made_of self.now plan) ≡ true }
        ensures made { Some result.now ≡ made_of self.now plan }
    {
        self.plans[task_place(&self.plans, plan)].made()
    }
}
