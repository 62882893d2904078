//! Indices at equal distances.
ghost use Rattle.std.specs.Prelude.{◌≡◌, ◌+◌, ◌*◌, ◌<◌, ◌≤◌, ◌^◌, ◌↔◌, true, length, is_some, IsSome, IfSome};
ghost use Rattle.map_core.specs.Layouts.{stands, local_index, global_index, AreDistinct};
ghost use Rattle.map_core.specs.Strides.{stride_list};

use crate::Gid;
use std::marker::Model;

/// `count` indices from `first` on, each `step` above the one before it. A run of consecutive indices has step 1. No list
/// is kept: both directions are arithmetic.
#[derive(Drop)]
pub(crate) struct Stride {
    first: Gid,
    step: Gid,
    count: u32,
}

impl Model for Stride {
    ghost use Rattle.std.specs.Prelude.{◌+◌, ◌*◌, ◌<◌, ◌≤◌, ◌^◌, ℕ, List};
    ghost use Rattle.map_core.specs.Strides.{stride_list};

    ghost Value = { List ℕ };

    ghost view = { λ a. stride_list a.first a.step a.count };

    ghost invariant = { λ a. (1 ≤ a.step) × (a.first + a.count * a.step < 2 ^ 64) };
}

impl Stride {
    /// The `count` indices from `first` on, each `step` above the one before it.
    pub(crate) fn new(first: Gid, step: Gid, count: u32) -> Stride
        requires rises { 1 ≤ step }
        requires room { first + count * step < 2 ^ 64 }
        ensures kept { result ≡ stride_list first step count }
    {
        Stride { first, step, count }
    }

    /// How many indices there are.
    pub(crate) fn len(&self) -> u32
        ensures len { result ≡ length self.now }
        ensures distinct { AreDistinct self.now }
        ensures few { length self.now < 2 ^ 32 }
    {
        self.count
    }

    /// The place of an index, counted from 0: its distance from the first one in steps. `None` exactly where it is not
    /// there.
    pub(crate) fn local_of(&self, gid: Gid) -> Option<u32>
        ensures place { result ≡ local_index self.now gid }
        ensures found { is_some result ≡ stands gid self.now }
        ensures within { IfSome result (λ lid. lid < length self.now) }
    {
        if gid < self.first {
            return None;
        }
        let above = gid - self.first;
        let place = above / self.step;
        if place * self.step != above {
            return None;
        }
        if place >= self.count as Gid {
            return None;
        }
        Some(place as u32)
    }

    /// The index at a place. `None` exactly from the count on.
    pub(crate) fn global_of(&self, lid: u32) -> Option<Gid>
        ensures index { result ≡ global_index self.now lid }
        ensures found { IsSome result ↔ (lid < length self.now) }
    {
        if lid < self.count {
            Some(self.first + lid as Gid * self.step)
        } else {
            None
        }
    }

    /// Whether both have the same indices in the same order.
    pub(crate) fn same_list(&self, other: &Stride) -> bool
        ensures same { (result ≡ true) ↔ (self.now ≡ other.now) }
    {
        if self.count != other.count {
            return false;
        }
        if self.count == 0 {
            return true;
        }
        if self.first != other.first {
            return false;
        }
        if self.count == 1 {
            return true;
        }
        self.step == other.step
    }
}
