//! The maps and values that a job text has named so far.
ghost use Rattle.std.specs.Prelude.{◌≡◌, ◌<◌, ◌≤◌, ◌^◌, length, OnOk, IfErr};
ghost use Rattle.job_text.specs.Layouts.{covers, index_count, is_one_to_one, is_total};
ghost use Rattle.job_text.specs.Known.{is_taken, layout_at, map_name, map_number, no_names, shape_at, value_number, with_map, with_value};

use crate::JobFault;
use crate::layouts::{count_indices, has_all, has_one_owner, is_covered};
use crate::shape::Shape;
use map_core::Layout;
use model_defs::Text;
use std::alloc::Global;
use std::marker::Model;

/// A map that was named.
#[derive(Drop)]
pub struct KnownMap {
    pub name: Text,
    pub layout: Layout,
}

/// A value that was named.
#[derive(Drop)]
pub struct KnownValue {
    pub name: Text,
    pub shape: Shape,
}

/// The number of ranks, 1 to 32, and the maps and the values that were named, in order. A map or a value is spoken of by its number,
/// from 0.
#[derive(Drop)]
pub struct Known {
    ranks: u32,
    maps: Vec<KnownMap>,
    values: Vec<KnownValue>,
}

impl Model for Known {
    ghost use Rattle.std.specs.Prelude.{◌<◌, ◌≤◌, ◌^◌, length};
    ghost use Rattle.job_text.specs.Known.{Known};

    ghost Value = { Known };

    ghost view = { λ k. record { ranks = k.ranks; maps = k.maps.items; values = k.values.items } };

    ghost invariant = { λ k. (1 ≤ k.ranks) × (k.ranks ≤ 32) × (length k.maps.items < 2 ^ 32) × (length k.values.items < 2 ^ 32) };
}

impl Known {
    /// Nothing is named yet.
    pub fn new(alloc: Global, ranks: u32) -> Known
        requires some_rank { 1 ≤ ranks }
        requires ranks_limit { ranks ≤ 32 }
        ensures { result ≡ no_names ranks }
    {
        Known {
            ranks,
            maps: Vec::new(alloc),
            values: Vec::new(alloc),
        }
    }

    pub fn ranks(&self) -> u32
        ensures ranks { result ≡ self.now.ranks }
        ensures some_rank { 1 ≤ result }
        ensures ranks_limit { result ≤ 32 }
    {
        self.ranks
    }

    /// The number of the map of this name.
    pub fn map_number(&self, name: &str) -> Option<u32>
        ensures { result ≡ map_number self.now name.now }
    {
        for (number, map) in self.maps.iter().enumerate() {
            if map.name.as_str() == name {
                return Some(number as u32);
            }
        }
        None
    }

    /// The number of the value of this name.
    pub fn value_number(&self, name: &str) -> Option<u32>
        ensures { result ≡ value_number self.now name.now }
    {
        for (number, value) in self.values.iter().enumerate() {
            if value.name.as_str() == name {
                return Some(number as u32);
            }
        }
        None
    }

    /// Whether a map or a value has this name.
    pub fn is_taken(&self, name: &str) -> bool
        ensures { result ≡ is_taken self.now name.now }
    {
        self.map_number(name).is_some() || self.value_number(name).is_some()
    }

    /// Names a map, as the last one. More than 2^32 - 1 maps are never named.
    pub fn add_map(&mut self, name: Text, layout: Layout) -> Result<(), JobFault>
        ensures added { OnOk result (self.new ≡ with_map self.old name layout) }
        ensures memory { IfErr result (λ fault. fault ≡ JobFault.NoMem) }
    {
        if self.maps.len() >= 0xffff_ffff {
            return Err(JobFault::NoMem);
        }
        self.maps.push(KnownMap { name, layout })?;
        Ok(())
    }

    /// Names a value, as the last one. More than 2^32 - 1 values are never named.
    pub fn add_value(&mut self, name: Text, shape: Shape) -> Result<(), JobFault>
        ensures added { OnOk result (self.new ≡ with_value self.old name shape) }
        ensures memory { IfErr result (λ fault. fault ≡ JobFault.NoMem) }
    {
        if self.values.len() >= 0xffff_ffff {
            return Err(JobFault::NoMem);
        }
        self.values.push(KnownValue { name, shape })?;
        Ok(())
    }

    /// How many values were named.
    pub fn value_count(&self) -> u32
        ensures { result ≡ length self.now.values }
    {
        self.values.len() as u32
    }

    /// The shape of a value; one of no value where there is none of this number.
    pub fn shape(&self, value: u32) -> Shape
        ensures { result ≡ shape_at self.now value }
    {
        match self.values.get(value as usize) {
            Some(value) => value.shape.copy(),
            None => Shape::none(),
        }
    }

    /// The name of a map; empty where there is none of this number.
    pub fn map_name(&self, map: u32) -> &str
        ensures { result.now ≡ map_name self.now map }
    {
        match self.maps.get(map as usize) {
            Some(map) => map.name.as_str(),
            None => "",
        }
    }

    /// The size of a map; 0 where there is none of this number.
    pub fn size(&self, map: u32) -> u64
        ensures { result ≡ (layout_at self.now map).size }
    {
        match self.maps.get(map as usize) {
            Some(map) => map.layout.size(),
            None => 0,
        }
    }

    /// Whether each index of a map has one owner at most.
    pub fn is_one_to_one(&self, map: u32) -> bool
        ensures { result ≡ is_one_to_one (layout_at self.now map) }
    {
        match self.maps.get(map as usize) {
            Some(map) => has_one_owner(&map.layout),
            None => true,
        }
    }

    /// Whether each index below the size of a map stands in the list of a rank.
    pub fn is_total(&self, map: u32) -> bool
        ensures { result ≡ is_total (layout_at self.now map) }
    {
        match self.maps.get(map as usize) {
            Some(map) => has_all(&map.layout),
            None => true,
        }
    }

    /// How many indices the ranks have together.
    pub fn index_count(&self, map: u32) -> u64
        ensures { result ≡ index_count (layout_at self.now map) }
    {
        match self.maps.get(map as usize) {
            Some(map) => count_indices(&map.layout),
            None => 0,
        }
    }

    /// Whether the map `wide` has every index of the map `narrow`.
    #[tactic(auto, using(crate::proofs::LayoutTests::none_covered))]
    pub fn covers(&self, wide: u32, narrow: u32) -> bool
        ensures { result ≡ covers (layout_at self.now wide) (layout_at self.now narrow) }
    {
        match (self.maps.get(wide as usize), self.maps.get(narrow as usize)) {
            (Some(wide), Some(narrow)) => is_covered(&wide.layout, &narrow.layout),
            (_, None) => true,
            (None, Some(narrow)) => count_indices(&narrow.layout) == 0,
        }
    }
}
