//! Maps are registered.
ghost use Rattle.std.specs.Prelude.{◌≡◌, ◌<◌, ◌≤◌, ◌^◌, ◌==◌, ◌&&◌, ℕ, true, false, All, None, Some, if◌then◌else◌, IfOk, OnOk};
ghost use Rattle.map_core.specs.Layouts.{stands};
ghost use Rattle.map_core.specs.Homes.{homed, is_home};
ghost use Rattle.directory.specs.Directories.{owner_of, AreNew};
ghost use Rattle.rank_plans.specs.Books.{directory_of, has_map, map_size_of};

use crate::PlanBook;
use crate::indices::homed_indices;
use crate::places::map_place;
use crate::registered::Registered;
use directory::{DirFault, Directory};
use map_core::{Gid, LocalMap};
use std::alloc::AllocError;

impl PlanBook {
    /// Begins the registration of a map of at most 2^40 indices that was not registered before. `own` is this rank's list of
    /// it, of indices below the size: those whose home is this rank are registered. All that is kept of other maps and of
    /// plans stays.
    pub fn begin_register(&mut self, map: u32, size: Gid, own: &LocalMap) -> Result<(), AllocError>
        requires first { has_map self.old map ≡ false }
        requires size_limit { size ≤ 2 ^ 40 }
        requires below { All (λ g. g < size) own.now }
        ensures directory { OnOk result ((g : ℕ) → directory_of self.new map g ≡ (if stands g own.now && is_home self.old.ranks size self.old.me g then Some self.old.me else None)) }
        ensures size { OnOk result (map_size_of self.new map ≡ Some size) }
        ensures other_directories { OnOk result ((m g : ℕ) → (m == map) ≡ false → directory_of self.new m g ≡ directory_of self.old m g) }
        ensures other_sizes { OnOk result ((m : ℕ) → (m == map) ≡ false → map_size_of self.new m ≡ map_size_of self.old m) }
        ensures plans { OnOk result (self.new.plans ≡ self.old.plans) }
        ensures me { self.new.me ≡ self.old.me }
        ensures ranks { self.new.ranks ≡ self.old.ranks }
    {
        let mut directory = Directory::new(self.alloc, self.me, self.ranks, size)?;
        let words = homed_indices(self.alloc, self.ranks, size, own, self.me)?;
        enter(&mut directory, self.me, &words)?;
        self.maps.push(Registered { map, directory })?;
        Ok(())
    }

    /// What this rank says to rank `to` of a map of at most 2^40 indices: those of its list `own` whose home is that rank, in
    /// list order. The indices are below the size.
    pub fn register_words(&self, own: &LocalMap, size: Gid, to: u32) -> Result<Vec<u64>, AllocError>
        requires known_rank { to < self.now.ranks }
        requires size_limit { size ≤ 2 ^ 40 }
        requires below { All (λ g. g < size) own.now }
        ensures words { IfOk result (λ words. words.items ≡ homed self.now.ranks size to own.now) }
    {
        homed_indices(self.alloc, self.ranks, size, own, to)
    }

    /// Rank `from` said these indices of a map, whose home is this rank and of which none is registered yet: it owns them from
    /// now on. All that is kept of other indices, of other maps and of plans stays.
    pub fn absorb_register(&mut self, map: u32, from: u32, words: &[u64]) -> Result<(), AllocError>
        requires known_rank { from < self.old.ranks }
        requires home { (size : ℕ) → map_size_of self.old map ≡ Some size → All (λ g. is_home self.old.ranks size self.old.me g ≡ true) words.now }
        requires known_map { has_map self.old map ≡ true }
        requires new { AreNew (directory_of self.old map) words.now }
        ensures directory { OnOk result ((g : ℕ) → directory_of self.new map g ≡ (if stands g words.now then Some from else directory_of self.old map g)) }
        ensures other_directories { OnOk result ((m g : ℕ) → (m == map) ≡ false → directory_of self.new m g ≡ directory_of self.old m g) }
        ensures sizes { OnOk result ((m : ℕ) → map_size_of self.new m ≡ map_size_of self.old m) }
        ensures plans { OnOk result (self.new.plans ≡ self.old.plans) }
        ensures me { self.new.me ≡ self.old.me }
        ensures ranks { self.new.ranks ≡ self.old.ranks }
    {
        let at = map_place(&self.maps, map);
        enter(&mut self.maps[at].directory, from, words)?;
        Ok(())
    }
}

/// Registers indices of which none is registered yet.
fn enter(directory: &mut Directory, from: u32, words: &[u64]) -> Result<(), AllocError>
    requires known_rank { from < directory.old.ranks }
    requires home { All (λ g. is_home directory.old.ranks directory.old.size directory.old.me g ≡ true) words.now }
    requires new { AreNew (owner_of directory.old) words.now }
    ensures owners { OnOk result ((g : ℕ) → owner_of directory.new g ≡ (if stands g words.now then Some from else owner_of directory.old g)) }
    ensures below { ((g q : ℕ) → owner_of directory.old g ≡ Some q → q < directory.old.ranks) → (g q : ℕ) → owner_of directory.new g ≡ Some q → q < directory.old.ranks }
    ensures me { directory.new.me ≡ directory.old.me }
    ensures ranks { directory.new.ranks ≡ directory.old.ranks }
    ensures size { directory.new.size ≡ directory.old.size }
{
    match directory.register(from, words) {
        Ok(()) => Ok(()),
        Err(DirFault::NoMem) => Err(AllocError),
        Err(DirFault::Twice { .. }) => unreachable!(),
    }
}
