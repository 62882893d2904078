//! What one rank knows of the owners of a layout.
ghost use Rattle.std.specs.Prelude.{◌≡◌, ◌<◌, ◌≤◌, ◌^◌, ◌++◌, ℕ, true, [], Some, if◌then◌else◌, nat_eq, length, map, All, IfOk, IfErr, IfSome, OnOk, OnErr};
ghost use Rattle.indexmap.specs.IndexMap.{IsUnique};
ghost use Rattle.map_core.specs.Layouts.{stands};
ghost use Rattle.map_core.specs.Homes.{is_home};
ghost use Rattle.directory.specs.Directories.{Directory, answer_for, entered, found_in, owner_of, AreNew, IsFrontOf};
ghost use Rattle.directory.specs.Faults.{IsDirFaultOf};

use crate::DirFault;
use indexmap::IndexMap;
use map_core::Gid;
use std::alloc::{AllocError, Global};
use std::marker::Model;

/// The answer for an index that no rank registered.
pub const NO_OWNER: u32 = 4294967295;

/// The owners of the indices whose home is one rank, as far as they were registered (`Tpetra::Map`, its distributed
/// directory). The home of an index is its `uniform_owner`. A look-up takes constant time.
#[derive(Drop)]
pub struct Directory {
    alloc: Global,
    me: u32,
    ranks: u32,
    size: Gid,
    owners: IndexMap<Gid, u32>,
}

impl Model for Directory {
    ghost use Rattle.directory.specs.Directories.{Directory};

    ghost Value = { Directory };

    ghost use Rattle.std.specs.Prelude.{nat_eq};
    ghost use Rattle.indexmap.specs.IndexMap.{IsUnique};
    ghost use Rattle.directory.specs.Directories.{IsDirectory};

    ghost view = { λ a. record { me = a.me; ranks = a.ranks; size = a.size; entries = a.owners.entries } };

    ghost invariant = { λ a. IsUnique nat_eq a.owners × IsDirectory (record { me = a.me; ranks = a.ranks; size = a.size; entries = a.owners.entries }) };
}

impl Directory {
    /// The directory of rank `me` of 1 to 32 ranks, for a layout of at most 2^40 indices. It knows no owner. `Err` means
    /// that memory ran out.
    pub fn new(alloc: Global, me: u32, ranks: u32, size: Gid) -> Result<Directory, AllocError>
        requires some_rank { 1 ≤ ranks }
        requires ranks_limit { ranks ≤ 32 }
        requires own_rank { me < ranks }
        requires size_limit { size ≤ 2 ^ 40 }
        ensures made { IfOk result (λ directory. directory ≡ record { me = me; ranks = ranks; size = size; entries = [] }) }
    {
        Ok(Directory {
            alloc,
            me,
            ranks,
            size,
            owners: IndexMap::new(alloc),
        })
    }

    /// Registers rank `from`, which is below the number of ranks, as the owner of the indices, whose home is this rank.
    ///
    /// `Twice` comes exactly where an index is registered already or stands twice in the list, with the first one that is
    /// registered or stands earlier in the list. `NoMem` means that memory ran out. After either nothing is changed.
    pub fn register(&mut self, from: u32, gids: &[Gid]) -> Result<(), DirFault>
        requires known_rank { from < self.old.ranks }
        requires home { All (λ g. is_home self.old.ranks self.old.size self.old.me g ≡ true) gids.now }
        ensures owners { OnOk result ((g : ℕ) → owner_of self.new g ≡ (if stands g gids.now then Some from else owner_of self.old g)) }
        ensures new { OnOk result (AreNew (owner_of self.old) gids.now) }
        ensures me { self.new.me ≡ self.old.me }
        ensures ranks { self.new.ranks ≡ self.old.ranks }
        ensures size { self.new.size ≡ self.old.size }
        ensures refused { IfErr result (IsDirFaultOf (owner_of self.old) gids.now) }
        ensures unchanged { OnErr result (self.new ≡ self.old) }
    {
        let before = self.owners.len();
        match enter(&mut self.owners, from, gids) {
            Ok(()) => Ok(()),
            Err(fault) => {
                self.owners.truncate(before);
                Err(fault)
            }
        }
    }

    /// The rank that registered the index. `None` exactly where none did.
    pub fn owner(&self, gid: Gid) -> Option<u32>
        ensures owner { result ≡ owner_of self.now gid }
        ensures below { IfSome result (λ rank. rank < self.now.ranks) }
    {
        self.owners.get(&gid).copied()
    }

    /// For each index in order the rank that registered it, or `NO_OWNER` where none did. `Err` means that memory ran out.
    pub fn answers(&self, gids: &[Gid]) -> Result<Vec<u32>, AllocError>
        ensures answers { IfOk result (λ answers. answers.items ≡ map (answer_for self.now) gids.now) }
    {
        let mut answers = Vec::with_capacity(self.alloc, gids.len())?;
        for gid in gids {
            answers.push(self.owner(*gid).unwrap_or(NO_OWNER))?;
        }
        Ok(answers)
    }
}

/// Enters the indices in order with the owner `from`, as far as each is new.
fn enter(owners: &mut IndexMap<Gid, u32>, from: u32, gids: &[Gid]) -> Result<(), DirFault>
    requires unique { IsUnique nat_eq owners.old }
    ensures front { IsFrontOf owners.old.entries owners.new.entries }
    ensures entered { OnOk result (owners.new.entries ≡ owners.old.entries ++ entered from gids.now) }
    ensures unique { IsUnique nat_eq owners.new }
    ensures new { OnOk result (AreNew (found_in owners.old.entries) gids.now) }
    ensures refused { IfErr result (IsDirFaultOf (found_in owners.old.entries) gids.now) }
{
    for gid in gids {
        if owners.contains_key(gid) {
            return Err(DirFault::Twice { gid: *gid });
        }
        owners.insert(*gid, from)?;
    }
    Ok(())
}
