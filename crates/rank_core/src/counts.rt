//! How many entries the letters have that came.
ghost use Rattle.std.specs.Prelude.{◌≡◌, None, Some, OnOk, if◌then◌else◌};
ghost use Rattle.outside.specs.declared.name.Name.{Name};
ghost use Rattle.outside.specs.Letters.{same_name};
ghost use Rattle.rank_core.specs.Counts.{count_of};

use outside::Name;
use std::alloc::{AllocError, Global};
use std::collections::BTreeMap;

/// The number of entries of each letter that came, by the letter's name.
#[derive(Drop)]
pub struct EntryCounts {
    by_name: BTreeMap<Name, u64>,
}

impl EntryCounts {
    /// No letter came. It takes no memory.
    pub(crate) fn new(alloc: Global) -> EntryCounts
        ensures none { (n : Name) → count_of result n ≡ None }
    {
        EntryCounts {
            by_name: BTreeMap::new(alloc),
        }
    }

    /// A letter came with so many entries.
    pub(crate) fn put(&mut self, name: Name, count: u64) -> Result<(), AllocError>
        ensures put { OnOk result ((n : Name) → count_of self.new n ≡ (if same_name name n then Some count else count_of self.old n)) }
    {
        self.by_name.insert(name, count)?;
        Ok(())
    }

    /// How many entries the letter of this name has, if it came. It takes no memory.
    pub(crate) fn get(&self, name: Name) -> Option<u64>
        ensures count { result ≡ count_of self.now name }
    {
        self.by_name.get(&name).copied()
    }
}
