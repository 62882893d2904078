//! Names in order, each with its number.
ghost use Rattle.std.specs.Prelude.{◌≡◌, ◌<◌, ◌^◌, ◌++◌, ◌∷◌, [], false, Some, length, OnOk, OnErr};
ghost use Rattle.std.specs.List.{slice_get};
ghost use Rattle.peers.specs.Protocols.{stands_in};
ghost use Rattle.schedule.specs.Registers.{number_in};

use outside::Name;
use std::alloc::{AllocError, Global};
use std::collections::BTreeMap;
use std::marker::Model;

/// Names in the order in which they came. Contracts see the list. The number of a name is found in the logarithm of their
/// count.
#[derive(Drop)]
pub(crate) struct Register {
    names: Vec<Name>,
    numbers: BTreeMap<Name, usize>,
}

impl Model for Register {
    ghost use Rattle.std.specs.Prelude.{◌≡◌, List};
    ghost use Rattle.std.specs.BTreeMap.{get};
    ghost use Rattle.outside.specs.declared.name.Name.{Name};
    ghost use Rattle.peers.specs.Protocols.{name_cmp};
    ghost use Rattle.schedule.specs.Registers.{number_in};

    ghost Value = { List Name };

    ghost view = { λ r. r.names.items };

    ghost invariant = { λ r. (n : Name) → get name_cmp r.numbers n ≡ number_in r.names.items n };
}

impl Register {
    /// No names. Takes no memory.
    pub(crate) fn new(alloc: Global) -> Register
        ensures { result ≡ [] }
    {
        Register {
            names: Vec::new(alloc),
            numbers: BTreeMap::new(alloc),
        }
    }

    /// Puts a name behind the others. Without memory all stays.
    pub(crate) fn push(&mut self, name: Name) -> Result<(), AllocError>
        requires { stands_in self.old name ≡ false }
        ensures ok { OnOk result (self.new ≡ self.old ++ name ∷ []) }
        ensures err { OnErr result (self.new ≡ self.old) }
    {
        self.names.reserve(1)?;
        self.numbers.insert(name, self.names.len())?;
        let _ = self.names.push(name);
        Ok(())
    }

    /// The number of a name, from 0.
    pub(crate) fn number_of(&self, name: Name) -> Option<usize>
        ensures { result ≡ number_in self.now name }
    {
        self.numbers.get(&name).copied()
    }

    /// How many names there are.
    pub(crate) fn len(&self) -> usize
        ensures len { result ≡ length self.now }
        ensures small { result < 2 ^ 63 }
    {
        self.names.len()
    }

    /// The name with this number.
    pub(crate) fn name(&self, number: usize) -> Name
        requires { number < length self.now }
        ensures { slice_get self.now number ≡ Some result }
    {
        self.names[number]
    }

    /// The names in order.
    pub(crate) fn names(&self) -> &[Name]
        ensures { result.now ≡ self.now }
    {
        &self.names
    }
}
