//! Letters of later phases, which wait until their phase is entered.
ghost use Rattle.std.specs.Prelude.{◌≡◌, ◌==◌, ◌∷◌, ◌++◌, [], ℕ, OnOk, if◌then◌else◌};
ghost use Rattle.rank_phases.specs.Phases.{of_phase};
ghost use Rattle.rank_phases.specs.Queues.{early_at, letters_of};

use crate::Letter;
use outside::Name;
use std::alloc::{AllocError, Global};
use std::collections::BTreeMap;

/// Letters that came before their phase, phase by phase, those of a phase in the order in which they came.
#[derive(Drop)]
pub struct Early {
    alloc: Global,
    by_phase: BTreeMap<u32, Vec<Letter>>,
}

impl Early {
    /// No letter. Takes no memory.
    pub(crate) fn new(alloc: Global) -> Early
        ensures { (phase : ℕ) → early_at result phase ≡ [] }
    {
        Early {
            alloc,
            by_phase: BTreeMap::new(alloc),
        }
    }

    /// The letters of a phase.
    pub(crate) fn letters(&self, phase: u32) -> &[Letter]
        ensures { letters_of result.now ≡ early_at self.now phase }
    {
        match self.by_phase.get(&phase) {
            Some(letters) => letters,
            None => &[],
        }
    }

    /// Keeps a letter, behind the others of its phase.
    pub(crate) fn keep(&mut self, name: Name, bytes: &[u8]) -> Result<(), AllocError>
        ensures { OnOk result ((phase : ℕ) → early_at self.new phase ≡ early_at self.old phase ++ of_phase phase ((name, bytes.now) ∷ [])) }
    {
        let bytes = bytes.to_vec(self.alloc)?;
        let mut letters = self.take(name.phase);
        letters.push(Letter { name, bytes })?;
        self.by_phase.insert(name.phase, letters)?;
        Ok(())
    }

    /// Takes out the letters of a phase.
    pub(crate) fn take(&mut self, phase: u32) -> Vec<Letter>
        ensures letters { letters_of result.items ≡ early_at self.old phase }
        ensures rest { (other : ℕ) → early_at self.new other ≡ (if phase == other then [] else early_at self.old other) }
    {
        match self.by_phase.remove(&phase) {
            Some(letters) => letters,
            None => Vec::new(self.alloc),
        }
    }
}
