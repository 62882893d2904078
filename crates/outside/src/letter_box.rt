//! The letters that were posted last under their names.
ghost use Rattle.std.specs.Prelude.{◌≡◌, [], OnOk, OnErr, count_by};
ghost use Rattle.std.specs.BTreeMap.{IsOrdered, values};
ghost use Rattle.std.specs.Option.{option_map};
ghost use Rattle.std.specs.Rc.{rc_slice_items};
ghost use Rattle.outside.specs.Letters.{IsCountOf, with_letter, without_letter};

use crate::Name;
use std::alloc::{AllocError, Global};
use std::collections::BTreeMap;
use std::marker::Model;
use std::rc::RcSlice;

#[derive(Drop)]
struct Letter {
    bytes: RcSlice<u8>,
    is_pending: bool,
}

/// For each name its last letter, and whether that is pending.
#[derive(Drop)]
pub(crate) struct LetterBox {
    letters: BTreeMap<Name, Letter>,
}

impl Model for LetterBox {
    ghost use Rattle.std.specs.Prelude.{List, map};
    ghost use Rattle.std.specs.Rc.{rc_slice_items};
    ghost use Rattle.outside.specs.declared.name.Name.{Name};
    ghost use Rattle.outside.specs.MailRoom.{PostedLetter};

    ghost Value = { List (Name × PostedLetter) };

    ghost view = { λ b. map (λ e. (e.0, record { bytes = rc_slice_items e.1.bytes; is_pending = e.1.is_pending })) b.letters.entries };
}

impl LetterBox {
    ghost use Rattle.outside.specs.MailRoom.{pending_in, posted_in};

    pub(crate) fn new(alloc: Global) -> LetterBox
        ensures { result ≡ [] }
    {
        LetterBox {
            letters: BTreeMap::new(alloc),
        }
    }

    /// Puts a letter in the place of the last one under its name. It is pending.
    pub(crate) fn put(&mut self, name: Name, bytes: RcSlice<u8>) -> Result<(), AllocError>
        ensures pends { OnOk result (pending_in self.new ≡ with_letter (pending_in self.old) name (rc_slice_items bytes)) }
        ensures posts { OnOk result (posted_in self.new ≡ with_letter (posted_in self.old) name (rc_slice_items bytes)) }
        ensures err { OnErr result (self.new ≡ self.old) }
    {
        let letter = Letter {
            bytes,
            is_pending: true,
        };
        self.letters.insert(name, letter)?;
        Ok(())
    }

    /// The bytes that were posted last under the name.
    pub(crate) fn get(&self, name: Name) -> Option<&RcSlice<u8>>
        ensures { option_map (λ b. rc_slice_items b.now) result ≡ posted_in self.now name }
    {
        match self.letters.get(&name) {
            Some(letter) => Some(&letter.bytes),
            None => None,
        }
    }

    /// The letter with this name is not pending from here on.
    pub(crate) fn mark_taken(&mut self, name: Name)
        ensures takes { pending_in self.new ≡ without_letter (pending_in self.old) name }
        ensures same_posted { posted_in self.new ≡ posted_in self.old }
    {
        if let Some(letter) = self.letters.get_mut(&name) {
            letter.is_pending = false;
        }
    }

    /// The number of letters that are pending.
    pub(crate) fn pending_count(&self) -> u64
        ensures { IsCountOf (pending_in self.now) result }
    {
        count_pending(&self.letters) as u64
    }
}

fn count_pending(letters: &BTreeMap<Name, Letter>) -> usize
    ensures count { result ≡ count_by (λ l. l.is_pending) (values letters.now) }
    ensures ordered { IsOrdered ⟦<Name as Ord>⟧.cmp letters.now }
{
    letters.values().filter(|letter| letter.is_pending).count()
}
