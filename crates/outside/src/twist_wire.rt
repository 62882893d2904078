//! A wire that changes numbers.
ghost use Rattle.std.specs.Prelude.{◌≡◌, ◌++◌, ◌∷◌, [], ℕ, List, None, Some, IfErr, IsSome, OnErr, OnOk};
ghost use Rattle.outside.specs.Letters.{IsCountOf, with_letter, without_letter};

use crate::letter_box::LetterBox;
use crate::twist::extend_twisted;
use crate::{Name, Wire, WireErr};
use std::alloc::{AllocError, Global};
use std::marker::Model;
use std::rc::RcSlice;

/// A wire that changes numbers: in each letter of the kind DATA that it gives, `by` is added modulo 2^128 to the value and
/// to the weight of each number. Letters of other kinds are given as they were posted. No call is a fault.
#[derive(Drop)]
pub struct TwistWire {
    alloc: Global,
    letters: LetterBox,
    given: Vec<(Name, RcSlice<u8>)>,
    by: u64,
}

impl Model for TwistWire {
    ghost use Rattle.std.specs.Prelude.{map};
    ghost use Rattle.std.specs.Rc.{rc_slice_items};
    ghost use Rattle.outside.specs.TwistWire.{TwistWireState};

    ghost Value = { TwistWireState };

    ghost view = { λ t. record { letters = t.letters; given = map (λ g. (g.0, rc_slice_items g.1)) t.given.items; by = t.by } };
}

impl TwistWire {
    ghost use Rattle.outside.specs.MailRoom.{pending_in, posted_in};
    ghost use Rattle.outside.specs.TwistWire.{twisted};

    /// No letter, and this to be added to each number.
    pub fn new(alloc: Global, by: u64) -> TwistWire
        ensures no_letters { result.letters ≡ [] }
        ensures none_given { result.given ≡ [] }
        ensures by { result.by ≡ by }
    {
        TwistWire {
            alloc,
            letters: LetterBox::new(alloc),
            given: Vec::new(alloc),
            by,
        }
    }

    /// [`Wire::post`], whose only `Err` is want of memory.
    pub fn post(&mut self, name: Name, bytes: &[u8]) -> Result<(), WireErr>
        requires not_pending { pending_in self.old.letters name ≡ None }
        ensures memory { IfErr result (λ e. e ≡ WireErr.Memory) }
        ensures pends { OnOk result (pending_in self.new.letters ≡ with_letter (pending_in self.old.letters) name bytes.now) }
        ensures posts { OnOk result (posted_in self.new.letters ≡ with_letter (posted_in self.old.letters) name bytes.now) }
        ensures err { OnErr result (self.new.letters ≡ self.old.letters) }
        ensures same_given { self.new.given ≡ self.old.given }
        ensures same_by { self.new.by ≡ self.old.by }
    {
        let letter = RcSlice::from_slice(self.alloc, bytes)?;
        self.letters.put(name, letter)?;
        Ok(())
    }

    /// [`Wire::take`], whose only `Err` is want of memory. It gives the letter with its numbers changed.
    pub fn take(&mut self, name: Name, into: &mut Vec<u8>) -> Result<(), WireErr>
        requires posted { IsSome (posted_in self.old.letters name) }
        ensures memory { IfErr result (λ e. e ≡ WireErr.Memory) }
        ensures changed { OnOk result ((letter : List ℕ) → posted_in self.old.letters name ≡ Some letter
            → into.new.items ≡ twisted self.old.by letter) }
        ensures takes { OnOk result (pending_in self.new.letters ≡ without_letter (pending_in self.old.letters) name) }
        ensures last_given { OnOk result (self.new.given ≡ self.old.given ++ (name, into.new.items) ∷ []) }
        ensures same_posted { posted_in self.new.letters ≡ posted_in self.old.letters }
        ensures same_by { self.new.by ≡ self.old.by }
        ensures err { OnErr result (self.new.letters ≡ self.old.letters) }
        ensures err_given { OnErr result (self.new.given ≡ self.old.given) }
        ensures err_empty { OnErr result (into.new.items ≡ []) }
    {
        into.clear();
        if self.give(name, into).is_err() {
            into.clear();
            return Err(WireErr::Memory);
        }
        self.letters.mark_taken(name);
        Ok(())
    }

    // Puts what is given for the letter into an empty vector, and keeps it among those given. Without memory only the
    // vector may have changed.
    fn give(&mut self, name: Name, into: &mut Vec<u8>) -> Result<(), AllocError>
        requires posted { IsSome (posted_in self.old.letters name) }
        requires empty { into.old.items ≡ [] }
        ensures changed { OnOk result ((letter : List ℕ) → posted_in self.old.letters name ≡ Some letter
            → into.new.items ≡ twisted self.old.by letter) }
        ensures last_given { OnOk result (self.new.given ≡ self.old.given ++ (name, into.new.items) ∷ []) }
        ensures same_letters { self.new.letters ≡ self.old.letters }
        ensures same_by { self.new.by ≡ self.old.by }
        ensures err { OnErr result (self.new.given ≡ self.old.given) }
    {
        match self.letters.get(name) {
            Some(letter) => extend_twisted(self.by, letter.as_slice(), into)?,
            None => unreachable!(),
        }
        let kept = RcSlice::from_slice(self.alloc, into.as_slice())?;
        match self.given.push((name, kept)) {
            Ok(()) => Ok(()),
            Err(_) => Err(AllocError),
        }
    }

    /// The number of pending letters.
    pub fn pending_count(&self) -> u64
        ensures { IsCountOf (pending_in self.now.letters) result }
    {
        self.letters.pending_count()
    }
}

impl Wire for TwistWire {
    ghost use Rattle.std.specs.Prelude.{Some, false};
    ghost use Rattle.outside.specs.MailRoom.{names_of, pending_in, posted_in};
    ghost use Rattle.outside.specs.PendingLetters.{pending_in-posted_in};

    ghost pending = { λ t. pending_in t.letters };

    ghost posted = { λ t. posted_in t.letters };

    ghost taken = { λ t. names_of t.given };

    ghost given = { λ t. Some t.given };

    ghost faults = { λ _. 0 };

    ghost is_honest = { λ _. false };

    fn post(&mut self, name: Name, bytes: &[u8]) -> Result<(), WireErr> {
        self.post(name, bytes)
    }

    fn take(&mut self, name: Name, into: &mut Vec<u8>) -> Result<(), WireErr> {
        self.take(name, into)
    }

    fn pending_count(&self) -> u64 {
        self.pending_count()
    }

    ghost pending_is_posted = { λ t name letter. pending_in-posted_in t.letters name letter };
}
