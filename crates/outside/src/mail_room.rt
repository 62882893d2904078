//! The honest wire.
ghost use Rattle.std.specs.Prelude.{◌≡◌, ◌↔◌, ◌++◌, ◌∷◌, [], None, Some, Contains, IsErrOf, IsOk, IsSome, OnErr, OnOk};
ghost use Rattle.outside.specs.Faults.{after_call, no_faults};
ghost use Rattle.outside.specs.Letters.{IsCountOf, with_letter, without_letter};

use crate::letter_box::LetterBox;
use crate::plan::Plan;
use crate::{Name, Wire, WireErr};
use std::alloc::{AllocError, Global};
use std::marker::Model;
use std::rc::RcSlice;

/// The honest wire: it keeps each letter and gives it as it was posted. Its calls fail where this was asked for. What was
/// posted and what was given share their bytes.
#[derive(Drop)]
pub struct MailRoom {
    alloc: Global,
    letters: LetterBox,
    given: Vec<(Name, RcSlice<u8>)>,
    plan: Plan,
}

impl Model for MailRoom {
    ghost use Rattle.std.specs.Prelude.{map};
    ghost use Rattle.std.specs.Rc.{rc_slice_items};
    ghost use Rattle.outside.specs.MailRoom.{MailRoomState};

    ghost Value = { MailRoomState };

    ghost view = { λ m. record { letters = m.letters; given = map (λ g. (g.0, rc_slice_items g.1)) m.given.items; plan = m.plan } };
}

impl MailRoom {
    ghost use Rattle.outside.specs.MailRoom.{is_fault, pending_in, posted_in};

    /// No letter, and no call that is to fail.
    pub fn new(alloc: Global) -> MailRoom
        ensures no_letters { result.letters ≡ [] }
        ensures none_given { result.given ≡ [] }
        ensures plan { result.plan ≡ no_faults }
    {
        MailRoom {
            alloc,
            letters: LetterBox::new(alloc),
            given: Vec::new(alloc),
            plan: Plan::new(alloc),
        }
    }

    /// From here on the posts and takes with these numbers fail, and no others. They are counted together from 0, those
    /// before this call too. Without memory all stays.
    pub fn fail_at(&mut self, calls: &[u64]) -> Result<(), AllocError>
        ensures ok { OnOk result (self.new ≡ record self.old { plan = record self.old.plan { stated = calls.now } }) }
        ensures err { OnErr result (self.new ≡ self.old) }
    {
        self.plan.fail_at(calls)
    }

    /// [`Wire::post`], which is a fault exactly where the number of this call is stated.
    pub fn post(&mut self, name: Name, bytes: &[u8]) -> Result<(), WireErr>
        requires not_pending { pending_in self.old.letters name ≡ None }
        ensures fails { IsErrOf result WireErr.Failed ↔ Contains self.old.plan.stated self.old.plan.calls }
        ensures pends { OnOk result (pending_in self.new.letters ≡ with_letter (pending_in self.old.letters) name bytes.now) }
        ensures posts { OnOk result (posted_in self.new.letters ≡ with_letter (posted_in self.old.letters) name bytes.now) }
        ensures err { OnErr result (self.new.letters ≡ self.old.letters) }
        ensures same_given { self.new.given ≡ self.old.given }
        ensures counts { self.new.plan ≡ after_call self.old.plan (is_fault result) }
    {
        if self.plan.next_fails() {
            self.plan.count_fault();
            return Err(WireErr::Failed);
        }
        let letter = RcSlice::from_slice(self.alloc, bytes)?;
        self.letters.put(name, letter)?;
        Ok(())
    }

    /// [`Wire::take`], which is a fault exactly where the number of this call is stated. It gives what was posted.
    pub fn take(&mut self, name: Name, into: &mut Vec<u8>) -> Result<(), WireErr>
        requires posted { IsSome (posted_in self.old.letters name) }
        ensures fails { IsErrOf result WireErr.Failed ↔ Contains self.old.plan.stated self.old.plan.calls }
        ensures as_posted { OnOk result (posted_in self.old.letters name ≡ Some into.new.items) }
        ensures takes { OnOk result (pending_in self.new.letters ≡ without_letter (pending_in self.old.letters) name) }
        ensures last_given { OnOk result (self.new.given ≡ self.old.given ++ (name, into.new.items) ∷ []) }
        ensures same_posted { posted_in self.new.letters ≡ posted_in self.old.letters }
        ensures err { OnErr result (self.new.letters ≡ self.old.letters) }
        ensures err_given { OnErr result (self.new.given ≡ self.old.given) }
        ensures err_empty { OnErr result (into.new.items ≡ []) }
        ensures counts { self.new.plan ≡ after_call self.old.plan (is_fault result) }
    {
        into.clear();
        if self.plan.next_fails() {
            self.plan.count_fault();
            return Err(WireErr::Failed);
        }
        self.give(name, into)?;
        Ok(())
    }

    // Gives the letter into an empty vector, and keeps it among those given. Without memory all stays.
    fn give(&mut self, name: Name, into: &mut Vec<u8>) -> Result<(), AllocError>
        requires posted { IsSome (posted_in self.old.letters name) }
        requires empty { into.old.items ≡ [] }
        ensures as_posted { OnOk result (posted_in self.old.letters name ≡ Some into.new.items) }
        ensures takes { OnOk result (pending_in self.new.letters ≡ without_letter (pending_in self.old.letters) name) }
        ensures last_given { OnOk result (self.new.given ≡ self.old.given ++ (name, into.new.items) ∷ []) }
        ensures same_posted { posted_in self.new.letters ≡ posted_in self.old.letters }
        ensures same_plan { self.new.plan ≡ self.old.plan }
        ensures err { OnErr result (self.new ≡ self.old) }
        ensures err_empty { OnErr result (into.new.items ≡ []) }
    {
        let kept = match self.letters.get(name) {
            Some(bytes) => bytes.clone()?,
            None => unreachable!(),
        };
        into.extend_from_slice(kept.as_slice())?;
        if self.given.push((name, kept)).is_err() {
            into.clear();
            return Err(AllocError);
        }
        self.letters.mark_taken(name);
        Ok(())
    }

    /// The number of pending letters.
    pub fn pending_count(&self) -> u64
        ensures { IsCountOf (pending_in self.now.letters) result }
    {
        self.letters.pending_count()
    }
}

impl Wire for MailRoom {
    ghost use Rattle.std.specs.Prelude.{Some, true};
    ghost use Rattle.outside.specs.MailRoom.{names_of, pending_in, posted_in};
    ghost use Rattle.outside.specs.PendingLetters.{pending_in-posted_in};

    ghost pending = { λ m. pending_in m.letters };

    ghost posted = { λ m. posted_in m.letters };

    ghost taken = { λ m. names_of m.given };

    ghost given = { λ m. Some m.given };

    ghost faults = { λ m. m.plan.faults };

    ghost is_honest = { λ _. true };

    fn post(&mut self, name: Name, bytes: &[u8]) -> Result<(), WireErr> {
        self.post(name, bytes)
    }

    fn take(&mut self, name: Name, into: &mut Vec<u8>) -> Result<(), WireErr> {
        self.take(name, into)
    }

    fn pending_count(&self) -> u64 {
        self.pending_count()
    }

    ghost pending_is_posted = { λ m name letter. pending_in-posted_in m.letters name letter };
}
