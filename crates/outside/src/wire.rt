//! The wire between ranks.
ghost use Rattle.std.specs.Prelude.{◌≡◌, ◌≤◌, ◌++◌, ◌∷◌, [], ℕ, Bool, List, Option, None, Some, IsErrOf, IsSome, IsTrue, OnErr, OnOk};
ghost use Rattle.outside.specs.Faults.{Rose};
ghost use Rattle.outside.specs.Letters.{IsAlike, IsCountOf, with_given, with_letter, without_letter};

use crate::{Name, WireErr};

/// A wire that takes letters by post and gives each to its receiver.
pub trait Wire {
    ghost use Rattle.outside.specs.declared.name.Name.{Name};

    /// The bytes of each letter that is pending: posted, and not taken since.
    ghost pending: { Self → Name → Option (List ℕ) };

    /// The bytes that were posted last under each name. A name that has some is pending, or was taken since.
    ghost posted: { Self → Name → Option (List ℕ) };

    /// The names taken, in order.
    ghost taken: { Self → List Name };

    /// The letters given, in order, where this wire tells them.
    ghost given: { Self → Option (List (Name × List ℕ)) };

    /// How often a call was a fault.
    ghost faults: { Self → ℕ };

    /// Whether each letter is given as it was posted.
    ghost is_honest: { Self → Bool };

    /// Posts a letter under a name that is not pending. It is pending from then on. After an `Err` all letters are as
    /// before.
    ///
    /// `Memory` is want of memory. `Failed` comes only where the count of faults rose.
    fn post(&mut self, name: Name, bytes: &[u8]) -> Result<(), WireErr>
        requires not_pending { pending self.old name ≡ None }
        ensures pends { OnOk result (pending self.new ≡ with_letter (pending self.old) name bytes.now) }
        ensures posts { OnOk result (posted self.new ≡ with_letter (posted self.old) name bytes.now) }
        ensures err_pending { OnErr result (pending self.new ≡ pending self.old) }
        ensures err_posted { OnErr result (posted self.new ≡ posted self.old) }
        ensures same_taken { taken self.new ≡ taken self.old }
        ensures same_given { given self.new ≡ given self.old }
        ensures same_honesty { is_honest self.new ≡ is_honest self.old }
        ensures never_falls { faults self.old ≤ faults self.new }
        ensures no_fault { OnOk result (faults self.new ≡ faults self.old) }
        ensures no_memory { IsErrOf result WireErr.Memory → faults self.new ≡ faults self.old }
        ensures fault { IsErrOf result WireErr.Failed → Rose (faults self.old) (faults self.new) };

    /// Puts the letter with this name into `into`, in the place of what stood there. It was posted before, and is not
    /// pending from then on. One that was taken since it was posted is given again. After an `Err` all letters are as
    /// before and `into` is empty.
    ///
    /// `Memory` is want of memory. `Failed` comes only where the count of faults rose.
    fn take(&mut self, name: Name, into: &mut Vec<u8>) -> Result<(), WireErr>
        requires posted { IsSome (posted self.old name) }
        ensures takes { OnOk result (pending self.new ≡ without_letter (pending self.old) name) }
        ensures last_taken { OnOk result (taken self.new ≡ taken self.old ++ name ∷ []) }
        ensures gives { OnOk result (given self.new ≡ with_given (given self.old) name into.new.items) }
        ensures alike { OnOk result ((letter : List ℕ) → posted self.old name ≡ Some letter → IsAlike letter into.new.items) }
        ensures as_posted { OnOk result (IsTrue (is_honest self.old) → posted self.old name ≡ Some into.new.items) }
        ensures err_pending { OnErr result (pending self.new ≡ pending self.old) }
        ensures err_taken { OnErr result (taken self.new ≡ taken self.old) }
        ensures err_given { OnErr result (given self.new ≡ given self.old) }
        ensures err_empty { OnErr result (into.new.items ≡ []) }
        ensures same_posted { posted self.new ≡ posted self.old }
        ensures same_honesty { is_honest self.new ≡ is_honest self.old }
        ensures never_falls { faults self.old ≤ faults self.new }
        ensures no_fault { OnOk result (faults self.new ≡ faults self.old) }
        ensures no_memory { IsErrOf result WireErr.Memory → faults self.new ≡ faults self.old }
        ensures fault { IsErrOf result WireErr.Failed → Rose (faults self.old) (faults self.new) };

    /// The number of pending letters.
    fn pending_count(&self) -> u64
        ensures { IsCountOf (pending self.now) result };

    /// A pending letter is the one that was posted last under its name, so it can be taken.
    ghost pending_is_posted: { (wire : Self) (name : Name) (letter : List ℕ) → pending wire name ≡ Some letter
        → posted wire name ≡ Some letter };
}
