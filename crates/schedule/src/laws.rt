//! What holds of every protocol and every order. These functions do nothing: their contracts are the laws.
ghost use Rattle.std.specs.Prelude.{◌≡◌, true, List, [], length, map};
ghost use Rattle.outside.specs.declared.name.Name.{Name};
ghost use Rattle.schedule.specs.declared.chooser.Chooser.{Chooser};
ghost use Rattle.schedule.specs.declared.order.Entry.{Entry};
ghost use Rattle.peers.specs.Protocols.{stands_in, Protocol, IsProtocol, first_names, flies, in_flight, is_ready};
ghost use Rattle.schedule.specs.Orders.{Complete, IsInOrder, by_chooser, come_into_flight, ending_after, entries_beyond, listed_deliveries, listed_ending, phase_first, posted_first, sender_first};

/// No protocol can stall: where nothing is in flight, each letter was delivered, whatever was delivered and however
/// often.
pub fn no_stall()
    ensures { (P : Protocol) → IsProtocol P → (delivered : List Name) → in_flight P delivered ≡ [] → (n : Name) → stands_in P.names n ≡ true → stands_in delivered n ≡ true }
{}

/// Fifo, lifo and seed deliver each letter, each once.
pub fn choosers_complete()
    ensures complete { (P : Protocol) → IsProtocol P → (chooser : Chooser) → ending_after P (by_chooser P chooser) ≡ Complete }
    ensures once { (P : Protocol) → IsProtocol P → (chooser : Chooser) → length (by_chooser P chooser) ≡ length P.names }
{}

/// A list that names letters again delivers the same as without the repeats, but for these, and ends alike.
pub fn repeats_change_nothing()
    ensures deliveries { (P : Protocol) (entries : List Entry) → listed_deliveries P [] (entries_beyond [] entries) ≡ first_names (listed_deliveries P [] entries) }
    ensures ending { (P : Protocol) (entries : List Entry) → listed_ending P [] (entries_beyond [] entries) ≡ listed_ending P [] entries }
{}

/// A list that is delivered whole and names each letter is complete.
pub fn whole_lists_complete()
    ensures { (P : Protocol) (entries : List Entry) → listed_deliveries P [] entries ≡ map (λ e. e.name) entries → ((n : Name) → stands_in P.names n ≡ true → stands_in (map (λ e. e.name) entries) n ≡ true) → listed_ending P [] entries ≡ Complete }
{}

/// At the start letters are posted by sender, then phase, then receiver. The letters that one delivery brings into
/// flight are posted by phase, then receiver, then sender.
pub fn posted_in_order()
    ensures start { (P : Protocol) → IsProtocol P → IsInOrder sender_first (posted_first P P.ranks) }
    ensures all { (P : Protocol) → IsProtocol P → (n : Name) → stands_in (posted_first P P.ranks) n ≡ flies P [] n }
    ensures after { (P : Protocol) → IsProtocol P → (delivered : List Name) (n : Name) → ((m : Name) → stands_in delivered m ≡ true → is_ready P delivered m ≡ true) → is_ready P delivered n ≡ true → IsInOrder phase_first (come_into_flight P delivered n) }
{}
