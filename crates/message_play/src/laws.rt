//! What holds of every play. The functions do nothing: their contracts are the laws.
ghost use Rattle.std.specs.Prelude.{◌≡◌, Ok, List, [], true};
ghost use Rattle.outside.specs.Letters.{IsAlike};
ghost use Rattle.outside.specs.MailRoom.{names_of};
ghost use Rattle.outside.specs.declared.name.Name.{Name};
ghost use Rattle.peers.specs.Peers.{was_given};
ghost use Rattle.schedule.specs.declared.order.Entry.{Entry};
ghost use Rattle.schedule.specs.declared.order.Order.{Order};
ghost use Rattle.schedule.specs.Orders.{entries_beyond, listed_deliveries};
ghost use Rattle.message_play.specs.MadeRuns.{made_run};
ghost use Rattle.message_play.specs.declared.fault.Played.TheVariants.{Complete};
ghost use Rattle.peers.specs.Protocols.{Letter, Protocol, IsProtocol, firsts, stands_in};
ghost use Rattle.peers.specs.Runs.{EachComes, EachOfAll, IsExactRun, IsRun};
ghost use Rattle.message_play.specs.Plays.{IsPlayed, WireState, given_to};

use peers::Peer;

/// The first letters of a run are to what their senders make of all letters of the run as they are to what these made
/// of the letters before: alike, and over an honest wire equal.
pub fn run_of_all()
    ensures alike { (P : Protocol) → IsProtocol P → (letters : List Letter) → EachComes P [] (names_of letters) → IsRun P letters → EachOfAll IsAlike P letters (firsts letters) }
    ensures exact { (P : Protocol) → IsProtocol P → (letters : List Letter) → EachComes P [] (names_of letters) → IsExactRun P letters → EachOfAll (λ posted given. given ≡ posted) P letters (firsts letters) }
{}

/// Over an honest wire the letters given follow from the names taken: each is what its sender makes of those before it.
/// So they are known also where the wire does not tell them.
pub fn exact_runs_follow_from_names()
    ensures { (P : Protocol) (letters : List Letter) → IsExactRun P letters → letters ≡ made_run P (names_of letters) }
{}

/// A list that names letters again gives each rank the same letters as the list without the repeats, over honest wires.
pub fn repeats_give_the_same_letters()
    ensures { (P : Protocol) (entries : List Entry) (with_repeats without : List Letter) → IsExactRun P with_repeats → IsExactRun P without
        → names_of with_repeats ≡ listed_deliveries P [] entries → names_of without ≡ listed_deliveries P [] (entries_beyond [] entries)
        → firsts with_repeats ≡ without }
{}

/// Where a play is complete, each rank was given all letters to it.
pub fn complete_plays_give_all<N: Peer>()
    ensures { (P : Protocol) → IsProtocol P → (order : Order) (begun now : WireState) (peers : List N) → (p : IsPlayed N.stands P order begun now peers (Ok Complete)) → (n : Name) → stands_in P.names n ≡ true → was_given (given_to n.to (firsts p.letters)) n ≡ true }
{}
