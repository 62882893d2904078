//! What holds of the definitions. These functions do nothing: their contracts are the laws.
ghost use Rattle.std.specs.Prelude.{◌≡◌, ◌≢◌, ◌<◌, ◌≤◌, ℕ, Bool, true, List, [], Some, filter, length, slice_get};
ghost use Rattle.std.specs.List.Sorted.{IsStrictlySortedBy};
ghost use Rattle.outside.specs.declared.name.Name.{Name};
ghost use Rattle.peers.specs.Protocols.{IsProtocol, Protocol, name_cmp, only, stands_in};
ghost use Rattle.rank_phases.specs.FirstLetters.{AreLettersTo};
ghost use Rattle.rank_phases.specs.Pairs.{from_others, sent_names, to_others};
ghost use Rattle.rank_phases.specs.Phases.{AreByPhase, GoesByPhase, IsPhased, absorbed, arrivals, names_from, names_to};

/// The order in which a rank absorbs letters is, of each phase entered, the order in which they were given.
pub fn letters_are_absorbed_by_phase()
    ensures { (entered phase rank : ℕ) (letters : List (Name × List ℕ)) → phase < entered → arrivals phase rank (absorbed entered letters) ≡ arrivals phase rank letters }
{}

/// What goes phase by phase keeps the laws of a protocol, and a rank can go through its phases. Of the letters to a rank,
/// those of a phase before a letter that it sends are all before this letter.
pub fn phases_make_a_protocol()
    ensures protocol { (P : Protocol) (phases : ℕ) → GoesByPhase P phases → IsProtocol P }
    ensures phased { (P : Protocol) (phases : ℕ) → GoesByPhase P phases → IsPhased P phases }
    ensures before { (P : Protocol) (phases : ℕ) → IsPhased P phases → (n : Name) (letters : List (Name × List ℕ)) → AreLettersTo P n.from letters → (k : ℕ) → k < n.phase
        → arrivals k n.from (only (P.before n) letters) ≡ arrivals k n.from letters }
{}

/// Of letters between each two different ranks a rank posts in a phase those to each other rank, and awaits those from
/// each other rank, without those that are left out; after the last phase none.
pub fn others_are_posted_and_awaited()
    ensures posts { (ranks phase rank : ℕ) (tests : List (Name → Bool)) (is_sent : Name → Bool) → slice_get tests phase ≡ Some is_sent → rank < ranks
        → names_from (sent_names ranks 0 tests) phase rank ≡ filter is_sent (to_others ranks phase rank) }
    ensures awaits { (ranks phase rank : ℕ) (tests : List (Name → Bool)) (is_sent : Name → Bool) → slice_get tests phase ≡ Some is_sent → rank < ranks
        → names_to (sent_names ranks 0 tests) phase rank ≡ filter is_sent (from_others ranks phase rank) }
    ensures no_posts { (ranks phase rank : ℕ) (tests : List (Name → Bool)) → length tests ≤ phase → names_from (sent_names ranks 0 tests) phase rank ≡ [] }
    ensures no_awaits { (ranks phase rank : ℕ) (tests : List (Name → Bool)) → length tests ≤ phase → names_to (sent_names ranks 0 tests) phase rank ≡ [] }
{}

/// The letters between each two different ranks, phase by phase, ascend by name, and each goes between two of the ranks
/// in one of the phases.
pub fn letters_between_ranks_ascend()
    ensures ascend { (ranks : ℕ) (tests : List (Name → Bool)) → IsStrictlySortedBy name_cmp (sent_names ranks 0 tests) }
    ensures by_phase { (ranks : ℕ) (tests : List (Name → Bool)) → AreByPhase (sent_names ranks 0 tests) }
    ensures within { (ranks : ℕ) (tests : List (Name → Bool)) (n : Name) → stands_in (sent_names ranks 0 tests) n ≡ true
        → (n.phase < length tests) × (n.from < ranks) × (n.to < ranks) × (n.from ≢ n.to) }
{}
