//! All ranks, over a wire.
ghost use Rattle.std.specs.Prelude.{◌≡◌, ◌<◌, ◌+◌, ◌^◌, ℕ, true, IfOk, IsErrOf, List, Some, length, map, slice_get};
ghost use Rattle.std.specs.List.{range_with_len};
ghost use Rattle.outside.specs.declared.name.Name.{Name};
ghost use Rattle.outside.specs.Faults.{Rose};
ghost use Rattle.outside.specs.Letters.{no_letters};
ghost use Rattle.peers.specs.Protocols.{IsProtocol, Protocol};
ghost use Rattle.peers.specs.Peers.{PeerState, fresh};
ghost use Rattle.schedule.specs.Orders.{Wrong, ending};
ghost use Rattle.rank_phases.specs.PhasedPeers.{IsPeer};
ghost use Rattle.message_play.specs.Plays.{AreFresh, wire_state};
ghost use Rattle.gather_example.specs.Gathers.{gather, heard};
ghost use Rattle.gather_example.specs.Plays.{IsToldTo, words_of};
ghost use Rattle.gather_example.specs.declared.teller.Teller.{Teller};
ghost use Rattle.rank_phases.specs.declared.phased.Phased.{Phased};
ghost use Rattle.gather_example.specs.Tellers.{IsTeller};

use crate::Teller;
use message_play::{PlayFault, Played, play};
use outside::Wire;
use rank_phases::Phased;
use schedule::Order;
use std::alloc::{AllocError, Global};

/// How a play ended, and what each rank heard, by rank.
#[derive(Drop)]
pub struct Outcome {
    pub played: Played,
    pub heard: Vec<Vec<u8>>,
}

/// Plays as many ranks as there are words, for so many phases, the first `rounds` of them among all ranks, over a wire on
/// which nothing is pending, in the order.
/// `Err` is as in [`play`].
pub fn play_tellers<W: Wire>(
    alloc: Global,
    words: &[Vec<u8>],
    rounds: u32,
    phases: u32,
    wire: &mut W,
    order: &Order,
) -> Result<Outcome, PlayFault>
    requires ranks { length words.now < 2 ^ 32 }
    requires phases { phases + 1 < 2 ^ 32 }
    requires none_pending { W.pending wire.old ≡ no_letters }
    ensures told { IfOk result (IsToldTo (length words.now) (gather (words_of words.now) (length words.now) rounds phases) order.now (wire_state W.pending W.posted W.taken W.given W.is_honest wire.old) (wire_state W.pending W.posted W.taken W.given W.is_honest wire.new)) }
    ensures wrong { (line : ℕ) (name : Name) → IsErrOf result (PlayFault.NotInFlight line name) → ending (gather (words_of words.now) (length words.now) rounds phases) order.now ≡ Wrong line name }
    ensures fault { IsErrOf result PlayFault.WireFault → Rose (W.faults wire.old) (W.faults wire.new) }
{
    play_by(alloc, words, rounds, phases, wire, order)
}

/// The same, by a protocol that contracts can name.
fn play_by<W: Wire>(
    alloc: Global,
    words: &[Vec<u8>],
    rounds: u32,
    phases: u32,
    wire: &mut W,
    order: &Order,
) -> Result<Outcome, PlayFault>
    ghost protocol: { Protocol }
    requires is_gather { protocol ≡ gather (words_of words.now) (length words.now) rounds phases }
    requires ranks { length words.now < 2 ^ 32 }
    requires phases { phases + 1 < 2 ^ 32 }
    requires none_pending { W.pending wire.old ≡ no_letters }
    ensures told { IfOk result (IsToldTo (length words.now) (gather (words_of words.now) (length words.now) rounds phases) order.now (wire_state W.pending W.posted W.taken W.given W.is_honest wire.old) (wire_state W.pending W.posted W.taken W.given W.is_honest wire.new)) }
    ensures wrong { (line : ℕ) (name : Name) → IsErrOf result (PlayFault.NotInFlight line name) → ending (gather (words_of words.now) (length words.now) rounds phases) order.now ≡ Wrong line name }
    ensures fault { IsErrOf result PlayFault.WireFault → Rose (W.faults wire.old) (W.faults wire.new) }
{
    let mut ranks = new_ranks(alloc, words, rounds, phases)?;
    play_ranks(alloc, &mut ranks, wire, order)
}

/// Plays new ranks, and tells what each heard.
fn play_ranks<W: Wire>(
    alloc: Global,
    ranks: &mut [Phased<Teller>],
    wire: &mut W,
    order: &Order,
) -> Result<Outcome, PlayFault>
    ghost protocol: { Protocol }
    requires lawful { IsProtocol protocol }
    requires fresh { AreFresh (IsPeer IsTeller) protocol ranks.old }
    requires none_pending { W.pending wire.old ≡ no_letters }
    ensures told { IfOk result (IsToldTo protocol.ranks protocol order.now (wire_state W.pending W.posted W.taken W.given W.is_honest wire.old) (wire_state W.pending W.posted W.taken W.given W.is_honest wire.new)) }
    ensures wrong { (line : ℕ) (name : Name) → IsErrOf result (PlayFault.NotInFlight line name) → ending protocol order.now ≡ Wrong line name }
    ensures fault { IsErrOf result PlayFault.WireFault → Rose (W.faults wire.old) (W.faults wire.new) }
{
    let played = play(alloc, ranks, wire, order)?;
    let heard = all_heard(alloc, ranks)?;
    Ok(Outcome { played, heard })
}

/// A new rank for each word.
fn new_ranks(
    alloc: Global,
    words: &[Vec<u8>],
    rounds: u32,
    phases: u32,
) -> Result<Vec<Phased<Teller>>, AllocError>
    requires ranks { length words.now < 2 ^ 32 }
    requires phases { phases + 1 < 2 ^ 32 }
    ensures { IfOk result (λ ranks. AreFresh (IsPeer IsTeller) (gather (words_of words.now) (length words.now) rounds phases) ranks.items) }
{
    let count = words.len() as u32;
    let mut ranks = Vec::new(alloc);
    for rank in 0..count {
        ranks.push(new_rank(alloc, rank, count, rounds, phases, &words[rank as usize])?)?;
    }
    Ok(ranks)
}

/// A new rank with this word.
pub(crate) fn new_rank(
    alloc: Global,
    rank: u32,
    ranks: u32,
    rounds: u32,
    phases: u32,
    word: &[u8],
) -> Result<Phased<Teller>, AllocError>
    requires rank { rank < ranks }
    requires phases { phases + 1 < 2 ^ 32 }
    ensures { IfOk result (λ made. (words : ℕ → List ℕ) → words rank ≡ word.now → IsPeer IsTeller made (fresh (gather words ranks rounds phases) rank)) }
{
    let teller = Teller::new(alloc, rank, ranks, rounds, phases, word.to_vec(alloc)?);
    Ok(Phased::new(alloc, teller))
}

/// What each rank heard.
fn all_heard(alloc: Global, ranks: &[Phased<Teller>]) -> Result<Vec<Vec<u8>>, AllocError>
    ensures { IfOk result (λ all. (states : ℕ → PeerState) → ((rank : ℕ) (made : Phased Teller) → slice_get ranks.now rank ≡ Some made → IsPeer IsTeller made (states rank))
        → ((rank : ℕ) → (states rank).has_worked ≡ true) → map (λ w. w.items) all.items ≡ map (λ r. heard (states r).me (states r).given) (range_with_len 0 (length ranks.now))) }
{
    let mut all = Vec::new(alloc);
    for rank in ranks {
        all.push(heard_of(alloc, rank)?)?;
    }
    Ok(all)
}

/// What a rank heard.
fn heard_of(alloc: Global, rank: &Phased<Teller>) -> Result<Vec<u8>, AllocError>
    ensures { IfOk result (λ bytes. (s : PeerState) → IsPeer IsTeller rank.now s → s.has_worked ≡ true → bytes.items ≡ heard s.me s.given) }
{
    let bytes = rank.worker().heard().to_vec(alloc)?;
    Ok(bytes)
}
