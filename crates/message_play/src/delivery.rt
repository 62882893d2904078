//! One letter goes to its receiver.
ghost use Rattle.std.specs.Prelude.{◌≡◌, ◌≤◌, ◌<◌, ◌++◌, ◌∷◌, [], true, false, List, Bool, map, is_ok, IsErrOf, OnErr, OnOk};
ghost use Rattle.outside.specs.Faults.{Rose};
ghost use Rattle.outside.specs.Letters.{IsAlike};
ghost use Rattle.outside.specs.MailRoom.{names_of};
ghost use Rattle.schedule.specs.Flights.{flight_after};
ghost use Rattle.peers.specs.Protocols.{stands_in, Letter, Protocol, IsProtocol};
ghost use Rattle.schedule.specs.Orders.{come_into_flight};
ghost use Rattle.message_play.specs.Faults.{IsPlain};
ghost use Rattle.peers.specs.Peers.{IsLetterTo, after_letter, after_work, at_rest, with_none_queued};
ghost use Rattle.peers.specs.Runs.{may_come};
ghost use Rattle.message_play.specs.Posts.{ArePostable, IsPosted, IsPartlyPosted, with_posted};
ghost use Rattle.message_play.specs.Plays.{IsCourse, WireState, wire_state};
ghost use Rattle.message_play.specs.Stages.{IsStage, Reaches};

use crate::PlayFault;
use crate::posting::work_and_post;
use outside::{Name, Wire};
use peers::Peer;
use schedule::Flow;

/// Gives a rank a letter. Where the letter is new, lets it work, and posts what it made.
fn hand_over<N: Peer, W: Wire>(
    peer: &mut N,
    name: Name,
    bytes: &[u8],
    wire: &mut W,
    flow: &mut Flow,
) -> Result<(), PlayFault>
    ghost protocol: { Protocol }
    requires lawful { IsProtocol protocol }
    requires letter { IsLetterTo protocol name.to name bytes.now }
    requires rests { (given : List Letter) × (N.stands peer.old (at_rest protocol name.to given) × ArePostable protocol (after_work (after_letter (at_rest protocol name.to given) name bytes.now)).queued flow.old (W.pending wire.old)) }
    ensures peer { OnOk result ((given : List Letter) → N.stands peer.old (at_rest protocol name.to given) → ArePostable protocol (after_work (after_letter (at_rest protocol name.to given) name bytes.now)).queued flow.old (W.pending wire.old) → N.stands peer.new (with_none_queued (after_work (after_letter (at_rest protocol name.to given) name bytes.now)))) }
    ensures flow { OnOk result ((given : List Letter) → N.stands peer.old (at_rest protocol name.to given) → ArePostable protocol (after_work (after_letter (at_rest protocol name.to given) name bytes.now)).queued flow.old (W.pending wire.old) → IsPosted (after_work (after_letter (at_rest protocol name.to given) name bytes.now)).queued [] flow.old flow.new (W.pending wire.old) (W.pending wire.new) (W.posted wire.old) (W.posted wire.new)) }
    ensures partly { OnErr result ((given : List Letter) → N.stands peer.old (at_rest protocol name.to given) → ArePostable protocol (after_work (after_letter (at_rest protocol name.to given) name bytes.now)).queued flow.old (W.pending wire.old) → IsPartlyPosted (after_work (after_letter (at_rest protocol name.to given) name bytes.now)).queued (W.pending wire.old) (W.pending wire.new)) }
    ensures same_taken { W.taken wire.new ≡ W.taken wire.old }
    ensures same_given { W.given wire.new ≡ W.given wire.old }
    ensures same_honesty { W.is_honest wire.new ≡ W.is_honest wire.old }
    ensures never_falls { W.faults wire.old ≤ W.faults wire.new }
    ensures no_fault { OnOk result (W.faults wire.new ≡ W.faults wire.old) }
    ensures no_memory { IsErrOf result PlayFault.NoMem → W.faults wire.new ≡ W.faults wire.old }
    ensures fault { IsErrOf result PlayFault.WireFault → Rose (W.faults wire.old) (W.faults wire.new) }
    ensures known_fault { IsPlain result }
{
    if peer.on_letter(name, bytes)? {
        return work_and_post(peer, wire, flow);
    }
    Ok(())
}

/// Takes a letter from the wire, that is in flight or was delivered before, and gives it to its receiver.
pub(crate) fn deliver<N: Peer, W: Wire>(
    peers: &mut [N],
    wire: &mut W,
    flow: &mut Flow,
    name: Name,
    bytes: &mut Vec<u8>,
) -> Result<(), PlayFault>
    ghost protocol: { Protocol }
    requires lawful { IsProtocol protocol }
    requires stage { (letters : List Letter) × (IsStage N.stands protocol letters peers.old flow.old (W.pending wire.old) (W.posted wire.old)) × (may_come protocol (names_of letters) name ≡ true) }
    ensures reaches { (begun : WireState) (letters : List Letter) → IsCourse protocol begun (wire_state W.pending W.posted W.taken W.given W.is_honest wire.old) letters → IsStage N.stands protocol letters peers.old flow.old (W.pending wire.old) (W.posted wire.old) → may_come protocol (names_of letters) name ≡ true → Reaches N.stands protocol begun (wire_state W.pending W.posted W.taken W.given W.is_honest wire.new) peers.new flow.new (names_of letters ++ name ∷ []) (is_ok result) }
    ensures flying { (letters : List Letter) → IsStage N.stands protocol letters peers.old flow.old (W.pending wire.old) (W.posted wire.old) → may_come protocol (names_of letters) name ≡ true → OnOk result (flow.new ≡ with_posted (flight_after flow.old name) (come_into_flight protocol (names_of letters) name)) }
    ensures never_falls { W.faults wire.old ≤ W.faults wire.new }
    ensures no_fault { OnOk result (W.faults wire.new ≡ W.faults wire.old) }
    ensures no_memory { IsErrOf result PlayFault.NoMem → W.faults wire.new ≡ W.faults wire.old }
    ensures fault { IsErrOf result PlayFault.WireFault → Rose (W.faults wire.old) (W.faults wire.new) }
    ensures known_fault { IsPlain result }
{
    wire.take(name, bytes)?;
    flow.deliver(name);
    hand_over(&mut peers[name.to as usize], name, bytes, wire, flow)
}
