//! A rank that goes through phases, as it is seen from outside.
use crate::{Phased, Worker};
use outside::Name;
use peers::Peer;
use std::alloc::{AllocError, Global};

impl<W: Worker + Drop> Phased<W> {
    ghost use Rattle.std.specs.Prelude.{◌≡◌, ℕ, []};
    ghost use Rattle.peers.specs.Protocols.{Protocol};
    ghost use Rattle.rank_phases.specs.Phases.{IsPhased};
    ghost use Rattle.rank_phases.specs.Stages.{beginning};
    ghost use Rattle.rank_phases.specs.Ranks.{Course, Holds, stage_of};
    ghost use Rattle.peers.specs.Peers.{fresh};
    ghost use Rattle.rank_phases.specs.PhasedPeers.{IsPeer};

    /// A rank that was given nothing and did not work yet. It takes no memory.
    pub fn new(alloc: Global, worker: W) -> Phased<W>
        ensures course { (c : Course) → c.given ≡ [] → c.sent ≡ [] → IsPhased c.protocol c.phases → W.stands worker (stage_of c 0) → Holds W.stands result c }
        ensures peer { (protocol : Protocol) (phases rank : ℕ) → IsPhased protocol phases → W.stands worker (beginning protocol phases rank) → IsPeer W.stands result (fresh protocol rank) }
    {
        Phased::start(alloc, worker)
    }
}

impl<W: Worker + Drop> Peer for Phased<W> {
    ghost use Rattle.rank_phases.specs.PhasedPeers.{IsPeer};

    ghost stands = { λ x s. IsPeer W.stands x s };

    fn work(&mut self) -> Result<(), AllocError> {
        self.work()
    }

    fn on_letter(&mut self, name: Name, bytes: &[u8]) -> Result<bool, AllocError> {
        self.on_letter(name, bytes)
    }

    fn first_post(&self) -> Option<Name> {
        self.first_post()
    }

    fn post_bytes(&self) -> &[u8] {
        self.post_bytes()
    }

    fn sent(&mut self) {
        self.sent()
    }
}
