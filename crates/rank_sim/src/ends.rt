//! How a run ends.
ghost use Rattle.std.specs.Prelude.{◌≡◌};
ghost use Rattle.message_play.specs.declared.fault.PlayFault.{PlayFault};
ghost use Rattle.rank_sim.specs.declared.ends.RunFault.TheVariants.{NoMem};
ghost use Rattle.rank_sim.specs.Faults.{fault_of};

use message_play::PlayFault;
use model_defs::{LetterLine, PhaseLine, Sheet};
use outside::Name;
use std::alloc::{AllocError, AllocFailed};

/// What a job shows: the sheets of its printed values in the order of the statements, and its phases and letters in order.
#[derive(Debug, Drop)]
pub struct Outcome {
    pub sheets: Vec<Sheet>,
    pub phases: Vec<PhaseLine>,
    pub letters: Vec<LetterLine>,
}

/// How an order that was played to its end leaves the job.
#[derive(Debug, Drop)]
pub enum End {
    /// Each letter was delivered, and no cell of any value is over.
    Done(Outcome),
    /// A listed schedule ended while these letters were in flight, sorted by name.
    Undelivered(Vec<Name>),
    /// Each letter was delivered, and a cell of some value, given, intermediate or printed, is over.
    Over,
}

/// Why a job was not run to its end.
#[derive(Clone, Copy, Debug, PartialEq, Eq, Drop)]
pub enum RunFault {
    /// This line of a listed schedule names a letter that is neither in flight nor delivered before.
    NotInFlight { line: u32, name: Name },
    /// The wire refused a call: its count of faults rose.
    WireFault,
    /// There was no memory.
    NoMem,
}

impl From<PlayFault> for RunFault {
    ghost from_gives = { λ e f. f ≡ fault_of e };

    fn from(e: PlayFault) -> Self {
        match e {
            PlayFault::NotInFlight { line, name } => RunFault::NotInFlight { line, name },
            PlayFault::WireFault => RunFault::WireFault,
            PlayFault::NoMem => RunFault::NoMem,
        }
    }
}

impl From<AllocError> for RunFault {
    ghost from_gives = { λ _ f. f ≡ NoMem };

    fn from(_: AllocError) -> Self {
        RunFault::NoMem
    }
}

impl<T: Drop> From<AllocFailed<T>> for RunFault {
    ghost from_gives = { λ _ f. f ≡ NoMem };

    fn from(_: AllocFailed<T>) -> Self {
        RunFault::NoMem
    }
}
