//! Names of letters.

/// The name of a letter: the phase of the run that it belongs to, the rank that sends it, and the rank that receives
/// it. Phases and ranks are counted from 0. Names are ordered by phase, then sender, then receiver.
#[derive(Clone, Copy, Debug, PartialEq, Eq, PartialOrd, Ord, Hash)]
pub struct Name {
    pub phase: u32,
    pub from: u32,
    pub to: u32,
}
