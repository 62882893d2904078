//! The numbers that everything above computes with, by their laws.
//!
//! A kind of number is a commutative semiring (the standard term: two commutative and associative
//! operations with neutral elements, of which the second distributes over the first) with an
//! absorbing zero. The records `Semiring` and `IsSemiring` in specs/ have its operations and laws,
//! `Conversions` and `AreConversions` how a number is read, shown and written. Generic code takes a `Scalar`.
//! `Weighed` and `Residue` are two kinds. The crate stands on std alone, and each crate that has
//! numbers stands on it.
#![tactic(auto)]

pub mod laws;
mod modulus;
mod residue;
mod residue_scalar;
mod scalar;
mod weighed;
mod weighed_scalar;

pub use modulus::{Mod2To63, Mod1000, Modulus};
pub use residue::Residue;
pub use scalar::Scalar;
pub use weighed::Weighed;

#[cfg(test)]
mod tests;
