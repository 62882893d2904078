//! A pool of blocks of bytes, in which letters between ranks are laid out until they are sent.
//!
//! Room is reserved ahead. Then bytes are lent, written, read and given back with no memory taken. Contracts see the
//! blocks in the order in which they were made: the size of each, and the bytes of its lease where it is lent. Live
//! leases are disjoint: a call on one leaves the bytes of all others.
//!
//! ```text
//! let mut pool = Pool::new(alloc);
//! pool.reserve(2, 45)?;
//! let lease = pool.lease(13);
//! pool.bytes_mut(&lease).fill(7);
//! pool.give_back(lease);
//! ```
//!
//! The crate stands on std alone. The transfers of distributed vectors and the letters that a rank is to send stand
//! on it.
#![tactic(auto)]

mod block;
pub mod laws;
mod lease;
mod pool;
#[cfg(test)]
mod tests;

pub use lease::Lease;
pub use pool::Pool;
