//! A worked example of one rank of a job that stands alone.
//!
//! A rank knows its own share of the files and the letters to it, and nothing else. So it can be made and played without the
//! others: this crate makes the first rank of a small job ([`first_rank`]), lets it work, and takes what it queues
//! ([`posts_of`]). The letters to it are laid out by hand, as bytes. Contracts see where the rank stands by the protocol of
//! the job (`specs/SmallJob`).
//!
//! The job has two ranks. A vector x with the cells 1, 10 and 100 lies on a uniform map, and moves to a cyclic one. Of the
//! indices 0 to 2 the first rank has 0 and 1 at first, and 0 and 2 then: it asks for 2, and sends 1.
//!
//! ```text
//! let mut rank = first_rank(alloc)?;
//! let posts = posts_of(alloc, &mut rank)?;      // a WANT letter to rank 1, of index 2
//! rank.on_letter(name, &bytes)?;                // the WANT letter of rank 1, laid out by hand
//! let posts = posts_of(alloc, &mut rank)?;      // the DATA letter to rank 1
//! ```
//!
//! The crate stands on `rank_core` and `rank_share`. Nothing stands on it.
#![tactic(auto)]

#[cfg(test)]
mod laid_out;
mod posts;
mod small_job;
#[cfg(test)]
mod steps;
#[cfg(test)]
mod tests;

pub use posts::{Post, posts_of};
pub use small_job::first_rank;
