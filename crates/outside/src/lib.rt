//! The outside of a run: files that are read, sinks that take text, and the wire between ranks.
//!
//! Each is a trait. Contracts see what it tells, as the bytes of each file or the letters that are pending, and a count
//! of faults: a call answers that it failed only where that count rose. [`MemFiles`], [`MemSink`] and [`MailRoom`] are
//! in memory and fail exactly where they were asked to. [`TwistWire`] changes the numbers of the letters that it gives.
//! [`RealFiles`] and [`RealSink`] stand on the system, of whose content nothing is known.
//!
//! What a call that writes a text does to a sink is one word of contracts, `Writes`, and what a call that reads a file
//! does to the files is another, `Reads`.
//!
//! ```
//! let mut sink = MemSink::new(alloc, 100)?;
//! write_all(&mut sink, b"text")?;
//! ```
//!
//! The crate stands on std alone. The reader and the writers of Matrix Market text, the schedule of letters, the
//! simulation of the ranks and the program stand on it.
#![tactic(auto)]

mod faults;
mod files;
pub mod laws;
mod letter_box;
mod mail_room;
mod mem_files;
mod mem_sink;
mod name;
mod plan;
mod real_files;
mod real_sink;
mod sinks;
#[cfg(test)]
mod tests;
mod twist;
mod twist_wire;
mod wire;
mod wire_err;

pub use faults::Failed;
pub use files::Files;
pub use mail_room::MailRoom;
pub use mem_files::MemFiles;
pub use mem_sink::MemSink;
pub use name::Name;
pub use real_files::RealFiles;
pub use real_sink::RealSink;
pub use sinks::{Sink, SinkFault, write_all};
pub use twist_wire::TwistWire;
pub use wire::Wire;
pub use wire_err::WireErr;
