//! `tpx`: distributed sparse linear algebra over whole numbers, on simulated ranks.
//!
//! The program is one call, `top`, over files, a wire between ranks, and two sinks. `run_on_system` calls it over those of
//! the system, the tests over those in memory. What `top` does is said by its contract: the words of a command
//! (`specs/Words`), the run of a job over a wire (`specs/Runs`), how a command ends over a source of texts with the letters
//! given, and with which statuses (`specs/Endings`), what a call came to (`specs/Calls`), what the two sinks take
//! (`specs/Streams`), and the messages (`specs/Messages`, `specs/Refusals`). Nothing stands on it.
//!
//! ```
//! let status = top(alloc, &words, &mut files, &mut wire, &mut out, &mut err);
//! ```
#![tactic(auto)]

#[cfg(test)]
mod assemble_tests;
#[cfg(test)]
mod conflict_tests;
#[cfg(test)]
mod export_tests;
mod fault;
#[cfg(test)]
mod gen_tests;
mod generated;
#[cfg(test)]
mod import_tests;
#[cfg(test)]
mod matrix_tests;
mod messages;
#[cfg(test)]
mod move_tests;
mod output;
#[cfg(test)]
mod plain_matrices;
#[cfg(test)]
mod product_tests;
#[cfg(test)]
mod random_jobs;
#[cfg(test)]
mod random_matrix_tests;
#[cfg(test)]
mod random_tests;
mod refusals;
#[cfg(test)]
mod refused_tests;
#[cfg(test)]
mod residue_tests;
mod run;
#[cfg(test)]
mod run_tests;
mod show;
#[cfg(test)]
mod show_tests;
mod shown;
#[cfg(test)]
mod sum_tests;
mod system;
#[cfg(test)]
mod test_runs;
#[cfg(test)]
mod tests;
mod top_call;
mod words;

use outside::{RealFiles, RealSink};
use std::alloc::Global;
use std::process::ExitCode;
use std::{env, io};
use system::run_on_system;

/// The words after the program's name.
fn arguments(rt: &HostRuntime) -> io::Result<Vec<String>> {
    let mut words = Vec::new(rt.alloc());
    for word in env::args(rt)?.skip(1) {
        words.push(word)?;
    }
    Ok(words)
}

/// Ends with the status of `top`; where the words cannot be had, with 1 for want of memory and with 10 for any other
/// cause.
fn main(rt: HostRuntime) -> ExitCode {
    let words = match arguments(&rt) {
        Ok(words) => words,
        Err(error) if error.kind() == io::ErrorKind::OutOfMemory => return ExitCode::from(1),
        Err(_) => return ExitCode::from(10),
    };
    let mut files = RealFiles::new(&rt);
    let mut out = RealSink::new(rt.stdout());
    let mut err = RealSink::new(rt.stderr());
    run_on_system(rt.alloc(), &words, &mut files, &mut out, &mut err)
}
