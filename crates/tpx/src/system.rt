//! One command over the files and the streams of the system.
ghost use Rattle.std.specs.Prelude.{◌≡◌, ◌⊎◌, None, IsTrue, map, string_bytes};
ghost use Rattle.std.specs.Process.{exit_status};
ghost use Rattle.outside.specs.Faults.{Rose};
ghost use Rattle.run_input.specs.Sources.{SomeSource};
ghost use Rattle.tpx.specs.Endings.{EndsWith, command_of, global_ending};
ghost use Rattle.tpx.specs.Words.{begins_run};

use crate::top_call::top;
use outside::{MailRoom, RealFiles, RealSink};
use std::alloc::Global;
use std::io::{Stderr, Stdout};
use std::process::ExitCode;
use std::rt::Files;

/// Runs the command of these words over the files of the system and an honest wire, so that what is written are the values
/// on the global data. Its result goes to standard output and its message to
/// standard error, and the process is to end with the status of `top`.
pub fn run_on_system<R: Files + AllocGlobal>(
    alloc: Global,
    words: &[String],
    files: &mut RealFiles<R>,
    out: &mut RealSink<Stdout>,
    err: &mut RealSink<Stderr>,
) -> ExitCode
    ensures ends { SomeSource None (λ source. EndsWith (global_ending (command_of words.now) source) (exit_status result)) }
    ensures usage { exit_status result ≡ 2 → command_of words.now ≡ None }
    ensures no_command { command_of words.now ≡ None → (exit_status result ≡ 2) ⊎ ((exit_status result ≡ 1) × (IsTrue (begins_run (map string_bytes words.now)))) }
    ensures quiet { exit_status result ≡ 0 → err.new ≡ err.old }
    ensures untouched { (exit_status result ≡ 0) ⊎ (exit_status result ≡ 4) ⊎ (out.new ≡ out.old) }
    ensures unread { (exit_status result ≡ 3) → Rose files.old files.new }
    ensures no_read_fault { (exit_status result ≡ 3) ⊎ (files.new ≡ files.old) }
    ensures unwritten { exit_status result ≡ 4 → Rose out.old out.new }
    ensures no_write_fault { (exit_status result ≡ 4) ⊎ (out.new ≡ out.old) }
{
    let mut wire = MailRoom::new(alloc);
    ExitCode::from(top(alloc, words, files, &mut wire, out, err))
}
