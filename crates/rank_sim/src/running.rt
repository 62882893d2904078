//! The run itself.
ghost use Rattle.std.specs.Prelude.{◌≡◌, ◌≤◌, true, false, List, map, IfOk};
ghost use Rattle.mm_text.specs.Reading.{File, file_of};
ghost use Rattle.outside.specs.Faults.{Rose};
ghost use Rattle.outside.specs.Letters.{no_letters};
ghost use Rattle.peers.specs.Protocols.{IsProtocol, Protocol};
ghost use Rattle.message_play.specs.Plays.{AreFresh, wire_state};
ghost use Rattle.scalar_laws.specs.Weighed.{weighed_conversions, weighed_semiring};
ghost use Rattle.model_defs.specs.Fitting.{IsFitting};
ghost use Rattle.model_defs.specs.Machine.{job_protocol};
ghost use Rattle.model_defs.specs.Numbers.{HaveNumbers};
ghost use Rattle.model_defs.specs.Valid.{IsValid};
ghost use Rattle.rank_core.specs.Ranks.{IsRank};
ghost use Rattle.rank_sim.specs.Ranks.{IsRunInput};
ghost use Rattle.rank_sim.specs.Runs.{IsRan, is_wire_fault};
ghost use Rattle.rank_sim.specs.Writable.{HasWritableSheets};

use crate::ranks::new_ranks;
use crate::shown::end_of;
use crate::stated::stated_are_weighed;
use crate::{End, RunFault};
use message_play::{Played, play};
use model_defs::{FileData, Job};
use outside::Wire;
use rank_core::Rank;
use scalar_laws::{Scalar, Weighed};
use schedule::Order;
use std::alloc::Global;
use std::rc::Rc;

/// Runs a job over a wire in an order, with weighed numbers: makes a rank of each share of the files, plays the ranks, and
/// puts their pieces together.
///
/// The job is valid, the files are those that it names, in the order of its values, and have the sizes that it states, and
/// the wire has nothing pending. `Done` has the sheets of the printed values, `Over` comes exactly where a cell of some value is
/// over, in each part of parts and of a split matrix, and `Undelivered` where a list ends before each letter was delivered.
/// `NotInFlight` is as in `play` of `message_play`, `WireFault` comes only where the wire's count of faults rose, and `NoMem`
/// is want of memory. After an `Err` letters may be pending. Job and files stay as they are.
pub fn run<W: Wire>(
    alloc: Global,
    job: &Rc<Job>,
    files: &[FileData],
    wire: &mut W,
    order: &Order,
) -> Result<End, RunFault>
    requires valid { IsValid job.now.value }
    requires fitting { IsFitting job.now.value (map file_of files.now) }
    requires none_pending { W.pending wire.old ≡ no_letters }
    ensures ran { IsRan weighed_semiring weighed_conversions job.now.value (map file_of files.now) order.now (wire_state W.pending W.posted W.taken W.given W.is_honest wire.old) (wire_state W.pending W.posted W.taken W.given W.is_honest wire.new) result }
    ensures writable { HasWritableSheets result }
    ensures never_falls { W.faults wire.old ≤ W.faults wire.new }
    ensures no_fault { is_wire_fault result ≡ false → W.faults wire.new ≡ W.faults wire.old }
    ensures fault { is_wire_fault result ≡ true → Rose (W.faults wire.old) (W.faults wire.new) }
{
    stated_are_weighed(job);
    run_with::<Weighed, W>(alloc, job, files, wire, order)
}

/// The same with numbers of any kind: each integer of the job and of its files has a number of the kind, the mirrored ones
/// of a file too.
pub fn run_with<S: Scalar + Drop, W: Wire>(
    alloc: Global,
    job: &Rc<Job>,
    files: &[FileData],
    wire: &mut W,
    order: &Order,
) -> Result<End, RunFault>
    requires valid { IsValid job.now.value }
    requires fitting { IsFitting job.now.value (map file_of files.now) }
    requires numbers { HaveNumbers S.conversions job.now.value (map file_of files.now) }
    requires none_pending { W.pending wire.old ≡ no_letters }
    ensures ran { IsRan S.semiring S.conversions job.now.value (map file_of files.now) order.now (wire_state W.pending W.posted W.taken W.given W.is_honest wire.old) (wire_state W.pending W.posted W.taken W.given W.is_honest wire.new) result }
    ensures writable { HasWritableSheets result }
    ensures never_falls { W.faults wire.old ≤ W.faults wire.new }
    ensures no_fault { is_wire_fault result ≡ false → W.faults wire.new ≡ W.faults wire.old }
    ensures fault { is_wire_fault result ≡ true → Rose (W.faults wire.old) (W.faults wire.new) }
{
    run_by::<S, W>(alloc, job, files, wire, order)
}

/// The same, by a protocol that contracts can name.
fn run_by<S: Scalar + Drop, W: Wire>(
    alloc: Global,
    job: &Rc<Job>,
    files: &[FileData],
    wire: &mut W,
    order: &Order,
) -> Result<End, RunFault>
    ghost protocol: { Protocol }
    requires is_of_job { protocol ≡ job_protocol S.semiring S.conversions job.now.value (map file_of files.now) }
    requires input { IsRunInput S.conversions job.now.value (map file_of files.now) }
    requires none_pending { W.pending wire.old ≡ no_letters }
    ensures ran { IsRan S.semiring S.conversions job.now.value (map file_of files.now) order.now (wire_state W.pending W.posted W.taken W.given W.is_honest wire.old) (wire_state W.pending W.posted W.taken W.given W.is_honest wire.new) result }
    ensures writable { HasWritableSheets result }
    ensures never_falls { W.faults wire.old ≤ W.faults wire.new }
    ensures no_fault { is_wire_fault result ≡ false → W.faults wire.new ≡ W.faults wire.old }
    ensures fault { is_wire_fault result ≡ true → Rose (W.faults wire.old) (W.faults wire.new) }
{
    let mut ranks = new_ranks::<S>(alloc, job, files)?;
    play_ranks(alloc, job, &mut ranks, wire, order)
}

/// Plays new ranks, and shows what they have where the order is complete.
fn play_ranks<S: Scalar + Drop, W: Wire>(
    alloc: Global,
    job: &Job,
    ranks: &mut [Rank<S>],
    wire: &mut W,
    order: &Order,
) -> Result<End, RunFault>
    ghost protocol: { Protocol }
    requires lawful { IsProtocol protocol }
    requires fresh { AreFresh (IsRank S.semiring S.conversions) protocol ranks.old }
    requires input { (files : List File) × (IsRunInput S.conversions job.now files × (protocol ≡ job_protocol S.semiring S.conversions job.now files)) }
    requires none_pending { W.pending wire.old ≡ no_letters }
    ensures ran { (files : List File) → IsRunInput S.conversions job.now files → protocol ≡ job_protocol S.semiring S.conversions job.now files
        → IsRan S.semiring S.conversions job.now files order.now (wire_state W.pending W.posted W.taken W.given W.is_honest wire.old) (wire_state W.pending W.posted W.taken W.given W.is_honest wire.new) result }
    ensures writable { HasWritableSheets result }
    ensures never_falls { W.faults wire.old ≤ W.faults wire.new }
    ensures no_fault { is_wire_fault result ≡ false → W.faults wire.new ≡ W.faults wire.old }
    ensures fault { is_wire_fault result ≡ true → Rose (W.faults wire.old) (W.faults wire.new) }
{
    match play(alloc, ranks, wire, order)? {
        Played::Complete => Ok(end_of(alloc, job, ranks)?),
        Played::Left(names) => Ok(End::Undelivered(names)),
    }
}
