//! What a run is given.
ghost use Rattle.std.specs.Prelude.{IfOk, map};
ghost use Rattle.mm_text.specs.Reading.{file_of};
ghost use Rattle.model_defs.specs.Fitting.{IsFitting};
ghost use Rattle.model_defs.specs.Valid.{IsValid};
ghost use Rattle.run_words.specs.Seen.{order_view};
ghost use Rattle.run_input.specs.Answering.{GivesInput};
ghost use Rattle.run_input.specs.Reading.{ReadsMany};
ghost use Rattle.run_input.specs.Sources.{SomeSource};

use crate::InputFault;
use crate::found::read_found;
use crate::texts::{Texts, read_texts};
use mm_text::FileData;
use model_defs::Job;
use outside::Files;
use run_words::OrderWord;
use schedule::Order;
use std::alloc::Global;
use std::rc::Rc;

/// What a run is given: a job, the files of its given values in the order of the values, and the order of deliveries.
#[derive(Drop)]
pub struct Given {
    pub job: Rc<Job>,
    pub files: Vec<FileData>,
    pub order: Order,
}

/// Reads what the run of a job is given.
///
/// The file `job` is read, at most 1,048,576 bytes of TOML; then the schedule where `order` names one, at most 67,108,864
/// bytes; then the files of the vectors, of the parts with the ranks ascending, and of the matrices, each tested before the
/// next; then their sizes are compared with those that the job states. The first step that refuses decides. All numbers
/// count from 0.
///
/// `Refused` has the name of the file that is refused, and its first fault; it has the name of the job file where a file has
/// other sizes than the job states. `Unread` comes exactly where a read of this name failed, and so for the first name that
/// no file has; `Memory` where memory ran out. The files stay, whatever is answered. Each name is read once, so that one
/// source explains what all reads gave: a text for each name, which agrees with what the files tell.
pub fn read_given<'a, F: Files>(
    alloc: Global,
    files: &mut F,
    job: &'a str,
    order: OrderWord<'a>,
) -> Result<Given, InputFault<'a>>
    // The files stay, no count of faults falls, and Unread comes exactly where the count of its name rose.
    ensures reads { ReadsMany F.told F.faults files.old files.new result }

    // What is answered is what one source gives: the job, its files and the order, or the first refusal.
    ensures gives { SomeSource (F.told files.old) (λ source. GivesInput source job.now (order_view order.entry) result) }

    // What is given can be run: the job is valid, and the files fit it.
    ensures valid { IfOk result (λ given. IsValid given.job.value) }
    ensures fitting { IfOk result (λ given. IsFitting given.job.value (map file_of given.files.items)) }
{
    let texts = match read_texts(alloc, files, job, order) {
        Ok(texts) => texts,
        Err(fault) => return Err(fault),
    };
    let found = match read_found(alloc, files, &texts) {
        Ok(found) => found,
        Err(fault) => return Err(fault),
    };
    let Texts { job, order, .. } = texts;
    match Rc::new(alloc, job) {
        Ok(job) => Ok(Given {
            job,
            files: found,
            order,
        }),
        Err(_) => Err(InputFault::Memory),
    }
}
