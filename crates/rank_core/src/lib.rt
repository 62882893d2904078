//! One rank of a job.
//!
//! A `Rank` is given its own share of the files of a job, the letters to it, and nothing else. It makes its piece of each
//! value of the job: of a vector or of parts the cells of its list of the value's map. It is a `Peer`: what it queues, and
//! its results, are what the protocol of the job (`model_defs`) says of the letters given to it. `specs/Ranks` says what
//! contracts see of a rank.
//!
//! A value whose numbers come from other ranks is made in phases: maps are registered, owners are asked for and told, each rank
//! says what it lacks or what it has for others, and its numbers come (`Tpetra::Import`, `Tpetra::Export`). They are combined in
//! the order in which the letters come. Of a matrix with places of its own the plans of its structure are made then
//! (`Tpetra::CrsMatrix::fillComplete`). All other values are made without letters, as soon as those before them are there.
//!
//! ```text
//! let share = share_of(alloc, &job, &files, me)?;
//! let mut rank = Rank::<Weighed>::start(alloc, me, &job, share)?;
//! rank.work()?;
//! while let Some(name) = rank.first_post() { ..; rank.sent(); }     // rank.post_bytes() are the letter's
//! rank.on_letter(name, bytes)?;
//! let cells = rank.piece(0)?;             // its cells of the first value, by row, then column
//! ```
//!
//! It stands on `rank_phases`, whose frame it fills with a worker: on `plan_phases` for the phases that make plans, on
//! `rank_makings` for those that send numbers, and on `rank_pieces`. The run of all ranks stands on it.
#![tactic(auto)]

mod counts;
mod lists;
mod makings;
mod names;
mod next;
mod rank;
mod worker;

pub use counts::EntryCounts;
pub use makings::Making;
pub use rank::Rank;
pub use worker::JobWorker;
