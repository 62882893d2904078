//! What the reader of job texts accepts is a valid job.
//!
//! `job_text` reads a text as a `Job` of `model_defs`, or refuses it. Here it is shown that each job that it reads is valid:
//! its names are apart, its sizes within the limits, its maps layouts, and the operands of each statement fit. The crate has laws
//! alone, and no code that runs. It stands on `job_text`, and on `model_defs`, which says what valid jobs are; what carries out
//! the jobs of texts stands on it.
//!
//! ```text
//! let job = read_job(alloc, text)?;   // job_of text ≡ Ok job
//! read_jobs_are_valid();              // so IsValid job
//! ```
#![tactic(auto)]

pub mod laws;
