//! The map machine: what a run of the core is, said once.
//!
//! Its definitions say what a world is, and what a request, a turn of the job and an opening make of it, with all that
//! the outside may let these come to (`specs/`). Its laws are the clauses of `laws`: what is not owed is paid, and jobs
//! run in order. Its other functions do a part of a step in memory, and their clauses are the machine's definitions.
//! No device is touched here.
#![tactic(auto)]

mod cause;
mod file;
mod job;
mod law;
mod plan;
mod refusal;
mod refused;
mod request;
mod states;

pub use cause::Cause;
pub use file::file_bytes;
pub use job::{Job, JobStatus, Work, apply, begun, owes_none};
pub use law::laws;
pub use plan::{Plan, first_refusing, job_plan, path_of, refusing};
pub use refusal::Refusal;
pub use refused::refused_pair;
pub use request::{Guard, Request};
pub use states::{FileState, VerifiedFile, file_state, marked_files};
