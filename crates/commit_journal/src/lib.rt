//! A change of many files below a directory, at once or not at all.
//!
//! The change is written into one file, the journal, before any other file is touched. A crash then leaves
//! either no journal, and the files as they were, or a journal from which the change can be carried out.
//! No word is said of what the files mean.
#![tactic(auto)]

mod batch;
mod batch_error;
mod changing;
mod entry_path;
mod install;
mod journal_error;
mod law;
mod parts;
mod placed_entry;
mod printing;
mod reading;
mod recovery;

pub use batch::Batch;
pub use batch_error::BatchError;
pub use changing::change;
pub use entry_path::has_first_name;
pub use journal_error::JournalError;
pub use law::laws;
pub use parts::cut;
pub use reading::are_rising;
pub use recovery::recover;
