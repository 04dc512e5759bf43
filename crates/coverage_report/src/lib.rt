//! The report on an image: whether each of its configuration files is covered, and the lines that say so.
#![tactic(auto)]

mod checking;
mod file_coverage;
mod lines;

pub use checking::check_files;
pub use file_coverage::{FileCoverage, are_covered};
pub use lines::lines_of;
