//! The paths that a template reads, and whether each change of one of them affects each service that
//! lists the template's file.
#![tactic(auto)]

mod coverage;
mod covering;
mod gaps;
mod root_paths;

pub use coverage::Coverage;
pub use covering::covered;
pub use root_paths::reads;
