//! The commands of the program `settings`, from their words to the disk and the output.
#![tactic(auto)]

mod beginning;
mod carrying;
mod checking;
mod dumping;
mod forgetting;
mod generating;
mod generator_file;
mod getting;
mod law;
mod migrating;
mod provisioning;
mod pruning;
mod releasing;
mod restoring;
mod serving;
mod store_checking;
mod version_line;

pub use carrying::carry_out;
pub use law::laws;
