//! The commands over an open store: requests are asked of the core, the job is driven to its end, and what the last world holds is
//! reported.
#![tactic(auto)]

mod applying;
mod asking;
mod carrying;
mod committing;
mod driving;
mod handing;
mod law;
mod lines;
mod setting;
mod telling;
mod verifying;

pub use applying::apply;
pub use committing::commit_pairs;
pub use handing::not_opened;
pub use law::laws;
pub use lines::{line_of, tree_line};
pub use setting::set;
pub use verifying::verify;
