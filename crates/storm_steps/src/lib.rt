//! Random steps of a storm, which a seed determines: runs of the program `settings` with what clients send, the statuses of programs, and
//! which calls of the disk fail.
#![tactic(auto)]

mod dice;
mod making;
mod planning;
mod requests;
mod step;

pub use dice::Dice;
pub use making::step_of;
pub use planning::{FILES, LOOKS};
pub use step::{DUMP, Fault, Order, Sent, Serving, Step};
