//! The reference model next to runs of the program `settings` over devices in memory: it goes through the events of a run, and
//! what was seen, what the store holds and each configuration file have to be its own.
//!
//! Where the disk failed it goes through the run once for each event that may have failed, until one agrees.
#![tactic(auto)]

mod commands;
mod faults;
mod following;
mod found;
mod log_lines;
mod log_words;
mod moves;
mod outcomes;
mod planned;
mod programs;
mod rebuilding;
mod replay;
mod run;
mod serving;
mod settling;
mod stores;
mod trouble;
mod verified;

pub use following::follow;
pub use planned::{Planned, check_planned};
pub use programs::spawned_lines;
pub use replay::Replay;
pub use run::{Run, Seen};
pub use settling::go_on;
pub use stores::{left_no_store, move_to};
pub use trouble::{Trouble, differs};
pub use verified::check_verified;
