//! The words of the program: which command they spell, exactly.
#![tactic(auto)]

mod command;
mod flag;
mod law;
mod number;
mod pair;
mod reading;
mod serve;
mod simple;
mod single;
mod taken;
mod words_error;

pub use command::Command;
pub use law::laws;
pub use pair::{pair_in, setting_in, split};
pub use words_error::WordsError;
