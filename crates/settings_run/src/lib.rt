//! The public call of the program `settings`: one run, from its words to the devices and the output, and its headline.
#![tactic(auto)]

mod command;
mod law;

pub use command::run;
pub use law::laws;
