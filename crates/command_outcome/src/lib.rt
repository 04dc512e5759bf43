//! How the commands of the program `settings` end: what they print, why they are refused, and with which status.
#![tactic(auto)]

mod refusal;
mod refusal_line;
mod telling;

pub use refusal::Refusal;
pub use telling::tell;
