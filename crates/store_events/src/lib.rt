//! What it makes of the machine's run to begin a store, to move it to another version, to read it and to forget keys of it: one event each,
//! or none, crash included.
#![tactic(auto)]

mod law;

pub use law::laws;
