//! The map machine on a disk: what of a world is there and in the core between two events, and what a call that makes
//! events of it leaves, crash included.
#![tactic(auto)]

mod law;

pub use law::laws;
