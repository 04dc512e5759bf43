//! Devices in memory, for a copy of a store that is read, and for tests: they keep what they went through, fail at the calls set to fail, and crash.
#![tactic(auto)]

mod change;
mod connection;
mod crash;
mod device;
mod disk;
mod door;
mod incoming;
mod input;
mod link;
mod map;
mod node;
mod pick;
mod plan;
mod record;
mod sink;
mod spawner;

pub use disk::MemoryDisk;
pub use door::MemoryDoor;
pub use input::Input;
pub use key_names::Bytes;
pub use link::MemoryLink;
pub use node::Node;
pub use pick::Pick;
pub use sink::MemorySink;
pub use spawner::{MemorySpawner, Question, Run};
