//! The devices of the real system, as thin adapters: files below a folder, child programs, a Unix socket and its
//! clients, standard output, and the words of a call.
//!
//! They are the trusted edge. Each is proved against its trait, which it meets by its count of faults, raised at each
//! error; it tells nothing of content. That the system does what the traits say is shown by tests alone.
#![tactic(auto)]

mod connections;
mod disk;
mod door;
mod draining;
mod explaining;
mod failure;
mod faults;
mod folder;
mod folders;
mod hold;
mod limited;
mod limits;
mod link;
mod listing;
mod mark;
mod nodes;
mod patience;
mod places;
mod pruning;
mod quoting;
mod reading;
mod serving;
mod sink;
mod spares;
mod spawner;
mod telling;
mod unsynced;
mod walk;
mod watched;
mod words;
mod work;

pub use disk::RealDisk;
pub use door::RealDoor;
pub use limited::{LimitedWriter, Stream};
pub use link::RealLink;
pub use quoting::plain;
pub use sink::RealSink;
pub use spawner::RealSpawner;
pub use telling::{say, tell, tell_misuse};
pub use words::words_of;
pub use work::Lock;
