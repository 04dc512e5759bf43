//! What lies outside the program: paths, and the traits of the devices with their written meanings.
//!
//! Each device counts its faults, and answers that it failed only where the count rose. What a device
//! tells of itself, where it tells, is a ghost member `Option`: `None` claims nothing, so an adapter over
//! the real system meets its trait with no effort.
#![tactic(auto)]

mod disk;
mod disk_error;
mod door;
mod link;
mod name;
mod path;
mod path_error;
mod path_text;
mod saying;
mod sink;
mod spawner;

pub use disk::Disk;
pub use disk_error::{DiskErr, Failed};
pub use door::Door;
pub use link::Link;
pub use name::{Name, is_name};
pub use path::Path;
pub use path_error::PathError;
pub use saying::say;
pub use sink::Sink;
pub use spawner::{Answer, AskErr, Asker, Spawner};
