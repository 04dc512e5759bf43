//! What drivers over a disk in memory share: the disk with those that are kept by name, its crashes and its failing calls, and the words of rows for it.
//!
//! `put PATH`, `write PATH` and `link PATH` lay what is given there, `remove PATH` takes it away, and `sync` is an fsync of all. `cat PATH` tells a file,
//! and `tree PATH` each path below, with ` = BYTES` or ` -> TEXT`, where `\n` and `\\` represent a line feed and a backslash; where links are at the path,
//! below what they lead to. `disk` makes calls, a line each, and tells what each answers. `leaves KIND` tells the tree that a crash would leave, `crash KIND`
//! goes on with it: `old`, `new`, `torn`, `gone`, or `mixed`. `calls` tells how many calls the step before made. `fail disk N` and `stop disk N` let calls of
//! the next step fail. `keep NAME` keeps the disk, and `host NAME` goes on with a copy of the last one of this name, in later files too, or an `empty` disk.
#![tactic(auto)]

mod asking;
mod crashes;
mod disks;
mod rows;
mod telling;
mod trees;
mod words;

pub use disks::Disks;
pub use rows::{Words, all_go};
pub use telling::{directory_of, done};
