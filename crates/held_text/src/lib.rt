//! The held text: what a store holds as one line of JSON, printed and read back. It is what a program
//! that migrates a store is given and answers. All of it, lists of keys and what is owed are written as
//! parts of other texts too. With the version of the store it is a dump.
#![tactic(auto)]

mod dump;
mod dump_error;
mod held_error;
mod reading;
mod text;
mod writing;

pub use dump::{Dump, dump_text, read_dump, version_text};
pub use dump_error::DumpError;
pub use held_error::HeldError;
pub use text::HeldText;
pub use writing::{write_keys, write_owed};
