//! What TOML says of a store: the table that a text is, and the texts, lists and scalars that its values are. Files that
//! hold settings, and files that say what settings are, are read by these, and refused at the place of their first fault.
//!
//! The entries of a table are gone over by `for (name, value) in table.iter()`, in the order of the names' bytes; the
//! definition `named` is the list of them.
#![tactic(auto)]

mod document;
mod located_fault;
mod names;
mod values;
mod words;

pub use document::table_of;
pub use located_fault::{LocatedFault, refused};
pub use names::other_name;
pub use values::{items_of, scalar_of, text_of};
pub use words::words_in;
