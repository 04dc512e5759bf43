//! Keys of settings, and the file names of their segments: the grammar of keys with its limits, read
//! and printed, the names under which segments are stored, and the small types `Text` and `Bytes`.
#![tactic(auto)]

mod bytes;
mod characters;
mod file_names;
mod head;
mod key;
mod key_error;
mod limits;
mod list;
mod packed_text;
mod printing;
mod segment_list;
mod spelled;
mod text;

pub use bytes::{Bytes, behind_first};
pub use characters::{are_bare, are_quotable};
pub use file_names::{file_name, of_file_name};
pub use key::Key;
pub use key_error::{KeyError, KeyFault};
pub use list::read_list;
pub use text::{Text, copy_texts};
