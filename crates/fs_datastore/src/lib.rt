//! The state of a store as files below a data directory, one for each value, read from a disk and written to one. A
//! change of it is a batch of these files, which `commit_journal` carries out.
#![tactic(auto)]

mod batch;
mod entry_file;
mod found;
mod key_files;
mod law;
mod load_error;
mod loading;
mod place;
mod place_paths;
mod saving;
mod scalar_texts;

pub use batch::batch_of;
pub use found::Found;
pub use law::laws;
pub use load_error::LoadError;
pub use loading::{Loaded, load};
pub use saving::save_all;
