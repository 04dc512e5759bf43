//! What tests of the real devices share: folders of the real system.
#![tactic(auto)]

mod folders;

pub use folders::{new_folder, remove_folder};
