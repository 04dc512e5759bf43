//! The opening step without a disk: the change that makes of what a store holds what it holds once it is opened.
#![tactic(auto)]

mod entries;
mod rule;
mod sections;

pub use entries::{added_keys, opening_change};
pub use rule::keep_rule;
pub use sections::{is_of_image, is_of_store};
