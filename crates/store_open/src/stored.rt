//! A store that was read.
use settings_tree::Held;
use version_links::Place;

/// A store that was read: where it is, and what it holds.
#[derive(Drop)]
pub struct Stored {
    /// The data directory, with the version that the links lead to.
    pub place: Place,
    /// What is held.
    pub held: Held,
}
