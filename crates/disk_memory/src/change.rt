//! What a disk in memory records.
use crate::Node;
use outside::Path;

/// One change of a disk.
#[derive(Debug, Drop)]
pub enum Change {
    /// The path has this node now. True where it was written in place, so that a crash may tear it.
    Put(Path, Option<Node>, bool),
    /// What is there is on the disk.
    Synced,
}

/// What is known of a path that was touched since the last sync.
#[derive(Debug, Drop)]
pub struct Touch {
    /// The node at the last sync.
    pub before: Option<Node>,
    /// Whether it was written in place.
    pub in_place: bool,
}
