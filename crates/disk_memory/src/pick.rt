//! What a crash leaves of a path.
use key_names::Bytes;

/// What a crash leaves of one path that was touched since the last sync.
#[derive(Debug, Drop)]
pub enum Pick {
    /// The node at the last sync.
    Old,
    /// The present node.
    New,
    /// Nothing, where `write` touched the path, and else the old node.
    Gone,
    /// A file with these bytes, where `write` touched the path, and else the old node.
    Torn(Bytes),
}
