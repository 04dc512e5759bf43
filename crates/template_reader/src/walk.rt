//! Paths of a template.
use key_names::Key;

/// The path of an expression or a block: it leads from the root of the settings, or belongs to the
/// innermost each around it.
#[derive(Debug, Drop)]
pub enum Walk {
    /// From the root, by the segments of the key.
    Root(Key),
    /// From the item of the innermost each, by the segments of the key if there is one.
    This(Option<Key>),
    /// The name of the item of the innermost each, or its index.
    AtKey,
    /// The index of the item of the innermost each, counted from 0.
    AtIndex,
}
