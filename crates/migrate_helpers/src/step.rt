//! What a migration does on one of its ways.

use json_trees::Scalar;
use key_names::{Key, Text};

/// What a migration of settings does on one of its ways to the entries of a map, borrowed from it.
#[derive(Drop)]
pub(crate) enum Edit<'a> {
    /// These keys are removed.
    Removes(&'a [Key]),
    /// All keys that begin with one of these prefixes are removed.
    RemovesBelow(&'a [Key]),
    /// At the key a text equal to the first becomes the second.
    Replaces(&'a Key, &'a Text, &'a Text),
    /// For each pair in order, what is at its first key moves to its second.
    Renames(&'a [(Key, Key)]),
    /// For each pair in reverse order, what is at its second key moves to its first.
    RenamesBack(&'a [(Key, Key)]),
}

/// What a migration does on one of its ways, borrowed from it.
#[derive(Drop)]
pub(crate) enum Step<'a> {
    /// Nothing changes.
    Stays,
    /// The live settings and each pending map are edited.
    Edits(Edit<'a>),
    /// The names at the key lose their metadata.
    RemovesNames(&'a Key, &'a [Text]),
    /// At the key and the name metadata equal to the first becomes the second.
    ReplacesName(&'a Key, &'a Text, &'a Scalar, &'a Scalar),
    /// Every weak setting is removed.
    RemovesWeak,
}
