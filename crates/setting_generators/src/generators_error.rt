//! Why a text is no list of generators.

use key_names::Text;

/// What is wrong with a generators file, or that it ran out of memory.
#[derive(Clone, Copy, Debug, Drop, PartialEq, Eq)]
pub enum GeneratorsKind {
    /// The text is no TOML. It is at `-`.
    NotToml,
    /// The name of an entry spells no key that begins with `settings`, or one that an earlier name spells.
    BadKey,
    /// No row of the types matches the key.
    IllTyped,
    /// An entry is no text, or none with a word between its spaces.
    BadCommand,
    /// It ran out of memory. It is at the empty text.
    Memory,
}

/// The first fault of a generators file. It is at the entry's name.
#[derive(Debug, Drop)]
pub struct GeneratorsError {
    /// What is wrong.
    pub kind: GeneratorsKind,
    /// Where.
    pub at: Text,
}
