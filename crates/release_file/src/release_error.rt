//! Why a text is no release.

use key_names::Text;

/// What is wrong with a release file, or that it ran out of memory.
#[derive(Clone, Copy, Debug, Drop, PartialEq, Eq)]
pub enum ReleaseKind {
    /// The text is no TOML. It is at `-`.
    NotToml,
    /// A top-level name is that of no section.
    UnknownSection,
    /// `version` is no text of three numbers.
    BadVersion,
    /// A migration is no table of its kind's fields: a field is missing, unknown or wrong.
    BadMigration,
    /// A transition has no name of two versions, the first below the second, or no list of texts.
    BadPair,
    /// A transition names a migration that isn't there.
    UnknownMigration,
    /// It ran out of memory. It is at the empty text.
    Memory,
}

/// The first fault of a release file. It is at the entry's name.
#[derive(Debug, Drop)]
pub struct ReleaseError {
    /// What is wrong.
    pub kind: ReleaseKind,
    /// Where.
    pub at: Text,
}
