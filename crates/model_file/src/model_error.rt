//! Why a text is no model.

use key_names::Text;

/// What is wrong with a model file, or that memory ran out.
#[derive(Clone, Copy, Debug, Drop, PartialEq, Eq)]
pub enum ModelKind {
    /// The text is no TOML. It is at `-`.
    NotToml,
    /// A top-level name is that of no section.
    UnknownSection,
    /// A section is no table.
    NotTable,
    /// An entry of `os` has no bare name, or represents no text.
    BadOs,
    /// An entry of `types` is no row: its name spells no pattern, or it represents no text that spells a word.
    BadRow,
    /// The row meets an earlier one.
    RowsMeet,
    /// The names down to an entry are together no key.
    BadKey,
    /// An entry is neither a table nor a scalar: a float, a date or a time, or an array that holds another value than truth
    /// values, integers and texts.
    BadValue,
    /// The types don't take the value at its key.
    IllTyped,
    /// Metadata of no key that begins with `settings`, or under no metadata name.
    BadMetadata,
    /// Out of memory. It is at the empty text.
    Memory,
}

/// The first fault of a model file. It is at the names of the entry's path, joined by `/`.
#[derive(Debug, Drop)]
pub struct ModelError {
    /// What is wrong.
    pub kind: ModelKind,
    /// Where.
    pub at: Text,
}
