//! Why a text is no user data.

use key_names::Text;

/// What is wrong with user data, or that it ran out of memory.
#[derive(Clone, Copy, Debug, Drop, PartialEq, Eq)]
pub enum UserDataKind {
    /// The text is no TOML. It is at `-`.
    NotToml,
    /// A top-level name is another than `settings`, or `settings` is no table.
    NotSettings,
    /// The names down to an entry are together no key.
    BadKey,
    /// An entry is neither a table nor a scalar: a float, a date or a time, or an array that holds another value than truth
    /// values, integers and texts.
    BadValue,
    /// It ran out of memory. It is at the empty text.
    Memory,
}

/// The first fault of user data. It is at the names down to the entry, joined by `/`.
#[derive(Debug, Drop)]
pub struct UserDataError {
    /// What is wrong.
    pub kind: UserDataKind,
    /// Where.
    pub at: Text,
}
