//! The rows of a type table.

use crate::pattern::Pattern;
use crate::word::Word;
use key_names::Text;

/// A row: the keys that the pattern matches have values that the word takes.
#[derive(Debug, Drop)]
pub struct Row {
    /// Which keys it is for.
    pub pattern: Pattern,
    /// Which values it takes.
    pub word: Word,
    /// The text of the word.
    pub text: Text,
}
