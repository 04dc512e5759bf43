//! The forms of words that say changes.

/// How each of some words says a change.
#[derive(Clone, Copy, Debug, PartialEq, Eq)]
pub enum Form {
    /// KEY=JSON sets the scalar that the JSON is.
    Values,
    /// KEY=TEXT sets the text after the `=`, as it is.
    Texts,
    /// KEY takes the setting away.
    Removals,
}
