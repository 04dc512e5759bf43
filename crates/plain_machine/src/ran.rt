//! Programs that were run.

use key_names::Text;

/// A program that was run.
#[derive(Debug, Drop)]
pub struct Ran {
    /// Its words.
    pub words: Vec<Text>,
    /// Its exit status.
    pub status: u16,
}
