//! Generators.
ghost use Rattle.std.specs.Prelude.{◌<◌, length};

use key_names::Key;

/// A command that gives the value of a setting.
#[derive(Debug, Drop)]
pub struct Generator {
    /// The key of the setting.
    pub key: Key,
    /// The words of the command, at least one.
    pub words: Vec<String>,
    pub ghost some: { 0 < length words.items },
}
