//! The entries of a table.

use crate::found::Found;
use key_names::Text;
use std::marker::Model;

/// What is found under a path of names.
#[derive(Debug, Drop)]
pub struct Entry {
    pub path: Vec<Text>,
    pub found: Found,
}

impl Model for Entry {
    ghost use Rattle.model_file.specs.Entries.{Path};
    ghost use Rattle.model_file.specs.declared.found.Found.{Found};

    ghost Value = { Path × Found };

    ghost view = { λ e. (e.path.items, e.found) };
}
