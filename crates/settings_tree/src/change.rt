//! Changes.
ghost use Rattle.std.specs.Prelude.{◌≡◌, IsTrue};
ghost use Rattle.std.specs.List.{list_all};
ghost use Rattle.settings_tree.specs.Change.{is_once, has_bare_name};

use crate::entry::Entry;
use std::marker::Model;

/// A list of entries that names no place twice, and whose metadata names have 1 to 127 bare
/// characters each. It keeps the allocator of the `Vec` that it was made of.
#[derive(Debug, Drop)]
pub struct Change {
    entries: Vec<Entry>,
}

impl Model for Change {
    ghost use Rattle.std.specs.Prelude.{List, IsTrue};
    ghost use Rattle.std.specs.List.{list_all};
    ghost use Rattle.settings_tree.specs.declared.entry.Entry.{Entry};
    ghost use Rattle.settings_tree.specs.Change.{is_once, has_bare_name};

    ghost Value = { List Entry };

    ghost view = { λ c. c.entries.items };

    ghost invariant = { λ c. IsTrue (is_once c.entries.items) × IsTrue (list_all has_bare_name c.entries.items) };
}

impl Change {
    /// The change with these entries. It takes no memory.
    pub fn of(entries: Vec<Entry>) -> Change
        requires once { IsTrue (is_once entries.items) }
        requires names { IsTrue (list_all has_bare_name entries.items) }
        ensures { result ≡ entries.items }
    {
        Change { entries }
    }

    /// The entries in their order. It takes no memory.
    pub fn as_slice(&self) -> &[Entry]
        ensures entries { result.now ≡ self.now }
        ensures once { IsTrue (is_once self.now) }
        ensures names { IsTrue (list_all has_bare_name self.now) }
    {
        &self.entries
    }

    pub(crate) fn into_entries(self) -> Vec<Entry>
        ensures entries { result.items ≡ self }
        ensures once { IsTrue (is_once self) }
        ensures names { IsTrue (list_all has_bare_name self) }
    {
        self.entries
    }
}
