//! The names that a word offers.
ghost use Rattle.std.specs.Prelude.{◌≡◌, ◌++◌, [], ◌∷◌, OnOk, OnErr};
ghost use Rattle.typed_settings.specs.Takes.{is_offered};

use key_names::Text;
use std::alloc::{AllocError, Global};
use std::marker::Model;

/// A list of names. It keeps its allocator.
#[derive(Debug, Drop)]
pub struct Choices {
    names: Vec<Text>,
}

impl Model for Choices {
    ghost use Rattle.std.specs.Prelude.{List, ℕ};

    ghost Value = { List (List ℕ) };

    ghost view = { λ c. c.names.items };
}

impl Choices {
    /// No names. It takes no memory.
    pub(crate) fn new(alloc: Global) -> Choices
        ensures { result ≡ [] }
    {
        Choices {
            names: Vec::new(alloc),
        }
    }

    /// Whether this is one of the names. It takes time linear in their number, and no memory.
    pub(crate) fn contains(&self, text: &str) -> bool
        ensures { result ≡ is_offered self.now text.now }
    {
        self.names.iter().any(|name| name.as_str() == text)
    }

    /// Appends a copy of the name. The only error is out of memory, and the names are then as before.
    pub(crate) fn push(&mut self, name: &str) -> Result<(), AllocError>
        ensures ok { OnOk result (self.new ≡ self.old ++ name.now ∷ []) }
        ensures err { OnErr result (self.new ≡ self.old) }
    {
        let name = String::from_str(*self.names.allocator(), name)?;
        self.names.push(Text::of(name))?;
        Ok(())
    }
}
