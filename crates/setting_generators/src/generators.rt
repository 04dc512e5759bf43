//! The generators of an image.
ghost use Rattle.std.specs.Prelude.{◌≡◌, map};
ghost use Rattle.setting_generators.specs.Generators.{IsRising, seen};

use crate::Generator;
use std::marker::Model;

/// The generators of an image, rising by key: one at most for each key.
#[derive(Debug, Drop)]
pub struct Generators {
    pub(crate) entries: Vec<Generator>,
}

impl Model for Generators {
    ghost use Rattle.std.specs.Prelude.{List, map};
    ghost use Rattle.setting_generators.specs.Generators.{Given, seen, IsRising};

    ghost Value = { List Given };

    ghost view = { λ g. map seen g.entries.items };

    ghost invariant = { λ g. IsRising (map seen g.entries.items) };
}

impl Generators {
    /// The generators, rising by key. It takes no memory.
    pub fn entries(&self) -> &[Generator]
        ensures entries { map seen result.now ≡ self.now }
        ensures rising { IsRising self.now }
    {
        &self.entries
    }
}
