//! The names of the operating system.
ghost use Rattle.std.specs.Prelude.{◌≡◌, map};
ghost use Rattle.std.specs.List.Sorted.{IsStrictlySortedBy};
ghost use Rattle.key_names.specs.Order.{bytes_cmp};

use key_names::Text;
use std::marker::Model;

/// A name of the operating system, with its text.
#[derive(Debug, Drop)]
pub struct OsName {
    /// The name.
    pub name: Text,
    /// The text that represents it.
    pub text: Text,
}

/// The names of the operating system with their texts, rising by name.
#[derive(Debug, Drop)]
pub struct Os {
    names: Vec<OsName>,
}

impl Model for Os {
    ghost use Rattle.std.specs.Prelude.{List, map};
    ghost use Rattle.std.specs.List.Sorted.{IsStrictlySortedBy};
    ghost use Rattle.key_names.specs.Order.{bytes_cmp};
    ghost use Rattle.settings_tree.specs.declared.os.OsName.{OsName};

    ghost Value = { List OsName };

    ghost view = { λ o. o.names.items };

    ghost invariant = { λ o. IsStrictlySortedBy bytes_cmp (map (λ n. n.name) o.names.items) };
}

impl Os {
    /// The names given, each of which is below those after it.
    pub fn of(names: Vec<OsName>) -> Os
        requires { IsStrictlySortedBy bytes_cmp (map (λ n. n.name) names.items) }
        ensures { result ≡ names.items }
    {
        Os { names }
    }

    /// The names, rising.
    pub fn names(&self) -> &[OsName]
        ensures { result.now ≡ self.now }
    {
        &self.names
    }
}
