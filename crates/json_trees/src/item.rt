//! The items of a list.
ghost use Rattle.std.specs.Prelude.{◌≡◌, ◌↔◌, IfOk, IsTrue};

use key_names::Text;
use std::alloc::AllocError;

/// An item of a list: a truth value, a whole number of 64 bits, or a text.
#[derive(Debug, Drop)]
pub enum Item {
    /// `true` or `false`.
    Bool(bool),
    /// A whole number.
    Int(i64),
    /// A text.
    Text(Text),
}

impl Item {
    /// A copy of the item. The only error is out of memory.
    pub fn copy(&self) -> Result<Item, AllocError>
        ensures { IfOk result (λ item. item ≡ self.now) }
    {
        match self {
            Item::Bool(b) => Ok(Item::Bool(*b)),
            Item::Int(n) => Ok(Item::Int(*n)),
            Item::Text(text) => Ok(Item::Text(text.copy()?)),
        }
    }
}

impl PartialEq for Item {
    ghost use Rattle.json_trees.specs.Equal.{item_eq};
    ghost use Rattle.json_trees.specs.EqualLaws.{item_equal_partly};

    ghost eq = { item_eq };

    ghost laws = { item_equal_partly };

    fn eq(&self, other: &Item) -> bool
        ensures gives { result ≡ item_eq self.now other.now }
        ensures exact { IsTrue result ↔ (self.now ≡ other.now) }
    {
        match (self, other) {
            (Item::Bool(a), Item::Bool(b)) => a == b,
            (Item::Int(a), Item::Int(b)) => a == b,
            (Item::Text(a), Item::Text(b)) => a == b,
            _ => false,
        }
    }
}

impl Eq for Item {
    ghost use Rattle.json_trees.specs.EqualLaws.{item_equal};

    ghost laws = { item_equal };
}
