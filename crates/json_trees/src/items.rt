//! Lists of items.
ghost use Rattle.std.specs.Prelude.{◌≡◌, ◌↔◌, IfOk, IsTrue};

use crate::item::Item;
use std::alloc::{AllocError, Global};
use std::marker::Model;

/// A list of items. It keeps the allocator of the `Vec` that it was made of.
#[derive(Debug, Drop)]
pub struct Items {
    items: Vec<Item>,
}

impl Model for Items {
    ghost use Rattle.std.specs.Prelude.{List};
    ghost use Rattle.json_trees.specs.declared.item.Item.{Item};

    ghost Value = { List Item };

    ghost view = { λ s. s.items.items };
}

fn copy_items(alloc: Global, items: &[Item]) -> Result<Vec<Item>, AllocError>
    ensures { IfOk result (λ copies. copies.items ≡ items.now) }
{
    let mut copies = Vec::new(alloc);
    for item in items {
        copies.push(item.copy()?)?;
    }
    Ok(copies)
}

impl Items {
    /// The list of these items. It takes no memory.
    pub fn of(items: Vec<Item>) -> Items
        ensures { result ≡ items.items }
    {
        Items { items }
    }

    /// The items, borrowed.
    pub fn as_slice(&self) -> &[Item]
        ensures { result.now ≡ self.now }
    {
        &self.items
    }

    /// A copy of the list. The only error is out of memory.
    pub fn copy(&self) -> Result<Items, AllocError>
        ensures { IfOk result (λ items. items ≡ self.now) }
    {
        let items = copy_items(*self.items.allocator(), &self.items)?;
        Ok(Items { items })
    }
}

impl PartialEq for Items {
    ghost use Rattle.json_trees.specs.Equal.{items_eq};
    ghost use Rattle.json_trees.specs.EqualLaws.{items_equal_partly};

    ghost eq = { items_eq };

    ghost laws = { items_equal_partly };

    fn eq(&self, other: &Items) -> bool
        ensures gives { result ≡ items_eq self.now other.now }
        ensures exact { IsTrue result ↔ (self.now ≡ other.now) }
    {
        self.items == other.items
    }
}

impl Eq for Items {
    ghost use Rattle.json_trees.specs.EqualLaws.{items_equal};

    ghost laws = { items_equal };
}
