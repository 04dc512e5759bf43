//! Lists of names without repetition.
ghost use Rattle.std.specs.Prelude.{◌≡◌, [], IfOk, OnOk};
ghost use Rattle.std.specs.Str.{bytes_eq};
ghost use Rattle.indexmap.specs.IndexSet.{insert_key, insert_all};

use indexmap::IndexSet;
use key_names::Text;
use std::alloc::{AllocError, Global};
use std::marker::Model;

/// A list that takes each name once. It keeps the allocator that it was made with.
#[derive(Drop)]
pub struct Firsts {
    all: IndexSet<String>,
}

impl Model for Firsts {
    ghost use Rattle.std.specs.Prelude.{List, ℕ, map, string_bytes};

    ghost Value = { List (List ℕ) };

    ghost view = { λ f. map (λ name. string_bytes name) f.all.keys };
}

impl Firsts {
    /// The empty list. It takes no memory.
    pub fn new(alloc: Global) -> Firsts
        ensures { result ≡ [] }
    {
        Firsts {
            all: IndexSet::new(alloc),
        }
    }

    /// Puts a copy of the name at the end, unless the list has it. The only error is out of memory.
    pub fn add(&mut self, name: &Text) -> Result<(), AllocError>
        ensures { OnOk result (self.new ≡ insert_key bytes_eq self.old name.now) }
    {
        let alloc = *self.all.allocator();
        self.all.insert(String::from_str(alloc, name.as_str())?)?;
        Ok(())
    }

    /// Puts copies of those of the names at the end that the list doesn't have yet. The only error is
    /// out of memory.
    pub fn add_all(&mut self, names: &[Text]) -> Result<(), AllocError>
        ensures { OnOk result (self.new ≡ insert_all bytes_eq self.old names.now) }
    {
        for name in names {
            self.add(name)?;
        }
        Ok(())
    }

    /// The names. The only error is out of memory.
    pub fn into_vec(self) -> Result<Vec<Text>, AllocError>
        ensures { IfOk result (λ names. names.items ≡ self) }
    {
        let mut names = Vec::new(*self.all.allocator());
        for name in self.all {
            names.push(Text::of(name))?;
        }
        Ok(names)
    }
}
