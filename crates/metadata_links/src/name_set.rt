//! Sets of names.
ghost use Rattle.std.specs.Prelude.{◌≡◌, IfOk, OnOk, not, fold};
ghost use Rattle.std.specs.FinMap as map;
ghost use Rattle.metadata_links.specs.Rising.{with_member};

use key_names::Text;
use std::alloc::{AllocError, Global};
use std::collections::BTreeSet;
use std::marker::Model;

/// A finite set of names. It keeps the allocator that it was made with.
#[derive(Drop)]
pub struct NameSet {
    names: BTreeSet<Text>,
    alloc: Global,
}

impl Model for NameSet {
    ghost use Rattle.std.specs.FinSet.{code};
    ghost use Rattle.std.specs.Coded.{coded_ℕ, coded_list};
    ghost use Rattle.metadata_links.specs.Rising.{Names, set_of};

    ghost Value = { Names };

    ghost coded = { code (coded_list coded_ℕ) };

    ghost view = { λ s. set_of s.names.keys };
}

#[tactic(auto, using(crate::proofs::Sets::name_sets))]
impl NameSet {
    /// The set with no name. It takes no memory.
    pub fn new(alloc: Global) -> NameSet
        ensures { result ≡ map.empty }
    {
        NameSet {
            names: BTreeSet::new(alloc),
            alloc,
        }
    }

    /// The allocator that the set keeps.
    pub fn allocator(&self) -> Global {
        self.alloc
    }

    /// Adds a copy of the name, and answers whether it is new. It is logarithmic. The only error is
    /// out of memory.
    pub fn add(&mut self, name: &Text) -> Result<bool, AllocError>
        ensures added { IfOk result (λ added. added ≡ not (map.contains_key self.old name.now)) }
        ensures ok { OnOk result (self.new ≡ with_member self.old name.now) }
    {
        if self.names.contains(name) {
            return Ok(false);
        }
        self.names.insert(name.copy()?)?;
        Ok(true)
    }

    /// Adds copies of all these names.
    pub fn add_all(&mut self, names: &[Text]) -> Result<(), AllocError>
        ensures { OnOk result (self.new ≡ fold with_member self.old names.now) }
    {
        for name in names {
            let _ = self.add(name)?;
        }
        Ok(())
    }

    /// The names, rising.
    pub fn into_vec(self) -> Result<Vec<Text>, AllocError>
        ensures { IfOk result (λ names. names.items ≡ map.keys self) }
    {
        let mut rising = Vec::new(self.alloc);
        for name in self.names {
            rising.push(name)?;
        }
        Ok(rising)
    }
}
