//! Finite maps by name.
ghost use Rattle.std.specs.Prelude.{◌≡◌, map, IfOk, IsTrue};
ghost use Rattle.std.specs.FinMap as finite;
ghost use Rattle.std.specs.FinMap.{is_sorted};
ghost use Rattle.std.specs.FinMap.Entries.{find};
ghost use Rattle.std.specs.Option.{option_copied};
ghost use Rattle.key_names.specs.Order.{bytes_cmp};

use key_names::Text;
use std::alloc::{AllocError, Global};
use std::marker::Model;

/// A finite map from names: a list that rises by name, so that a name is found by its bytes alone.
#[derive(Drop)]
pub struct NameMap<V> {
    entries: Vec<(Text, V)>,
}

impl<V> Model for NameMap<V> {
    ghost use Rattle.std.specs.Prelude.{IsTrue};
    ghost use Rattle.std.specs.FinMap.{FinMap, code, from_sorted, is_sorted};
    ghost use Rattle.std.specs.Coded.{coded_ℕ, coded_list};
    ghost use Rattle.key_names.specs.Order.{bytes_cmp};

    ghost Value = { FinMap bytes_cmp V };

    ghost coded = { code (coded_list coded_ℕ) V.code };

    ghost view = { λ n. from_sorted n.entries.items };

    ghost invariant = { λ n. IsTrue (is_sorted bytes_cmp n.entries.items) };
}

// The value of the name.
fn find<'a, V: Drop>(entries: &'a [(Text, V)], name: &[u8]) -> Option<&'a V>
    requires { IsTrue (is_sorted bytes_cmp entries.now) }
    ensures { option_copied result ≡ find bytes_cmp name.now entries.now }
{
    match entries.binary_search_by(|entry| entry.0.as_str().as_bytes().cmp(name)) {
        Ok(index) => Some(&entries[index].1),
        Err(_) => None,
    }
}

// The names of the entries.
fn names<V: Drop>(alloc: Global, entries: &[(Text, V)]) -> Result<Vec<Text>, AllocError>
    ensures { IfOk result (λ names. names.items ≡ map (λ e. e.0) entries.now) }
{
    let mut names = Vec::new(alloc);
    for (name, _) in entries {
        names.push(name.copy()?)?;
    }
    Ok(names)
}

#[tactic(auto, using(crate::proofs::Sorted::sorted_entries))]
impl<V: Drop> NameMap<V> {
    /// The map of these entries, which rise by name. It takes no memory.
    pub fn of(entries: Vec<(Text, V)>) -> NameMap<V>
        requires { IsTrue (is_sorted bytes_cmp entries.items) }
        ensures { finite.entries result ≡ entries.items }
    {
        NameMap { entries }
    }

    /// The entries, rising by name. It takes no memory.
    pub fn as_slice(&self) -> &[(Text, V)]
        ensures { result.now ≡ finite.entries self.now }
    {
        &self.entries
    }

    /// The names, rising. The only error is out of memory.
    pub fn names(&self) -> Result<Vec<Text>, AllocError>
        ensures { IfOk result (λ names. names.items ≡ finite.keys self.now) }
    {
        names(*self.entries.allocator(), &self.entries)
    }

    /// The value of the name, None exactly where the map lacks it. It is logarithmic and takes no
    /// memory.
    pub fn get(&self, name: &[u8]) -> Option<&V>
        ensures { option_copied result ≡ finite.get self.now name.now }
    {
        find(&self.entries, name)
    }
}
