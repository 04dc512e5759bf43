//! Values by name.
ghost use Rattle.std.specs.Prelude.{◌≡◌, ◌<◌, ◌≤◌, IsTrue, IfOk, IfErr, IfSome, IfNone, OnOk, OnErr, IsSome, Some, None, length, slice_set};
ghost use Rattle.std.specs.Option.{option_copied};
ghost use Rattle.std.specs.FinMap as map;
ghost use Rattle.key_names.specs.Order.{bytes_cmp};
ghost use Rattle.settings_maps.specs.Maps.{IsLeastAfter, HasNoneAfter, is_empty};
ghost use Rattle.settings_maps.specs.NamedValues.{RisesByName, IsNameAt, IsNameBetween, IsPlaceAfter};

use crate::tree_maps::Copied;
use json_trees::Scalar;
use key_names::Text;
use std::alloc::{AllocError, Global};
use std::marker::Model;

/// A finite map from names to values, for a few names: a list that rises by name, so that a name is
/// found by its bytes alone. A search is logarithmic; to put a new name in, or to take one out, moves
/// those after it.
#[derive(Drop)]
pub struct NamedValues {
    entries: Vec<(Text, Scalar)>,
}

impl Model for NamedValues {
    ghost use Rattle.std.specs.FinMap.{FinMap, code, from_sorted};
    ghost use Rattle.std.specs.Coded.{coded_ℕ, coded_list};
    ghost use Rattle.key_names.specs.Order.{bytes_cmp};
    ghost use Rattle.json_trees.specs.declared.scalar.Scalar.{Scalar};
    ghost use Rattle.json_trees.specs.contracts.scalar.Scalar as scalar;
    ghost use Rattle.settings_maps.specs.NamedValues.{RisesByName};

    ghost Value = { FinMap bytes_cmp Scalar };

    ghost coded = { code (coded_list coded_ℕ) scalar.the_row.coded };

    ghost view = { λ n. from_sorted n.entries.items };

    ghost invariant = { λ n. RisesByName n.entries.items };
}

// The index of the name, or the index at which it is to be put in.
fn search(entries: &[(Text, Scalar)], name: &[u8]) -> Result<usize, usize>
    requires { RisesByName entries.now }
    ensures found { IfOk result (IsNameAt entries.now name.now) }
    ensures missing { IfErr result (IsNameBetween entries.now name.now) }
{
    entries.binary_search_by(|entry| entry.0.as_str().as_bytes().cmp(name))
}

// The index of the first name above this one.
fn place_above(entries: &[(Text, Scalar)], name: &[u8]) -> usize
    requires { RisesByName entries.now }
    ensures { IsPlaceAfter entries.now (Some name.now) result }
{
    match search(entries, name) {
        Ok(index) => index + 1,
        Err(index) => index,
    }
}

// The index of the first name past the given one.
fn place_after(entries: &[(Text, Scalar)], after: Option<&[u8]>) -> usize
    requires { RisesByName entries.now }
    ensures { IsPlaceAfter entries.now (option_copied after.entry) result }
{
    match after {
        Some(name) => place_above(entries, name),
        None => 0,
    }
}

// Puts the entry at the index, over the one that is there.
fn set_entry(entries: &mut Vec<(Text, Scalar)>, index: usize, name: Text, value: Scalar)
    requires { index < length entries.old.items }
    ensures { entries.new.items ≡ slice_set entries.old.items index (name, value) }
{
    entries[index] = (name, value);
}

fn copy_entries(
    alloc: Global,
    entries: &[(Text, Scalar)],
) -> Result<Vec<(Text, Scalar)>, AllocError>
    ensures { IfOk result (λ copies. copies.items ≡ entries.now) }
{
    let mut copies = Vec::new(alloc);
    for (name, value) in entries {
        copies.push((name.copy()?, value.copy()?))?;
    }
    Ok(copies)
}

#[tactic(auto, using(crate::proofs::SortedEntries::sorted_entries))]
impl NamedValues {
    /// The map with no name. It takes no memory.
    pub fn new(alloc: Global) -> NamedValues
        ensures { result ≡ map.empty }
    {
        NamedValues {
            entries: Vec::new(alloc),
        }
    }

    /// Whether the map has no name. It takes no memory.
    pub fn is_empty(&self) -> bool
        ensures { result ≡ is_empty self.now }
    {
        self.entries.as_slice().is_empty()
    }

    /// The value of the name, None exactly where the map lacks it. It takes no memory.
    pub fn get(&self, name: &[u8]) -> Option<&Scalar>
        ensures { option_copied result ≡ map.get self.now name.now }
    {
        match search(&self.entries, name) {
            Ok(index) => Some(&self.entries[index].1),
            Err(_) => None,
        }
    }

    /// Puts the value under the name, over the one that is there if there is one. The only error
    /// is out of memory, which comes only at a name that the map lacks, and leaves the map unchanged.
    #[tactic(auto, using(crate::proofs::SortedEntries::puts))]
    pub fn put(&mut self, name: Text, value: Scalar) -> Result<(), AllocError>
        ensures ok { OnOk result (self.new ≡ map.insert self.old name value) }
        ensures err { OnErr result (self.new ≡ self.old) }
        ensures absent { OnErr result (map.get self.old name ≡ None) }
    {
        match search(&self.entries, name.as_str().as_bytes()) {
            Ok(index) => {
                set_entry(&mut self.entries, index, name, value);
                Ok(())
            }
            Err(index) => {
                self.entries.insert(index, (name, value))?;
                Ok(())
            }
        }
    }

    /// Takes the value of the name, None exactly where the map lacks it. It takes no memory.
    pub fn take(&mut self, name: &[u8]) -> Option<Scalar>
        ensures value { result ≡ map.get self.old name.now }
        ensures gone { self.new ≡ map.remove self.old name.now }
    {
        match search(&self.entries, name) {
            Ok(index) => {
                let (_, value) = self.entries.remove(index);
                Some(value)
            }
            Err(_) => None,
        }
    }

    /// Puts the value over the one that is under the name. It takes no memory.
    #[tactic(auto, using(crate::proofs::SortedEntries::puts))]
    pub fn put_over(&mut self, name: Text, value: Scalar)
        requires { IsSome (map.get self.old name) }
        ensures { self.new ≡ map.insert self.old name value }
    {
        if let Ok(index) = search(&self.entries, name.as_str().as_bytes()) {
            set_entry(&mut self.entries, index, name, value);
        }
    }

    /// The names and their values, rising by name. It takes no memory.
    pub fn as_slice(&self) -> &[(Text, Scalar)]
        ensures { result.now ≡ map.entries self.now }
    {
        self.entries.as_slice()
    }

    /// The entry of the least name that is greater than `after`, or of the least of all where none is
    /// given; None exactly where there is none. It takes no memory.
    pub fn next_after(&self, after: Option<&[u8]>) -> Option<(&Text, &Scalar)>
        ensures least { IfSome result (λ e. IsLeastAfter self.now (option_copied after.entry) e.0.now e.1.now) }
        ensures none { IfNone result (HasNoneAfter self.now (option_copied after.entry)) }
    {
        match self.entries.get(place_after(&self.entries, after)) {
            Some((name, value)) => Some((name, value)),
            None => None,
        }
    }
}

impl Copied for NamedValues {
    fn copied(&self) -> Result<NamedValues, AllocError> {
        let entries = copy_entries(*self.entries.allocator(), &self.entries)?;
        Ok(NamedValues { entries })
    }
}
