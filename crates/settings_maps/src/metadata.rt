//! Metadata by key and name.
ghost use Rattle.std.specs.Prelude.{◌≡◌, OnOk, OnErr, IsSome, IfSome, IfNone, IfOk, None, unwrap_or, if◌then◌else◌};
ghost use Rattle.std.specs.Option.{option_copied};
ghost use Rattle.std.specs.FinMap as map;
ghost use Rattle.settings_maps.specs.Maps.{IsLeastAfter, IsLeastKeyAfter, HasNoneAfter, is_empty, inner, value_at, with_value, without_value};

use crate::named_values::NamedValues;
use crate::tree_maps::{self, Copied};
use json_trees::Scalar;
use key_names::{Key, Text};
use std::alloc::{AllocError, Global};
use std::collections::BTreeMap;
use std::collections::btree_map::Iter;
use std::marker::Model;

/// A finite map from keys to finite maps from names to values. It keeps the allocator that it was
/// made with.
#[derive(Drop)]
pub struct Metadata {
    map: BTreeMap<Key, NamedValues>,
    alloc: Global,
}

impl Model for Metadata {
    ghost use Rattle.std.specs.FinMap.{FinMap, code, from_entries};
    ghost use Rattle.std.specs.Coded.{coded_ℕ, coded_list};
    ghost use Rattle.key_names.specs.Order.{bytes_cmp, key_cmp};
    ghost use Rattle.json_trees.specs.declared.scalar.Scalar.{Scalar};
    ghost use Rattle.json_trees.specs.contracts.scalar.Scalar as scalar;

    ghost Value = { FinMap key_cmp (FinMap bytes_cmp Scalar) };

    ghost coded = { code (coded_list (coded_list coded_ℕ)) (code (coded_list coded_ℕ) scalar.the_row.coded) };

    ghost view = { λ m. from_entries m.map.entries };
}

#[tactic(auto, using(crate::proofs::BTreeMaps::key_maps, crate::proofs::NestedMaps::nested_maps))]
impl Metadata {
    /// The metadata with no key. It takes no memory.
    pub fn new(alloc: Global) -> Metadata
        ensures { result ≡ map.empty }
    {
        Metadata {
            map: BTreeMap::new(alloc),
            alloc,
        }
    }

    /// The value at the key and the name, None exactly where there is none. It is logarithmic and takes
    /// no memory.
    pub fn value(&self, key: &Key, name: &[u8]) -> Option<&Scalar>
        ensures { option_copied result ≡ value_at self.now key.now name.now }
    {
        match self.map.get(key) {
            Some(names) => names.get(name),
            None => None,
        }
    }

    // Memory can run out only at a name that the key lacks.
    fn put_in(&mut self, key: &Key, name: Text, value: Scalar) -> Result<(), AllocError>
        requires { IsSome (map.get self.old key.now) }
        ensures ok { OnOk result (self.new ≡ with_value self.old key.now name value) }
        ensures err { OnErr result (self.new ≡ self.old) }
        ensures absent { OnErr result (value_at self.old key.now name ≡ None) }
    {
        self.map.get_mut(key).unwrap().put(name, value)
    }

    fn put_new(&mut self, key: Key, name: Text, value: Scalar) -> Result<(), AllocError>
        requires { map.get self.old key ≡ None }
        ensures ok { OnOk result (self.new ≡ with_value self.old key name value) }
        ensures err { OnErr result (self.new ≡ self.old) }
    {
        let mut names = NamedValues::new(self.alloc);
        names.put(name, value)?;
        tree_maps::put(&mut self.map, key, names)
    }

    /// Puts the value at the key and the name, over the one that is there if there is one. The
    /// only error is out of memory, which comes only where nothing is there, and leaves the
    /// metadata unchanged.
    pub fn put(&mut self, key: Key, name: Text, value: Scalar) -> Result<(), AllocError>
        ensures ok { OnOk result (self.new ≡ with_value self.old key name value) }
        ensures err { OnErr result (self.new ≡ self.old) }
        ensures absent { OnErr result (value_at self.old key name ≡ None) }
    {
        if self.map.contains_key(&key) {
            self.put_in(&key, name, value)
        } else {
            self.put_new(key, name, value)
        }
    }

    /// Puts the value over the one that is at the key and the name. It takes no memory.
    pub fn put_over(&mut self, key: &Key, name: Text, value: Scalar)
        requires { IsSome (value_at self.old key.now name) }
        ensures { self.new ≡ with_value self.old key.now name value }
    {
        self.map.get_mut(key).unwrap().put_over(name, value)
    }

    fn take_in(&mut self, key: &Key, name: &[u8]) -> Option<Scalar>
        requires { IsSome (map.get self.old key.now) }
        ensures value { result ≡ value_at self.old key.now name.now }
        ensures gone { self.new ≡ map.insert self.old key.now (map.remove (inner self.old key.now) name.now) }
    {
        self.map.get_mut(key).unwrap().take(name)
    }

    fn drop_empty(&mut self, key: &Key)
        ensures { self.new ≡ (if is_empty (inner self.old key.now) then map.remove self.old key.now else self.old) }
    {
        if self.map.get(key).is_some_and(|names| names.is_empty()) {
            self.map.remove(key);
        }
    }

    /// Takes the value at the key and the name, None exactly where there is none. A key that is left
    /// without names goes too. It takes no memory.
    pub fn take(&mut self, key: &Key, name: &[u8]) -> Option<Scalar>
        ensures value { result ≡ value_at self.old key.now name.now }
        ensures gone { self.new ≡ without_value self.old key.now name.now }
    {
        if self.map.contains_key(key) {
            let taken = self.take_in(key, name);
            self.drop_empty(key);
            taken
        } else {
            None
        }
    }

    /// The keys with their names and values, rising by key. Each is a constant step. It takes no
    /// memory.
    pub fn iter(&self) -> Iter<'_, Key, NamedValues>
        ensures { result ≡ map.entries self.now }
    {
        self.map.iter()
    }
}

#[tactic(auto, using(crate::proofs::CopiedMaps::same_entries))]
impl Copied for Metadata {
    fn copied(&self) -> Result<Metadata, AllocError> {
        let map = tree_maps::copy_map(self.alloc, &self.map)?;
        Ok(Metadata {
            map,
            alloc: self.alloc,
        })
    }
}
