//! Finite maps by key.
ghost use Rattle.std.specs.Prelude.{◌≡◌, OnOk, OnErr, IsSome, IfSome, IfNone, Some, None, filter};
ghost use Rattle.std.specs.Option.{option_copied};
ghost use Rattle.std.specs.FinMap as map;
ghost use Rattle.std.specs.Ordering.{is_le, is_lt};
ghost use Rattle.key_names.specs.Order.{key_cmp};
ghost use Rattle.settings_maps.specs.Maps.{IsLeastAfter, HasNoneAfter, IsLeastFrom, HasNoneFrom, IsLastBefore, HasNoneBefore, is_empty};

use crate::tree_maps::{self, Copied};
use key_names::Key;
use std::alloc::{AllocError, Global};
use std::collections::BTreeMap;
use std::collections::btree_map::{Iter, Range};
use std::marker::Model;
use std::ops::Bound;

/// A finite map from keys to values. It keeps the allocator that it was made with.
#[derive(Drop)]
pub struct KeyMap<V> {
    map: BTreeMap<Key, V>,
    alloc: Global,
}

impl<V> Model for KeyMap<V> {
    ghost use Rattle.std.specs.FinMap.{FinMap, code, from_entries};
    ghost use Rattle.std.specs.Coded.{coded_ℕ, coded_list};
    ghost use Rattle.key_names.specs.Order.{key_cmp};

    ghost Value = { FinMap key_cmp V };

    ghost coded = { code (coded_list (coded_list coded_ℕ)) V.code };

    ghost view = { λ m. from_entries m.map.entries };
}

#[tactic(auto, using(crate::proofs::BTreeMaps::key_maps))]
impl<V: Drop> KeyMap<V> {
    /// The map with no key. It takes no memory.
    pub fn new(alloc: Global) -> KeyMap<V>
        ensures { result ≡ map.empty }
    {
        KeyMap {
            map: BTreeMap::new(alloc),
            alloc,
        }
    }

    /// The value at the key, None exactly where the map lacks it. It is logarithmic and takes no
    /// memory.
    pub fn get(&self, key: &Key) -> Option<&V>
        ensures { option_copied result ≡ map.get self.now key.now }
    {
        self.map.get(key)
    }

    /// Whether the map has no key. It takes no memory.
    pub fn is_empty(&self) -> bool
        ensures { result ≡ is_empty self.now }
    {
        self.map.is_empty()
    }

    /// Puts the value at the key, over the one that is there if there is one. It is logarithmic.
    /// The only error is out of memory, which comes only at a key that the map lacks, and leaves the
    /// map unchanged.
    pub fn put(&mut self, key: Key, value: V) -> Result<(), AllocError>
        ensures ok { OnOk result (self.new ≡ map.insert self.old key value) }
        ensures err { OnErr result (self.new ≡ self.old) }
        ensures absent { OnErr result (map.get self.old key ≡ None) }
    {
        tree_maps::put(&mut self.map, key, value)
    }

    /// Puts the value over the one that is at the key. It is logarithmic and takes no memory.
    pub fn put_over(&mut self, key: Key, value: V)
        requires { IsSome (map.get self.old key) }
        ensures { self.new ≡ map.insert self.old key value }
    {
        let put: Result<_, _> = tree_maps::put(&mut self.map, key, value);
        put.unwrap();
    }

    /// Takes the value at the key, None exactly where the map lacks it. It is logarithmic and takes no
    /// memory.
    pub fn take(&mut self, key: &Key) -> Option<V>
        ensures value { result ≡ map.get self.old key.now }
        ensures gone { self.new ≡ map.remove self.old key.now }
    {
        self.map.remove(key)
    }

    /// The entries, rising by key. Each is a constant step. It takes no memory.
    pub fn iter(&self) -> Iter<'_, Key, V>
        ensures { result ≡ map.entries self.now }
    {
        self.map.iter()
    }

    /// The entries from this key on, rising by key. The first is a logarithmic step, each other a
    /// constant one. It takes no memory.
    pub fn entries_from(&self, key: &Key) -> Range<'_, Key, V>
        ensures { result ≡ filter (λ e. is_le (key_cmp key.now e.0)) (map.entries self.now) }
    {
        self.map.range((Bound::Included(key), Bound::Unbounded))
    }

    /// The entries past this key, rising by key. The first is a logarithmic step, each other a
    /// constant one. It takes no memory.
    pub fn entries_after(&self, key: &Key) -> Range<'_, Key, V>
        ensures { result ≡ filter (λ e. is_lt (key_cmp key.now e.0)) (map.entries self.now) }
    {
        self.map.range((Bound::Excluded(key), Bound::Unbounded))
    }

    /// The entry of the least key that is greater than `after`, or of the least of all where none is
    /// given; None exactly where there is none. It is logarithmic and takes no memory.
    pub fn next_after(&self, after: Option<&Key>) -> Option<(&Key, &V)>
        ensures least { IfSome result (λ e. IsLeastAfter self.now (option_copied after.entry) e.0.now e.1.now) }
        ensures none { IfNone result (HasNoneAfter self.now (option_copied after.entry)) }
    {
        tree_maps::next_after(&self.map, after)
    }

    /// The entry of the least key from this one on, None exactly where there is none. It is
    /// logarithmic and takes no memory.
    pub fn next_from(&self, key: &Key) -> Option<(&Key, &V)>
        ensures least { IfSome result (λ e. IsLeastFrom self.now key.now e.0.now e.1.now) }
        ensures none { IfNone result (HasNoneFrom self.now key.now) }
    {
        tree_maps::next_from(&self.map, key)
    }

    /// The entry of the greatest key below this one, None exactly where there is none. It is
    /// logarithmic and takes no memory.
    pub fn last_before(&self, key: &Key) -> Option<(&Key, &V)>
        ensures greatest { IfSome result (λ e. IsLastBefore self.now key.now e.0.now e.1.now) }
        ensures none { IfNone result (HasNoneBefore self.now key.now) }
    {
        tree_maps::last_before(&self.map, key)
    }
}

#[tactic(auto, using(crate::proofs::CopiedMaps::same_entries))]
impl<V: Copied> Copied for KeyMap<V> {
    fn copied(&self) -> Result<KeyMap<V>, AllocError> {
        let map = tree_maps::copy_map(self.alloc, &self.map)?;
        Ok(KeyMap {
            map,
            alloc: self.alloc,
        })
    }
}
