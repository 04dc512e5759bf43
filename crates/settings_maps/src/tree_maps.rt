//! Steps through a `BTreeMap`, and copies of one.
ghost use Rattle.std.specs.Prelude.{◌≡◌, OnOk, OnErr, IfOk, IfSome, IfNone, Some, None};
ghost use Rattle.std.specs.BTreeMap.{insert_entry, get, Updates, IsUnchanged};
ghost use Rattle.std.specs.Option.{option_copied};
ghost use Rattle.std.specs.FinMap.{from_entries};
ghost use Rattle.settings_maps.specs.Maps.{IsLeastAfter, HasNoneAfter, IsLeastFrom, HasNoneFrom, IsLastBefore, HasNoneBefore};

use crate::tx_name::TxName;
use json_trees::{Pending, Scalar};
use key_names::Key;
use std::alloc::{AllocError, Global};
use std::collections::BTreeMap;
use std::ops::Bound;

/// A value of which a copy can be made. The copy is the value, as contracts see it.
pub trait Copied: Drop {
    /// A copy. The only error is out of memory.
    fn copied(&self) -> Result<Self, AllocError>
        ensures { IfOk result (λ copy. copy ≡ self.now) };
}

fn first<K: Ord, V>(map: &BTreeMap<K, V>) -> Option<(&K, &V)>
    ensures least { IfSome result (λ e. IsLeastAfter {R = K.cmp} (from_entries map.now.entries) None e.0.now e.1.now) }
    ensures none { IfNone result (HasNoneAfter {R = K.cmp} (from_entries map.now.entries) None) }
{
    map.first_key_value()
}

fn above<'a, K: Ord, V>(map: &'a BTreeMap<K, V>, key: &K) -> Option<(&'a K, &'a V)>
    ensures least { IfSome result (λ e. IsLeastAfter {R = K.cmp} (from_entries map.now.entries) (Some key.now) e.0.now e.1.now) }
    ensures none { IfNone result (HasNoneAfter {R = K.cmp} (from_entries map.now.entries) (Some key.now)) }
{
    map.range((Bound::Excluded(key), Bound::Unbounded)).next()
}

/// The entry of the least key past the given one, in logarithmic time. It takes no memory.
pub(crate) fn next_after<'a, K: Ord, V>(
    map: &'a BTreeMap<K, V>,
    after: Option<&K>,
) -> Option<(&'a K, &'a V)>
    ensures least { IfSome result (λ e. IsLeastAfter {R = K.cmp} (from_entries map.now.entries) (option_copied after.entry) e.0.now e.1.now) }
    ensures none { IfNone result (HasNoneAfter {R = K.cmp} (from_entries map.now.entries) (option_copied after.entry)) }
{
    match after {
        Some(key) => above(map, key),
        None => first(map),
    }
}

/// The entry of the least key from this one on, in logarithmic time. It takes no memory.
pub(crate) fn next_from<'a, K: Ord, V>(map: &'a BTreeMap<K, V>, key: &K) -> Option<(&'a K, &'a V)>
    ensures least { IfSome result (λ e. IsLeastFrom {R = K.cmp} (from_entries map.now.entries) key.now e.0.now e.1.now) }
    ensures none { IfNone result (HasNoneFrom {R = K.cmp} (from_entries map.now.entries) key.now) }
{
    map.range((Bound::Included(key), Bound::Unbounded)).next()
}

/// The entry of the greatest key below this one, in logarithmic time. It takes no memory.
pub(crate) fn last_before<'a, K: Ord, V>(map: &'a BTreeMap<K, V>, key: &K) -> Option<(&'a K, &'a V)>
    ensures greatest { IfSome result (λ e. IsLastBefore {R = K.cmp} (from_entries map.now.entries) key.now e.0.now e.1.now) }
    ensures none { IfNone result (HasNoneBefore {R = K.cmp} (from_entries map.now.entries) key.now) }
{
    map.range((Bound::Unbounded, Bound::Excluded(key)))
        .next_back()
}

/// Puts the value at the key, over the one that is there if there is one. The only error is out
/// of memory, which comes only at a key that the map lacks, and leaves the map unchanged.
pub(crate) fn put<K: Ord + Drop, V: Drop>(
    map: &mut BTreeMap<K, V>,
    key: K,
    value: V,
) -> Result<(), AllocError>
    ensures updates { OnOk result (Updates K.cmp map.old map.new key (Some value)) }
    ensures entries { OnOk result (map.new.entries ≡ insert_entry K.cmp map.old.entries key value) }
    ensures err { OnErr result (IsUnchanged map.old map.new) }
    ensures absent { OnErr result (get K.cmp map.old key ≡ None) }
{
    map.insert(key, value)?;
    Ok(())
}

fn put_copy<K: Ord + Copied, V: Copied>(
    copies: &mut BTreeMap<K, V>,
    key: &K,
    value: &V,
) -> Result<(), AllocError>
    ensures { OnOk result (copies.new.entries ≡ insert_entry K.cmp copies.old.entries key.now value.now) }
{
    let key = key.copied()?;
    let value = value.copied()?;
    put(copies, key, value)
}

/// A copy of the entries, each key and value copied.
pub(crate) fn copy_map<K: Ord + Copied, V: Copied>(
    alloc: Global,
    map: &BTreeMap<K, V>,
) -> Result<BTreeMap<K, V>, AllocError>
    ensures { IfOk result (λ copy. copy.entries ≡ map.now.entries) }
{
    let mut copies = BTreeMap::new(alloc);
    for (key, value) in map.iter() {
        put_copy(&mut copies, key, value)?;
    }
    Ok(copies)
}

impl Copied for Key {
    fn copied(&self) -> Result<Key, AllocError> {
        self.copy()
    }
}

impl Copied for TxName {
    fn copied(&self) -> Result<TxName, AllocError> {
        self.copy()
    }
}

impl Copied for Scalar {
    fn copied(&self) -> Result<Scalar, AllocError> {
        self.copy()
    }
}

impl Copied for Pending {
    fn copied(&self) -> Result<Pending, AllocError> {
        self.copy()
    }
}
