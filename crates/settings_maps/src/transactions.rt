//! Pending values and removals by transaction and key.
ghost use Rattle.std.specs.Prelude.{◌≡◌, OnOk, OnErr, IsSome, IfSome, IfNone, IfOk, None, unwrap_or, if◌then◌else◌};
ghost use Rattle.std.specs.Option.{option_copied};
ghost use Rattle.std.specs.FinMap as map;
ghost use Rattle.settings_maps.specs.Maps.{IsLeastAfter, IsLeastKeyAfter, HasNoneAfter, is_empty, inner, value_at, with_inner, with_value, without_value};

use crate::key_map::KeyMap;
use crate::tree_maps::{self, Copied};
use crate::tx_name::TxName;
use json_trees::Pending;
use key_names::Key;
use std::alloc::{AllocError, Global};
use std::collections::BTreeMap;
use std::collections::btree_map::Iter;
use std::marker::Model;

/// A finite map from transactions to finite maps from keys to what is pending. It keeps the allocator
/// that it was made with.
#[derive(Drop)]
pub struct Transactions {
    map: BTreeMap<TxName, KeyMap<Pending>>,
    alloc: Global,
}

impl Model for Transactions {
    ghost use Rattle.std.specs.FinMap.{FinMap, code, from_entries};
    ghost use Rattle.std.specs.Coded.{coded_ℕ, coded_list};
    ghost use Rattle.key_names.specs.Order.{bytes_cmp, key_cmp};
    ghost use Rattle.json_trees.specs.declared.pending.Pending.{Pending};
    ghost use Rattle.json_trees.specs.contracts.pending.Pending as pending;

    ghost Value = { FinMap bytes_cmp (FinMap key_cmp Pending) };

    ghost coded = { code (coded_list coded_ℕ) (code (coded_list (coded_list coded_ℕ)) pending.the_row.coded) };

    ghost view = { λ m. from_entries m.map.entries };
}

#[tactic(auto, using(crate::proofs::BTreeMaps::bytes_maps, crate::proofs::NestedMaps::nested_maps))]
impl Transactions {
    /// The map with no transaction. It takes no memory.
    pub fn new(alloc: Global) -> Transactions
        ensures { result ≡ map.empty }
    {
        Transactions {
            map: BTreeMap::new(alloc),
            alloc,
        }
    }

    /// What the transaction has pending for the key, None exactly where it has nothing. It is
    /// logarithmic and takes no memory.
    pub fn value(&self, tx: &TxName, key: &Key) -> Option<&Pending>
        ensures { option_copied result ≡ value_at self.now tx.now key.now }
    {
        match self.map.get(tx) {
            Some(pending) => pending.get(key),
            None => None,
        }
    }

    /// What the transaction has pending by key, None exactly where it has nothing. It is logarithmic
    /// and takes no memory.
    pub fn keys(&self, tx: &TxName) -> Option<&KeyMap<Pending>>
        ensures { option_copied result ≡ map.get self.now tx.now }
    {
        self.map.get(tx)
    }

    // Memory can run out only at a key that the transaction lacks.
    fn put_in(&mut self, tx: &TxName, key: Key, value: Pending) -> Result<(), AllocError>
        requires { IsSome (map.get self.old tx.now) }
        ensures ok { OnOk result (self.new ≡ with_value self.old tx.now key value) }
        ensures err { OnErr result (self.new ≡ self.old) }
        ensures absent { OnErr result (value_at self.old tx.now key ≡ None) }
    {
        self.map.get_mut(tx).unwrap().put(key, value)
    }

    fn put_new(&mut self, tx: TxName, key: Key, value: Pending) -> Result<(), AllocError>
        requires { map.get self.old tx ≡ None }
        ensures ok { OnOk result (self.new ≡ with_value self.old tx key value) }
        ensures err { OnErr result (self.new ≡ self.old) }
    {
        let mut pending = KeyMap::new(self.alloc);
        pending.put(key, value)?;
        tree_maps::put(&mut self.map, tx, pending)
    }

    /// Puts what is pending in the transaction for the key, over what is there if there is
    /// something. The only error is out of memory, which comes only where nothing is there, and
    /// leaves the map unchanged.
    pub fn put(&mut self, tx: TxName, key: Key, value: Pending) -> Result<(), AllocError>
        ensures ok { OnOk result (self.new ≡ with_value self.old tx key value) }
        ensures err { OnErr result (self.new ≡ self.old) }
        ensures absent { OnErr result (value_at self.old tx key ≡ None) }
    {
        if self.map.contains_key(&tx) {
            self.put_in(&tx, key, value)
        } else {
            self.put_new(tx, key, value)
        }
    }

    /// Puts what is pending over what is in the transaction at the key. It takes no memory.
    pub fn put_over(&mut self, tx: &TxName, key: Key, value: Pending)
        requires { IsSome (value_at self.old tx.now key) }
        ensures { self.new ≡ with_value self.old tx.now key value }
    {
        self.map.get_mut(tx).unwrap().put_over(key, value)
    }

    fn take_in(&mut self, tx: &TxName, key: &Key) -> Option<Pending>
        requires { IsSome (map.get self.old tx.now) }
        ensures value { result ≡ value_at self.old tx.now key.now }
        ensures gone { self.new ≡ map.insert self.old tx.now (map.remove (inner self.old tx.now) key.now) }
    {
        self.map.get_mut(tx).unwrap().take(key)
    }

    fn drop_empty(&mut self, tx: &TxName)
        ensures { self.new ≡ (if is_empty (inner self.old tx.now) then map.remove self.old tx.now else self.old) }
    {
        if self.map.get(tx).is_some_and(|pending| pending.is_empty()) {
            self.map.remove(tx);
        }
    }

    /// Takes what the transaction has pending for the key, None exactly where it has nothing. A
    /// transaction that is left with no key goes too. It takes no memory.
    pub fn take(&mut self, tx: &TxName, key: &Key) -> Option<Pending>
        ensures value { result ≡ value_at self.old tx.now key.now }
        ensures gone { self.new ≡ without_value self.old tx.now key.now }
    {
        if self.map.contains_key(tx) {
            let taken = self.take_in(tx, key);
            self.drop_empty(tx);
            taken
        } else {
            None
        }
    }

    /// The transactions with what they have pending by key, rising by name. Each is a constant step.
    /// It takes no memory.
    pub fn iter(&self) -> Iter<'_, TxName, KeyMap<Pending>>
        ensures { result ≡ map.entries self.now }
    {
        self.map.iter()
    }

    /// The least transaction that is greater than `after`, or the least of all where none is given;
    /// None exactly where there is none. It is logarithmic and takes no memory.
    pub fn next_tx(&self, after: Option<&TxName>) -> Option<&TxName>
        ensures least { IfSome result (λ t. IsLeastKeyAfter self.now (option_copied after.entry) t.now) }
        ensures none { IfNone result (HasNoneAfter self.now (option_copied after.entry)) }
    {
        match tree_maps::next_after(&self.map, after) {
            Some((tx, _)) => Some(tx),
            None => None,
        }
    }

    /// Makes this what the transaction has pending by key. A transaction that is to have no key goes.
    /// It is logarithmic. The only error is out of memory, which leaves the map unchanged.
    pub fn set_keys(&mut self, tx: TxName, keys: KeyMap<Pending>) -> Result<(), AllocError>
        ensures ok { OnOk result (self.new ≡ with_inner self.old tx keys) }
        ensures err { OnErr result (self.new ≡ self.old) }
    {
        if keys.is_empty() {
            self.map.remove(&tx);
            Ok(())
        } else {
            tree_maps::put(&mut self.map, tx, keys)
        }
    }
}

#[tactic(auto, using(crate::proofs::CopiedMaps::same_entries))]
impl Copied for Transactions {
    fn copied(&self) -> Result<Transactions, AllocError> {
        let map = tree_maps::copy_map(self.alloc, &self.map)?;
        Ok(Transactions {
            map,
            alloc: self.alloc,
        })
    }
}
