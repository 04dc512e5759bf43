//! The pending maps.
ghost use Rattle.std.specs.Prelude.{◌≡◌, IfSome, IfNone, IfOk, OnOk, OnErr, IsTrue, None, false};
ghost use Rattle.std.specs.Option.{option_copied};
ghost use Rattle.std.specs.FinMap as map;
ghost use Rattle.settings_maps.specs.Maps.{IsLeastAfter, IsLeastKeyAfter, HasNoneAfter, inner, value_at, with_value, without_value};
ghost use Rattle.settings_tree.specs.Pending.{IsPending};
ghost use Rattle.settings_tree.specs.Rule.{Fits, Clashes};

use crate::rule::fits;
use json_trees::Pending;
use key_names::Key;
use settings_maps::{Copied, KeyMap, Transactions, TxName};
use std::alloc::{AllocError, Global};
use std::marker::Model;

/// For each transaction the values and removals that it has pending, by key: a finite map from names
/// to nonempty finite maps. No key of one of these maps is a proper prefix of another of its keys.
#[derive(Drop)]
pub struct PendMaps {
    pub(crate) transactions: Transactions,
}

impl Model for PendMaps {
    ghost use Rattle.std.specs.FinMap.{FinMap, code};
    ghost use Rattle.std.specs.Coded.{coded_ℕ, coded_list};
    ghost use Rattle.key_names.specs.Order.{bytes_cmp, key_cmp};
    ghost use Rattle.json_trees.specs.declared.pending.Pending.{Pending};
    ghost use Rattle.json_trees.specs.contracts.pending.Pending as pending;
    ghost use Rattle.settings_tree.specs.Pending.{IsPending};

    ghost Value = { FinMap bytes_cmp (FinMap key_cmp Pending) };

    ghost coded = { code (coded_list coded_ℕ) (code (coded_list (coded_list coded_ℕ)) pending.the_row.coded) };

    ghost view = { λ p. p.transactions };

    ghost invariant = { λ p. IsPending p.transactions };
}

#[tactic(auto, using(crate::proofs::PendingMaps::pending_maps))]
impl PendMaps {
    /// No transactions. It takes no memory.
    pub fn new(alloc: Global) -> PendMaps
        ensures { result ≡ map.empty }
    {
        PendMaps {
            transactions: Transactions::new(alloc),
        }
    }

    /// What the transaction has pending for the key, None exactly where it has nothing. It is
    /// logarithmic and takes no memory.
    pub fn value(&self, tx: &TxName, key: &Key) -> Option<&Pending>
        ensures value { option_copied result ≡ value_at self.now tx.now key.now }
        ensures valid { IsPending self.now }
    {
        self.transactions.value(tx, key)
    }

    /// What the transaction has pending by key, None exactly where there is no such transaction. It is
    /// logarithmic and takes no memory.
    pub fn keys(&self, tx: &TxName) -> Option<&KeyMap<Pending>>
        ensures keys { option_copied result ≡ map.get self.now tx.now }
        ensures valid { IsPending self.now }
    {
        self.transactions.keys(tx)
    }

    /// Whether no other key of the transaction is a proper prefix of this key or has it as one. It is
    /// logarithmic and takes no memory.
    pub fn fits(&self, tx: &TxName, key: &Key) -> bool
        ensures fits { IsTrue result → Fits (inner self.now tx.now) key.now }
        ensures clashes { result ≡ false → Clashes (inner self.now tx.now) key.now }
        ensures valid { IsPending self.now }
    {
        match self.transactions.keys(tx) {
            Some(keys) => fits(keys, key),
            None => true,
        }
    }

    /// Puts what is pending in the transaction for the key, over what is there if there is
    /// something. It is logarithmic. The only error is out of memory, which comes only where nothing
    /// is there, and leaves the maps unchanged.
    pub fn put(&mut self, tx: TxName, key: Key, value: Pending) -> Result<(), AllocError>
        requires { Fits (inner self.old tx) key }
        ensures ok { OnOk result (self.new ≡ with_value self.old tx key value) }
        ensures err { OnErr result (self.new ≡ self.old) }
        ensures absent { OnErr result (value_at self.old tx key ≡ None) }
    {
        self.transactions.put(tx, key, value)
    }

    /// Takes what the transaction has pending for the key, None exactly where it has nothing. A
    /// transaction that is left with no key goes too. It is logarithmic and takes no memory.
    pub fn take(&mut self, tx: &TxName, key: &Key) -> Option<Pending>
        ensures value { result ≡ value_at self.old tx.now key.now }
        ensures gone { self.new ≡ without_value self.old tx.now key.now }
    {
        self.transactions.take(tx, key)
    }

    /// The least transaction that is greater than `after`, or the least of all where none is given;
    /// None exactly where there is no such transaction. It is logarithmic and takes no memory.
    pub fn next_tx(&self, after: Option<&TxName>) -> Option<&TxName>
        ensures least { IfSome result (λ t. IsLeastKeyAfter self.now (option_copied after.entry) t.now) }
        ensures none { IfNone result (HasNoneAfter self.now (option_copied after.entry)) }
        ensures valid { IsPending self.now }
    {
        self.transactions.next_tx(after)
    }

    /// A copy. The only error is out of memory.
    pub fn copy(&self) -> Result<PendMaps, AllocError>
        ensures { IfOk result (λ copy. copy ≡ self.now) }
    {
        let transactions = self.transactions.copied()?;
        Ok(PendMaps { transactions })
    }
}
