//! What the transactions have pending.
ghost use Rattle.std.specs.Prelude.{◌≡◌, IfOk, is_some};
ghost use Rattle.std.specs.FinMap.{entries, get, keys};
ghost use Rattle.std.specs.List.Sorted.{IsStrictlySortedBy};
ghost use Rattle.std.specs.Map as map;
ghost use Rattle.key_names.specs.Order.{bytes_cmp};
ghost use Rattle.json_trees.specs.Apart.{AreApart};
ghost use Rattle.settings_tree.specs.Pending.{IsPending};
ghost use Rattle.pending_tx.specs.Transactions.{keys_of, pending_of};

use crate::pairs::pairs_of;
use key_names::Key;
use settings_maps::KeyMap;
use settings_tree::{Held, KeyList, Pending, TxName};
use std::alloc::{AllocError, Global};

/// The names of the transactions, rising. It takes a logarithmic step for each. The only error is
/// out of memory.
pub fn list(alloc: Global, held: &Held) -> Result<Vec<TxName>, AllocError>
    ensures names { IfOk result (λ names. names.items ≡ keys held.now.pending) }
    ensures rising { IfOk result (λ names. IsStrictlySortedBy bytes_cmp names.items) }
{
    let mut names = Vec::new(alloc);
    let mut after = None;
    while let Some(tx) = held.pending.next_tx(after) {
        names.push(tx.copy()?)?;
        after = Some(tx);
    }
    Ok(names)
}

/// Copies of the values and removals that the transaction has pending, rising by key; none where
/// there is no such transaction. It takes a logarithmic step and a constant one for each. The only
/// error is out of memory.
pub fn pending(alloc: Global, held: &Held, tx: &TxName) -> Result<Vec<(Key, Pending)>, AllocError>
    ensures pairs { IfOk result (λ pairs. pairs.items ≡ entries (pending_of held.now tx.now)) }

    // So they may be nested.
    ensures apart { IfOk result (λ pairs. AreApart (map.keys_of pairs.items)) }
{
    match held.pending.keys(tx) {
        Some(values) => pairs_of(alloc, values),
        None => Ok(Vec::new(alloc)),
    }
}

/// Whether there is such a transaction. It is logarithmic and takes no memory.
pub(crate) fn has_tx(held: &Held, tx: &TxName) -> bool
    ensures { result ≡ is_some (get held.now.pending tx.now) }
{
    held.pending.keys(tx).is_some()
}

// Copies of the keys of these values and removals.
fn copied_keys(alloc: Global, values: &KeyMap<Pending>) -> Result<KeyList, AllocError>
    ensures { IfOk result (λ copies. copies ≡ keys values.now) }
{
    let mut copies = Vec::new(alloc);
    for (key, _) in values.iter() {
        copies.push(key.copy()?)?;
    }
    Ok(KeyList::of(copies))
}

/// The keys for which the transaction has something pending, rising.
pub(crate) fn keys_of(alloc: Global, held: &Held, tx: &TxName) -> Result<KeyList, AllocError>
    ensures keys { IfOk result (λ keys. keys ≡ keys_of held.now tx.now) }
    ensures valid { IfOk result (λ keys. IsPending held.now.pending) }
{
    match held.pending.keys(tx) {
        Some(values) => copied_keys(alloc, values),
        None => Ok(KeyList::new(alloc)),
    }
}
