//! Keys that are forgotten, whatever their types say.
ghost use Rattle.std.specs.Prelude.{◌≡◌, ◌++◌, IfOk, OnOk, filter, is_some, map, not};
ghost use Rattle.std.specs.List.{find, list_any};
ghost use Rattle.std.specs.FinMap.{entries, get};
ghost use Rattle.std.specs.Option.{option_copied};
ghost use Rattle.settings_maps.specs.KeyList.{has_key};
ghost use Rattle.settings_tree.specs.Laid.{laid, KeepsPrefixRule, NamesWeak, TellsWeak};
ghost use Rattle.settings_tree.specs.Pending.{IsPending};
ghost use Rattle.settings_tree.specs.declared.entry.Entry.TheVariants.{PendGone};
ghost use Rattle.pending_tx.specs.Changes.{NamesOnlyChanges};
ghost use Rattle.pending_tx.specs.Entries.{taken_by};
ghost use Rattle.pending_tx.specs.Transactions.{forgotten, is_held, keys_of, pending_at, removals, rising};

use crate::ending::end;
use crate::live_changes::keys_in;
use crate::overlaying::overlay;
use crate::pairs::last_pairs;
use crate::reading::keys_of;
use key_names::Key;
use settings_tree::{Change, Entry, Held, KeyList, Pending, TxName};
use std::alloc::{AllocError, Global};

// Whether some transaction has something pending for the key.
fn is_pending(held: &Held, key: &Key) -> bool
    ensures { result ≡ list_any (λ t. is_some (get t.1 key.now)) (entries held.now.pending) }
{
    let mut after = None;
    while let Some(tx) = held.pending.next_tx(after) {
        if held.pending.value(tx, key).is_some() {
            return true;
        }
        after = Some(tx);
    }
    false
}

fn is_held(held: &Held, key: &Key) -> bool
    ensures { result ≡ is_held held.now key.now }
{
    held.live.value(key).is_some() || is_pending(held, key)
}

/// The first of the keys, in the order given, that has no value, live or pending; None exactly where
/// each has one. It takes a logarithmic step for each key and transaction, and no memory.
pub fn first_unheld<'a>(held: &Held, keys: &'a [Key]) -> Option<&'a Key>
    ensures { option_copied result ≡ find (λ k. not (is_held held.now k)) keys.now }
{
    keys.iter().find(|key| !is_held(held, key))
}

fn removals(alloc: Global, keys: &[Key]) -> Result<Vec<(Key, Pending)>, AllocError>
    ensures { IfOk result (λ pairs. pairs.items ≡ removals keys.now) }
{
    let mut pairs = Vec::new(alloc);
    for key in keys {
        pairs.push((key.copy()?, Pending::Gone))?;
    }
    Ok(pairs)
}

/// Copies of these keys, each once and rising. It takes a logarithmic step for each. The only error is
/// out of memory.
pub fn key_set(alloc: Global, keys: &[Key]) -> Result<KeyList, AllocError>
    ensures { IfOk result (λ set. set ≡ rising keys.now) }
{
    let pairs = removals(alloc, keys)?;
    let last = last_pairs(alloc, &pairs)?;
    keys_in(alloc, &last)
}

// Those of the keys for which the transaction has something pending.
fn keys_among(
    alloc: Global,
    held: &Held,
    tx: &TxName,
    keys: &KeyList,
) -> Result<KeyList, AllocError>
    ensures { IfOk result (λ among. among ≡ filter (has_key keys.now) (keys_of held.now tx.now)) }
{
    let mut among = keys_of(alloc, held, tx)?.into_keys();
    among.retain(|key| keys.contains(key));
    Ok(KeyList::of(among))
}

// Adds the entries that take the keys from the transaction.
fn end_keys(
    alloc: Global,
    entries: &mut Vec<Entry>,
    held: &Held,
    tx: &TxName,
    keys: &KeyList,
) -> Result<(), AllocError>
    ensures { OnOk result (entries.new.items ≡ entries.old.items ++ map (λ k. PendGone tx.now k) (filter (has_key keys.now) (keys_of held.now tx.now))) }
{
    end(entries, tx, &keys_among(alloc, held, tx, keys)?)
}

// The entries that take the keys from all transactions.
fn ended_entries(alloc: Global, held: &Held, keys: &KeyList) -> Result<Vec<Entry>, AllocError>
    ensures { IfOk result (λ ended. ended.items ≡ taken_by (pending_at held.now.pending keys.now)) }
{
    let mut ended = Vec::new(alloc);
    let mut after = None;
    while let Some(tx) = held.pending.next_tx(after) {
        end_keys(alloc, &mut ended, held, tx, keys)?;
        after = Some(tx);
    }
    Ok(ended)
}

/// Forgets the keys, whatever their types say: each live value is removed, those keys that had one are
/// owed, none of them is weak any more, and what the transactions have pending for them is taken away;
/// a transaction that has nothing else ends. Nothing else changes. A key that has no value changes
/// nothing, and the change names nothing that stays as it is. What it makes keeps the prefix rule
/// where what is held does. The only error is out of memory.
///
/// It takes a logarithmic step for each key, one for each key of each transaction, and one for each
/// owed or weak key where these change.
pub fn forget(alloc: Global, held: &Held, keys: &KeyList) -> Result<Change, AllocError>
    ensures laid { IfOk result (λ c. laid held.now c ≡ forgotten held.now keys.now) }
    ensures rule { IfOk result (λ c. KeepsPrefixRule held.now → KeepsPrefixRule (laid held.now c)) }
    ensures weak { IfOk result (λ c. NamesWeak held.now c) }
    ensures told { IfOk result (λ c. TellsWeak held.now c) }
    ensures changes { IfOk result (λ c. NamesOnlyChanges held.now c) }
{
    let ended = ended_entries(alloc, held, keys)?;
    let pairs = removals(alloc, keys.as_slice())?;
    let overlaid = overlay(alloc, held, &pairs, ended)?;
    Ok(Change::of(overlaid.entries))
}
