//! The keys that a request sets in a transaction.
ghost use Rattle.std.specs.Prelude.{◌≡◌, ◌++◌, IfOk, OnOk};
ghost use Rattle.settings_tree.specs.Laid.{laid, KeepsPrefixRule, NamesWeak, TellsWeak};
ghost use Rattle.pending_tx.specs.Changes.{NamesOnlyChanges};
ghost use Rattle.pending_tx.specs.Entries.{patch_entries, pend_entry};
ghost use Rattle.pending_tx.specs.Transactions.{patched, pending_of, FitPairs};

use crate::pairs::last_of;
use key_names::Key;
use settings_tree::{Change, Entry, Held, Pending, TxName};
use std::alloc::{AllocError, Global};

// Adds the entry that sets the key in the transaction, where it isn't set so.
fn set_pending(
    entries: &mut Vec<Entry>,
    held: &Held,
    tx: &TxName,
    key: &Key,
    value: &Pending,
) -> Result<(), AllocError>
    ensures { OnOk result (entries.new.items ≡ entries.old.items ++ pend_entry held.now tx.now key.now value.now) }
{
    if held.pending.value(tx, key).is_none_or(|old| old != value) {
        entries.push(Entry::PendSet {
            tx: tx.copy()?,
            key: key.copy()?,
            value: value.copy()?,
        })?;
    }
    Ok(())
}

// The entries that set what isn't set so, rising by key.
fn patch_entries(
    alloc: Global,
    held: &Held,
    tx: &TxName,
    pairs: &[(Key, Pending)],
) -> Result<Vec<Entry>, AllocError>
    ensures { IfOk result (λ entries. entries.items ≡ patch_entries held.now tx.now pairs.now) }
{
    let last = last_of(alloc, pairs)?;
    let mut entries = Vec::new(alloc);
    for (key, value) in last.iter() {
        set_pending(&mut entries, held, tx, key, value)?;
    }
    Ok(entries)
}

/// Sets each key in the transaction, which begins where there is none; of several pairs of a key the
/// last one counts. Nothing else changes, and the change names no key that is set so already. What it
/// makes keeps the prefix rule where what is held does and the keys of the pairs overlap no other key
/// of the transaction, and none another. It takes a logarithmic step for each pair. The only error is
/// out of memory.
pub fn patch(
    alloc: Global,
    held: &Held,
    tx: &TxName,
    pairs: &[(Key, Pending)],
) -> Result<Change, AllocError>
    ensures laid { IfOk result (λ change. laid held.now change ≡ patched held.now tx.now pairs.now) }
    ensures rule { IfOk result (λ change. KeepsPrefixRule held.now → FitPairs (pending_of held.now tx.now) pairs.now → KeepsPrefixRule (laid held.now change)) }
    ensures weak { IfOk result (λ change. NamesWeak held.now change) }
    ensures told { IfOk result (λ change. TellsWeak held.now change) }
    ensures changes { IfOk result (λ change. NamesOnlyChanges held.now change) }
{
    Ok(Change::of(patch_entries(alloc, held, tx, pairs)?))
}
