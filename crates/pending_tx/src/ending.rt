//! The end of a transaction.
ghost use Rattle.std.specs.Prelude.{◌≡◌, ◌++◌, OnOk, map};
ghost use Rattle.settings_tree.specs.declared.entry.Entry.TheVariants.{PendGone};

use settings_tree::{Entry, KeyList, TxName};
use std::alloc::AllocError;

/// Adds the entries that take these keys, which are all that it has, from the transaction.
pub(crate) fn end(entries: &mut Vec<Entry>, tx: &TxName, keys: &KeyList) -> Result<(), AllocError>
    ensures { OnOk result (entries.new.items ≡ entries.old.items ++ map (λ k. PendGone tx.now k) keys.now) }
{
    for key in keys.as_slice() {
        entries.push(Entry::PendGone {
            tx: tx.copy()?,
            key: key.copy()?,
        })?;
    }
    Ok(())
}
