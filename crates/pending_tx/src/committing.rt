//! The commit of a transaction.
ghost use Rattle.std.specs.Prelude.{◌≡◌, ◌++◌, IfOk, OnOk, None, Err, not};
ghost use Rattle.std.specs.List.{list_any};
ghost use Rattle.std.specs.Option.{option_to_list};
ghost use Rattle.std.specs.FinMap.{get};
ghost use Rattle.settings_tree.specs.Change.{TheWeak, is_unnamed};
ghost use Rattle.settings_tree.specs.Laid.{laid, KeepsPrefixRule, NamesWeak, TellsWeak};
ghost use Rattle.settings_tree.specs.Content.{IsContent};
ghost use Rattle.pending_tx.specs.Changes.{NamesOnlyChanges};
ghost use Rattle.pending_tx.specs.Entries.{CommitAdds};
ghost use Rattle.settings_maps.specs.KeyList.{has_key};
ghost use Rattle.pending_tx.specs.Transactions.{changed_keys, committed, keys_of, FitLive};
ghost use Rattle.pending_tx.specs.declared.answers.CommitError.TheVariants.{NoPending};

use crate::answers::{Commit, CommitError};
use crate::ending::end;
use crate::live_changes::{changes_in, keys_in, set_live};
use crate::owing::{owed_entry, weak_entry};
use crate::reading::{has_tx, keys_of, pending};
use key_names::Key;
use settings_tree::{Change, Entry, Held, KeyList, Pending, TxName};
use std::alloc::{AllocError, Global};

fn push_some(entries: &mut Vec<Entry>, entry: Option<Entry>) -> Result<(), AllocError>
    ensures { OnOk result (entries.new.items ≡ entries.old.items ++ option_to_list entry) }
{
    if let Some(entry) = entry {
        entries.push(entry)?;
    }
    Ok(())
}

fn push_all(entries: &mut Vec<Entry>, more: Vec<Entry>) -> Result<(), AllocError>
    ensures { OnOk result (entries.new.items ≡ entries.old.items ++ more.items) }
{
    let mut more = more;
    entries.append(&mut more)
}

/// Adds the entries of a commit: those that lay the changes over the live values, those that take away
/// what was pending, and one for the owed and one for the weak keys where these change. The only error
/// is out of memory.
pub(crate) fn push_commit(
    entries: &mut Vec<Entry>,
    held: &Held,
    ended: Vec<Entry>,
    keys: &KeyList,
    changed: &KeyList,
    changes: Vec<(Key, Pending)>,
) -> Result<(), AllocError>
    ensures added { OnOk result (CommitAdds held.now ended.items keys.now changed.now changes.items entries.old.items entries.new.items) }
    ensures valid { OnOk result (IsContent held.now.live) }
{
    set_live(entries, changes)?;
    push_all(entries, ended)?;
    push_some(entries, owed_entry(&held.owed, changed)?)?;
    push_some(entries, weak_entry(held.live.weak(), keys)?)
}

// The commit of a transaction that there is.
fn commit_pending(alloc: Global, held: &Held, tx: &TxName) -> Result<Commit, AllocError>
    ensures keys { IfOk result (λ c. c.keys ≡ keys_of held.now tx.now) }
    ensures changed { IfOk result (λ c. c.changed ≡ changed_keys held.now tx.now) }
    ensures laid { IfOk result (λ c. laid held.now c.change ≡ committed held.now tx.now) }
    ensures rule { IfOk result (λ c. KeepsPrefixRule held.now → FitLive held.now tx.now → KeepsPrefixRule (laid held.now c.change)) }
    ensures weak { IfOk result (λ c. NamesWeak held.now c.change) }
    ensures told { IfOk result (λ c. TellsWeak held.now c.change) }
    ensures strong { IfOk result (λ c. is_unnamed TheWeak c.change ≡ not (list_any (has_key held.now.live.weak) (keys_of held.now tx.now))) }
    ensures changes { IfOk result (λ c. NamesOnlyChanges held.now c.change) }
{
    let keys = keys_of(alloc, held, tx)?;
    let changes = changes_in(held, pending(alloc, held, tx)?);
    let changed = keys_in(alloc, &changes)?;
    let mut ended = Vec::new(alloc);
    end(&mut ended, tx, &keys)?;
    let mut entries = Vec::new(alloc);
    push_commit(&mut entries, held, ended, &keys, &changed, changes)?;
    let change = Change::of(entries);
    Ok(Commit {
        keys,
        changed,
        change,
    })
}

/// Commits the transaction: each of its values is laid over the live settings, each key that it
/// removes is taken from them, all its keys become strong, those whose live value changes are owed,
/// and it ends. The change names nothing that stays as it is; it has a `WeakIs` exactly where some key
/// of the transaction is weak. What it makes keeps the prefix rule where what is held does and no key
/// that the transaction sets overlaps another live one. `NoPending` comes exactly where there is no
/// such transaction.
///
/// It takes a logarithmic step for each key of the transaction, and one for each owed or weak key where
/// these change.
pub fn commit(alloc: Global, held: &Held, tx: &TxName) -> Result<Commit, CommitError>
    ensures missing { get held.now.pending tx.now ≡ None → result ≡ Err NoPending }
    ensures refused { result ≡ Err NoPending → get held.now.pending tx.now ≡ None }
    ensures keys { IfOk result (λ c. c.keys ≡ keys_of held.now tx.now) }
    ensures changed { IfOk result (λ c. c.changed ≡ changed_keys held.now tx.now) }
    ensures laid { IfOk result (λ c. laid held.now c.change ≡ committed held.now tx.now) }
    ensures rule { IfOk result (λ c. KeepsPrefixRule held.now → FitLive held.now tx.now → KeepsPrefixRule (laid held.now c.change)) }
    ensures weak { IfOk result (λ c. NamesWeak held.now c.change) }
    ensures told { IfOk result (λ c. TellsWeak held.now c.change) }
    ensures strong { IfOk result (λ c. is_unnamed TheWeak c.change ≡ not (list_any (has_key held.now.live.weak) (keys_of held.now tx.now))) }
    ensures changes { IfOk result (λ c. NamesOnlyChanges held.now c.change) }
{
    if !has_tx(held, tx) {
        return Err(CommitError::NoPending);
    }
    Ok(commit_pending(alloc, held, tx)?)
}
