//! Values and removals that are laid over the live values.
ghost use Rattle.std.specs.Prelude.{◌≡◌, [], IfOk};
ghost use Rattle.std.specs.FinMap.{keys};
ghost use Rattle.settings_tree.specs.Content.{IsContent};
ghost use Rattle.pending_tx.specs.Entries.{CommitAdds};
ghost use Rattle.pending_tx.specs.Transactions.{changed_in, changes_in, last_of};

use crate::committing::push_commit;
use crate::live_changes::{changes_in, keys_in};
use crate::pairs::last_pairs;
use key_names::Key;
use settings_tree::{Entry, Held, KeyList, Pending};
use std::alloc::{AllocError, Global};

/// What lays values and removals over the live values.
#[derive(Drop)]
pub(crate) struct Overlaid {
    /// All their keys, rising.
    pub(crate) keys: KeyList,
    /// The keys whose live value changes, rising.
    pub(crate) changed: KeyList,
    /// The entries of the change.
    pub(crate) entries: Vec<Entry>,
}

/// What lays the last pair of each key over the live values. `ended` are entries that take away what is
/// pending, and go into the change too. It takes a logarithmic step for each pair, and one for each
/// owed or weak key where these change. The only error is out of memory.
pub(crate) fn overlay(
    alloc: Global,
    held: &Held,
    pairs: &[(Key, Pending)],
    ended: Vec<Entry>,
) -> Result<Overlaid, AllocError>
    ensures keys { IfOk result (λ o. o.keys ≡ keys (last_of pairs.now)) }
    ensures changed { IfOk result (λ o. o.changed ≡ changed_in held.now (last_of pairs.now)) }
    ensures added { IfOk result (λ o. CommitAdds held.now ended.items (keys (last_of pairs.now)) (changed_in held.now (last_of pairs.now))
        (changes_in held.now (last_of pairs.now)) [] o.entries.items) }
    ensures valid { IfOk result (λ o. IsContent held.now.live) }
{
    let last = last_pairs(alloc, pairs)?;
    let keys = keys_in(alloc, &last)?;
    let changes = changes_in(held, last);
    let changed = keys_in(alloc, &changes)?;
    let mut entries = Vec::new(alloc);
    push_commit(&mut entries, held, ended, &keys, &changed, changes)?;
    Ok(Overlaid {
        keys,
        changed,
        entries,
    })
}
