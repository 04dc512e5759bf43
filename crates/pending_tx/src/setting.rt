//! Values and removals that are set at once.
ghost use Rattle.std.specs.Prelude.{◌≡◌, IfOk, not};
ghost use Rattle.std.specs.List.{list_any};
ghost use Rattle.std.specs.FinMap.{keys};
ghost use Rattle.settings_maps.specs.KeyList.{has_key};
ghost use Rattle.settings_tree.specs.Change.{TheWeak, is_unnamed};
ghost use Rattle.settings_tree.specs.Laid.{laid, KeepsPrefixRule, NamesWeak, TellsWeak};
ghost use Rattle.pending_tx.specs.Changes.{NamesOnlyChanges};
ghost use Rattle.pending_tx.specs.Transactions.{changed_in, last_of, set_at_once, FitOver};

use crate::answers::Commit;
use crate::overlaying::overlay;
use key_names::Key;
use settings_tree::{Change, Held, Pending};
use std::alloc::{AllocError, Global};

/// Sets the pairs at once: each value is laid over the live settings, each removed key is taken from
/// them, all their keys become strong, and those whose live value changes are owed; of several pairs
/// of a key the last one counts. What the transactions have pending stays. The change names nothing
/// that stays as it is; it has a `WeakIs` exactly where some key of the pairs is weak. What it makes
/// keeps the prefix rule where what is held does, no key that is set overlaps another live one, and
/// no key of the pairs another of theirs. The only error is out of memory.
///
/// It takes a logarithmic step for each pair, and one for each owed or weak key where these change.
pub fn set(alloc: Global, held: &Held, pairs: &[(Key, Pending)]) -> Result<Commit, AllocError>
    ensures keys { IfOk result (λ c. c.keys ≡ keys (last_of pairs.now)) }
    ensures changed { IfOk result (λ c. c.changed ≡ changed_in held.now (last_of pairs.now)) }
    ensures laid { IfOk result (λ c. laid held.now c.change ≡ set_at_once held.now pairs.now) }
    ensures rule { IfOk result (λ c. KeepsPrefixRule held.now → FitOver held.now (last_of pairs.now) → KeepsPrefixRule (laid held.now c.change)) }
    ensures weak { IfOk result (λ c. NamesWeak held.now c.change) }
    ensures told { IfOk result (λ c. TellsWeak held.now c.change) }
    ensures strong { IfOk result (λ c. is_unnamed TheWeak c.change ≡ not (list_any (has_key held.now.live.weak) (keys (last_of pairs.now)))) }
    ensures changes { IfOk result (λ c. NamesOnlyChanges held.now c.change) }
{
    let overlaid = overlay(alloc, held, pairs, Vec::new(alloc))?;
    Ok(Commit {
        keys: overlaid.keys,
        changed: overlaid.changed,
        change: Change::of(overlaid.entries),
    })
}
