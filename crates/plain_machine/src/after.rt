//! Changes of the live settings, made on a copy of what is held.
ghost use Rattle.std.specs.Prelude.{◌≡◌, None, IfOk};
ghost use Rattle.settings_tree.specs.Laid.{laid, KeepsPrefixRule, NamesWeak, TellsWeak};
ghost use Rattle.typed_settings.specs.Order.{IsTable};
ghost use Rattle.settings_machine.specs.Typed.{first_wanted, IsTypedHeld};
ghost use Rattle.plain_machine.specs.Changes.{after_commit, after_set};

use crate::pending::keep_rule;
use key_names::Key;
use pending_tx::CommitError;
use settings_tree::{Change, Held, KeyList, Pending, TxName};
use std::alloc::{AllocError, Global};
use typed_settings::Types;

/// What would be held after a change of the live settings.
#[derive(Drop)]
pub(crate) struct After {
    /// What would be held.
    pub held: Held,
    /// The keys that are set or removed, rising.
    pub keys: KeyList,
    /// Those whose live values are changed by it, rising.
    pub changed: KeyList,
}

// A copy of what is held, with the change laid over it.
fn with_change(held: &Held, change: Change) -> Result<Held, AllocError>
    requires rule { KeepsPrefixRule (laid held.now change) }
    requires weak { NamesWeak held.now change }
    requires told { TellsWeak held.now change }
    ensures { IfOk result (λ after. after ≡ laid held.now change) }
{
    let mut after = held.copy()?;
    after.lay(change)?;
    Ok(after)
}

/// What would be held after the commit of the transaction; None where there is no such transaction. The only error is out of
/// memory. It copies all that is held, and takes the time of `pending_tx::commit`.
pub(crate) fn after_commit(
    alloc: Global,
    types: &Types,
    held: &Held,
    tx: &TxName,
) -> Result<Option<After>, AllocError>
    requires table { IsTable types.now }
    requires typed { IsTypedHeld types.now held.now }
    ensures { IfOk result (λ after. after ≡ after_commit held.now tx.now) }
{
    keep_rule(held);
    match pending_tx::commit(alloc, held, tx) {
        Ok(commit) => Ok(Some(After {
            held: with_change(held, commit.change)?,
            keys: commit.keys,
            changed: commit.changed,
        })),
        Err(CommitError::NoPending) => Ok(None),
        Err(CommitError::Memory) => Err(AllocError),
    }
}

/// What would be held after the pairs are set at once, none of which the types refuse. The only error is out of memory. It
/// copies all that is held, and takes the time of `pending_tx::set`.
pub(crate) fn after_set(
    alloc: Global,
    types: &Types,
    held: &Held,
    pairs: &[(Key, Pending)],
) -> Result<After, AllocError>
    requires table { IsTable types.now }
    requires typed { IsTypedHeld types.now held.now }
    requires taken { first_wanted types.now pairs.now ≡ None }
    ensures { IfOk result (λ after. after ≡ after_set held.now pairs.now) }
{
    keep_rule(held);
    let set = pending_tx::set(alloc, held, pairs)?;
    Ok(After {
        held: with_change(held, set.change)?,
        keys: set.keys,
        changed: set.changed,
    })
}
