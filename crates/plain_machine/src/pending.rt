//! The requests on transactions, where the only error is out of memory.
ghost use Rattle.std.specs.Prelude.{◌≡◌, All, IfOk, OnErr, true};
ghost use Rattle.key_names.specs.Key.{is_prefix};
ghost use Rattle.settings_tree.specs.Content.{settings_key};
ghost use Rattle.typed_settings.specs.Order.{IsTable};
ghost use Rattle.settings_machine.specs.Typed.{IsTypedHeld};
ghost use Rattle.settings_machine.specs.Requests.{Patch, DropTx};
ghost use Rattle.plain_machine.specs.Plain.{IsAnswered, patch_reply, keys_reply};

use key_names::Key;
pub(crate) use opening_step::keep_rule;
use settings_machine::{Refusal, refused_pair};
use settings_tree::{Held, KeyList, Pending, TxName};
use std::alloc::{AllocError, Global};
use typed_settings::Types;

/// Makes the pairs pending in the transaction, unless the types refuse one of them: then it answers the
/// first of these by key, and nothing changes. Each key begins with `settings`. The only error is out of
/// memory, which leaves what is held as it was. It takes the time of `refused_pair` and `pending_tx::patch`.
pub(crate) fn pend(
    alloc: Global,
    types: &Types,
    held: &mut Held,
    tx: &TxName,
    pairs: &[(Key, Pending)],
) -> Result<Option<Refusal>, AllocError>
    requires table { IsTable types.now }
    requires typed { IsTypedHeld types.now held.old }
    requires settings { All (λ e. is_prefix settings_key e.0 ≡ true) pairs.now }
    ensures answered { IfOk result (λ o. IsAnswered types.now held.old (Patch tx.now pairs.now) held.new (patch_reply o)) }
    ensures typed { IsTypedHeld types.now held.new }
    ensures unchanged { OnErr result (held.new ≡ held.old) }
{
    if let Some(refusal) = refused_pair(alloc, types, pairs)? {
        return Ok(Some(refusal));
    }
    keep_rule(held);
    let change = pending_tx::patch(alloc, held, tx, pairs)?;
    held.lay(change)?;
    Ok(None)
}

/// Drops the transaction, and tells its keys: none where there is no such transaction. The only error is
/// out of memory, which leaves what is held as it was. It takes the time of `pending_tx::drop_tx`.
pub(crate) fn drop_tx(
    alloc: Global,
    types: &Types,
    held: &mut Held,
    tx: &TxName,
) -> Result<KeyList, AllocError>
    requires typed { IsTypedHeld types.now held.old }
    ensures answered { IfOk result (λ keys. IsAnswered types.now held.old (DropTx tx.now) held.new (keys_reply keys)) }
    ensures typed { IsTypedHeld types.now held.new }
    ensures unchanged { OnErr result (held.new ≡ held.old) }
{
    keep_rule(held);
    let dropped = pending_tx::drop_tx(alloc, held, tx)?;
    held.lay(dropped.change)?;
    Ok(dropped.keys)
}
