//! What a commit makes of the owed keys and of the weak ones.
ghost use Rattle.std.specs.Prelude.{◌≡◌, IfOk, is_some};
ghost use Rattle.std.specs.List.{list_any};
ghost use Rattle.settings_tree.specs.declared.entry.Entry.TheVariants.{OwedSet, WeakIs};
ghost use Rattle.pending_tx.specs.Changes.{Tells};
ghost use Rattle.settings_maps.specs.KeyList.{has_key, without_keys};
ghost use Rattle.pending_tx.specs.Transactions.{owing};

use settings_tree::{Entry, KeyList, Owed};
use std::alloc::AllocError;

/// What is owed once these keys are owed too. It takes a step for each. The only error is out of memory.
pub fn owed_with(owed: &Owed, keys: &KeyList) -> Result<Owed, AllocError>
    ensures { IfOk result (λ more. more ≡ owing owed.now keys.now) }
{
    match owed {
        Owed::All => Ok(Owed::All),
        Owed::Keys(owed) => Ok(Owed::Keys(owed.joined(keys)?)),
    }
}

fn owed_more(owed: &KeyList, keys: &KeyList) -> Result<Option<Entry>, AllocError>
    ensures { IfOk result (λ e. Tells e OwedSet (Owed.Keys owed.now) (owing (Owed.Keys owed.now) keys.now)) }
{
    if owed.contains_all(keys.as_slice()) {
        return Ok(None);
    }
    let owed = Owed::Keys(owed.joined(keys)?);
    Ok(Some(Entry::OwedSet { owed }))
}

/// The entry that makes the keys owed too, None exactly where that changes nothing. It takes a step
/// for each owed key where it changes something. The only error is out of memory.
pub(crate) fn owed_entry(owed: &Owed, keys: &KeyList) -> Result<Option<Entry>, AllocError>
    ensures { IfOk result (λ e. Tells e OwedSet owed.now (owing owed.now keys.now)) }
{
    match owed {
        Owed::All => Ok(None),
        Owed::Keys(owed) => owed_more(owed, keys),
    }
}

/// The entry that makes the keys strong, None exactly where none of them is weak. It takes a step
/// for each weak key where one of them is. The only error is out of memory.
pub(crate) fn weak_entry(weak: &KeyList, keys: &KeyList) -> Result<Option<Entry>, AllocError>
    ensures told { IfOk result (λ e. Tells e WeakIs weak.now (without_keys weak.now keys.now)) }
    ensures exact { IfOk result (λ e. is_some e ≡ list_any (has_key weak.now) keys.now) }
{
    if !weak.contains_any(keys.as_slice()) {
        return Ok(None);
    }
    let weak = weak.without(keys)?;
    Ok(Some(Entry::WeakIs { weak }))
}
