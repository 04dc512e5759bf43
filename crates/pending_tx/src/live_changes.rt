//! What values and removals change in the live values.
ghost use Rattle.std.specs.Prelude.{◌≡◌, ◌++◌, ◌∷◌, [], IfOk, OnOk, filter, map, if◌then◌else◌};
ghost use Rattle.std.specs.FinMap.{get};
ghost use Rattle.std.specs.Option.{option_copied};
ghost use Rattle.settings_maps.specs.KeyList.{IsRising};
ghost use Rattle.pending_tx.specs.Entries.{live_entry};
ghost use Rattle.pending_tx.specs.Transactions.{changed_in, differs};

use key_names::Key;
use settings_maps::KeyMap;
use settings_tree::{Entry, Held, KeyList, Pending, Scalar};
use std::alloc::{AllocError, Global};

// Whether laying what is pending over the live value changes it.
fn differs(pending: &Pending, live: Option<&Scalar>) -> bool
    ensures { result ≡ differs pending.now (option_copied live.entry) }
{
    match (pending, live) {
        (Pending::Put(value), Some(live)) => value != live,
        (Pending::Put(_), None) => true,
        (Pending::Gone, Some(_)) => true,
        (Pending::Gone, None) => false,
    }
}

/// Those of the values and removals that change a live value, in their order. It takes a logarithmic
/// step for each and no memory.
pub(crate) fn changes_in(held: &Held, pairs: Vec<(Key, Pending)>) -> Vec<(Key, Pending)>
    ensures { result.items ≡ filter (λ e. differs e.1 (get held.now.live.values e.0)) pairs.items }
{
    let mut changes = pairs;
    changes.retain(|pair| differs(&pair.1, held.live.value(&pair.0)));
    changes
}

/// Copies of the keys of values and removals.
pub(crate) fn keys_in(alloc: Global, pairs: &[(Key, Pending)]) -> Result<KeyList, AllocError>
    requires { IsRising (map (λ e. e.0) pairs.now) }
    ensures { IfOk result (λ keys. keys ≡ map (λ e. e.0) pairs.now) }
{
    let mut keys = Vec::new(alloc);
    for (key, _) in pairs {
        keys.push(key.copy()?)?;
    }
    Ok(KeyList::of(keys))
}

// Adds the key, where what is pending for it changes its live value.
fn push_changed(
    keys: &mut Vec<Key>,
    held: &Held,
    key: &Key,
    pending: &Pending,
) -> Result<(), AllocError>
    ensures { OnOk result (keys.new.items ≡ keys.old.items
        ++ (if differs pending.now (get held.now.live.values key.now) then key.now ∷ [] else [])) }
{
    if differs(pending, held.live.value(key)) {
        keys.push(key.copy()?)?;
    }
    Ok(())
}

/// The keys whose live value these values and removals change, rising: those of values that differ
/// from the live one or have none, and the removed keys that have a live value. It takes a logarithmic
/// step for each. The only error is out of memory.
pub fn changed_in(
    alloc: Global,
    held: &Held,
    pending: &KeyMap<Pending>,
) -> Result<KeyList, AllocError>
    ensures { IfOk result (λ changed. changed ≡ changed_in held.now pending.now) }
{
    let mut keys = Vec::new(alloc);
    for (key, value) in pending.iter() {
        push_changed(&mut keys, held, key, value)?;
    }
    Ok(KeyList::of(keys))
}

fn live_entry(key: Key, pending: Pending) -> Entry
    ensures { result ≡ live_entry key pending }
{
    match pending {
        Pending::Put(value) => Entry::LiveSet { key, value },
        Pending::Gone => Entry::LiveGone { key },
    }
}

/// Adds the entries that lay the changes over the live values.
pub(crate) fn set_live(
    entries: &mut Vec<Entry>,
    changes: Vec<(Key, Pending)>,
) -> Result<(), AllocError>
    ensures { OnOk result (entries.new.items ≡ entries.old.items ++ map (λ e. live_entry e.0 e.1) changes.items) }
{
    for (key, pending) in changes {
        entries.push(live_entry(key, pending))?;
    }
    Ok(())
}
