//! What an edit does to the entries of a map.
ghost use Rattle.std.specs.Prelude.{◌≡◌, ◌≢◌, OnOk, IfOk, IfErr, IfSome, IfNone, IsSome, IsTrue, Ok, Err, None};
ghost use Rattle.std.specs.FinMap.{get};
ghost use Rattle.key_names.specs.Key.{is_prefix};
ghost use Rattle.settings_tree.specs.Walks.{HasNoneBelow};
ghost use Rattle.migrate_helpers.specs.Conflict.{conflict};
ghost use Rattle.migrate_helpers.specs.Entries.{removed, without_prefix, removed_below, changed, moved, renamed, edited};
ghost use Rattle.migrate_helpers.specs.Mapped.{unless_conflict};
ghost use Rattle.migrate_helpers.specs.Borrowed.{step_of};
ghost use Rattle.migrate_helpers.specs.Step.{swapped_back};
ghost use Rattle.migrate_helpers.specs.declared.map_error.MapError.TheVariants.{Memory};

use crate::conflict::conflict;
use crate::entry::Entry;
use crate::map_error::MapError;
use crate::step::Edit;
use key_names::{Key, Text};
use settings_maps::KeyMap;
use std::alloc::AllocError;

/// Removes these keys. It takes a logarithmic step for each, and no memory.
pub(crate) fn remove_keys<V: Drop>(map: &mut KeyMap<V>, keys: &[Key])
    ensures { map.new ≡ removed map.old keys.now }
{
    for key in keys {
        map.take(key);
    }
}

// A copy of a key of the map that begins with the prefix, if there is one.
#[tactic(auto, using(settings_tree::proofs::Below::below_prefix))]
fn key_below<V: Drop>(map: &KeyMap<V>, prefix: &Key) -> Result<Option<Key>, AllocError>
    ensures stands { IfOk result (λ found. IfSome found (λ k. IsSome (get map.now k))) }
    ensures begins { IfOk result (λ found. IfSome found (λ k. IsTrue (is_prefix prefix.now k))) }
    ensures none { IfOk result (λ found. IfNone found (HasNoneBelow map.now prefix.now None)) }
{
    match map.next_from(prefix) {
        Some((key, _)) => {
            if prefix.is_prefix(key) {
                Ok(Some(key.copy()?))
            } else {
                Ok(None)
            }
        }
        None => Ok(None),
    }
}

fn remove_below<V: Drop>(map: &mut KeyMap<V>, prefix: &Key) -> Result<(), AllocError>
    ensures { OnOk result (map.new ≡ without_prefix map.old prefix.now) }
{
    while let Some(key) = key_below(map, prefix)? {
        map.take(&key);
    }
    Ok(())
}

fn remove_prefixes<V: Drop>(map: &mut KeyMap<V>, prefixes: &[Key]) -> Result<(), AllocError>
    ensures { OnOk result (map.new ≡ removed_below map.old prefixes.now) }
{
    for prefix in prefixes {
        remove_below(map, prefix)?;
    }
    Ok(())
}

fn replace<V: Entry>(
    map: &mut KeyMap<V>,
    key: &Key,
    old: &Text,
    new: &Text,
) -> Result<(), AllocError>
    ensures { OnOk result (map.new ≡ changed (V.replaced old.now new.now) map.old key.now) }
{
    match map.take(key) {
        Some(entry) => map.put(key.copy()?, entry.replaced(old, new)?),
        None => Ok(()),
    }
}

fn move_entry<V: Entry>(map: &mut KeyMap<V>, from: &Key, to: &Key) -> Result<(), AllocError>
    ensures { OnOk result (map.new ≡ moved V.landed map.old (from.now, to.now)) }
{
    match map.take(from) {
        Some(entry) => map.put(to.copy()?, entry.landed(to)),
        None => Ok(()),
    }
}

fn rename<V: Entry>(map: &mut KeyMap<V>, pairs: &[(Key, Key)]) -> Result<(), AllocError>
    ensures { OnOk result (map.new ≡ renamed V.landed map.old pairs.now) }
{
    for (from, to) in pairs {
        move_entry(map, from, to)?;
    }
    Ok(())
}

fn rename_back<V: Entry>(map: &mut KeyMap<V>, pairs: &[(Key, Key)]) -> Result<(), AllocError>
    ensures { OnOk result (map.new ≡ renamed V.landed map.old (swapped_back pairs.now)) }
{
    let mut rest = pairs;
    while let Some(((from, to), before)) = rest.split_last() {
        move_entry(map, to, from)?;
        rest = before;
    }
    Ok(())
}

fn apply<V: Entry>(edit: &Edit, map: &mut KeyMap<V>) -> Result<(), AllocError>
    ensures { OnOk result (map.new ≡ edited V.landed V.replaced (step_of edit.now) map.old) }
{
    match edit {
        Edit::Removes(keys) => remove_keys(map, keys),
        Edit::RemovesBelow(prefixes) => remove_prefixes(map, prefixes)?,
        Edit::Replaces(key, old, new) => replace(map, key, old, new)?,
        Edit::Renames(pairs) => rename(map, pairs)?,
        Edit::RenamesBack(pairs) => rename_back(map, pairs)?,
    }
    Ok(())
}

/// The entries as the edit leaves them.
///
/// `Conflict` with the least key that is then a proper prefix of another, exactly where there is one;
/// `Memory` where it runs out of memory.
pub(crate) fn edited<V: Entry>(edit: &Edit, mut map: KeyMap<V>) -> Result<KeyMap<V>, MapError>
    ensures ok { IfOk result (λ made. let whole = edited V.landed V.replaced (step_of edit.now) map
        in unless_conflict (conflict whole) whole ≡ Ok made) }
    ensures err { IfErr result (λ e. e ≢ Memory → (let whole = edited V.landed V.replaced (step_of edit.now) map
        in unless_conflict (conflict whole) whole ≡ Err e)) }
{
    apply(edit, &mut map)?;
    match conflict(&map) {
        Some(key) => Err(MapError::Conflict { key: key.copy()? }),
        None => Ok(map),
    }
}
