//! The services that keys affect.
ghost use Rattle.std.specs.Prelude.{◌≡◌, ◌++◌, Some, None, IfOk, OnOk, filter, map, nat_lt};
ghost use Rattle.std.specs.Prelude.{if◌then◌else◌};
ghost use Rattle.std.specs.Option.{option_copied};
ghost use Rattle.std.specs.FinMap.{entries};
ghost use Rattle.metadata_links.specs.Nearest.{near, near_len};
ghost use Rattle.settings_machine.specs.World.{Image};
ghost use Rattle.settings_machine.specs.Answers.{nearest_lists};
ghost use Rattle.api_core.specs.Gathered.{there, gathered, has_near, near_entry, nearest_entry};

use key_names::{Key, Text, copy_texts};
use metadata_links::{Index, Manifest, Steps};
use settings_maps::KeyMap;
use std::alloc::{AllocError, Global};

// The list of the longest prefix of the key that has one, None exactly where none has: the empty list is one.
fn nearest<'a>(index: &'a Index, key: &Key) -> Option<&'a [Text]>
    ensures { option_copied result
        ≡ (if nat_lt 0 (near_len index.now key.now) then Some (near index.now key.now) else None) }
{
    let mut probes = Steps::new();
    let mut len = key.len();
    while len > 0 {
        match index.at(key, len, &mut probes) {
            Some(list) => return Some(list),
            None => len -= 1,
        }
    }
    None
}

// The keys, each once.
fn each_once(alloc: Global, keys: &[Key]) -> Result<KeyMap<()>, AllocError>
    ensures { IfOk result (λ once. once ≡ gathered (λ key. there) keys.now) }
{
    let mut once = KeyMap::new(alloc);
    for key in keys {
        once.put(key.copy()?, ())?;
    }
    Ok(once)
}

// Adds the nearest list of the key, where it has one.
fn push_nearest(
    alloc: Global,
    lists: &mut Vec<(Key, Vec<Text>)>,
    index: &Index,
    key: &Key,
) -> Result<(), AllocError>
    ensures { OnOk result (map (λ e. (e.0, e.1.items)) lists.new.items
        ≡ map (λ e. (e.0, e.1.items)) lists.old.items ++ nearest_entry index.now key.now) }
{
    if let Some(list) = nearest(index, key) {
        lists.push((key.copy()?, copy_texts(alloc, list)?))?;
    }
    Ok(())
}

// The nearest list of each of the keys that has one.
fn lists_of(
    alloc: Global,
    index: &Index,
    once: &KeyMap<()>,
) -> Result<Vec<(Key, Vec<Text>)>, AllocError>
    ensures { IfOk result (λ lists. map (λ e. (e.0, e.1.items)) lists.items
        ≡ map (near_entry index.now) (filter (has_near index.now) (entries once.now))) }
{
    let mut lists = Vec::new(alloc);
    let mut after = None;
    while let Some((key, _)) = once.next_after(after) {
        push_nearest(alloc, &mut lists, index, key)?;
        after = Some(key);
    }
    Ok(lists)
}

/// The nearest list of services of each of the keys that has one, each key once and rising. The only error is out of
/// memory. It takes a logarithmic step for each key and each of its prefixes.
pub(crate) fn nearest_lists(
    alloc: Global,
    manifest: &Manifest,
    keys: &[Key],
) -> Result<Vec<(Key, Vec<Text>)>, AllocError>
    ensures { IfOk result (λ lists. (I : Image) → I.manifest ≡ manifest.now
        → map (λ e. (e.0, e.1.items)) lists.items ≡ nearest_lists I keys.now) }
{
    let once = each_once(alloc, keys)?;
    lists_of(alloc, manifest.index(), &once)
}
