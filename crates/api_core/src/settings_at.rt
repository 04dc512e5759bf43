//! The live settings at given keys.
ghost use Rattle.std.specs.Prelude.{◌≡◌, None, Some, IfOk, OnOk, if◌then◌else◌};
ghost use Rattle.std.specs.Option.{option_copied};
ghost use Rattle.std.specs.FinMap.{entries, get};
ghost use Rattle.settings_maps.specs.KeyList.{has_key};
ghost use Rattle.settings_machine.specs.declared.refusal.Refusal.TheVariants.{NoKey};
ghost use Rattle.settings_machine.specs.Answers.{settings_where, is_live_setting, missing_key};
ghost use Rattle.api_core.specs.Gathered.{with_found, gathered, no_key};

use key_names::Key;
use settings_maps::KeyMap;
use settings_tree::{Content, Scalar, is_setting};
use std::alloc::{AllocError, Global};

fn is_live_setting(live: &Content, key: &Key) -> bool
    ensures { result ≡ is_live_setting live.now.values key.now }
{
    is_setting(key) && live.value(key).is_some()
}

// The key, where there is no live setting at it, and else the later one.
fn missing_first<'a>(live: &Content, key: &'a Key, later: Option<&'a Key>) -> Option<&'a Key>
    ensures { no_key (option_copied result)
        ≡ (if is_live_setting live.now.values key.now then no_key (option_copied later.entry)
        else Some (NoKey key.now)) }
{
    if is_live_setting(live, key) {
        later
    } else {
        Some(key)
    }
}

/// The first of the keys at which there is no live setting. It takes a logarithmic step for each, and no memory.
pub(crate) fn missing_key<'a>(live: &Content, keys: &'a [Key]) -> Option<&'a Key>
    ensures { no_key (option_copied result) ≡ missing_key live.now.values keys.now }
{
    let mut first = None;
    let mut index = keys.len();
    while index > 0 {
        index -= 1;
        first = missing_first(live, &keys[index], first);
    }
    first
}

fn put_value(map: &mut KeyMap<Scalar>, live: &Content, key: &Key) -> Result<(), AllocError>
    ensures { OnOk result (map.new ≡ with_found map.old key.now (get live.now.values key.now)) }
{
    if let Some(value) = live.value(key) {
        map.put(key.copy()?, value.copy()?)?;
    }
    Ok(())
}

fn gather(alloc: Global, live: &Content, keys: &[Key]) -> Result<KeyMap<Scalar>, AllocError>
    ensures { IfOk result (λ map. map ≡ gathered (λ key. get live.now.values key) keys.now) }
{
    let mut map = KeyMap::new(alloc);
    for key in keys {
        put_value(&mut map, live, key)?;
    }
    Ok(map)
}

/// Copies of the entries, rising by key. The only error is out of memory.
pub(crate) fn pairs_of(
    alloc: Global,
    map: &KeyMap<Scalar>,
) -> Result<Vec<(Key, Scalar)>, AllocError>
    ensures { IfOk result (λ pairs. pairs.items ≡ entries map.now) }
{
    let mut pairs = Vec::new(alloc);
    for (key, value) in map.iter() {
        pairs.push((key.copy()?, value.copy()?))?;
    }
    Ok(pairs)
}

/// The live settings at the keys, at each of which there is one, each once and rising by key. The only error is out of
/// memory. It takes a logarithmic step or two for each key.
pub(crate) fn settings_at(
    alloc: Global,
    live: &Content,
    keys: &[Key],
) -> Result<Vec<(Key, Scalar)>, AllocError>
    requires { missing_key live.now.values keys.now ≡ None }
    ensures { IfOk result (λ pairs. pairs.items ≡ settings_where (has_key keys.now) live.now.values) }
{
    let map = gather(alloc, live, keys)?;
    pairs_of(alloc, &map)
}
