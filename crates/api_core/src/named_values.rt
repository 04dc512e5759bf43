//! The live services and configuration files of given names.
ghost use Rattle.std.specs.Prelude.{◌≡◌, [], ◌∷◌, Some, IfOk, OnOk, filter, if◌then◌else◌};
ghost use Rattle.std.specs.Option.{option_copied};
ghost use Rattle.settings_tree.specs.Walks.{entries_below};
ghost use Rattle.settings_machine.specs.declared.refusal.Refusal.TheVariants.{NoName};
ghost use Rattle.settings_machine.specs.Answers.{is_named, is_below_one, missing_name};
ghost use Rattle.api_core.specs.Gathered.{no_name, has_below, with_pairs, all_named};

use crate::settings_at::pairs_of;
use key_names::{Key, Text};
use settings_maps::KeyMap;
use settings_tree::{Content, Scalar};
use std::alloc::{AllocError, Global};

// The key of the two segments. The only error is out of memory, which is also answered where a segment is none.
fn named_key(alloc: Global, first: &[u8], name: &Text) -> Result<Key, AllocError>
    ensures { IfOk result (λ key. key ≡ first.now ∷ name.now ∷ []) }
{
    let Ok(key) = Key::of_segment(alloc, first) else {
        return Err(AllocError);
    };
    match key.child(name.as_str().as_bytes()) {
        Ok(child) => Ok(child),
        Err(_) => Err(AllocError),
    }
}

// Whether there is a value at the key or below it.
fn has_below(live: &Content, key: &Key) -> bool
    ensures { result ≡ has_below live.now.values key.now }
{
    let Some(_) = live.next_below(key, None) else {
        return false;
    };
    true
}

// The name, where there is no value below it, and else the later one.
fn missing_first<'a>(
    alloc: Global,
    live: &Content,
    first: &[u8],
    name: &'a Text,
    later: Option<&'a Text>,
) -> Result<Option<&'a Text>, AllocError>
    ensures { IfOk result (λ found. no_name (option_copied found)
        ≡ (if is_named live.now.values first.now name.now then no_name (option_copied later.entry)
        else Some (NoName name.now))) }
{
    let key = named_key(alloc, first, name)?;
    if has_below(live, &key) {
        Ok(later)
    } else {
        Ok(Some(name))
    }
}

/// The first of the names below which there is no value. The only error is out of memory. It takes a logarithmic step for
/// each name.
pub(crate) fn missing_name<'a>(
    alloc: Global,
    live: &Content,
    first: &[u8],
    names: &'a [Text],
) -> Result<Option<&'a Text>, AllocError>
    ensures { IfOk result (λ found. no_name (option_copied found) ≡ missing_name live.now.values first.now names.now) }
{
    let mut missing = None;
    let mut index = names.len();
    while index > 0 {
        index -= 1;
        missing = missing_first(alloc, live, first, &names[index], missing)?;
    }
    Ok(missing)
}

fn put_all(map: &mut KeyMap<Scalar>, pairs: Vec<(Key, Scalar)>) -> Result<(), AllocError>
    ensures { OnOk result (map.new ≡ with_pairs map.old pairs.items) }
{
    for (key, value) in pairs {
        map.put(key, value)?;
    }
    Ok(())
}

fn put_below(map: &mut KeyMap<Scalar>, live: &Content, key: &Key) -> Result<(), AllocError>
    ensures { OnOk result (map.new ≡ with_pairs map.old (entries_below live.now.values key.now)) }
{
    let pairs = live.below(key)?;
    put_all(map, pairs)
}

fn gather(
    alloc: Global,
    live: &Content,
    first: &[u8],
    names: &[Text],
) -> Result<KeyMap<Scalar>, AllocError>
    ensures { IfOk result (λ map. map ≡ all_named live.now.values first.now names.now) }
{
    let mut map = KeyMap::new(alloc);
    for name in names {
        let key = named_key(alloc, first, name)?;
        put_below(&mut map, live, &key)?;
    }
    Ok(map)
}

/// The values that are below the first name and one of the names, each once and rising by key. The only error is out
/// of memory. It takes a logarithmic step or two for each value below a name, as often as the name is given.
pub(crate) fn named_values(
    alloc: Global,
    live: &Content,
    first: &[u8],
    names: &[Text],
) -> Result<Vec<(Key, Scalar)>, AllocError>
    ensures { IfOk result (λ kept. kept.items
        ≡ filter (λ e. is_below_one first.now names.now e.0) (entries_below live.now.values (first.now ∷ []))) }
{
    let map = gather(alloc, live, first, names)?;
    pairs_of(alloc, &map)
}
