//! The live content as a step leaves it.
ghost use Rattle.std.specs.Prelude.{◌≡◌, ◌≢◌, [], ◌∷◌, ◌++◌, OnOk, IfOk, IfErr, IfSome, IfNone, IsSome, Ok, Err, None};
ghost use Rattle.std.specs.FinMap.{entries, get, insert, remove};
ghost use Rattle.std.specs.Option.{option_map_or};
ghost use Rattle.settings_maps.specs.Maps.{HasNoneAfter};
ghost use Rattle.settings_tree.specs.Rule.{IsPrefixFree};
ghost use Rattle.migrate_helpers.specs.Conflict.{conflict};
ghost use Rattle.migrate_helpers.specs.Mapped.{live_edited, strong, unless_conflict};
ghost use Rattle.migrate_helpers.specs.Settings.{settings, content_of, values_of, weak_keys, IsWeakRightly};
ghost use Rattle.migrate_helpers.specs.Borrowed.{step_of};
ghost use Rattle.migrate_helpers.specs.declared.map_error.MapError.TheVariants.{Memory};

use crate::edits::{edited, remove_keys};
use crate::map_error::MapError;
use crate::setting::Setting;
use crate::step::Edit;
use json_trees::Scalar;
use key_names::Key;
use settings_maps::{Copied, KeyList, KeyMap};
use settings_tree::Content;
use std::alloc::{AllocError, Global};

// The settings of the content, each with its weakness.
fn settings_of(content: &Content) -> Result<KeyMap<Setting>, AllocError>
    ensures settings { IfOk result (λ map. map ≡ settings content.now) }
    ensures weak { IfOk result (λ map. IsWeakRightly map) }
{
    let weak = content.weak();
    let mut settings = KeyMap::new(weak.allocator());
    for (key, value) in content.values().iter() {
        let setting = Setting {
            value: value.copy()?,
            weak: weak.contains(key),
        };
        settings.put(key.copy()?, setting)?;
    }
    Ok(settings)
}

fn first_key(settings: &KeyMap<Setting>) -> Result<Option<Key>, AllocError>
    ensures stands { IfOk result (λ first. IfSome first (λ key. IsSome (get settings.now key))) }
    ensures none { IfOk result (λ first. IfNone first (HasNoneAfter settings.now None)) }
{
    match settings.next_after(None) {
        Some((key, _)) => Ok(Some(key.copy()?)),
        None => Ok(None),
    }
}

// Moves what is at the key, without a copy of its value.
fn move_value(
    settings: &mut KeyMap<Setting>,
    key: Key,
    values: &mut KeyMap<Scalar>,
) -> Result<(), AllocError>
    ensures taken { OnOk result (settings.new ≡ remove settings.old key) }
    ensures put { OnOk result (values.new
        ≡ option_map_or (λ s. insert values.old key s.value) (get settings.old key) values.old) }
{
    match settings.take(&key) {
        Some(setting) => values.put(key, setting.value),
        None => Ok(()),
    }
}

// The values of the settings, moved one by one.
fn values_of(alloc: Global, mut settings: KeyMap<Setting>) -> Result<KeyMap<Scalar>, AllocError>
    ensures { IfOk result (λ values. values ≡ values_of settings) }
{
    let mut values = KeyMap::new(alloc);
    while let Some(key) = first_key(&settings)? {
        move_value(&mut settings, key, &mut values)?;
    }
    Ok(values)
}

fn push_if_weak(keys: &mut Vec<Key>, key: &Key, setting: &Setting) -> Result<(), AllocError>
    ensures { OnOk result (keys.new.items ≡ keys.old.items ++ weak_keys ((key.now, setting.now) ∷ [])) }
{
    if setting.weak {
        keys.push(key.copy()?)?;
    }
    Ok(())
}

fn weak_keys(alloc: Global, settings: &KeyMap<Setting>) -> Result<KeyList, AllocError>
    ensures { IfOk result (λ keys. keys ≡ weak_keys (entries settings.now)) }
{
    let mut keys = Vec::new(alloc);
    for (key, setting) in settings.iter() {
        push_if_weak(&mut keys, key, setting)?;
    }
    Ok(KeyList::of(keys))
}

// The content with these settings in place of its own.
fn with_settings(content: &Content, settings: KeyMap<Setting>) -> Result<Content, AllocError>
    requires rule { IsPrefixFree settings }
    requires weak { IsWeakRightly settings }
    ensures { IfOk result (λ made. made ≡ content_of settings content.now.metadata) }
{
    let alloc = content.weak().allocator();
    let weak = weak_keys(alloc, &settings)?;
    let values = values_of(alloc, settings)?;
    let metadata = content.metadata().copied()?;
    Ok(Content::of(values, metadata, weak))
}

/// The live content as the edit leaves it. It copies each value once, and takes a few logarithmic steps
/// for each and for each key that the edit names.
///
/// `Conflict` with the least key that is then a proper prefix of another, exactly where there is one;
/// `Memory` where it runs out of memory.
pub(crate) fn edited_live(edit: &Edit, content: &Content) -> Result<Content, MapError>
    ensures ok { IfOk result (λ made. let whole = live_edited (step_of edit.now) content.now
        in unless_conflict (conflict whole) (content_of whole content.now.metadata) ≡ Ok made) }
    ensures err { IfErr result (λ e. e ≢ Memory → (let whole = live_edited (step_of edit.now) content.now
        in unless_conflict (conflict whole) (content_of whole content.now.metadata) ≡ Err e)) }
{
    let settings = edited(edit, settings_of(content)?)?;
    Ok(with_settings(content, settings)?)
}

/// The content without its weak settings. It takes a logarithmic step for each value. The only error
/// is out of memory.
pub(crate) fn without_weak(content: &Content) -> Result<Content, AllocError>
    ensures { IfOk result (λ made. made ≡ strong content.now) }
{
    let weak = content.weak();
    let mut values = content.values().copied()?;
    remove_keys(&mut values, weak.as_slice());
    let metadata = content.metadata().copied()?;
    Ok(Content::of(values, metadata, KeyList::new(weak.allocator())))
}
