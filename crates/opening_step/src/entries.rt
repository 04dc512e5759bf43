//! The entries of the opening step.
ghost use Rattle.std.specs.Prelude.{◌≡◌, ◌++◌, ◌||◌, not, IfOk, OnOk, flat_map};
ghost use Rattle.std.specs.Str.{bytes_eq};
ghost use Rattle.std.specs.Option.{option_copied};
ghost use Rattle.std.specs.FinMap as map;
ghost use Rattle.settings_maps.specs.KeyList.{IsRising};
ghost use Rattle.settings_tree.specs.Content.{IsContent};
ghost use Rattle.settings_tree.specs.Laid.{laid, KeepsPrefixRule, NamesWeak, TellsWeak};
ghost use Rattle.opening_step.specs.Entries.{is_wanted, is_absent, differs, value_entries, gone_entries, name_entries};
ghost use Rattle.opening_step.specs.Entries.{key_entries, gone_name_entries, gone_key_entries, added_key, owed_entries};
ghost use Rattle.opening_step.specs.Entries.{image_entries, weak_entries, opening_entries, OwesRising};
ghost use Rattle.opening_step.specs.Step.{AreSettings, HasTypes, MakesStep};
ghost use Rattle.settings_machine.specs.Opening.{is_of_store, added_keys};

use crate::sections::is_of_store;
use json_trees::Scalar;
use key_names::{Bytes, Key, Text};
use settings_maps::NamedValues;
use settings_tree::{Change, Content, Entry, Held, KeyList, Owed};
use std::alloc::{AllocError, Global};

fn is_absent(found: Option<&Scalar>) -> bool
    ensures { result ≡ is_absent (option_copied found.entry) }
{
    found.is_none()
}

fn differs(value: &Scalar, found: Option<&Scalar>) -> bool
    ensures { result ≡ differs value.now (option_copied found.entry) }
{
    match found {
        Some(found) => !found.eq(value),
        None => true,
    }
}

// Whether the image's value is to be set: a default where its key has no live value, and else what differs.
fn is_wanted(setting: bool, value: &Scalar, live: Option<&Scalar>) -> bool
    ensures { result ≡ is_wanted setting value.now (option_copied live.entry) }
{
    match live {
        Some(live) => !setting && !live.eq(value),
        None => true,
    }
}

fn set_value(
    entries: &mut Vec<Entry>,
    live: &Content,
    key: &Key,
    value: &Scalar,
) -> Result<(), AllocError>
    ensures { OnOk result (entries.new.items ≡ entries.old.items
        ++ value_entries live.now.values (key.now, value.now)) }
{
    if is_wanted(is_of_store(key), value, live.value(key)) {
        entries.push(Entry::LiveSet {
            key: key.copy()?,
            value: value.copy()?,
        })?;
    }
    Ok(())
}

// The image's values that are to be set.
fn set_values(entries: &mut Vec<Entry>, image: &Content, live: &Content) -> Result<(), AllocError>
    ensures { OnOk result (entries.new.items ≡ entries.old.items
        ++ flat_map (value_entries live.now.values) (map.entries image.now.values)) }
{
    for (key, value) in image.values().iter() {
        set_value(entries, live, key, value)?;
    }
    Ok(())
}

fn take_value(entries: &mut Vec<Entry>, image: &Content, key: &Key) -> Result<(), AllocError>
    ensures { OnOk result (entries.new.items ≡ entries.old.items ++ gone_entries image.now.values key.now) }
{
    if !is_of_store(key) && is_absent(image.value(key)) {
        entries.push(Entry::LiveGone { key: key.copy()? })?;
    }
    Ok(())
}

// The live services and files that the image lacks are taken away.
fn take_values(entries: &mut Vec<Entry>, image: &Content, live: &Content) -> Result<(), AllocError>
    ensures { OnOk result (entries.new.items ≡ entries.old.items
        ++ flat_map (λ e. gone_entries image.now.values e.0) (map.entries live.now.values)) }
{
    for (key, _) in live.values().iter() {
        take_value(entries, image, key)?;
    }
    Ok(())
}

fn set_name(
    entries: &mut Vec<Entry>,
    live: &Content,
    key: &Key,
    name: &Text,
    value: &Scalar,
) -> Result<(), AllocError>
    ensures { OnOk result (entries.new.items ≡ entries.old.items
        ++ name_entries live.now.metadata key.now (name.now, value.now)) }
{
    if differs(value, live.meta(key, name.as_str().as_bytes())) {
        entries.push(Entry::MetaSet {
            key: key.copy()?,
            name: name.copy()?,
            value: value.copy()?,
        })?;
    }
    Ok(())
}

// The image's metadata of one key that differs from the live one.
fn set_names(
    entries: &mut Vec<Entry>,
    live: &Content,
    key: &Key,
    names: &NamedValues,
) -> Result<(), AllocError>
    ensures { OnOk result (entries.new.items ≡ entries.old.items
        ++ key_entries live.now.metadata (key.now, names.now)) }
{
    for (name, value) in names.as_slice() {
        set_name(entries, live, key, name, value)?;
    }
    Ok(())
}

fn set_metadata(entries: &mut Vec<Entry>, image: &Content, live: &Content) -> Result<(), AllocError>
    ensures { OnOk result (entries.new.items ≡ entries.old.items
        ++ flat_map (key_entries live.now.metadata) (map.entries image.now.metadata)) }
{
    for (key, names) in image.metadata().iter() {
        set_names(entries, live, key, names)?;
    }
    Ok(())
}

fn take_name(
    entries: &mut Vec<Entry>,
    image: &Content,
    key: &Key,
    name: &Text,
) -> Result<(), AllocError>
    ensures { OnOk result (entries.new.items ≡ entries.old.items
        ++ gone_name_entries image.now.metadata key.now name.now) }
{
    if is_absent(image.meta(key, name.as_str().as_bytes())) {
        entries.push(Entry::MetaGone {
            key: key.copy()?,
            name: name.copy()?,
        })?;
    }
    Ok(())
}

// The live metadata of one key that the image lacks is taken away.
fn take_names(
    entries: &mut Vec<Entry>,
    image: &Content,
    key: &Key,
    names: &NamedValues,
) -> Result<(), AllocError>
    ensures { OnOk result (entries.new.items ≡ entries.old.items
        ++ gone_key_entries image.now.metadata (key.now, names.now)) }
{
    for (name, _) in names.as_slice() {
        take_name(entries, image, key, name)?;
    }
    Ok(())
}

fn take_metadata(
    entries: &mut Vec<Entry>,
    image: &Content,
    live: &Content,
) -> Result<(), AllocError>
    ensures { OnOk result (entries.new.items ≡ entries.old.items
        ++ flat_map (gone_key_entries image.now.metadata) (map.entries live.now.metadata)) }
{
    for (key, names) in live.metadata().iter() {
        take_names(entries, image, key, names)?;
    }
    Ok(())
}

fn push_added(keys: &mut Vec<Key>, live: &Content, key: &Key) -> Result<(), AllocError>
    ensures { OnOk result (keys.new.items ≡ keys.old.items ++ added_key live.now.values key.now) }
{
    if is_of_store(key) && is_absent(live.value(key)) {
        keys.push(key.copy()?)?;
    }
    Ok(())
}

// The keys of the defaults that have no live value, in their order.
fn added_list(alloc: Global, image: &Content, live: &Content) -> Result<Vec<Key>, AllocError>
    ensures { IfOk result (λ keys. keys.items
        ≡ flat_map (λ e. added_key live.now.values e.0) (map.entries image.now.values)) }
{
    let mut keys = Vec::new(alloc);
    for (key, _) in image.values().iter() {
        push_added(&mut keys, live, key)?;
    }
    Ok(keys)
}

/// The keys of the default settings that have no live value, rising. The only error is out of memory. It takes a
/// logarithmic step for each default.
pub fn added_keys(alloc: Global, defaults: &Content, live: &Content) -> Result<KeyList, AllocError>
    ensures { IfOk result (λ keys. keys ≡ added_keys defaults.now.values live.now.values) }
{
    Ok(KeyList::of(added_list(alloc, defaults, live)?))
}

fn set_owed_keys(
    entries: &mut Vec<Entry>,
    all: bool,
    owed: &KeyList,
    added: &KeyList,
) -> Result<(), AllocError>
    ensures { OnOk result (entries.new.items ≡ entries.old.items ++ owed_entries all added.now (Owed.Keys owed.now)) }
{
    if all {
        entries.push(Entry::OwedSet { owed: Owed::All })?;
        return Ok(());
    }
    if owed.contains_all(added.as_slice()) {
        return Ok(());
    }
    let owed = Owed::Keys(owed.joined(added)?);
    entries.push(Entry::OwedSet { owed })?;
    Ok(())
}

// What is owed after the step, where it changes.
#[tactic(auto, using(crate::proofs::OpenedEntries::all_owes, crate::proofs::OpenedEntries::keys_owe))]
fn set_owed(
    entries: &mut Vec<Entry>,
    all: bool,
    owed: &Owed,
    added: &KeyList,
) -> Result<(), AllocError>
    ensures made { OnOk result (entries.new.items ≡ entries.old.items ++ owed_entries all added.now owed.now) }
    ensures owes { OwesRising owed.now }
{
    match owed {
        Owed::All => Ok(()),
        Owed::Keys(keys) => {
            let _ = keys.as_slice();
            set_owed_keys(entries, all, keys, added)
        }
    }
}

#[tactic(auto, using(crate::proofs::OpenedEntries::same_texts))]
fn set_image(entries: &mut Vec<Entry>, before: &Bytes, text: &Bytes) -> Result<(), AllocError>
    ensures { OnOk result (entries.new.items ≡ entries.old.items ++ image_entries before.now text.now) }
{
    if !before.eq(text) {
        entries.push(Entry::ImageSet {
            image: text.copy()?,
        })?;
    }
    Ok(())
}

// The added keys are weak too.
fn set_weak(entries: &mut Vec<Entry>, weak: &KeyList, added: &KeyList) -> Result<(), AllocError>
    ensures made { OnOk result (entries.new.items ≡ entries.old.items ++ weak_entries weak.now added.now) }
    ensures rising { IsRising weak.now }
{
    let _ = weak.as_slice();
    if !added.as_slice().is_empty() {
        let weak = weak.joined(added)?;
        entries.push(Entry::WeakIs { weak })?;
    }
    Ok(())
}

// Whether all is owed after the step.
#[tactic(auto, using(crate::proofs::OpenedEntries::same_texts))]
fn owes_all(boot: bool, before: &Bytes, text: &Bytes) -> bool
    ensures { result ≡ (boot || not (bytes_eq before.now text.now)) }
{
    boot || !before.eq(text)
}

// All entries of the opening step.
#[tactic(auto, using(crate::proofs::AddedKeys::added_rise, crate::proofs::OpenedEntries::same_texts))]
fn make_entries(
    alloc: Global,
    boot: bool,
    defaults: &Content,
    text: &Bytes,
    held: &Held,
) -> Result<Vec<Entry>, AllocError>
    ensures image { OnOk result (IsContent defaults.now) }
    ensures live { OnOk result (IsContent held.now.live) }
    ensures weak { OnOk result (IsRising held.now.live.weak) }
    ensures owes { OnOk result (OwesRising held.now.owed) }
    ensures made { IfOk result (λ es. es.items ≡ opening_entries boot defaults.now text.now held.now) }
{
    let live = &held.live;
    let added = KeyList::of(added_list(alloc, defaults, live)?);
    let _ = defaults.weak();
    let all = owes_all(boot, &held.image, text);
    let mut entries = Vec::new(alloc);
    set_values(&mut entries, defaults, live)?;
    take_values(&mut entries, defaults, live)?;
    set_metadata(&mut entries, defaults, live)?;
    take_metadata(&mut entries, defaults, live)?;
    set_owed(&mut entries, all, &held.owed, &added)?;
    set_image(&mut entries, &held.image, text)?;
    set_weak(&mut entries, live.weak(), &added)?;
    Ok(entries)
}

/// The change that makes the opening step with the defaults and the text of an image. It names nothing that stays as it is,
/// and has a `WeakIs` exactly where it adds a default. It takes a logarithmic step for each value and each metadata of the
/// defaults and of what is held. The only error is out of memory.
pub fn opening_change(
    alloc: Global,
    boot: bool,
    defaults: &Content,
    text: &Bytes,
    held: &Held,
) -> Result<Change, AllocError>
    requires types { HasTypes defaults.now held.now }
    requires settings { AreSettings defaults.now.values }
    ensures made { IfOk result (MakesStep boot defaults.now text.now held.now) }
    ensures rule { IfOk result (λ change. KeepsPrefixRule (laid held.now change)) }
    ensures weak { IfOk result (λ change. NamesWeak held.now change) }
    ensures told { IfOk result (λ change. TellsWeak held.now change) }
{
    Ok(Change::of(make_entries(alloc, boot, defaults, text, held)?))
}
