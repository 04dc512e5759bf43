//! The texts of files that are JSON: scalars, pending values, and lists of keys, which are kept as scalars too.
ghost use Rattle.std.specs.Prelude.{◌≡◌, ◌↔◌, ℕ, List, Ok, Some, IfOk, IsTrue, false, option_map};
ghost use Rattle.std.specs.List.{list_all};
ghost use Rattle.serde_json.specs.Data.{null};
ghost use Rattle.serde_json.specs.Written.{compact_text};
ghost use Rattle.key_names.specs.Key.{is_key, printed};
ghost use Rattle.json_trees.specs.Json.{data_of};
ghost use Rattle.json_trees.specs.Scalar.{scalar_read, json_text};
ghost use Rattle.json_trees.specs.declared.item.Item.TheVariants as kind;
ghost use Rattle.settings_tree.specs.declared.entry.Owed.{Owed};
ghost use Rattle.fs_datastore.specs.Values.{Spells, pending, owed, weak, list_of, owed_scalar};
ghost use Rattle.settings_tree.specs.Owed.{IsKeyList, IsOwed};
ghost use Rattle.fs_datastore.specs.Batches.{pending_text};
ghost use Rattle.fs_datastore.specs.Texts.{Finds, key_items};

use held_text::{write_keys, write_owed};
use json::Writer;
use json_trees::{Item, Pending, Scalar, ScalarError, json_of, text_of};
use key_names::{Key, KeyFault, Text};
use serde_json::Value;
use settings_maps::KeyList;
use settings_tree::Owed;
use std::alloc::{AllocError, Global};

// ---- writing

// The text `null`.
fn null_text(alloc: Global) -> Result<Text, AllocError>
    ensures text { IfOk result (λ text. text ≡ compact_text null) }
    ensures reads { IfOk result (λ text. data_of text ≡ Some null) }
{
    let mut writer = Writer::new(Vec::new(alloc));
    writer.null()?;
    Ok(text_of(writer))
}

/// The text of the file of a pending value or removal. The only error is out of memory.
pub(crate) fn pending_text(alloc: Global, value: &Pending) -> Result<Text, AllocError>
    ensures text { IfOk result (λ text. text ≡ pending_text value.now) }
    ensures spelled { IfOk result (λ text. Spells text (pending value.now)) }
{
    match value {
        Pending::Put(scalar) => scalar.print(alloc),
        Pending::Gone => null_text(alloc),
    }
}

/// The text of the file `weak` of these keys. The only error is out of memory. It takes the time of printing each key.
pub(crate) fn weak_text(alloc: Global, keys: &KeyList) -> Result<Text, AllocError>
    ensures text { IfOk result (λ text. text ≡ json_text (list_of keys.now)) }
    ensures spelled { IfOk result (λ text. Spells text (weak keys.now)) }
{
    let mut writer = Writer::new(Vec::new(alloc));
    write_keys(&mut writer, keys)?;
    Ok(text_of(writer))
}

/// The text of the file `owed` of these keys. The only error is out of memory. It takes the time of printing each key.
pub(crate) fn owed_text(alloc: Global, keys: &Owed) -> Result<Text, AllocError>
    ensures text { IfOk result (λ text. text ≡ json_text (owed_scalar keys.now)) }
    ensures spelled { IfOk result (λ text. Spells text (owed keys.now)) }
{
    let mut writer = Writer::new(Vec::new(alloc));
    write_owed(&mut writer, keys)?;
    Ok(text_of(writer))
}

// ---- reading

/// The scalar that the bytes spell, or None where they spell none. The only error is out of memory.
pub(crate) fn read_scalar(alloc: Global, bytes: &[u8]) -> Result<Option<Scalar>, AllocError>
    ensures { Finds (λ value. scalar_read bytes.now ≡ Ok value) result }
{
    match Scalar::of_json(alloc, bytes) {
        Ok(value) => Ok(Some(value)),
        Err(ScalarError::Memory) => Err(AllocError),
        Err(_) => Ok(None),
    }
}

/// The pending value or removal that the bytes spell, or None where they spell none. The only error is out of
/// memory.
pub(crate) fn read_pending(alloc: Global, bytes: &[u8]) -> Result<Option<Pending>, AllocError>
    ensures { Finds (λ value. Spells bytes.now (pending value)) result }
{
    if is_null(alloc, bytes)? {
        return Ok(Some(Pending::Gone));
    }
    match read_scalar(alloc, bytes)? {
        Some(value) => Ok(Some(Pending::Put(value))),
        None => Ok(None),
    }
}

fn is_null(alloc: Global, bytes: &[u8]) -> Result<bool, AllocError>
    ensures { IfOk result (λ found. IsTrue found ↔ (data_of bytes.now ≡ Some null)) }
{
    match json_of(alloc, bytes)? {
        Some(Value::Null) => Ok(true),
        _ => Ok(false),
    }
}

// The key whose printed text the item is. Another text may give a key too.
fn key_of(alloc: Global, item: &Item) -> Result<Option<Key>, AllocError>
    ensures { (key : List (List ℕ)) → IsTrue (is_key key) → item.now ≡ kind.Text (printed key)
        → IfOk result (λ found. found ≡ Some key) }
{
    let Item::Text(text) = item else {
        return Ok(None);
    };
    match Key::read(alloc, text.as_str().as_bytes()) {
        Ok(key) => Ok(Some(key)),
        Err(fault) => match fault.kind {
            KeyFault::Memory => Err(AllocError),
            _ => Ok(None),
        },
    }
}

// The keys of which the items are the printed texts. Other texts may give keys too.
fn keys_of(alloc: Global, items: &[Item]) -> Result<Option<Vec<Key>>, AllocError>
    ensures { (keys : List (List (List ℕ))) → IsTrue (list_all is_key keys) → items.now ≡ key_items keys
        → IfOk result (λ found. option_map (λ v. v.items) found ≡ Some keys) }
{
    let mut keys = Vec::new(alloc);
    for item in items {
        let Some(key) = key_of(alloc, item)? else {
            return Ok(None);
        };
        keys.push(key)?;
    }
    Ok(Some(keys))
}

// The keys that are listed as these items.
fn rising_keys_of(alloc: Global, items: &[Item]) -> Result<Option<KeyList>, AllocError>
    ensures { (keys : List (List (List ℕ))) → IsKeyList keys → items.now ≡ key_items keys
        → IfOk result (λ found. found ≡ Some keys) }
{
    let Some(keys) = keys_of(alloc, items)? else {
        return Ok(None);
    };
    if KeyList::rise(&keys) {
        Ok(Some(KeyList::of(keys)))
    } else {
        Ok(None)
    }
}

// The weak keys that are written as this scalar. Others may give keys too.
fn weak_of(alloc: Global, value: &Scalar) -> Result<Option<KeyList>, AllocError>
    ensures { (keys : List (List (List ℕ))) → IsKeyList keys → value.now ≡ list_of keys
        → IfOk result (λ found. found ≡ Some keys) }
{
    match value {
        Scalar::List(items) => rising_keys_of(alloc, items.as_slice()),
        _ => Ok(None),
    }
}

// The owed keys that are written as this scalar. Others may give keys too.
fn owed_of(alloc: Global, value: &Scalar) -> Result<Option<Owed>, AllocError>
    ensures { (keys : Owed) → IsOwed keys → value.now ≡ owed_scalar keys
        → IfOk result (λ found. found ≡ Some keys) }
{
    match value {
        Scalar::Text(_) => Ok(Some(Owed::All)),
        Scalar::List(items) => match rising_keys_of(alloc, items.as_slice())? {
            Some(keys) => Ok(Some(Owed::Keys(keys))),
            None => Ok(None),
        },
        _ => Ok(None),
    }
}

fn is_same(text: &Text, bytes: &[u8]) -> bool
    ensures { IsTrue result ↔ (text.now ≡ bytes.now) }
{
    text.as_str().as_bytes() == bytes
}

/// The weak keys whose file these are the bytes of, or None where they are those of none. They are printed again and
/// compared, which refuses every other spelling. The only error is out of memory.
pub(crate) fn read_weak(alloc: Global, bytes: &[u8]) -> Result<Option<KeyList>, AllocError>
    ensures { Finds (λ keys. Spells bytes.now (weak keys)) result }
{
    let Some(value) = read_scalar(alloc, bytes)? else {
        return Ok(None);
    };
    let Some(keys) = weak_of(alloc, &value)? else {
        return Ok(None);
    };
    if is_same(&weak_text(alloc, &keys)?, bytes) {
        Ok(Some(keys))
    } else {
        Ok(None)
    }
}

/// The owed keys whose file these are the bytes of, or None where they are those of none. They are printed again and
/// compared, which refuses every other spelling. The only error is out of memory.
pub(crate) fn read_owed(alloc: Global, bytes: &[u8]) -> Result<Option<Owed>, AllocError>
    ensures { Finds (λ keys. Spells bytes.now (owed keys)) result }
{
    let Some(value) = read_scalar(alloc, bytes)? else {
        return Ok(None);
    };
    let Some(keys) = owed_of(alloc, &value)? else {
        return Ok(None);
    };
    if is_same(&owed_text(alloc, &keys)?, bytes) {
        Ok(Some(keys))
    } else {
        Ok(None)
    }
}
