//! The parts of a held text, read from JSON values. They are read leniently: the caller prints what was
//! read and compares the two texts, which refuses every other spelling and order.
ghost use Rattle.std.specs.Prelude.{◌≡◌, ◌≢◌, ◌<◌, [], ◌∷◌, IsTrue, IfOk, IfErr, OnOk, OnErr, Some, None, false, length, map, string_bytes};
ghost use Rattle.std.specs.FinMap.{insert};
ghost use Rattle.base64.specs.GeneralPurpose.{IsBytes};
ghost use Rattle.serde_json.specs.Data.{Data, string};
ghost use Rattle.std.specs.Vec.Iter.{into_iter_items};
ghost use Rattle.serde_json.specs.Find.{as_array, as_object, as_str};
ghost use Rattle.serde_json.specs.View.{view, items_view, members_view};
ghost use Rattle.key_names.specs.Key.{is_key};
ghost use Rattle.json_trees.specs.Nested.{IsSound};
ghost use Rattle.settings_maps.specs.Maps.{is_empty};
ghost use Rattle.settings_maps.specs.TxName.{is_tx_name};
ghost use Rattle.settings_tree.specs.Content.{no_content};
ghost use Rattle.held_text.specs.HeldText.{list_data, key_data, keys_data, pair_data, map_data};
ghost use Rattle.held_text.specs.HeldText.{row_data, transaction_data, pending_maps_data, owed_data, image_data, held_data};
ghost use Rattle.held_text.specs.HeldRules.{IsRow, IsMap, IsWholeTransaction, ArePending, IsHeld, Reads};
ghost use Rattle.held_text.specs.HeldRules.{HasValues, ReadsContent, ReadsRest, ReadsMembers, PutsRows, PutsOthers, member_values};
ghost use Rattle.settings_tree.specs.Owed.{IsKeyList, IsOwed};
ghost use Rattle.settings_tree.specs.Rule.{IsPrefixFree};
ghost use Rattle.held_text.specs.declared.held_error.HeldError.TheVariants.{Memory};

use crate::held_error::HeldError;
use base64::DecodeAllocError;
use base64::engine::general_purpose::STANDARD;
use json_trees::{Leaf, Pending, Scalar};
use key_names::{Bytes, Key, Text};
use serde_json::{Map, Value};
use settings_maps::{KeyList, KeyMap, Metadata, Transactions, TxName, is_meta_name};
use settings_tree::{Content, Held, Owed, PendMaps, fits};
use std::alloc::{AllocError, Global};
use std::vec::IntoIter;

fn list_of(value: Value) -> Result<Vec<Value>, HeldError>
    ensures ok { IfOk result (λ values. as_array (view value) ≡ Some (items_view values.items)) }
    ensures err { OnErr result (as_array (view value) ≡ None) }
{
    match value {
        Value::Array(values) => Ok(values),
        _ => Err(HeldError::BadHeld),
    }
}

// The next value of a list. What comes after the last one that is taken does not count here.
fn next_of(values: &mut IntoIter<Value>) -> Result<Value, HeldError>
    ensures next { IfOk result (λ value. into_iter_items values.old ≡ value ∷ into_iter_items values.new) }
    ensures none { OnErr result (into_iter_items values.old ≡ []) }
{
    match values.next() {
        Some(value) => Ok(value),
        None => Err(HeldError::BadHeld),
    }
}

fn two_of(values: &mut IntoIter<Value>) -> Result<(Value, Value), HeldError>
    ensures next { IfOk result (λ v. into_iter_items values.old ≡ v.0 ∷ v.1 ∷ into_iter_items values.new) }
    ensures none { OnErr result (length (into_iter_items values.old) < 2) }
{
    let first = next_of(values)?;
    let second = next_of(values)?;
    Ok((first, second))
}

fn three_of(values: &mut IntoIter<Value>) -> Result<(Value, Value, Value), HeldError>
    ensures next { IfOk result (λ v. into_iter_items values.old ≡ v.0 ∷ v.1 ∷ v.2 ∷ into_iter_items values.new) }
    ensures none { OnErr result (length (into_iter_items values.old) < 3) }
{
    let first = next_of(values)?;
    let (second, third) = two_of(values)?;
    Ok((first, second, third))
}

// The two values of a list. What comes after them does not count here.
fn couple_of(list: Value) -> Result<(Value, Value), HeldError>
    ensures ok { IfOk result (λ v. (a b : Data) → view list ≡ list_data (a ∷ b ∷ []) → (view v.0 ≡ a) × (view v.1 ≡ b)) }
    ensures err { OnErr result ((a b : Data) → view list ≢ list_data (a ∷ b ∷ [])) }
{
    let mut values = list_of(list)?.into_iter();
    two_of(&mut values)
}

// The three values of a list. What comes after them does not count here.
fn triple_of(list: Value) -> Result<(Value, Value, Value), HeldError>
    ensures ok { IfOk result (λ v. (a b c : Data) → view list ≡ list_data (a ∷ b ∷ c ∷ []) → (view v.0 ≡ a) × (view v.1 ≡ b) × (view v.2 ≡ c)) }
    ensures err { OnErr result ((a b c : Data) → view list ≢ list_data (a ∷ b ∷ c ∷ [])) }
{
    let mut values = list_of(list)?.into_iter();
    three_of(&mut values)
}

fn string_of(value: Value) -> Result<String, HeldError>
    ensures ok { IfOk result (λ text. as_str (view value) ≡ Some (string_bytes text)) }
    ensures err { OnErr result (as_str (view value) ≡ None) }
{
    match value {
        Value::String(text) => Ok(text),
        _ => Err(HeldError::BadHeld),
    }
}

fn key_of(alloc: Global, value: Value) -> Result<Key, HeldError>
    ensures { Reads (λ key. IsTrue (is_key key)) key_data (view value) result }
{
    let text = string_of(value)?;
    Ok(Key::read(alloc, text.as_bytes())?)
}

fn pair_of<L: Leaf>(alloc: Global, value: Value) -> Result<(Key, L), HeldError>
    ensures { Reads (IsSound L.leaf L.written) (pair_data L.written) (view value) result }
{
    let (key, value) = couple_of(value)?;
    let key = key_of(alloc, key)?;
    let leaf = L::of_value(alloc, value)?;
    Ok((key, leaf))
}

// The map that a list of pairs is.
fn map_of<L: Leaf + Drop>(alloc: Global, list: Value) -> Result<KeyMap<L>, HeldError>
    ensures reads { Reads (IsMap L.leaf L.written) (map_data L.written) (view list) result }
    ensures free { IfOk result IsPrefixFree }
{
    let mut map = KeyMap::new(alloc);
    for pair in list_of(list)? {
        let (key, leaf) = pair_of(alloc, pair)?;
        if !fits(&map, &key) {
            return Err(HeldError::BadHeld);
        }
        map.put(key, leaf)?;
    }
    Ok(map)
}

fn row_of(alloc: Global, value: Value) -> Result<(Key, Text, Scalar), HeldError>
    ensures { Reads IsRow row_data (view value) result }
{
    let (key, name, value) = triple_of(value)?;
    let key = key_of(alloc, key)?;
    let name = Text::of(string_of(name)?);
    let value = Scalar::of_value(alloc, value)?;
    Ok((key, name, value))
}

// Puts the metadata that a list of rows is.
fn put_rows(alloc: Global, content: &mut Content, list: Value) -> Result<(), HeldError>
    ensures { PutsRows (view list) content.old content.new result }
{
    for row in list_of(list)? {
        let (key, name, value) = row_of(alloc, row)?;
        if !is_meta_name(name.as_str().as_bytes()) {
            return Err(HeldError::BadHeld);
        }
        content.put_meta(key, name, value)?;
    }
    Ok(())
}

fn key_list_of(alloc: Global, list: Value) -> Result<KeyList, HeldError>
    ensures { Reads IsKeyList keys_data (view list) result }
{
    let mut keys = Vec::new(alloc);
    for value in list_of(list)? {
        keys.push(key_of(alloc, value)?)?;
    }
    if !KeyList::rise(&keys) {
        return Err(HeldError::BadHeld);
    }
    Ok(KeyList::of(keys))
}

// The content with these values, without metadata and weak keys. It takes no memory.
fn values_alone(alloc: Global, values: KeyMap<Scalar>) -> Content
    requires { IsPrefixFree values }
    ensures { result ≡ record no_content { values = values } }
{
    Content::of(values, Metadata::new(alloc), KeyList::new(alloc))
}

// Puts metadata and weak keys into a content that has only values.
fn put_others(
    alloc: Global,
    content: &mut Content,
    metadata: Value,
    weak: Value,
) -> Result<(), HeldError>
    ensures { PutsOthers (view metadata) (view weak) content.old content.new result }
{
    put_rows(alloc, content, metadata)?;
    let weak = key_list_of(alloc, weak)?;
    if !content.may_be_weak(weak.as_slice()) {
        return Err(HeldError::BadHeld);
    }
    content.set_weak(weak);
    Ok(())
}

// The content with these values, metadata and weak keys.
fn content_of(
    alloc: Global,
    values: Value,
    metadata: Value,
    weak: Value,
) -> Result<Content, HeldError>
    ensures { ReadsContent (view values) (view metadata) (view weak) result }
{
    let mut content = values_alone(alloc, map_of(alloc, values)?);
    put_others(alloc, &mut content, metadata, weak)?;
    Ok(content)
}

fn tx_name_of(alloc: Global, value: Value) -> Result<TxName, HeldError>
    ensures { Reads (λ name. IsTrue (is_tx_name name)) string (view value) result }
{
    let text = string_of(value)?;
    match TxName::read(alloc, text.as_bytes())? {
        Some(name) => Ok(name),
        None => Err(HeldError::BadHeld),
    }
}

fn transaction_of(alloc: Global, value: Value) -> Result<(TxName, KeyMap<Pending>), HeldError>
    ensures reads { Reads IsWholeTransaction transaction_data (view value) result }
    ensures free { IfOk result (λ t. IsPrefixFree t.1) }
{
    let (name, keys) = couple_of(value)?;
    let name = tx_name_of(alloc, name)?;
    let keys = map_of(alloc, keys)?;
    Ok((name, keys))
}

// Makes these the keys of the transaction. There is at least one.
fn put_keys(
    transactions: &mut Transactions,
    tx: TxName,
    keys: KeyMap<Pending>,
) -> Result<(), AllocError>
    requires { is_empty keys ≡ false }
    ensures ok { OnOk result (transactions.new ≡ insert transactions.old tx keys) }
    ensures err { OnErr result (transactions.new ≡ transactions.old) }
{
    transactions.set_keys(tx, keys)
}

// The pending maps that a list of transactions is.
fn pending_of(alloc: Global, list: Value) -> Result<PendMaps, HeldError>
    ensures { Reads ArePending pending_maps_data (view list) result }
{
    let mut transactions = Transactions::new(alloc);
    for transaction in list_of(list)? {
        let (tx, keys) = transaction_of(alloc, transaction)?;
        if keys.is_empty() {
            return Err(HeldError::BadHeld);
        }
        put_keys(&mut transactions, tx, keys)?;
    }
    Ok(PendMaps::of(transactions))
}

// The owed keys. What is no list is read as all of them.
fn owed_of(alloc: Global, value: Value) -> Result<Owed, HeldError>
    ensures { Reads IsOwed owed_data (view value) result }
{
    if value.is_array() {
        Ok(Owed::Keys(key_list_of(alloc, value)?))
    } else {
        Ok(Owed::All)
    }
}

// The stored image text.
fn image_of(alloc: Global, value: Value) -> Result<Bytes, HeldError>
    ensures { Reads IsBytes image_data (view value) result }
{
    let text = string_of(value)?;
    match STANDARD.decode(alloc, text.as_bytes()) {
        Ok(image) => Ok(Bytes::of(image)),
        Err(DecodeAllocError::OutOfMemory) => Err(HeldError::Memory),
        Err(_) => Err(HeldError::BadHeld),
    }
}

// The values of the members of an object, in the order of their names.
fn values_of(alloc: Global, value: Value) -> Result<Vec<Value>, HeldError>
    ensures ok { IfOk result (λ values. HasValues (view value) (map view values.items)) }
    ensures err { IfErr result (λ e. e ≢ Memory → as_object (view value) ≡ None) }
{
    match value {
        Value::Object(members) => member_values(alloc, members),
        _ => Err(HeldError::BadHeld),
    }
}

fn member_values(alloc: Global, members: Map<String, Value>) -> Result<Vec<Value>, HeldError>
    ensures ok { IfOk result (λ values. map view values.items ≡ member_values (members_view members.entries)) }
    ensures err { IfErr result (λ e. e ≡ Memory) }
{
    let mut values = Vec::new(alloc);
    for (_, value) in members {
        values.push(value)?;
    }
    Ok(values)
}

// What is owed, pending and stored as the image text.
fn rest_of(
    alloc: Global,
    owed: Value,
    pending: Value,
    image: Value,
) -> Result<(Owed, PendMaps, Bytes), HeldError>
    ensures { ReadsRest (view owed) (view pending) (view image) result }
{
    let image = image_of(alloc, image)?;
    let owed = owed_of(alloc, owed)?;
    let pending = pending_of(alloc, pending)?;
    Ok((owed, pending, image))
}

// What is held, of the values of the six members, which come in the order of their names.
fn held_in(alloc: Global, values: &mut IntoIter<Value>) -> Result<Held, HeldError>
    ensures { ReadsMembers (map view (into_iter_items values.old)) result }
{
    let (image, live, meta) = three_of(values)?;
    let (owed, pending, weak) = three_of(values)?;
    let rest = rest_of(alloc, owed, pending, image)?;
    let live = content_of(alloc, live, meta, weak)?;
    let (owed, pending, image) = rest;
    Ok(Held {
        live,
        pending,
        owed,
        image,
    })
}

/// What is held, of the JSON value of a held text.
pub(crate) fn held_of(alloc: Global, value: Value) -> Result<Held, HeldError>
    ensures { Reads IsHeld held_data (view value) result }
{
    let mut values = values_of(alloc, value)?.into_iter();
    held_in(alloc, &mut values)
}
