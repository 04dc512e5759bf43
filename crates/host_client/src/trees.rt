//! Trees of settings are made one.
ghost use Rattle.std.specs.Prelude.{◌≡◌, IfOk, OnOk, false, option_map};
ghost use Rattle.serde_json.specs.Find.{as_object};
ghost use Rattle.serde_json.specs.View.{view, items_view, members_view};
ghost use Rattle.serde_json.specs.Written.{has_float, items_have_float, members_have_float, compact_text};
ghost use Rattle.host_client.specs.Trees.{merged, merged_members, tree_in, one_tree};
ghost use Rattle.host_client.specs.Steps.{IsSound, settings_line, settings_told, settings_by, tree_read, tree_told};

use crate::ending::{bad_reply, ended, is_success, refused_by, settings_line};
use crate::reply::Got;
use crate::step::Step;
use json_trees::json_of;
use serde_json::{Map, Value};
use std::alloc::{AllocError, Global};

// ---- merging

// A value over an earlier one: two objects member by member; of any other two values the later one.
#[cycle(merge)]
fn merge(new: Value, old: Value) -> Result<Value, AllocError>
    ensures { IfOk result (λ value. view value ≡ merged (view old) (view new)) }
{
    match (new, old) {
        (Value::Object(more), Value::Object(mut members)) => {
            merge_members(more, &mut members)?;
            Ok(Value::Object(members))
        }
        (new, _) => Ok(new),
    }
}

// The members of an object among those of an earlier one.
#[cycle(merge)]
fn merge_members(
    more: Map<String, Value>,
    members: &mut Map<String, Value>,
) -> Result<(), AllocError>
    ensures { OnOk result (members_view members.new.entries
        ≡ merged_members (members_view members.old.entries) (members_view more.entries)) }
{
    for (name, new) in more {
        let value = members.entry(name)?.or_insert(Value::Null);
        *value = merge(new, value.take())?;
    }
    Ok(())
}

// The members of an object.
fn object_in(value: Value) -> Option<Map<String, Value>>
    ensures { option_map (λ m. members_view m.entries) result ≡ as_object (view value) }
{
    match value {
        Value::Object(members) => Some(members),
        _ => None,
    }
}

// The members of the JSON object that the bytes are, if they are one.
fn tree_in(alloc: Global, bytes: &[u8]) -> Result<Option<Map<String, Value>>, AllocError>
    ensures { IfOk result (λ tree. option_map (λ m. members_view m.entries) tree ≡ tree_in bytes.now) }
{
    match json_of(alloc, bytes)? {
        Some(value) => Ok(object_in(value)),
        None => Ok(None),
    }
}

// The trees of the bodies as one.
fn one_tree(alloc: Global, replies: &[Got]) -> Result<Option<Map<String, Value>>, AllocError>
    ensures { IfOk result (λ tree. option_map (λ m. members_view m.entries) tree ≡ one_tree replies.now) }
{
    let mut tree = Map::new(alloc);
    for reply in replies {
        match tree_in(alloc, reply.body.as_slice())? {
            Some(more) => merge_members(more, &mut tree)?,
            None => return Ok(None),
        }
    }
    Ok(Some(tree))
}

// ---- printing

// Whether a number in the value is a fraction, or too large for 64 bits.
#[cycle(floats)]
fn has_float(value: &Value) -> bool
    ensures { result ≡ has_float (view value.now) }
{
    match value {
        Value::Number(number) => number.is_f64(),
        Value::Array(items) => items_have_float(items),
        Value::Object(members) => members_have_float(members),
        _ => false,
    }
}

#[cycle(floats)]
fn items_have_float(items: &Vec<Value>) -> bool
    ensures { result ≡ items_have_float (items_view items.now.items) }
{
    for item in items {
        if has_float(item) {
            return true;
        }
    }
    false
}

#[cycle(floats)]
fn members_have_float(members: &Map<String, Value>) -> bool
    ensures { result ≡ members_have_float (members_view members.now.entries) }
{
    for (_, member) in members.iter() {
        if has_float(member) {
            return true;
        }
    }
    false
}

// The line of the tree, in compact text.
fn tree_line(alloc: Global, tree: &Value) -> Result<Vec<u8>, AllocError>
    requires { has_float (view tree.now) ≡ false }
    ensures { IfOk result (λ line. line.items ≡ settings_line (compact_text (view tree.now))) }
{
    let text = tree.to_vec(alloc)?;
    settings_line(alloc, &text)
}

fn tree_read(alloc: Global, tree: &Value) -> Result<Step, AllocError>
    ensures step { IfOk result (λ step. step ≡ tree_read (view tree.now)) }
    ensures sound { IfOk result IsSound }
{
    if has_float(tree) {
        bad_reply(alloc)
    } else {
        let line = tree_line(alloc, tree)?;
        Ok(ended(0, line))
    }
}

/// The end by the trees of the bodies, which are printed as one. The only error is out of memory.
pub(crate) fn by_trees(alloc: Global, replies: &[Got]) -> Result<Step, AllocError>
    ensures step { IfOk result (λ step. step ≡ tree_told (one_tree replies.now)) }
    ensures sound { IfOk result IsSound }
{
    match one_tree(alloc, replies)? {
        Some(members) => tree_read(alloc, &Value::Object(members)),
        None => bad_reply(alloc),
    }
}

fn settings_told(alloc: Global, body: &[u8]) -> Result<Step, AllocError>
    ensures step { IfOk result (λ step. step ≡ settings_told body.now (tree_in body.now)) }
    ensures sound { IfOk result IsSound }
{
    match tree_in(alloc, body)? {
        Some(_) => Ok(ended(0, settings_line(alloc, body)?)),
        None => bad_reply(alloc),
    }
}

/// The end by a reply that has settings, or by a refusal. The only error is out of memory.
pub(crate) fn settings_by(alloc: Global, reply: &Got) -> Result<Step, AllocError>
    ensures step { IfOk result (λ step. step ≡ settings_by reply.now) }
    ensures sound { IfOk result IsSound }
{
    if is_success(reply) {
        settings_told(alloc, reply.body.as_slice())
    } else {
        refused_by(alloc, &[], reply)
    }
}
