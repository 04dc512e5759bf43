//! JSON trees as lists of pairs.
ghost use Rattle.std.specs.Prelude.{◌≡◌, ◌≢◌, Ok, Err, OnOk, IfOk, IfErr, All, length, take};
ghost use Rattle.serde_json.specs.View.{view, members_view};
ghost use Rattle.std.specs.Map.{keys_of};
ghost use Rattle.json_trees.specs.Apart.{AreApart};
ghost use Rattle.json_trees.specs.Nested.{ShareFirst};
ghost use Rattle.json_trees.specs.Tree.{path_of, scalar_leaf, pending_leaf, flattened, tree_pairs, members_pairs, value_pairs, Appends};
ghost use Rattle.json_trees.specs.declared.tree_error.TreeError.TheVariants.{Memory};

use crate::child::child_of;
use crate::json_value::json_of;
use crate::leaf::Leaf;
use crate::{Pending, Scalar, TreeError};
use key_names::Key;
use serde_json::{Map, Value};
use std::alloc::Global;

/// The pairs of a JSON object that is below a key, or below none: each value in it that is no
/// object, with the key that the names down to it spell, rising by key. `NotJson` is answered
/// where `serde_json` doesn't read the text, and `NotObject` where the whole value is no object.
/// Then the first bad entry in order of names decides: `BadKey` where the names down to it are
/// together no key, an empty object's too, and else `BadValue` where it is neither an object nor a
/// scalar. It takes time linear in the text, up to a logarithm.
pub fn flatten(
    alloc: Global,
    under: Option<&Key>,
    json: &[u8],
) -> Result<Vec<(Key, Scalar)>, TreeError>
    ensures ok { IfOk result
        (λ pairs. flattened scalar_leaf (path_of under.entry) json.now ≡ Ok pairs.items) }
    ensures apart { IfOk result (λ pairs. AreApart (keys_of pairs.items)) }
    ensures shared { IfOk result
        (λ pairs. ShareFirst (length (path_of under.entry)) (keys_of pairs.items)) }
    ensures below { IfOk result (λ pairs. All
        (λ key. take (length (path_of under.entry)) key ≡ path_of under.entry) (keys_of pairs.items)) }
    ensures err { IfErr result
        (λ e. e ≢ Memory → flattened scalar_leaf (path_of under.entry) json.now ≡ Err e) }
{
    pairs_of(alloc, under, json)
}

/// The pairs of a patch that is below a key. It is `flatten`, but that `null` as an entry is a
/// removal.
pub fn flatten_patch(
    alloc: Global,
    under: &Key,
    json: &[u8],
) -> Result<Vec<(Key, Pending)>, TreeError>
    ensures ok { IfOk result (λ pairs. flattened pending_leaf under.now json.now ≡ Ok pairs.items) }
    ensures apart { IfOk result (λ pairs. AreApart (keys_of pairs.items)) }
    ensures shared { IfOk result (λ pairs. ShareFirst (length under.now) (keys_of pairs.items)) }
    ensures below { IfOk result (λ pairs. All
        (λ key. take (length under.now) key ≡ under.now) (keys_of pairs.items)) }
    ensures err { IfErr result
        (λ e. e ≢ Memory → flattened pending_leaf under.now json.now ≡ Err e) }
{
    pairs_of(alloc, Some(under), json)
}

fn pairs_of<L: Leaf + Drop>(
    alloc: Global,
    under: Option<&Key>,
    json: &[u8],
) -> Result<Vec<(Key, L)>, TreeError>
    ensures ok { IfOk result
        (λ pairs. flattened L.leaf (path_of under.entry) json.now ≡ Ok pairs.items) }
    ensures apart { IfOk result (λ pairs. AreApart (keys_of pairs.items)) }
    ensures shared { IfOk result
        (λ pairs. ShareFirst (length (path_of under.entry)) (keys_of pairs.items)) }
    ensures below { IfOk result (λ pairs. All
        (λ key. take (length (path_of under.entry)) key ≡ path_of under.entry) (keys_of pairs.items)) }
    ensures err { IfErr result
        (λ e. e ≢ Memory → flattened L.leaf (path_of under.entry) json.now ≡ Err e) }
{
    match json_of(alloc, json)? {
        Some(value) => object_pairs(alloc, under, value),
        None => Err(TreeError::NotJson),
    }
}

fn object_pairs<L: Leaf + Drop>(
    alloc: Global,
    under: Option<&Key>,
    value: Value,
) -> Result<Vec<(Key, L)>, TreeError>
    ensures ok { IfOk result
        (λ pairs. tree_pairs L.leaf (path_of under.entry) (view value) ≡ Ok pairs.items) }
    ensures err { IfErr result
        (λ e. e ≢ Memory → tree_pairs L.leaf (path_of under.entry) (view value) ≡ Err e) }
{
    match value {
        Value::Object(members) => {
            let mut pairs = Vec::new(alloc);
            push_members(alloc, under, members, &mut pairs)?;
            Ok(pairs)
        }
        _ => Err(TreeError::NotObject),
    }
}

// Appends the pairs of the members that are below a key, or below none.
#[cycle(flatten)]
fn push_members<L: Leaf + Drop>(
    alloc: Global,
    under: Option<&Key>,
    members: Map<String, Value>,
    pairs: &mut Vec<(Key, L)>,
) -> Result<(), TreeError>
    ensures ok { OnOk result
        (Appends (members_pairs L.leaf (path_of under.entry) (members_view members.entries))
        pairs.old.items pairs.new.items) }
    ensures err { IfErr result
        (λ e. e ≢ Memory → members_pairs L.leaf (path_of under.entry) (members_view members.entries)
        ≡ Err e) }
{
    for (name, value) in members {
        let key = child_of(alloc, under, name.as_str())?;
        push_value(alloc, key, value, pairs)?;
    }
    Ok(())
}

// Appends the pairs of a value that is at a key.
#[cycle(flatten)]
fn push_value<L: Leaf + Drop>(
    alloc: Global,
    key: Key,
    value: Value,
    pairs: &mut Vec<(Key, L)>,
) -> Result<(), TreeError>
    ensures ok { OnOk result
        (Appends (value_pairs L.leaf key (view value)) pairs.old.items pairs.new.items) }
    ensures err { IfErr result (λ e. e ≢ Memory → value_pairs L.leaf key (view value) ≡ Err e) }
{
    match value {
        Value::Object(members) => push_members(alloc, Some(&key), members, pairs),
        value => {
            let leaf = L::of_value(alloc, value)?;
            pairs.push((key, leaf))?;
            Ok(())
        }
    }
}
