//! The values at keys and below them.
ghost use Rattle.std.specs.Prelude.{◌≡◌, ◌<◌, ◌++◌, All, IfOk, IfSome, IfNone, OnOk, length};
ghost use Rattle.std.specs.Map.{keys_of};
ghost use Rattle.json_trees.specs.Apart.{AreApart};
ghost use Rattle.json_trees.specs.Nested.{NestsAs, ShareFirst};
ghost use Rattle.json_trees.specs.Scalar.{scalar_data};
ghost use Rattle.settings_tree.specs.Below.{is_below_one, values_below, HasBelow, IsFirstWithout, one_value};

use crate::{Content, Scalar};
use json_trees::nest;
use key_names::{Key, Text};
use std::alloc::{AllocError, Global};

// Whether the key begins with one of the keys.
fn is_below_one(keys: &[Key], key: &Key) -> bool
    ensures { result ≡ is_below_one keys.now key.now }
{
    keys.iter().any(|prefix| prefix.is_prefix(key))
}

// A key has a segment, as its own calls tell.
fn has_segment(key: &Key)
    ensures { 0 < length key.now }
{
    key.len();
}

// Adds the value, where its key begins with one of the keys.
fn push_value(
    pairs: &mut Vec<(Key, Scalar)>,
    keys: &[Key],
    key: &Key,
    value: &Scalar,
) -> Result<(), AllocError>
    ensures pushed { OnOk result (pairs.new.items ≡ pairs.old.items ++ one_value keys.now key.now value.now) }
    ensures long { 0 < length key.now }
{
    has_segment(key);
    if is_below_one(keys, key) {
        pairs.push((key.copy()?, value.copy()?))?;
    }
    Ok(())
}

// The values whose keys begin with one of the keys, rising by key.
fn values_below(
    alloc: Global,
    live: &Content,
    keys: &[Key],
) -> Result<Vec<(Key, Scalar)>, AllocError>
    ensures values { IfOk result (λ pairs. pairs.items ≡ values_below live.now.values keys.now) }
    ensures apart { IfOk result (λ pairs. AreApart (keys_of pairs.items)) }
    ensures shared { IfOk result (λ pairs. ShareFirst 0 (keys_of pairs.items)) }
{
    let mut pairs = Vec::new(alloc);
    let mut after = None;
    while let Some((key, value)) = live.next_value(after) {
        push_value(&mut pairs, keys, key, value)?;
        after = Some(key);
    }
    Ok(pairs)
}

/// The first of the keys at and below which there is no value, None exactly where there is some value for each of them. It takes a
/// logarithmic step for each key, and no memory.
pub fn first_without<'a>(live: &Content, keys: &'a [Key]) -> Option<&'a Key>
    ensures first { IfSome result (λ key. IsFirstWithout live.now.values keys.now key.now) }
    ensures none { IfNone result (All (HasBelow live.now.values) keys.now) }
{
    for key in keys {
        let Some(_) = live.next_below(key, None) else {
            return Some(key);
        };
    }
    None
}

/// The compact JSON text (RFC 8259) of the tree of the values whose keys begin with one of the keys, as each key itself does;
/// no values give `{}`. The only error is out of memory. It takes one pass over all values, with a step for each key.
pub fn tree_below(alloc: Global, live: &Content, keys: &[Key]) -> Result<Text, AllocError>
    ensures { IfOk result (NestsAs scalar_data 0 (values_below live.now.values keys.now)) }
{
    let pairs = values_below(alloc, live, keys)?;
    nest(alloc, &pairs, 0)
}
