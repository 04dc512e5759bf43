//! Lists of pairs as JSON trees.
ghost use Rattle.std.specs.Prelude.{◌≡◌, ◌<◌, ◌≤◌, length, take, drop, IfOk, OnOk};
ghost use Rattle.std.specs.Map.{keys_of};
ghost use Rattle.json_trees.specs.Apart.{AreApart};
ghost use Rattle.json_trees.specs.Nested.{ShareFirst, NestsAs, FlattensBack, WritesTree, WritesMember, IsNestable, IsGroup, AreLater, first_name, name_of};
ghost use Rattle.json_trees.specs.Scalar.{scalar_data};
ghost use Rattle.json_trees.specs.Tree.{scalar_leaf, pending_leaf, pending_data};

use crate::leaf::Leaf;
use crate::writing::text_of;
use crate::{Pending, Scalar};
use json::Writer;
use key_names::{Key, Text};
use std::alloc::{AllocError, Global};

/// The compact JSON text of the object that the pairs are, without the first `drop` segments of
/// their keys; no pairs give `{}`. The keys have to rise, none may be a prefix of another, each
/// has to be longer than `drop`, and all have to share their first `drop` segments. To flatten the
/// text under these segments gives the pairs again. The only error is out of memory. It takes
/// time linear in the pairs.
pub fn nest(alloc: Global, pairs: &[(Key, Scalar)], drop: usize) -> Result<Text, AllocError>
    requires apart { AreApart (keys_of pairs.now) }
    requires shared { ShareFirst drop (keys_of pairs.now) }
    ensures tree { IfOk result (NestsAs scalar_data drop pairs.now) }
    ensures flattens_back { IfOk result (FlattensBack scalar_leaf drop pairs.now) }
{
    nested(alloc, pairs, drop)
}

/// The compact JSON text of the object that the pending pairs are. It is `nest`, with `null` for a
/// removal, and `flatten_patch` gives the pairs again.
pub fn nest_pending(
    alloc: Global,
    pairs: &[(Key, Pending)],
    drop: usize,
) -> Result<Text, AllocError>
    requires apart { AreApart (keys_of pairs.now) }
    requires shared { ShareFirst drop (keys_of pairs.now) }
    ensures tree { IfOk result (NestsAs pending_data drop pairs.now) }
    ensures flattens_back { IfOk result (FlattensBack pending_leaf drop pairs.now) }
{
    nested(alloc, pairs, drop)
}

fn nested<L: Leaf>(alloc: Global, pairs: &[(Key, L)], level: usize) -> Result<Text, AllocError>
    requires apart { AreApart (keys_of pairs.now) }
    requires shared { ShareFirst level (keys_of pairs.now) }
    ensures tree { IfOk result (NestsAs L.written level pairs.now) }
    ensures flattens_back { IfOk result (FlattensBack L.leaf level pairs.now) }
{
    let mut writer = Writer::new(Vec::new(alloc));
    write_members(&mut writer, pairs, level)?;
    Ok(text_of(writer))
}

// Writes the object whose members the keys name at this level.
#[cycle(nest)]
fn write_members<L: Leaf>(
    writer: &mut Writer,
    pairs: &[(Key, L)],
    level: usize,
) -> Result<(), AllocError>
    requires { IsNestable level (keys_of pairs.now) }
    ensures tree { OnOk result
        (WritesTree L.leaf L.written level pairs.now writer.old.tokens writer.new.tokens) }
    ensures before { writer.new.before ≡ writer.old.before }
{
    writer.begin_object()?;
    let mut rest = pairs;
    while !rest.is_empty() {
        let (group, others) = rest.split_at(group_len(rest, level));
        write_member(writer, group, level)?;
        rest = others;
    }
    writer.end_object()
}

// Writes the member that the keys of a group name at this level.
#[cycle(nest)]
fn write_member<L: Leaf>(
    writer: &mut Writer,
    group: &[(Key, L)],
    level: usize,
) -> Result<(), AllocError>
    requires some { 0 < length group.now }
    requires nestable { IsNestable level (keys_of group.now) }
    requires same { IsGroup level (keys_of group.now) }
    ensures branch { OnOk result
        (WritesMember L.leaf L.written level group.now writer.old.tokens writer.new.tokens) }
    ensures before { writer.new.before ≡ writer.old.before }
{
    let (first, leaf) = &group[0];
    writer.key(name_at(first, level))?;
    if first.len() == level + 1 {
        leaf.write(writer)
    } else {
        write_members(writer, group, level + 1)
    }
}

// How many of the first keys have the same name at this level.
fn group_len<L: Leaf>(pairs: &[(Key, L)], level: usize) -> usize
    requires some { 0 < length pairs.now }
    requires nestable { IsNestable level (keys_of pairs.now) }
    ensures some { 0 < result }
    ensures within { result ≤ length pairs.now }
    ensures same { IsGroup level (keys_of (take result pairs.now)) }
    ensures later { AreLater level (first_name level (keys_of pairs.now))
        (keys_of (drop result pairs.now)) }
{
    let name = pairs[0].0.segment(level);
    for (index, (key, _)) in pairs.iter().enumerate() {
        if key.segment(level) != name {
            return index;
        }
    }
    pairs.len()
}

// The name of a key at a level.
fn name_at(key: &Key, level: usize) -> &str
    requires { level < length key.now }
    ensures { result.now ≡ name_of level key.now }
{
    let name = std::str::from_utf8(key.segment(level));
    name.unwrap()
}
