//! The children of a key: steps through the values below it, from child to child.
ghost use Rattle.std.specs.Prelude.{◌≡◌, ◌↔◌, IfSome, IfNone, Some, IsTrue, slice_get};
ghost use Rattle.std.specs.Option.{option_copied};
ghost use Rattle.std.specs.FinMap.{FinMap};
ghost use Rattle.key_names.specs.Order.{key_cmp};
ghost use Rattle.key_names.specs.Key.{is_prefix};
ghost use Rattle.json_trees.specs.declared.scalar.Scalar as scalar;
ghost use Rattle.settings_maps.specs.Maps.{HasNoneAfter};
ghost use Rattle.settings_tree.specs.Walks.{entries_past, IsLeastBelow, HasNoneBelow};
ghost use Rattle.template_eval.specs.Children.{name_below, names_below};
ghost use Rattle.template_eval.specs.Kept.{IsAhead};
ghost use Rattle.template_eval.specs.Place.{Path};
ghost use Rattle.template_eval.specs.Steps.{IsNextChild};

use key_names::Key;
use settings_tree::{LiveView, Scalar};
use std::collections::btree_map::Range;

/// The segment at the index, if the key has so many. It takes no memory.
pub fn segment_at(key: &Key, index: usize) -> Option<&[u8]>
    ensures { option_copied result ≡ slice_get key.now index }
{
    if index < key.len() {
        Some(key.segment(index))
    } else {
        None
    }
}

// Whether two keys have the same segment at the index, or both none.
fn is_same_name(a: &Key, b: &Key, index: usize) -> bool
    ensures { IsTrue result ↔ (slice_get a.now index ≡ slice_get b.now index) }
{
    segment_at(a, index) == segment_at(b, index)
}

// The next of the entries ahead, where its key begins with the parent.
fn next_ahead<'a>(parent: &Key, ahead: &mut Range<'a, Key, Scalar>) -> Option<(&'a Key, &'a Scalar)>
    ensures least { (values : FinMap key_cmp scalar.Scalar) (last : Path) → ahead.old ≡ entries_past values (Some last)
        → IfSome result (λ e. IsLeastBelow values parent.now (Some last) e.0.now e.1.now) }
    ensures none { (values : FinMap key_cmp scalar.Scalar) (last : Path) → ahead.old ≡ entries_past values (Some last)
        → IsTrue (is_prefix parent.now last) → IfNone result (HasNoneBelow values parent.now (Some last)) }
    ensures ahead { (values : FinMap key_cmp scalar.Scalar) (last : Path) → ahead.old ≡ entries_past values (Some last)
        → IfSome result (λ e. ahead.new ≡ entries_past values (Some e.0.now)) }
{
    let (key, value) = ahead.next()?;
    if parent.is_prefix(key) {
        Some((key, value))
    } else {
        None
    }
}

// The next value below the parent that is past `last`: the next one ahead, or else looked up.
fn next_below<'a>(
    content: &'a LiveView<'_>,
    parent: &Key,
    last: &'a Key,
    ahead: &mut Option<Range<'a, Key, Scalar>>,
) -> Option<(&'a Key, &'a Scalar)>
    requires begins { IsTrue (is_prefix parent.now last.now) }
    requires ahead { IsAhead content.now last.now ahead.old }
    ensures least { IfSome result (λ e. IsLeastBelow content.now.values parent.now (Some last.now) e.0.now e.1.now) }
    ensures none { IfNone result (HasNoneBelow content.now.values parent.now (Some last.now)) }
    ensures ahead { IfSome result (λ e. IsAhead content.now e.0.now ahead.new) }
{
    match ahead {
        Some(ahead) => next_ahead(parent, ahead),
        None => content.next_below(parent, Some(last)),
    }
}

/// The first key with a value that begins with the parent, is past `after`, and has another name
/// than `after` directly below the parent, and that value; None exactly where there is none. `after`
/// is the parent itself or begins with it, and what is ahead is past it. It takes a step for each
/// value that it passes, a constant one where what is ahead is kept and else a logarithmic one, and
/// no memory.
pub fn next_child<'a>(
    content: &'a LiveView<'_>,
    parent: &Key,
    after: &'a Key,
    ahead: &mut Option<Range<'a, Key, Scalar>>,
) -> Option<(&'a Key, &'a Scalar)>
    requires begins { IsTrue (is_prefix parent.now after.now) }
    requires ahead { IsAhead content.now after.now ahead.old }
    ensures next { IfSome result
        (λ e. IsNextChild content.now.values parent.now after.now e.0.now e.1.now) }
    ensures none { IfNone result
        (HasNoneAfter (names_below content.now.values parent.now)
        (name_below parent.now after.now)) }
    ensures ahead { IfSome result (λ e. IsAhead content.now e.0.now ahead.new) }
{
    let mut last = after;
    while let Some((key, scalar)) = next_below(content, parent, last, ahead) {
        if !is_same_name(after, key, parent.len()) {
            return Some((key, scalar));
        }
        last = key;
    }
    None
}
