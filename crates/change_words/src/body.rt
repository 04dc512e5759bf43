//! The body that says changes.
ghost use Rattle.std.specs.Prelude.{◌≡◌, true, false, IfOk, MatchOption};
ghost use Rattle.std.specs.List.Sorted.{IsPermutation, IsSortedBy};
ghost use Rattle.std.specs.Ordering.{is_lt};
ghost use Rattle.key_names.specs.Order.{key_cmp};
ghost use Rattle.change_words.specs.Said.{Change, is_setting, are_settings, overlaps_any, are_separate, is_tree, IsBody};

use json_trees::{Pending, nest_pending};
use key_names::{Key, Text};
use std::alloc::{AllocError, Global};

// Whether the key is below `settings`.
fn is_setting(key: &Key) -> bool
    ensures { result ≡ is_setting key.now }
{
    key.len() > 1 && key.segment(0) == b"settings".as_slice()
}

fn are_settings(changes: &[(Key, Pending)]) -> bool
    ensures { result ≡ are_settings changes.now }
{
    changes.iter().all(|(key, _)| is_setting(key))
}

// Whether the key is a prefix of one of these, or one of them of it.
fn overlaps_any(key: &Key, changes: &[(Key, Pending)]) -> bool
    ensures { result ≡ overlaps_any key.now changes.now }
{
    changes.iter().any(|(other, _)| key.overlaps(other))
}

// Whether no key is a prefix of another.
fn are_separate(changes: &[(Key, Pending)]) -> bool
    ensures { result ≡ are_separate changes.now }
{
    let mut rest = changes;
    while let [(key, _), others @ ..] = rest {
        if overlaps_any(key, others) {
            return false;
        }
        rest = others;
    }
    true
}

// The changes in the order of their keys.
fn sorted(changes: Vec<(Key, Pending)>) -> Result<Vec<(Key, Pending)>, AllocError>
    ensures moved { IfOk result (λ sorted. IsPermutation changes.items sorted.items) }
    ensures sorted { IfOk result (λ sorted. IsSortedBy (λ (a b : Change). is_lt (key_cmp a.0 b.0)) sorted.items) }
{
    let mut sorted = changes;
    sorted.sort_by(|(one, _), (other, _)| one.cmp(other))?;
    Ok(sorted)
}

// The text of the tree that the changes are.
fn nested(alloc: Global, changes: Vec<(Key, Pending)>) -> Result<Text, AllocError>
    requires { is_tree changes.items ≡ true }
    ensures { IfOk result (IsBody changes.items) }
{
    let sorted = sorted(changes)?;
    nest_pending(alloc, &sorted, 1)
}

/// The body that says these changes, if they make a tree below `settings`. The only error is out of memory.
pub(crate) fn body_of(
    alloc: Global,
    changes: Vec<(Key, Pending)>,
) -> Result<Option<Text>, AllocError>
    ensures { IfOk result (λ o. MatchOption o
        (is_tree changes.items ≡ false)
        (λ body. (is_tree changes.items ≡ true) × IsBody changes.items body)) }
{
    let apart = are_settings(&changes) && are_separate(&changes);
    if apart {
        Ok(Some(nested(alloc, changes)?))
    } else {
        Ok(None)
    }
}
