//! Copies of live values and of names of the operating system.
ghost use Rattle.std.specs.Prelude.{◌≡◌, [], ◌∷◌, IfOk, map};
ghost use Rattle.key_names.specs.Key.{is_prefix};
ghost use Rattle.settings_tree.specs.Walks.{entries_below};
ghost use Rattle.settings_machine.specs.Answers.{settings_where};

use key_names::{Key, Text};
use settings_tree::{Content, OsName, Scalar, is_setting};
use std::alloc::{AllocError, Global};

/// The live values whose keys begin with this segment, rising by key. The only error is out of memory. It takes a
/// logarithmic step for each.
pub(crate) fn values_of(
    alloc: Global,
    live: &Content,
    first: &[u8],
) -> Result<Vec<(Key, Scalar)>, AllocError>
    ensures { IfOk result (λ pairs. pairs.items ≡ entries_below live.now.values (first.now ∷ [])) }
{
    match Key::of_segment(alloc, first) {
        Ok(key) => live.below(&key),
        Err(_) => Err(AllocError),
    }
}

/// The live settings whose keys begin with this one, rising by key. The only error is out of memory. It takes a
/// logarithmic step for each.
pub(crate) fn settings_below(
    alloc: Global,
    live: &Content,
    prefix: &Key,
) -> Result<Vec<(Key, Scalar)>, AllocError>
    ensures { IfOk result (λ pairs. pairs.items ≡ settings_where (is_prefix prefix.now) live.now.values) }
{
    prefix.len();
    if !is_setting(prefix) {
        return Ok(Vec::new(alloc));
    }
    live.below(prefix)
}

/// The texts by name. The only error is out of memory.
pub(crate) fn texts_of(alloc: Global, names: &[OsName]) -> Result<Vec<(Text, Text)>, AllocError>
    ensures { IfOk result (λ texts. texts.items ≡ map (λ n. (n.name, n.text)) names.now) }
{
    let mut texts = Vec::new(alloc);
    for name in names {
        texts.push((name.name.copy()?, name.text.copy()?))?;
    }
    Ok(texts)
}
