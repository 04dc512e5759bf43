//! What counts of several pairs of a key: the last one.
ghost use Rattle.std.specs.Prelude.{◌≡◌, IfOk};
ghost use Rattle.std.specs.FinMap.{entries};
ghost use Rattle.pending_tx.specs.Transactions.{last_of};

use key_names::Key;
use settings_maps::KeyMap;
use settings_tree::Pending;
use std::alloc::{AllocError, Global};

/// What the last pair of each key gives it. It takes a logarithmic step for each pair. The only error
/// is out of memory.
pub fn last_of(alloc: Global, pairs: &[(Key, Pending)]) -> Result<KeyMap<Pending>, AllocError>
    ensures { IfOk result (λ last. last ≡ last_of pairs.now) }
{
    let mut last = KeyMap::new(alloc);
    for (key, value) in pairs {
        last.put(key.copy()?, value.copy()?)?;
    }
    Ok(last)
}

/// Copies of the entries, rising by key. It takes a constant step for each. The only error is out of
/// memory.
pub(crate) fn pairs_of(
    alloc: Global,
    map: &KeyMap<Pending>,
) -> Result<Vec<(Key, Pending)>, AllocError>
    ensures { IfOk result (λ pairs. pairs.items ≡ entries map.now) }
{
    let mut pairs = Vec::new(alloc);
    for (key, value) in map.iter() {
        pairs.push((key.copy()?, value.copy()?))?;
    }
    Ok(pairs)
}

/// Copies of the last pair of each key, rising by key. It takes a logarithmic step for each pair. The
/// only error is out of memory.
pub(crate) fn last_pairs(
    alloc: Global,
    pairs: &[(Key, Pending)],
) -> Result<Vec<(Key, Pending)>, AllocError>
    ensures { IfOk result (λ counted. counted.items ≡ entries (last_of pairs.now)) }
{
    let last = last_of(alloc, pairs)?;
    pairs_of(alloc, &last)
}
