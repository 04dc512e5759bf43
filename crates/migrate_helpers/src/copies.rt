//! Copies of the lists that migrations name.
ghost use Rattle.std.specs.Prelude.{◌≡◌, IfOk};

use key_names::Key;
use std::alloc::{AllocError, Global};

pub(crate) fn copied_pairs(
    alloc: Global,
    pairs: &[(Key, Key)],
) -> Result<Vec<(Key, Key)>, AllocError>
    ensures { IfOk result (λ copies. copies.items ≡ pairs.now) }
{
    let mut copies = Vec::new(alloc);
    for (from, to) in pairs {
        copies.push((from.copy()?, to.copy()?))?;
    }
    Ok(copies)
}
