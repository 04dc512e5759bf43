//! Keys of one segment.
ghost use Rattle.std.specs.Prelude.{◌≡◌, [], ◌∷◌, IfOk};

use key_names::Key;
use std::alloc::{AllocError, Global};

/// The key of this one segment, which is a name of the manifest's own. The only error is out of memory.
pub(crate) fn key_of(alloc: Global, segment: &str) -> Result<Key, AllocError>
    ensures { IfOk result (λ key. key ≡ segment.now ∷ []) }
{
    match Key::of_segment(alloc, segment.as_bytes()) {
        Ok(key) => Ok(key),
        Err(_) => Err(AllocError),
    }
}
