//! Keys that paths of names are.
ghost use Rattle.std.specs.Prelude.{◌≡◌, [], ◌∷◌, ◌++◌, IfOk, Some, None, if◌then◌else◌};
ghost use Rattle.key_names.specs.Key.{is_key};

use key_names::{Key, KeyFault, Text};
use std::alloc::{AllocError, Global};

// The key of this one segment, None exactly where it is no key.
fn first_key(alloc: Global, segment: &str) -> Result<Option<Key>, AllocError>
    ensures { IfOk result (λ o. o ≡ (if is_key (segment.now ∷ []) then Some (segment.now ∷ []) else None)) }
{
    match Key::of_segment(alloc, segment.as_bytes()) {
        Ok(key) => Ok(Some(key)),
        Err(error) => match error.kind {
            KeyFault::Memory => Err(AllocError),
            _ => Ok(None),
        },
    }
}

// The key with one segment more, None exactly where that is no key.
fn longer(key: &Key, name: &str) -> Result<Option<Key>, AllocError>
    ensures { IfOk result (λ o. o ≡ (if is_key (key.now ++ name.now ∷ []) then Some (key.now ++ name.now ∷ []) else None)) }
{
    match key.child(name.as_bytes()) {
        Ok(longer) => Ok(Some(longer)),
        Err(error) => match error.kind {
            KeyFault::Memory => Err(AllocError),
            _ => Ok(None),
        },
    }
}

/// The key of a first segment and of these names, None exactly where that is no key. The only error is out of memory.
pub fn key_of(alloc: Global, first: &str, names: &[Text]) -> Result<Option<Key>, AllocError>
    ensures { IfOk result (λ key. key ≡ (if is_key (first.now ∷ names.now) then Some (first.now ∷ names.now) else None)) }
{
    let Some(key) = first_key(alloc, first)? else {
        return Ok(None);
    };
    let mut key = key;
    for name in names {
        match longer(&key, name.as_str())? {
            Some(more) => key = more,
            None => return Ok(None),
        }
    }
    Ok(Some(key))
}
