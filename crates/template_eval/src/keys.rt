//! Keys that are made of others.
ghost use Rattle.std.specs.Prelude.{◌≡◌, ◌++◌, ◌∷◌, [], IfOk, IsTrue, Some, None, if◌then◌else◌};
ghost use Rattle.key_names.specs.Key.{is_key};
ghost use Rattle.key_names.specs.Segment.{is_segment};
ghost use Rattle.template_eval.specs.Place.{last_name};

use key_names::{Key, KeyFault};
use std::alloc::AllocError;

fn last_segment(key: &Key) -> &[u8]
    ensures bytes { result.now ≡ last_name key.now }
    ensures valid { IsTrue (is_segment result.now) }
{
    key.segment(key.len() - 1)
}

/// The last segment of the key, which is ASCII.
pub fn last_name(key: &Key) -> &str
    ensures { result.now ≡ last_name key.now }
{
    let name = std::str::from_utf8(last_segment(key));
    name.unwrap()
}

// The key with one segment more, None exactly where that is no key.
fn longer(key: &Key, name: &[u8]) -> Result<Option<Key>, AllocError>
    ensures { IfOk result (λ o. o ≡ (if is_key (key.now ++ name.now ∷ [])
        then Some (key.now ++ name.now ∷ []) else None)) }
{
    match key.child(name) {
        Ok(longer) => Ok(Some(longer)),
        Err(error) => match error.kind {
            KeyFault::Memory => Err(AllocError),
            _ => Ok(None),
        },
    }
}

/// The key with the segments of another after its own, None exactly where that is no key, beyond
/// the limits. The only error is out of memory.
pub fn joined(key: &Key, names: &Key) -> Result<Option<Key>, AllocError>
    ensures { IfOk result (λ o. o ≡ (if is_key (key.now ++ names.now)
        then Some (key.now ++ names.now) else None)) }
{
    let mut joined = key.copy()?;
    for index in 0..names.len() {
        match longer(&joined, names.segment(index))? {
            Some(key) => joined = key,
            None => return Ok(None),
        }
    }
    Ok(Some(joined))
}

/// The key with one segment more, which together are a key. The only error is out of memory.
pub fn child_key(key: &Key, name: &[u8]) -> Result<Key, AllocError>
    requires { IsTrue (is_key (key.now ++ name.now ∷ [])) }
    ensures { IfOk result (λ child. child ≡ key.now ++ name.now ∷ []) }
{
    match longer(key, name)? {
        Some(child) => Ok(child),
        None => unreachable!(),
    }
}
