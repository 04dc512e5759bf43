//! Where an entry is.
ghost use Rattle.std.specs.Prelude.{◌≡◌, ◌<◌, ◌++◌, length, ◌∷◌, [], false, IfOk, IfErr, IsTrue, MatchOption, string_bytes};
ghost use Rattle.key_names.specs.Key.{is_key};
ghost use Rattle.settings_tree.specs.Content.{settings_key};
ghost use Rattle.user_data.specs.Pairs.{Pairs, printed_path, where_key};
ghost use Rattle.user_data.specs.Refused.{Refuses};

use crate::UserDataKind;
use key_names::{Key, KeyFault, Text};
use std::alloc::{AllocError, Global};
use toml_values::LocatedFault;

/// Where an entry is: the key that the names down to it are, and these names joined by `/`.
#[derive(Debug, Drop)]
pub struct Place {
    pub key: Key,
    pub at: Text,
    pub ghost some: { 0 < length key },
    pub ghost printed: { at ≡ printed_path key },
}

impl Place {
    /// The place of the table `settings`. The only error is out of memory.
    pub fn settings(alloc: Global) -> Result<Place, AllocError>
        ensures { IfOk result (λ place. place.key ≡ settings_key) }
    {
        match Key::of_segment(alloc, b"settings") {
            Ok(key) => {
                let at = Text::from_str(alloc, "settings")?;
                Ok(Place { key, at })
            }
            Err(_) => Err(AllocError),
        }
    }

    /// The place of the entry of this name below it. `BadKey` is answered exactly where the names are together no key.
    pub fn below(&self, alloc: Global, name: &str) -> Result<Place, LocatedFault<UserDataKind>>
        ensures ok { IfOk result (λ place. place.key ≡ self.now.key ++ name.now ∷ []) }
        ensures valid { IfOk result (λ place. IsTrue (is_key place.key)) }
        ensures refused { (pairs : Pairs) → IfErr result (Refuses (where_key (self.now.key ++ name.now ∷ []) pairs)) }
    {
        let at = Text::of(joined(alloc, self.at.as_str(), name)?);
        match child_of(&self.key, name)? {
            Some(key) => Ok(Place { key, at }),
            None => Err(LocatedFault::Fault(UserDataKind::BadKey, at)),
        }
    }
}

// The names with one more.
fn joined(alloc: Global, at: &str, name: &str) -> Result<String, AllocError>
    ensures { IfOk result (λ text. string_bytes text ≡ at.now ++ 47 ∷ name.now) }
{
    let mut text = String::from_str(alloc, at)?;
    text.push('/')?;
    text.push_str(name)?;
    Ok(text)
}

// The key with one segment more, None exactly where that is no key.
fn child_of(under: &Key, name: &str) -> Result<Option<Key>, AllocError>
    ensures { IfOk result (λ found. MatchOption found (is_key (under.now ++ name.now ∷ []) ≡ false)
        (λ key. (key ≡ under.now ++ name.now ∷ []) × IsTrue (is_key key))) }
{
    match under.child(name.as_bytes()) {
        Ok(key) => Ok(Some(key)),
        Err(error) => match error.kind {
            KeyFault::Memory => Err(AllocError),
            _ => Ok(None),
        },
    }
}
