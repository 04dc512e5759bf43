//! The generator that an entry is.
ghost use Rattle.std.specs.Prelude.{◌≡◌, ℕ, List, IfOk, IfErr, MatchOption};
ghost use Rattle.std.specs.List.{list_any};
ghost use Rattle.std.specs.Ordering.{eq_by_cmp};
ghost use Rattle.key_names.specs.Order.{key_cmp};
ghost use Rattle.outside.specs.Spawner.{texts};
ghost use Rattle.toml.specs.View.{view};
ghost use Rattle.setting_generators.specs.Generators.{seen};
ghost use Rattle.setting_generators.specs.Reading.{IsGenerator, SpellsNew, command_of};
ghost use Rattle.setting_generators.specs.Refused.{RefusesEntry};

use crate::{Generator, GeneratorsKind};
use key_names::{Key, KeyFault};
use settings_tree::is_setting;
use std::alloc::{AllocError, Global};
use std::collections::BTreeSet;
use toml::Value;
use toml_values::{LocatedFault, refused, text_of, words_in};
use typed_settings::Types;

// Whether the key is one of these.
fn has_key(keys: &BTreeSet<Key>, key: &Key) -> bool
    ensures { result ≡ list_any (eq_by_cmp key_cmp key.now) keys.now.keys }
{
    keys.contains(key)
}

// The key that the name spells, None exactly where it spells none that begins with `settings` and is new.
fn new_key(alloc: Global, before: &BTreeSet<Key>, name: &str) -> Result<Option<Key>, AllocError>
    ensures { IfOk result (λ found. MatchOption found ((key : List (List ℕ)) → SpellsNew before.now.keys name.now key → ⊥)
        (SpellsNew before.now.keys name.now)) }
{
    match Key::read(alloc, name.as_bytes()) {
        Ok(key) => {
            if is_setting(&key) && !has_key(before, &key) {
                Ok(Some(key))
            } else {
                Ok(None)
            }
        }
        Err(error) => match error.kind {
            KeyFault::Memory => Err(AllocError),
            _ => Ok(None),
        },
    }
}

// The words of the value, none where it is no text.
fn command_of(alloc: Global, value: &Value) -> Result<Vec<String>, AllocError>
    ensures { IfOk result (λ words. texts words.items ≡ command_of (view value.now)) }
{
    match text_of(value)? {
        Some(text) => words_in(alloc, text.as_str()),
        None => Ok(Vec::new(alloc)),
    }
}

/// The generator that the entry of this name is, after entries of these keys.
pub fn generator_of(
    alloc: Global,
    types: &Types,
    before: &BTreeSet<Key>,
    name: &str,
    value: &Value,
) -> Result<Generator, LocatedFault<GeneratorsKind>>
    ensures ok { IfOk result (λ generator. IsGenerator types.now before.now.keys (name.now, view value.now) (seen generator)) }
    ensures refused { IfErr result (RefusesEntry types.now before.now.keys (name.now, view value.now)) }
{
    let Some(key) = new_key(alloc, before, name)? else {
        return Err(refused(alloc, GeneratorsKind::BadKey, name));
    };
    if !types.matches(&key) {
        return Err(refused(alloc, GeneratorsKind::IllTyped, name));
    }
    let words = command_of(alloc, value)?;
    if words.is_empty() {
        return Err(refused(alloc, GeneratorsKind::BadCommand, name));
    }
    Ok(Generator { key, words })
}
