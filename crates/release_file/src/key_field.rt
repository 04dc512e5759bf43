//! Fields that are keys of settings.
ghost use Rattle.std.specs.Prelude.{◌≡◌, ℕ, List, IfOk, MatchOption};
ghost use Rattle.toml.specs.View.{table_view};
ghost use Rattle.release_file.specs.Fields.{HasKey, HasKeys, SpellsSetting, SpellSettings};

use crate::field::{text_field, texts_field};
use key_names::{Key, KeyFault, Text};
use settings_tree::is_setting;
use std::alloc::{AllocError, Global};
use toml::Table;

// The key that the text spells, None exactly where it spells none that begins with `settings` and has so many segments.
fn key_of(alloc: Global, text: &Text, least: usize) -> Result<Option<Key>, AllocError>
    ensures { IfOk result (λ found. MatchOption found ((key : List (List ℕ)) → SpellsSetting least text.now key → ⊥)
        (SpellsSetting least text.now)) }
{
    match Key::read(alloc, text.as_str().as_bytes()) {
        Ok(key) => {
            if is_setting(&key) && least <= key.len() {
                Ok(Some(key))
            } else {
                Ok(None)
            }
        }
        Err(error) => match error.kind {
            KeyFault::Memory => Err(AllocError),
            _ => Ok(None),
        },
    }
}

// The keys that the texts spell, None exactly where one spells none.
#[tactic(auto, using(crate::proofs::SpelledKeys::keys))]
fn keys_of(alloc: Global, texts: &[Text], least: usize) -> Result<Option<Vec<Key>>, AllocError>
    ensures { IfOk result (λ found. MatchOption found ((keys : List (List (List ℕ))) → SpellSettings least texts.now keys → ⊥)
        (λ keys. SpellSettings least texts.now keys.items)) }
{
    let mut keys = Vec::new(alloc);
    for text in texts {
        match key_of(alloc, text, least)? {
            Some(key) => keys.push(key)?,
            None => return Ok(None),
        }
    }
    Ok(Some(keys))
}

/// The key of a field: it begins with `settings` and has so many segments at least. None exactly where the field is no
/// text of such a key. The only error is out of memory.
pub fn key_field(
    alloc: Global,
    table: &Table,
    name: &str,
    least: usize,
) -> Result<Option<Key>, AllocError>
    ensures { IfOk result (λ found. MatchOption found ((key : List (List ℕ)) → HasKey least name.now (table_view table.now) key → ⊥)
        (HasKey least name.now (table_view table.now))) }
{
    match text_field(table, name)? {
        Some(text) => key_of(alloc, &text, least),
        None => Ok(None),
    }
}

/// The keys of a field, each as that of `key_field`. None exactly where the field is no list of texts of such keys. The
/// only error is out of memory.
pub fn keys_field(
    alloc: Global,
    table: &Table,
    name: &str,
    least: usize,
) -> Result<Option<Vec<Key>>, AllocError>
    ensures { IfOk result (λ found. MatchOption found ((keys : List (List (List ℕ))) → HasKeys least name.now (table_view table.now) keys → ⊥)
        (λ keys. HasKeys least name.now (table_view table.now) keys.items)) }
{
    match texts_field(alloc, table, name)? {
        Some(texts) => keys_of(alloc, &texts, least),
        None => Ok(None),
    }
}
