//! The change that a word says.
ghost use Rattle.std.specs.Prelude.{◌≡◌, ℕ, List, IfOk, Err};
ghost use Rattle.std.specs.Str.{IsUtf8};
ghost use Rattle.json_trees.specs.declared.pending.Pending.TheVariants.{Put};
ghost use Rattle.json_trees.specs.declared.scalar.Scalar.TheVariants as scalar;
ghost use Rattle.command_words.specs.Values.{SpellsSetting};
ghost use Rattle.command_words.specs.declared.words_error.WordsError.TheVariants.{Usage};
ghost use Rattle.change_words.specs.Said.{Change, SpellsValue, SpellsText, SpellsRemoval, spells};

use crate::form::Form;
use command_words::{WordsError, pair_in, setting_in, split};
use json_trees::{Pending, Scalar};
use key_names::{Key, Text};
use std::alloc::Global;

// KEY=JSON.
fn value_in(alloc: Global, word: &str) -> Result<(Key, Pending), WordsError>
    ensures ok { IfOk result (SpellsValue word.now) }
    ensures usage { result ≡ Err Usage → (change : Change) → ¬ SpellsValue word.now change }
{
    match pair_in(alloc, word) {
        Ok((key, value)) => Ok((key, Pending::Put(value))),
        Err(e) => Err(e),
    }
}

// The text that the bytes are.
fn text_of(alloc: Global, bytes: &[u8]) -> Result<Text, WordsError>
    ensures ok { IfOk result (λ text. (text ≡ bytes.now) × IsUtf8 bytes.now) }
    ensures usage { result ≡ Err Usage → ¬ IsUtf8 bytes.now }
{
    match std::str::from_utf8(bytes) {
        Ok(text) => match Text::from_str(alloc, text) {
            Ok(text) => Ok(text),
            Err(_) => Err(WordsError::Memory),
        },
        Err(_) => Err(WordsError::Usage),
    }
}

// The setting and the text on both sides of the first `=`.
fn parts_in(alloc: Global, key: &[u8], text: &[u8]) -> Result<(Key, Pending), WordsError>
    ensures ok { IfOk result (λ change. SpellsSetting key.now change.0 × IsUtf8 text.now × (change.1 ≡ Put (scalar.Text text.now))) }
    ensures usage { result ≡ Err Usage → (setting : List (List ℕ)) → SpellsSetting key.now setting → ¬ IsUtf8 text.now }
{
    match setting_in(alloc, key) {
        Ok(key) => match text_of(alloc, text) {
            Ok(text) => Ok((key, Pending::Put(Scalar::Text(text)))),
            Err(e) => Err(e),
        },
        Err(e) => Err(e),
    }
}

// KEY=TEXT.
fn text_in(alloc: Global, word: &str) -> Result<(Key, Pending), WordsError>
    ensures ok { IfOk result (SpellsText word.now) }
    ensures usage { result ≡ Err Usage → (change : Change) → ¬ SpellsText word.now change }
{
    match split(word.as_bytes()) {
        Some((key, text)) => parts_in(alloc, key, text),
        None => Err(WordsError::Usage),
    }
}

// KEY.
fn removal_in(alloc: Global, word: &str) -> Result<(Key, Pending), WordsError>
    ensures ok { IfOk result (SpellsRemoval word.now) }
    ensures usage { result ≡ Err Usage → (change : Change) → ¬ SpellsRemoval word.now change }
{
    match setting_in(alloc, word.as_bytes()) {
        Ok(key) => Ok((key, Pending::Gone)),
        Err(e) => Err(e),
    }
}

/// The change that the word says in this form. `Usage` exactly where it says none.
pub(crate) fn change_in(alloc: Global, form: Form, word: &str) -> Result<(Key, Pending), WordsError>
    ensures ok { IfOk result (spells form word.now) }
    ensures usage { result ≡ Err Usage → (change : Change) → ¬ spells form word.now change }
{
    match form {
        Form::Values => value_in(alloc, word),
        Form::Texts => text_in(alloc, word),
        Form::Removals => removal_in(alloc, word),
    }
}
