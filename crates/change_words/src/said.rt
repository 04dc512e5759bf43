//! Words that say changes.
ghost use Rattle.std.specs.Prelude.{◌≡◌, List, ℕ, IfOk, Err, MatchOption};
ghost use Rattle.command_words.specs.Values.{Each};
ghost use Rattle.command_words.specs.declared.words_error.WordsError.TheVariants.{Usage};
ghost use Rattle.outside.specs.Spawner.{texts};
ghost use Rattle.change_words.specs.Said.{Change, spells, Says};

use crate::body::body_of;
use crate::change::change_in;
use crate::form::Form;
use command_words::WordsError;
use json_trees::Pending;
use key_names::{Key, Text};
use std::alloc::{AllocError, Global};

// The changes that the words say, in their order.
fn changes_in(
    alloc: Global,
    form: Form,
    words: &[String],
) -> Result<Vec<(Key, Pending)>, WordsError>
    ensures ok { IfOk result (λ changes. Each (spells form) (texts words.now) changes.items) }
    ensures usage { result ≡ Err Usage → (changes : List Change) → ¬ Each (spells form) (texts words.now) changes }
{
    let mut changes = Vec::new(alloc);
    for word in words {
        match change_in(alloc, form, word.as_str()) {
            Ok(change) => match changes.push(change) {
                Ok(()) => {}
                Err(_) => return Err(WordsError::Memory),
            },
            Err(e) => return Err(e),
        }
    }
    Ok(changes)
}

// The changes, if the words say some.
fn some_changes(
    alloc: Global,
    form: Form,
    words: &[String],
) -> Result<Option<Vec<(Key, Pending)>>, AllocError>
    ensures { IfOk result (λ o. MatchOption o
        ((changes : List Change) → ¬ Each (spells form) (texts words.now) changes)
        (λ changes. Each (spells form) (texts words.now) changes.items)) }
{
    match changes_in(alloc, form, words) {
        Ok(changes) => Ok(Some(changes)),
        Err(WordsError::Usage) => Ok(None),
        Err(WordsError::Memory) => Err(AllocError),
    }
}

/// The body of a request that asks for the changes which these words say: the compact JSON of their tree below
/// `settings`, with `null` for a removal. The only error is out of memory.
///
/// `None` exactly where there is no word, a word says no change, or a key is `settings` itself, is there twice, or is
/// a prefix of another.
pub fn body_in(alloc: Global, form: Form, words: &[String]) -> Result<Option<Text>, AllocError>
    ensures { IfOk result (λ o. MatchOption o
        ((body : List ℕ) → ¬ Says form (texts words.now) body)
        (Says form (texts words.now))) }
{
    if words.is_empty() {
        return Ok(None);
    }
    match some_changes(alloc, form, words)? {
        Some(changes) => body_of(alloc, changes),
        None => Ok(None),
    }
}
