//! Paths, read from words.
ghost use Rattle.std.specs.Prelude.{◌≡◌, Some, IfOk};
ghost use Rattle.std.specs.Option.{option_map};
ghost use Rattle.template_reader.specs.Words.{key_of};
ghost use Rattle.template_reader.specs.Says.{path_of};
ghost use Rattle.template_reader.specs.declared.walk.Walk.TheVariants.{Root, This};

use crate::Walk;
use crate::scan::tail;
use crate::words::is_same;
use key_names::{Key, KeyFault};
use std::alloc::{AllocError, Global};

// The key that the word spells, if it spells one.
fn read_key(alloc: Global, word: &[u8]) -> Result<Option<Key>, AllocError>
    ensures { IfOk result (λ o. o ≡ key_of word.now) }
{
    match Key::read(alloc, word) {
        Ok(key) => Ok(Some(key)),
        Err(error) => match error.kind {
            KeyFault::Memory => Err(AllocError),
            _ => Ok(None),
        },
    }
}

fn read_this(alloc: Global, word: &[u8]) -> Result<Option<Walk>, AllocError>
    ensures { IfOk result (λ o. o ≡ option_map (λ key. This (Some key)) (key_of word.now)) }
{
    match read_key(alloc, word)? {
        Some(key) => Ok(Some(Walk::This(Some(key)))),
        None => Ok(None),
    }
}

fn read_root(alloc: Global, word: &[u8]) -> Result<Option<Walk>, AllocError>
    ensures { IfOk result (λ o. o ≡ option_map Root (key_of word.now)) }
{
    match read_key(alloc, word)? {
        Some(key) => Ok(Some(Walk::Root(key))),
        None => Ok(None),
    }
}

/// The path that the word is, if it is one. The only error is out of memory.
#[tactic(auto, unfolding(crate::specs::Says::path_of))]
pub fn read_path(alloc: Global, word: &[u8]) -> Result<Option<Walk>, AllocError>
    ensures { IfOk result (λ o. o ≡ path_of word.now) }
{
    if is_same(word, b"else") {
        Ok(None)
    } else if is_same(word, b"@key") {
        Ok(Some(Walk::AtKey))
    } else if is_same(word, b"@index") {
        Ok(Some(Walk::AtIndex))
    } else if is_same(word, b"this") {
        Ok(Some(Walk::This(None)))
    } else if word.starts_with(b"this.") {
        read_this(alloc, tail(word, 5))
    } else {
        read_root(alloc, word)
    }
}
