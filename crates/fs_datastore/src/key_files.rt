//! Keys, read from the names of their files.
ghost use Rattle.std.specs.Prelude.{◌++◌, ◌∷◌, [], ℕ, List, IfOk, MatchOption};
ghost use Rattle.key_names.specs.Spelling.{SpellsKey};
ghost use Rattle.fs_datastore.specs.FoundFiles.{IsKeyOf, AreFileNames, Quotes, QuotesOne};
ghost use Rattle.fs_datastore.specs.Texts.{Finds};

use key_names::{Key, KeyFault, of_file_name};
use outside::Name;
use std::alloc::{AllocError, Global};

// Adds the segment of this file name in quotes. False where the name is that of no segment.
fn push_quoted(alloc: Global, text: &mut Vec<u8>, name: &[u8]) -> Result<bool, AllocError>
    ensures { IfOk result (QuotesOne name.now text.old.items text.new.items) }
{
    let Some(segment) = of_file_name(alloc, name)? else {
        return Ok(false);
    };
    text.push(b'"')?;
    text.extend_from_slice(segment.as_slice())?;
    text.push(b'"')?;
    Ok(true)
}

// The segments of these file names, each in quotes and with a dot after it, or None where one has none.
fn quoted_names(alloc: Global, names: &[Name]) -> Result<Option<Vec<u8>>, AllocError>
    ensures { IfOk result (λ found. MatchOption found ((segments : List (List ℕ)) → AreFileNames names.now segments → ⊥)
        (λ text. Quotes names.now text.items)) }
{
    let mut text = Vec::new(alloc);
    for name in names {
        if !push_quoted(alloc, &mut text, name.as_slice())? {
            return Ok(None);
        }
        text.push(b'.')?;
    }
    Ok(Some(text))
}

// The key that the text spells.
fn read_key(alloc: Global, text: &[u8]) -> Result<Option<Key>, AllocError>
    ensures { Finds (SpellsKey text.now) result }
{
    match Key::read(alloc, text) {
        Ok(key) => Ok(Some(key)),
        Err(fault) => match fault.kind {
            KeyFault::Memory => Err(AllocError),
            _ => Ok(None),
        },
    }
}

/// The key whose names are the first ones and the last one, or None where there is none. The only error is out of
/// memory.
pub(crate) fn key_of(alloc: Global, first: &[Name], last: &[u8]) -> Result<Option<Key>, AllocError>
    ensures { Finds (IsKeyOf (first.now ++ last.now ∷ [])) result }
{
    let Some(text) = quoted_names(alloc, first)? else {
        return Ok(None);
    };
    let mut text = text;
    if !push_quoted(alloc, &mut text, last)? {
        return Ok(None);
    }
    read_key(alloc, &text)
}
