//! Which place a path is that of.
ghost use Rattle.std.specs.Prelude.{◌≡◌, ◌++◌, ◌∷◌, [], codes, MatchOption, IsTrue};
ghost use Rattle.commit_journal.specs.Parts.{Lacks};
ghost use Rattle.fs_datastore.specs.FoundFiles.{IsPlaceOf};
ghost use Rattle.fs_datastore.specs.Texts.{Finds};
ghost use Rattle.settings_maps.specs.TxName.{is_meta_name};
ghost use Rattle.fs_datastore.specs.declared.place.FilePlace.{FilePlace};

use crate::key_files::key_of;
use commit_journal::cut;
use key_names::{Key, Text};
use outside::Name;
use settings_maps::{TxName, is_meta_name};
use std::alloc::{AllocError, Global};

/// A place that has a file.
#[derive(Drop)]
pub(crate) enum FilePlace {
    /// The live value of a key.
    Live(Key),
    /// Metadata of a key, by its name.
    Meta(Key, Text),
    /// What a transaction has pending for a key.
    Pending(TxName, Key),
    /// The owed keys.
    Owed,
    /// The stored image text.
    Image,
    /// The weak keys.
    Weak,
}

// The text of a metadata name, or None where the bytes are none.
#[tactic(auto, using(crate::proofs::PlaceFiles::no_text))]
fn meta_name_of(alloc: Global, bytes: &[u8]) -> Result<Option<Text>, AllocError>
    ensures { Finds (λ name. name ≡ bytes.now × IsTrue (is_meta_name bytes.now)) result }
{
    let Ok(text) = str::from_utf8(bytes) else {
        return Ok(None);
    };
    if !is_meta_name(text.as_bytes()) {
        return Ok(None);
    }
    Ok(Some(Text::from_str(alloc, text)?))
}

// The metadata of a key whose names are the first ones and a last one of these two parts, joined by a dot.
fn meta_of(
    alloc: Global,
    first: &[Name],
    last: &[u8],
    name: &[u8],
) -> Result<Option<FilePlace>, AllocError>
    requires { Lacks 46 last.now }
    ensures { Finds (IsPlaceOf (codes "live" ∷ first.now ++ (last.now ++ 46 ∷ name.now) ∷ [])) result }
{
    let Some(key) = key_of(alloc, first, last)? else {
        return Ok(None);
    };
    match meta_name_of(alloc, name)? {
        Some(name) => Ok(Some(FilePlace::Meta(key, name))),
        None => Ok(None),
    }
}

// The live value of the key with these names.
fn value_of(alloc: Global, first: &[Name], last: &[u8]) -> Result<Option<FilePlace>, AllocError>
    requires { Lacks 46 last.now }
    ensures { Finds (IsPlaceOf (codes "live" ∷ first.now ++ last.now ∷ [])) result }
{
    match key_of(alloc, first, last)? {
        Some(key) => Ok(Some(FilePlace::Live(key))),
        None => Ok(None),
    }
}

// The place below `live` with these names.
fn live_of(alloc: Global, names: &[Name]) -> Result<Option<FilePlace>, AllocError>
    ensures { Finds (IsPlaceOf (codes "live" ∷ names.now)) result }
{
    let Some((last, first)) = names.split_last() else {
        return Ok(None);
    };
    match cut(last.as_slice(), b'.') {
        Some((last, name)) => meta_of(alloc, first, last, name),
        None => value_of(alloc, first, last.as_slice()),
    }
}

// The place below `pending` with these names.
fn pending_of(alloc: Global, names: &[Name]) -> Result<Option<FilePlace>, AllocError>
    ensures { Finds (IsPlaceOf (codes "pending" ∷ names.now)) result }
{
    let Some((tx, names)) = names.split_first() else {
        return Ok(None);
    };
    let Some((last, first)) = names.split_last() else {
        return Ok(None);
    };
    let Some(tx) = TxName::read(alloc, tx.as_slice())? else {
        return Ok(None);
    };
    match key_of(alloc, first, last.as_slice())? {
        Some(key) => Ok(Some(FilePlace::Pending(tx, key))),
        None => Ok(None),
    }
}

// The place whose path is this one name.
fn top_of(name: &[u8]) -> Option<FilePlace>
    ensures { MatchOption result ((p : FilePlace) → IsPlaceOf (name.now ∷ []) p → ⊥) (IsPlaceOf (name.now ∷ [])) }
{
    if name == b"owed".as_slice() {
        Some(FilePlace::Owed)
    } else if name == b"image".as_slice() {
        Some(FilePlace::Image)
    } else if name == b"weak".as_slice() {
        Some(FilePlace::Weak)
    } else {
        None
    }
}

/// The place whose path has these names, or None where none has. It takes one pass over the names. The only error is
/// out of memory.
pub(crate) fn place_of(alloc: Global, names: &[Name]) -> Result<Option<FilePlace>, AllocError>
    ensures { Finds (IsPlaceOf names.now) result }
{
    let Some((first, others)) = names.split_first() else {
        return Ok(None);
    };
    let first = first.as_slice();
    if first == b"live".as_slice() {
        return live_of(alloc, others);
    }
    if first == b"pending".as_slice() {
        return pending_of(alloc, others);
    }
    if others.is_empty() {
        Ok(top_of(first))
    } else {
        Ok(None)
    }
}
