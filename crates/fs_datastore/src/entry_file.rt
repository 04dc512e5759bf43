//! The file of an entry of a change.
ghost use Rattle.std.specs.Prelude.{◌≡◌, ◌++◌, ◌≤◌, length, IfOk, OnOk, IsTrue};
ghost use Rattle.json_trees.specs.Scalar.{json_text};
ghost use Rattle.settings_tree.specs.Change.{place, has_bare_name};
ghost use Rattle.fs_datastore.specs.Places.{path_of, is_place};
ghost use Rattle.fs_datastore.specs.Values.{live, pending, owed, weak, Spells, list_of, owed_scalar};
ghost use Rattle.fs_datastore.specs.Batches.{bytes_of, pending_text, IsWritten};

use crate::place_paths::{live_path, meta_path, pending_path, top_path};
use crate::scalar_texts::{owed_text, pending_text, weak_text};
use json_trees::{Pending, Scalar};
use key_names::{Bytes, Text};
use outside::Path;
use settings_tree::{Entry, KeyList, Owed};
use std::alloc::{AllocError, Global};

/// The path of the place that the entry names, after a base of at most two names. The only error is out of memory.
pub(crate) fn path_of(alloc: Global, base: &Path, entry: &Entry) -> Result<Path, AllocError>
    requires base { length base.now ≤ 2 }
    requires bare { IsTrue (has_bare_name entry.now) }
    ensures path { IfOk result (λ path. path ≡ base.now ++ path_of (place entry.now)) }
    ensures valid { OnOk result (IsTrue (is_place (place entry.now))) }
{
    match entry {
        Entry::LiveSet { key, value: _ } => live_path(alloc, base, key),
        Entry::LiveGone { key } => live_path(alloc, base, key),
        Entry::MetaSet {
            key,
            name,
            value: _,
        } => meta_path(alloc, base, key, name.as_str().as_bytes()),
        Entry::MetaGone { key, name } => meta_path(alloc, base, key, name.as_str().as_bytes()),
        Entry::PendSet { tx, key, value: _ } => pending_path(alloc, base, tx, key),
        Entry::PendGone { tx, key } => pending_path(alloc, base, tx, key),
        Entry::OwedSet { owed: _ } => top_path(alloc, base, b"owed"),
        Entry::ImageSet { image: _ } => top_path(alloc, base, b"image"),
        Entry::WeakIs { weak: _ } => top_path(alloc, base, b"weak"),
    }
}

fn bytes_of_text(alloc: Global, text: &Text) -> Result<Bytes, AllocError>
    ensures { IfOk result (λ bytes. bytes ≡ text.now) }
{
    Ok(Bytes::of(text.as_str().as_bytes().to_vec(alloc)?))
}

fn value_bytes(alloc: Global, value: &Scalar) -> Result<Bytes, AllocError>
    ensures { IfOk result (λ bytes. (bytes ≡ json_text value.now) × Spells bytes (live value.now)) }
{
    bytes_of_text(alloc, &value.print(alloc)?)
}

fn pending_bytes(alloc: Global, value: &Pending) -> Result<Bytes, AllocError>
    ensures { IfOk result (λ bytes. (bytes ≡ pending_text value.now) × Spells bytes (pending value.now)) }
{
    bytes_of_text(alloc, &pending_text(alloc, value)?)
}

fn owed_bytes(alloc: Global, keys: &Owed) -> Result<Bytes, AllocError>
    ensures { IfOk result (λ bytes. (bytes ≡ json_text (owed_scalar keys.now)) × Spells bytes (owed keys.now)) }
{
    bytes_of_text(alloc, &owed_text(alloc, keys)?)
}

fn weak_bytes(alloc: Global, keys: &KeyList) -> Result<Bytes, AllocError>
    ensures { IfOk result (λ bytes. (bytes ≡ json_text (list_of keys.now)) × Spells bytes (weak keys.now)) }
{
    bytes_of_text(alloc, &weak_text(alloc, keys)?)
}

/// The bytes of the file of what the entry sets, or None where it takes something away. The only error is out of
/// memory.
pub(crate) fn bytes_of(alloc: Global, entry: &Entry) -> Result<Option<Bytes>, AllocError>
    ensures bytes { IfOk result (λ bytes. bytes ≡ bytes_of entry.now) }
    ensures written { IfOk result (IsWritten entry.now) }
{
    match entry {
        Entry::LiveSet { key: _, value } => Ok(Some(value_bytes(alloc, value)?)),
        Entry::MetaSet {
            key: _,
            name: _,
            value,
        } => Ok(Some(value_bytes(alloc, value)?)),
        Entry::PendSet {
            tx: _,
            key: _,
            value,
        } => Ok(Some(pending_bytes(alloc, value)?)),
        Entry::OwedSet { owed } => Ok(Some(owed_bytes(alloc, owed)?)),
        Entry::ImageSet { image } => Ok(Some(image.copy()?)),
        Entry::WeakIs { weak } => Ok(Some(weak_bytes(alloc, weak)?)),
        _ => Ok(None),
    }
}
