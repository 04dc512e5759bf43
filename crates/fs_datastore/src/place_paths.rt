//! The paths of places.
ghost use Rattle.std.specs.Prelude.{◌≡◌, ◌≤◌, ◌<◌, ◌+◌, ◌++◌, ◌∷◌, [], length, IfOk, OnOk, IsTrue};
ghost use Rattle.outside.specs.Names.{is_name};
ghost use Rattle.key_names.specs.Key.{is_key};
ghost use Rattle.key_names.specs.Segment.{file_name, is_segment, has_short_name};
ghost use Rattle.settings_maps.specs.TxName.{is_meta_name};
ghost use Rattle.settings_tree.specs.Change.{Live, Meta, Pend};
ghost use Rattle.fs_datastore.specs.Places.{names_of, meta_names, path_of, is_place};

use key_names::{Key, file_name};
use outside::{Name, Path};
use settings_maps::TxName;
use std::alloc::{AllocError, Global};

// Adds the file name of a segment.
fn push_segment(alloc: Global, path: &mut Path, segment: &[u8]) -> Result<(), AllocError>
    requires valid { IsTrue (is_segment segment.now) }
    requires short { IsTrue (has_short_name segment.now) }
    requires room { length path.old < 40 }
    ensures { OnOk result (path.new ≡ path.old ++ file_name segment.now ∷ []) }
{
    let name = file_name(alloc, segment)?;
    path.push_name(Name::of(name.as_slice().to_vec(alloc)?))
}

// Adds the names of a key.
fn push_key(alloc: Global, path: &mut Path, key: &Key) -> Result<(), AllocError>
    requires room { length path.old ≤ 8 }
    ensures path { OnOk result (path.new ≡ path.old ++ names_of key.now) }
    ensures valid { OnOk result (IsTrue (is_key key.now)) }
{
    for index in 0..key.len() {
        push_segment(alloc, path, key.segment(index))?;
    }
    Ok(())
}

// The file name of a segment, a dot and the name of metadata.
fn dotted(alloc: Global, segment: &[u8], name: &[u8]) -> Result<Vec<u8>, AllocError>
    ensures { IfOk result (λ bytes. bytes.items ≡ file_name segment.now ++ 46 ∷ name.now) }
{
    let mut bytes = Vec::new(alloc);
    bytes.extend_from_slice(file_name(alloc, segment)?.as_slice())?;
    bytes.push(b'.')?;
    bytes.extend_from_slice(name)?;
    Ok(bytes)
}

// Adds the names of metadata.
fn push_meta(alloc: Global, path: &mut Path, key: &Key, name: &[u8]) -> Result<(), AllocError>
    requires room { length path.old ≤ 8 }
    requires bare { IsTrue (is_meta_name name.now) }
    ensures path { OnOk result (path.new ≡ path.old ++ meta_names key.now name.now) }
    ensures valid { OnOk result (IsTrue (is_key key.now)) }
{
    let last = key.len() - 1;
    for index in 0..last {
        push_segment(alloc, path, key.segment(index))?;
    }
    let bytes = dotted(alloc, key.segment(last), name)?;
    path.push_name(Name::of(bytes))
}

/// The path of the file of a live value, after a base of at most two names. The only error is out of memory.
pub(crate) fn live_path(alloc: Global, base: &Path, key: &Key) -> Result<Path, AllocError>
    requires { length base.now ≤ 2 }
    ensures path { IfOk result (λ path. path ≡ base.now ++ path_of (Live key.now)) }
    ensures valid { OnOk result (IsTrue (is_place (Live key.now))) }
{
    let mut path = top_path(alloc, base, b"live")?;
    push_key(alloc, &mut path, key)?;
    Ok(path)
}

/// The path of the file of metadata, after a base of at most two names. The only error is out of memory.
pub(crate) fn meta_path(
    alloc: Global,
    base: &Path,
    key: &Key,
    name: &[u8],
) -> Result<Path, AllocError>
    requires base { length base.now ≤ 2 }
    requires bare { IsTrue (is_meta_name name.now) }
    ensures path { IfOk result (λ path. path ≡ base.now ++ path_of (Meta key.now name.now)) }
    ensures valid { OnOk result (IsTrue (is_place (Meta key.now name.now))) }
{
    let mut path = top_path(alloc, base, b"live")?;
    push_meta(alloc, &mut path, key, name)?;
    Ok(path)
}

/// The path of the file of a pending value, after a base of at most two names. The only error is out of memory.
pub(crate) fn pending_path(
    alloc: Global,
    base: &Path,
    tx: &TxName,
    key: &Key,
) -> Result<Path, AllocError>
    requires { length base.now ≤ 2 }
    ensures path { IfOk result (λ path. path ≡ base.now ++ path_of (Pend tx.now key.now)) }
    ensures valid { OnOk result (IsTrue (is_place (Pend tx.now key.now))) }
{
    let mut path = top_path(alloc, base, b"pending")?;
    path.push_name(Name::of(tx.as_str().as_bytes().to_vec(alloc)?))?;
    push_key(alloc, &mut path, key)?;
    Ok(path)
}

/// The path of one name, after a base of at most two names. The only error is out of memory.
pub(crate) fn top_path(alloc: Global, base: &Path, name: &[u8]) -> Result<Path, AllocError>
    requires base { length base.now ≤ 2 }
    requires valid { IsTrue (is_name name.now) }
    ensures { IfOk result (λ path. path ≡ base.now ++ name.now ∷ []) }
{
    base.join(&Name::of(name.to_vec(alloc)?))
}
