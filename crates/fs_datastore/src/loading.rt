//! A data directory is read.
ghost use Rattle.std.specs.Prelude.{◌≡◌, ◌++◌, Some, drop, length, IfOk, IfNone, IsErrOf, IsTrue};
ghost use Rattle.std.specs.Option.{option_copied};
ghost use Rattle.outside.specs.Names.{Names};
ghost use Rattle.outside.specs.Tree.{file, node_at};
ghost use Rattle.outside.specs.History.{tree_of};
ghost use Rattle.outside.specs.Told.{WhereTold};
ghost use Rattle.outside.specs.Faults.{HasCauseOf};
ghost use Rattle.commit_journal.specs.Files.{files_below};
ghost use Rattle.fs_datastore.specs.Stands.{Stands};
ghost use Rattle.fs_datastore.specs.Damage.{IsFaultBelow};
ghost use Rattle.fs_datastore.specs.FoundFiles.{KeepsRules, absent_path};
ghost use Rattle.fs_datastore.specs.Loading.{ReadsNode, FindsFault};

use crate::LoadError;
use crate::found::{Absent, Found};
use crate::place_paths::top_path;
use outside::{Disk, DiskErr, Path};
use settings_tree::Held;
use std::alloc::{AllocError, Global};

/// What a data directory represents.
#[derive(Drop)]
pub struct Loaded {
    /// What is held there.
    pub held: Held,
    /// The format of the directory, 1 or 2.
    pub format: u8,
}

// Reads these bytes as the file at the path, which is below a directory of two names.
fn read_bytes(
    alloc: Global,
    found: &mut Found,
    path: &Path,
    bytes: Vec<u8>,
) -> Result<bool, AllocError>
    requires { KeepsRules found.old }
    ensures reads { IfOk result (ReadsNode (drop 2 path.now) (Some (file bytes.items)) found.old found.new) }
    ensures rules { IfOk result (λ fits. IsTrue fits → KeepsRules found.new) }
{
    match path.names() {
        [_, _, names @ ..] => found.read(alloc, names, bytes),
        _ => Ok(false),
    }
}

// Reads the file at the path, which is below a directory of two names. False where it is at fault.
fn read_file<D: Disk>(
    alloc: Global,
    disk: &mut D,
    found: &mut Found,
    path: &Path,
) -> Result<bool, DiskErr>
    requires { KeepsRules found.old }
    ensures same { D.told disk.new ≡ D.told disk.old }
    ensures reads { IfOk result (λ fits. WhereTold (D.told disk.old)
        (λ h. ReadsNode (drop 2 path.now) (node_at (tree_of h) path.now) found.old found.new fits)) }
    ensures rules { IfOk result (λ fits. IsTrue fits → KeepsRules found.new) }
    ensures cause { HasCauseOf DiskErr.Failed (D.faults disk.old) (D.faults disk.new) result }
{
    match disk.read(alloc, path)? {
        Some(bytes) => Ok(read_bytes(alloc, found, path, bytes)?),
        None => Ok(false),
    }
}

// Reads the files at these paths, one after another, up to the first that is at fault, if there is one.
fn first_fault<'a, D: Disk>(
    alloc: Global,
    disk: &mut D,
    found: &mut Found,
    paths: &'a [Path],
) -> Result<Option<&'a Path>, DiskErr>
    requires { KeepsRules found.old }
    ensures same { D.told disk.new ≡ D.told disk.old }
    ensures finds { IfOk result (λ fault. WhereTold (D.told disk.old)
        (FindsFault paths.now found.old found.new (option_copied fault))) }
    ensures rules { IfOk result (λ fault. IfNone fault (KeepsRules found.new)) }
    ensures cause { HasCauseOf DiskErr.Failed (D.faults disk.old) (D.faults disk.new) result }
{
    for path in paths {
        if !read_file(alloc, disk, found, path)? {
            return Ok(Some(path));
        }
    }
    Ok(None)
}

// The path of the file that is missing.
fn absent_path(alloc: Global, dir: &Path, absent: Absent) -> Result<Path, AllocError>
    requires { length dir.now ≡ 2 }
    ensures { IfOk result (λ path. path ≡ dir.now ++ absent_path absent) }
{
    match absent {
        Absent::Owed => top_path(alloc, dir, b"owed"),
        Absent::Image => top_path(alloc, dir, b"image"),
        Absent::Weak => top_path(alloc, dir, b"weak"),
    }
}

/// Reads what a data directory of two names represents, in format 1 or 2. It lists the paths and reads each file once,
/// and changes nothing.
///
/// `Damaged` exactly where the files represent nothing, with the path of their fault: the first path, in order, that is
/// not that of exactly one thing, holds bytes outside their form, is a link, or breaks the prefix rule with an earlier
/// one; else `owed`, `image`, or in format 2 `weak`, where it is missing. A file `journal` is damage, so
/// [`recover`](commit_journal::recover) comes first. `Failed` where the disk failed, `Memory` where it runs out of memory.
pub fn load<D: Disk>(alloc: Global, disk: &mut D, dir: &Path) -> Result<Loaded, LoadError>
    requires { length dir.now ≡ 2 }
    ensures same { D.told disk.new ≡ D.told disk.old }
    ensures ok { IfOk result (λ loaded. WhereTold (D.told disk.old)
        (λ h. Stands (files_below dir.now (tree_of h)) loaded.held loaded.format)) }
    ensures damaged { (path : Names) → IsErrOf result (LoadError.Damaged path)
        → WhereTold (D.told disk.old) (λ h. IsFaultBelow dir.now (tree_of h) path) }
    ensures cause { HasCauseOf LoadError.Failed (D.faults disk.old) (D.faults disk.new) result }
    ensures damaged_without_fault { (path : Names) → IsErrOf result (LoadError.Damaged path) → D.faults disk.new ≡ D.faults disk.old }
{
    let mut found = Found::new(alloc);
    let paths = disk.list(alloc, dir)?;
    if let Some(path) = first_fault(alloc, disk, &mut found, &paths)? {
        return Err(LoadError::Damaged { path: path.copy()? });
    }
    match found.held(alloc) {
        Ok((held, format)) => Ok(Loaded { held, format }),
        Err(absent) => Err(LoadError::Damaged {
            path: absent_path(alloc, dir, absent)?,
        }),
    }
}
