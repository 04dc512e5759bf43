//! Data directories to which the links don't lead are emptied.
ghost use Rattle.std.specs.Prelude.{◌≡◌, ◌≢◌, ◌↔◌, ◌∷◌, [], codes, IfOk, IsTrue, OnOk};
ghost use Rattle.outside.specs.History.{tree_of};
ghost use Rattle.outside.specs.Told.{Moves, WhereTold};
ghost use Rattle.outside.specs.Faults.{HasCause, HasCauseOf};
ghost use Rattle.version_links.specs.declared.chain.Place.{Place};
ghost use Rattle.version_links.specs.Chain.{Resolves};
ghost use Rattle.migrate_chain.specs.Store.{at_place, IsLeftOver};
ghost use Rattle.migrate_chain.specs.PruningSteps.{IsDirectory, RemovesAll, RemovesOthers};
ghost use Rattle.migrate_chain.specs.Pruning.{Prunes, SoMany};

use crate::prune_error::PruneError;
use outside::{Disk, Failed, Name, Path, PathError};
use std::alloc::{AllocError, Global};
use version_links::{directory_of, resolve};

// Whether the folder is `store`, and the name that of a data directory.
fn is_directory(folder: &Name, name: &Name) -> bool
    ensures { IsTrue result ↔ IsDirectory folder.now name.now }
{
    if folder.as_slice() != b"store".as_slice() {
        return false;
    }
    match directory_of(name.as_slice()) {
        Some(_) => true,
        None => false,
    }
}

// Whether the path is the folder and the name.
fn is_pair(path: &Path, folder: &Name, name: &Name) -> bool
    ensures { IsTrue result ↔ (path.now ≡ folder.now ∷ name.now ∷ []) }
{
    match path.names() {
        [first, second] => *first == *folder && *second == *name,
        _ => false,
    }
}

// Whether the folder and the name are those of another data directory than this one.
fn is_other(directory: &Path, folder: &Name, name: &Name) -> bool
    ensures { IsTrue result ↔ (IsDirectory folder.now name.now × (directory.now ≢ folder.now ∷ name.now ∷ [])) }
{
    is_directory(folder, name) && !is_pair(directory, folder, name)
}

// Whether the path is strictly below another data directory than this one.
fn is_left_over(directory: &Path, path: &Path) -> bool
    ensures { IsTrue result ↔ IsLeftOver directory.now path.now }
{
    match path.names() {
        [folder, name, _, ..] => is_other(directory, folder, name),
        _ => false,
    }
}

// Removes what is below other data directories, and tells how many files it was.
fn remove_others<D: Disk>(disk: &mut D, directory: &Path, paths: &[Path]) -> Result<u64, Failed>
    ensures removes { Moves (D.told disk.old) (D.told disk.new) (RemovesOthers directory.now) }
    ensures all { OnOk result (Moves (D.told disk.old) (D.told disk.new) (RemovesAll directory.now paths.now)) }
    ensures counted { IfOk result (λ count. SoMany (IsLeftOver directory.now) paths.now count) }
    ensures cause { HasCause (D.faults disk.old) (D.faults disk.new) result }
{
    let mut count = 0u64;
    for path in paths {
        if is_left_over(directory, path) {
            disk.remove(path)?;
            count += 1;
        }
    }
    Ok(count)
}

// The path of the folder of all stores.
fn store_folder(alloc: Global) -> Result<Path, AllocError>
    ensures { IfOk result (λ path. path ≡ codes "store" ∷ []) }
{
    match Path::root(alloc).child(b"store") {
        Ok(path) => Ok(path),
        Err(PathError::Memory | PathError::BadName | PathError::TooDeep) => Err(AllocError),
    }
}

// Syncs, and removes every file below the data directories other than this one.
fn prune_beside<D: Disk>(alloc: Global, disk: &mut D, directory: &Path) -> Result<u64, PruneError>
    ensures prunes { (place : Place) → place.directory ≡ directory.now → WhereTold (D.told disk.old) (λ h. Resolves (tree_of h) (at_place place))
        → Moves (D.told disk.old) (D.told disk.new) (Prunes result) }
    ensures cause { HasCauseOf PruneError.Failed (D.faults disk.old) (D.faults disk.new) result }
{
    let folder = store_folder(alloc)?;
    disk.sync()?;
    let paths = disk.list(alloc, &folder)?;
    Ok(remove_others(disk, directory, &paths)?)
}

/// Removes every file below the data directories to which the links don't lead, and tells how many they were. Links stay.
/// It makes one sync, before it removes anything, so that no crash leaves the links where they led before an unsynced
/// move to this directory. It takes one pass over what is in the folder `store`.
///
/// At every moment the data directory to which the links lead has all its files. `NoStore` where `store/current` is no
/// link, `BadLink` with the first path of the chain that is bad, `Failed` where the disk failed, `Memory` where it runs
/// out of memory. After `Failed` some files may be left; a later call removes them.
pub fn prune<D: Disk>(alloc: Global, disk: &mut D) -> Result<u64, PruneError>
    ensures prunes { Moves (D.told disk.old) (D.told disk.new) (Prunes result) }
    ensures cause { HasCauseOf PruneError.Failed (D.faults disk.old) (D.faults disk.new) result }
{
    let Some(place) = resolve(alloc, disk)? else {
        return Err(PruneError::NoStore);
    };
    prune_beside(alloc, disk, &place.directory)
}
