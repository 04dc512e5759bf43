//! A data directory that is not taken.
ghost use Rattle.std.specs.Prelude.{◌≡◌, ◌↔◌, Some, option_map, IfOk, IsTrue};
ghost use Rattle.outside.specs.History.{tree_of};
ghost use Rattle.outside.specs.Told.{WhereTold};
ghost use Rattle.outside.specs.Faults.{HasCauseOf};
ghost use Rattle.version_links.specs.Fresh.{IsFree, IsFirstFree};

use crate::{Names, Version};
use outside::{Disk, DiskErr};
use std::alloc::Global;

fn is_text(found: Option<Vec<u8>>, text: &[u8]) -> bool
    ensures { IsTrue result ↔ (option_map (λ v. v.items) found ≡ Some text.now) }
{
    match found {
        Some(found) => found.as_slice() == text,
        None => false,
    }
}

// Whether the data directory is free.
fn are_free<D: Disk>(alloc: Global, disk: &mut D, names: &Names) -> Result<bool, DiskErr>
    ensures free { IfOk result (λ free. WhereTold (D.told disk.old) (λ h. IsTrue free ↔ IsFree (tree_of h) names.now)) }
    ensures same { D.told disk.new ≡ D.told disk.old }
    ensures cause { HasCauseOf DiskErr.Failed (D.faults disk.old) (D.faults disk.new) result }
{
    let below = disk.list(alloc, names.directory())?;
    let named = disk.read_link(alloc, &names.patch.path)?;
    Ok(below.is_empty() && !is_text(named, &names.patch.text))
}

// Whether the data directory of the version with this id is free.
fn is_free<D: Disk>(
    alloc: Global,
    disk: &mut D,
    version: &Version,
    id: u64,
) -> Result<bool, DiskErr>
    ensures free { IfOk result (λ free. WhereTold (D.told disk.old) (λ h. IsTrue free ↔ IsFree (tree_of h) (record { version = version.now; id = id }))) }
    ensures same { D.told disk.new ≡ D.told disk.old }
    ensures cause { HasCauseOf DiskErr.Failed (D.faults disk.old) (D.faults disk.new) result }
{
    let names = Names::of(alloc, version, id)?;
    are_free(alloc, disk, &names)
}

// The least id with which the data directory of the version is free.
fn first_free<D: Disk>(alloc: Global, disk: &mut D, version: &Version) -> Result<u64, DiskErr>
    ensures first { IfOk result (λ id. WhereTold (D.told disk.old) (λ h. IsFirstFree (tree_of h) (record { version = version.now; id = id }))) }
    ensures same { D.told disk.new ≡ D.told disk.old }
    ensures cause { HasCauseOf DiskErr.Failed (D.faults disk.old) (D.faults disk.new) result }
{
    for id in 0..u64::MAX {
        let free = is_free(alloc, disk, version, id)?;
        if free {
            return Ok(id);
        }
    }
    Err(DiskErr::Memory)
}

/// The names of a new data directory of the version: the one with the least id such that no path is below the
/// directory, and the link that is named like the version doesn't name it. It changes nothing.
///
/// `Failed` where the disk failed, `Memory` where it ran out of memory, which would also be the answer if all ids below
/// 2 ^ 64 - 1 were taken. It lists each directory of the version that is taken.
pub fn fresh_dir<D: Disk>(alloc: Global, disk: &mut D, version: &Version) -> Result<Names, DiskErr>
    ensures version { IfOk result (λ names. names.version ≡ version.now) }
    ensures first { IfOk result (λ names. WhereTold (D.told disk.old) (λ h. IsFirstFree (tree_of h) names)) }
    ensures same { D.told disk.new ≡ D.told disk.old }
    ensures cause { HasCauseOf DiskErr.Failed (D.faults disk.old) (D.faults disk.new) result }
{
    let id = first_free(alloc, disk, version)?;
    Ok(Names::of(alloc, version, id)?)
}
