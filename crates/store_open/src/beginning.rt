//! A store is begun.
ghost use Rattle.std.specs.Prelude.{◌≡◌};
ghost use Rattle.outside.specs.History.{tree_of};
ghost use Rattle.outside.specs.Told.{Moves, WhereTold};
ghost use Rattle.outside.specs.Faults.{HasCauseOf};
ghost use Rattle.version_links.specs.Chain.{nowhere, Resolves};
ghost use Rattle.settings_machine.specs.Events.{new_held};
ghost use Rattle.store_open.specs.Beginning.{Begins, Places};

use crate::InitError;
use fs_datastore::save_all;
use key_names::Bytes;
use outside::Disk;
use settings_tree::{Content, Held, Owed, PendMaps};
use std::alloc::Global;
use version_links::{Names, Version, flip, fresh_dir, resolve};

// What a store begins with.
fn nothing(alloc: Global) -> Held
    ensures { result ≡ new_held }
{
    Held {
        live: Content::new(alloc),
        pending: PendMaps::new(alloc),
        owed: Owed::All,
        image: Bytes::of(Vec::new(alloc)),
    }
}

// Saves what is held into the fresh directory, and points the links there.
fn put_first<D: Disk>(
    alloc: Global,
    disk: &mut D,
    names: &Names,
    held: &Held,
) -> Result<(), InitError>
    ensures places { Moves (D.told disk.old) (D.told disk.new) (Places names.now held.now result) }
    ensures cause { HasCauseOf InitError.Failed (D.faults disk.old) (D.faults disk.new) result }
{
    save_all(alloc, disk, names.directory(), held)?;
    flip(disk, names)?;
    Ok(())
}

// Begins a store of this version that holds this, where none is.
fn begin_fresh<D: Disk>(
    alloc: Global,
    disk: &mut D,
    version: &Version,
    held: &Held,
) -> Result<(), InitError>
    requires { WhereTold (D.told disk.old) (λ h. Resolves (tree_of h) nowhere) }
    ensures begins { Moves (D.told disk.old) (D.told disk.new) (Begins version.now held.now result) }
    ensures cause { HasCauseOf InitError.Failed (D.faults disk.old) (D.faults disk.new) result }
{
    let names = fresh_dir(alloc, disk, version)?;
    put_first(alloc, disk, &names, held)
}

/// Begins a store of this version that holds this: saves it into a fresh data directory, in format 2, and points the links there.
///
/// Where no store is there and the disk is settled, a crash leaves no store or the new one, whole; after Ok it is on the
/// disk. `AlreadyThere` exactly where the links lead to a data directory, with its version; `BadLink` where a link of the
/// chain is missing or bad; `Failed` where the disk failed, `Memory` where it ran out of memory. Where the links lead to a data
/// directory or a link is bad, nothing is changed, whatever is answered. It writes a file for each value.
pub fn begin<D: Disk>(
    alloc: Global,
    disk: &mut D,
    version: &Version,
    held: &Held,
) -> Result<(), InitError>
    ensures begins { Moves (D.told disk.old) (D.told disk.new) (Begins version.now held.now result) }
    ensures cause { HasCauseOf InitError.Failed (D.faults disk.old) (D.faults disk.new) result }
{
    match resolve(alloc, disk)? {
        Some(place) => Err(InitError::AlreadyThere {
            version: place.version,
        }),
        None => begin_fresh(alloc, disk, version, held),
    }
}

/// Begins a store of this version in which nothing is live or pending, all is owed and the image text is empty, as
/// [`begin`](crate::begin) does, with its errors.
pub fn init<D: Disk>(alloc: Global, disk: &mut D, version: &Version) -> Result<(), InitError>
    ensures begins { Moves (D.told disk.old) (D.told disk.new) (Begins version.now new_held result) }
    ensures cause { HasCauseOf InitError.Failed (D.faults disk.old) (D.faults disk.new) result }
{
    let held = nothing(alloc);
    begin(alloc, disk, version, &held)
}
