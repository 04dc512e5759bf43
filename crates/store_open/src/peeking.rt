//! What a store holds is read without a write.
ghost use Rattle.std.specs.Prelude.{◌≡◌, ◌≢◌, ◌⊎◌, length, IfOk, IfErr};
ghost use Rattle.outside.specs.History.{tree_of};
ghost use Rattle.outside.specs.Told.{WhereTold};
ghost use Rattle.outside.specs.Faults.{HasCauseOf};
ghost use Rattle.disk_memory.specs.Disk.{history_of};
ghost use Rattle.machine_disk.specs.Store.{HoldsIn};
ghost use Rattle.version_links.specs.Chain.{found, Resolves};
ghost use Rattle.store_open.specs.Peeking.{TellsIn, TellsOf};
ghost use Rattle.store_open.specs.Phases.{IsFaultless};

use crate::copying::copy_of;
use crate::reading::load_current;
use crate::{OpenError, Stored};
use commit_journal::recover;
use disk_memory::MemoryDisk;
use outside::{Disk, Path};
use settings_tree::Held;
use std::alloc::Global;
use version_links::{Place, resolve};

// What the directory of the copy holds, once a change that was cut off is carried out there.
fn held_of(alloc: Global, copy: &mut MemoryDisk, dir: &Path) -> Result<Held, OpenError>
    requires { length dir.now ≡ 2 }
    ensures holds { IfOk result (λ held. HoldsIn dir.now held 2 (tree_of (history_of copy.old))) }
    ensures refused { IfErr result (λ e. TellsIn dir.now e (tree_of (history_of copy.old))) }
{
    recover(alloc, copy, dir)?;
    load_current(alloc, copy, dir)
}

// A disk in memory fails only where memory runs out.
fn in_memory(error: OpenError) -> OpenError
    ensures { ((error ≡ OpenError.Failed) × (result ≡ OpenError.Memory)) ⊎ ((error ≢ OpenError.Failed) × (result ≡ error)) }
{
    match error {
        OpenError::Failed => OpenError::Memory,
        error => error,
    }
}

// The same, where no failure is told.
fn peek_copy(alloc: Global, copy: &mut MemoryDisk, dir: &Path) -> Result<Held, OpenError>
    requires { length dir.now ≡ 2 }
    ensures holds { IfOk result (λ held. HoldsIn dir.now held 2 (tree_of (history_of copy.old))) }
    ensures refused { IfErr result (λ e. TellsIn dir.now e (tree_of (history_of copy.old))) }
    ensures memory { IfErr result (λ e. e ≢ OpenError.Failed) }
{
    match held_of(alloc, copy, dir) {
        Ok(held) => Ok(held),
        Err(error) => Err(in_memory(error)),
    }
}

// What an opening would find that the directory holds.
fn peek_held<D: Disk>(alloc: Global, disk: &mut D, dir: &Path) -> Result<Held, OpenError>
    requires { length dir.now ≡ 2 }
    ensures same { D.told disk.new ≡ D.told disk.old }
    ensures holds { IfOk result (λ held. WhereTold (D.told disk.old) (λ h. HoldsIn dir.now held 2 (tree_of h))) }
    ensures refused { IfErr result (λ e. WhereTold (D.told disk.old) (λ h. TellsIn dir.now e (tree_of h))) }
    ensures cause { HasCauseOf OpenError.Failed (D.faults disk.old) (D.faults disk.new) result }
    ensures without_fault { IfErr result (λ e. IsFaultless e (D.faults disk.old) (D.faults disk.new)) }
{
    let mut copy = copy_of(alloc, disk, dir)?;
    peek_copy(alloc, &mut copy, dir)
}

// Reads the store whose links lead to this place.
fn peek_at<D: Disk>(alloc: Global, disk: &mut D, place: Place) -> Result<Stored, OpenError>
    requires two_names { length place.directory ≡ 2 }
    requires led { WhereTold (D.told disk.old) (λ h. Resolves (tree_of h) (found place.version place.directory)) }
    ensures same { D.told disk.new ≡ D.told disk.old }
    ensures holds { IfOk result (λ stored. WhereTold (D.told disk.old)
        (λ h. Resolves (tree_of h) (found stored.place.version stored.place.directory)
        × HoldsIn stored.place.directory stored.held 2 (tree_of h))) }
    ensures refused { IfErr result (λ e. WhereTold (D.told disk.old) (λ h. TellsOf e (tree_of h))) }
    ensures two_names { IfOk result (λ stored. length stored.place.directory ≡ 2) }
    ensures cause { HasCauseOf OpenError.Failed (D.faults disk.old) (D.faults disk.new) result }
    ensures without_fault { IfErr result (λ e. IsFaultless e (D.faults disk.old) (D.faults disk.new)) }
{
    let held = peek_held(alloc, disk, &place.directory)?;
    Ok(Stored { place, held })
}

/// What the store holds, as an opening would find it, read without a write: its data directory is copied into memory, and a
/// change that was cut off is carried out there.
///
/// Refused are, in this order: `NoStore`, `BadLink`, `BadJournal`, `Damaged` (with the path that an opening would find at fault),
/// `OldFormat` (exactly where the directory is of format 1). `Failed` and `Memory` may come at any place. It lists the paths of
/// the data directory and reads each file once, and takes memory in proportion to what they have.
pub fn peek_store<D: Disk>(alloc: Global, disk: &mut D) -> Result<Stored, OpenError>
    ensures same { D.told disk.new ≡ D.told disk.old }
    ensures holds { IfOk result (λ stored. WhereTold (D.told disk.old)
        (λ h. Resolves (tree_of h) (found stored.place.version stored.place.directory)
        × HoldsIn stored.place.directory stored.held 2 (tree_of h))) }
    ensures refused { IfErr result (λ e. WhereTold (D.told disk.old) (λ h. TellsOf e (tree_of h))) }
    ensures two_names { IfOk result (λ stored. length stored.place.directory ≡ 2) }
    ensures cause { HasCauseOf OpenError.Failed (D.faults disk.old) (D.faults disk.new) result }
    ensures without_fault { IfErr result (λ e. IsFaultless e (D.faults disk.old) (D.faults disk.new)) }
{
    match resolve(alloc, disk)? {
        Some(place) => peek_at(alloc, disk, place),
        None => Err(OpenError::NoStore),
    }
}
