//! What a store holds is read.
ghost use Rattle.std.specs.Prelude.{◌≡◌, ◌≢◌, ◌⊎◌, length, IfOk, OnOk, IfErr};
ghost use Rattle.outside.specs.History.{tree_of};
ghost use Rattle.outside.specs.Told.{Moves, WhereTold};
ghost use Rattle.outside.specs.Faults.{HasCauseOf};
ghost use Rattle.commit_journal.specs.Files.{files_below};
ghost use Rattle.fs_datastore.specs.Stands.{Stands};
ghost use Rattle.version_links.specs.Chain.{found, Resolves};
ghost use Rattle.store_open.specs.Phases.{AtFault, HasRecovered, IsFaultless, RefusesAt};
ghost use Rattle.store_open.specs.Reading.{IsOfStore, Reads};

use crate::{OpenError, Stored};
use commit_journal::recover;
use fs_datastore::load;
use outside::{Disk, Path};
use settings_tree::Held;
use std::alloc::Global;
use version_links::{Place, resolve};

// Refuses a format that is not the current one, which is 2.
fn check_format(format: u8, dir: &Path) -> Result<(), OpenError>
    ensures current { OnOk result (format ≡ 2) }
    ensures refused { IfErr result (λ e. (e ≡ OpenError.Memory)
        ⊎ ((e ≡ OpenError.OldFormat dir.now) × (format ≢ 2))) }
{
    if format == 2 {
        return Ok(());
    }
    let directory = dir.copy()?;
    Err(OpenError::OldFormat { directory })
}

// What the data directory holds, in format 2. It changes nothing.
pub(crate) fn load_current<D: Disk>(
    alloc: Global,
    disk: &mut D,
    dir: &Path,
) -> Result<Held, OpenError>
    requires { length dir.now ≡ 2 }
    ensures same { D.told disk.new ≡ D.told disk.old }
    ensures held { IfOk result (λ held. WhereTold (D.told disk.old)
        (λ h. Stands (files_below dir.now (tree_of h)) held 2)) }
    ensures refused { IfErr result (λ e. WhereTold (D.told disk.old) (AtFault dir.now e)) }
    ensures of_store { IfErr result IsOfStore }
    ensures cause { HasCauseOf OpenError.Failed (D.faults disk.old) (D.faults disk.new) result }
    ensures without_fault { IfErr result (λ e. IsFaultless e (D.faults disk.old) (D.faults disk.new)) }
{
    let loaded = load(alloc, disk, dir)?;
    check_format(loaded.format, dir)?;
    Ok(loaded.held)
}

// What the place holds, once a change that was cut off is carried out.
fn recover_held<D: Disk>(alloc: Global, disk: &mut D, place: &Place) -> Result<Held, OpenError>
    requires two_names { length place.now.directory ≡ 2 }
    ensures recovers { OnOk result (Moves (D.told disk.old) (D.told disk.new)
        (HasRecovered place.now.directory)) }
    ensures holds { IfOk result (λ held. WhereTold (D.told disk.new)
        (λ h. Stands (files_below place.now.directory (tree_of h)) held 2)) }
    ensures refused { IfErr result (λ e. Moves (D.told disk.old) (D.told disk.new)
        (RefusesAt place.now e)) }
    ensures of_store { IfErr result IsOfStore }
    ensures cause { HasCauseOf OpenError.Failed (D.faults disk.old) (D.faults disk.new) result }
    ensures without_fault { IfErr result (λ e. IsFaultless e (D.faults disk.old) (D.faults disk.new)) }
{
    recover(alloc, disk, &place.directory)?;
    load_current(alloc, disk, &place.directory)
}

// Reads the store whose links lead to this place.
fn read_at<D: Disk>(alloc: Global, disk: &mut D, place: Place) -> Result<Stored, OpenError>
    requires two_names { length place.directory ≡ 2 }
    requires led { WhereTold (D.told disk.old) (λ h. Resolves (tree_of h) (found place.version place.directory)) }
    ensures reads { Moves (D.told disk.old) (D.told disk.new) (Reads result) }
    ensures holds { IfOk result (λ stored. WhereTold (D.told disk.new)
        (λ h. Stands (files_below stored.place.directory (tree_of h)) stored.held 2)) }
    ensures two_names { IfOk result (λ stored. length stored.place.directory ≡ 2) }
    ensures cause { HasCauseOf OpenError.Failed (D.faults disk.old) (D.faults disk.new) result }
    ensures without_fault { IfErr result (λ e. IsFaultless e (D.faults disk.old) (D.faults disk.new)) }
{
    let held = recover_held(alloc, disk, &place)?;
    Ok(Stored { place, held })
}

/// Reads what the store holds, and looks at no image: follows its links, carries out a change that was cut off, and reads each file once.
///
/// Refused are, in this order: `NoStore`, `BadLink`, `BadJournal`, `Damaged`, `OldFormat` (exactly where the directory is of format 1);
/// and then the journal was carried out at most. `Failed` and `Memory` may come at any place. A crash leaves the store as it was.
pub fn read_store<D: Disk>(alloc: Global, disk: &mut D) -> Result<Stored, OpenError>
    ensures reads { Moves (D.told disk.old) (D.told disk.new) (Reads result) }
    ensures holds { IfOk result (λ stored. WhereTold (D.told disk.new)
        (λ h. Stands (files_below stored.place.directory (tree_of h)) stored.held 2)) }
    ensures two_names { IfOk result (λ stored. length stored.place.directory ≡ 2) }
    ensures cause { HasCauseOf OpenError.Failed (D.faults disk.old) (D.faults disk.new) result }
    ensures without_fault { IfErr result (λ e. IsFaultless e (D.faults disk.old) (D.faults disk.new)) }
{
    match resolve(alloc, disk)? {
        Some(place) => read_at(alloc, disk, place),
        None => Err(OpenError::NoStore),
    }
}
