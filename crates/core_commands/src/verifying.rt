//! The command `verify`.
ghost use Rattle.std.specs.Prelude.{◌≡◌, ℕ, IfErr, false};
ghost use Rattle.outside.specs.Told.{Moves};
ghost use Rattle.outside.specs.Faults.{HasCauseOf};
ghost use Rattle.store_open.specs.Opening.{IsSoundOpened};
ghost use Rattle.api_core.specs.Cores.{core_state, IsSound};
ghost use Rattle.core_commands.specs.Carried.{IsOver};
ghost use Rattle.core_commands.specs.Handing.{HasSpawnCause};
ghost use Rattle.core_commands.specs.Verifying.{is_kept_file, are_kept, Reports, Verifies, HasVerified, IsOfStates};

use crate::handing::not_opened;
use api_core::Core;
use command_outcome::Refusal;
use key_names::Bytes;
use machine_answers::states_text;
use outside::Disk;
use settings_machine::VerifiedFile;
use std::alloc::Global;
use store_open::{Opened, open_store};

fn is_kept(file: &VerifiedFile) -> bool
    ensures { result ≡ is_kept_file file.now }
{
    file.state.is_kept()
}

fn are_kept(files: &[VerifiedFile]) -> bool
    ensures { result ≡ are_kept files.now }
{
    files.iter().all(is_kept)
}

// The lines of the files, in the place of a refusal where one isn't kept.
fn report(alloc: Global, files: &[VerifiedFile]) -> Result<Bytes, Refusal>
    ensures reports { Reports files.now result }
    ensures of_states { IfErr result IsOfStates }
{
    let lines = states_text(alloc, files)?;
    if are_kept(files) {
        Ok(lines)
    } else {
        Err(Refusal::NotCurrent { lines })
    }
}

// Reads the files of a core over a store that was just opened.
fn verify_by<D: Disk>(alloc: Global, core: &mut Core, disk: &mut D) -> Result<Bytes, Refusal>
    requires sound { IsSound core.old }
    requires calm { (core_state core.old).faulted ≡ false }
    ensures verifies { (store : Opened) → IsOver core.old store → Moves (D.told disk.old) (D.told disk.new) (Verifies store result) }
    ensures same { D.told disk.new ≡ D.told disk.old }
    ensures of_states { IfErr result IsOfStates }
    ensures cause { HasCauseOf Refusal.Disk (D.faults disk.old) (D.faults disk.new) result }
{
    let files = core.verify(alloc, disk)?;
    report(alloc, &files)
}

// Reads the files of a store that was just opened.
fn verify_open<D: Disk>(alloc: Global, store: Opened, disk: &mut D) -> Result<Bytes, Refusal>
    requires opened { IsSoundOpened store }
    ensures verifies { Moves (D.told disk.old) (D.told disk.new) (Verifies store result) }
    ensures same { D.told disk.new ≡ D.told disk.old }
    ensures of_states { IfErr result IsOfStates }
    ensures cause { HasCauseOf Refusal.Disk (D.faults disk.old) (D.faults disk.new) result }
{
    let mut core = Core::new(store);
    let lines = verify_by(alloc, &mut core, disk);
    drop(core);
    lines
}

/// Opens the store, without boot, reads each configuration file of the image, and answers a line for each, by name, that says whether it is what
/// its template renders to; where one is neither that nor owed, they are those of the refusal `NotCurrent`. Nothing is written but by
/// the opening.
///
/// Why the store can't be opened comes first; then `Disk` where a file could not be read; `Memory` where it runs out of memory. Besides the
/// opening it renders each file, one at a time.
pub fn verify<D: Disk>(alloc: Global, disk: &mut D) -> Result<Bytes, Refusal>
    ensures verified { HasVerified result (D.told disk.old) (D.told disk.new) }
    ensures cause { HasCauseOf Refusal.Disk (D.faults disk.old) (D.faults disk.new) result }

    // Neither a spawner nor a door is reported.
    ensures quiet { (count : ℕ) → HasSpawnCause count count result }
{
    match open_store(alloc, disk, false) {
        Ok(store) => verify_open(alloc, store, disk),
        Err(error) => Err(not_opened(error)),
    }
}
