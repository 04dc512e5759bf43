//! The command `migrate`.
ghost use Rattle.std.specs.Prelude.{◌≡◌, IsErrOf};
ghost use Rattle.outside.specs.Faults.{HasCauseOf};
ghost use Rattle.migrate_chain.specs.Causes.{HasNamedCause};
ghost use Rattle.settings_cmd.specs.Carried.{IsMigrated};
ghost use Rattle.settings_cmd.specs.Handing.{HandsMoving};

use crate::releasing::read_release;
use crate::version_line::version_line;
use command_outcome::Refusal;
use key_names::Bytes;
use migrate_chain::{MoveError, migrate_by};
use outside::{Asker, Disk};
use std::alloc::Global;
use version_links::Version;

// Why the store was not moved.
fn refused(error: MoveError) -> Result<Bytes, Refusal>
    ensures { HandsMoving error result }
{
    match error {
        MoveError::NoStore => Err(Refusal::NoStore),
        MoveError::BadLink { path } => Err(Refusal::BadLink { path }),
        MoveError::BadJournal { path } => Err(Refusal::BadJournal { path }),
        MoveError::Damaged { path } => Err(Refusal::Damaged { path }),
        MoveError::Missing { at, target } => Err(Refusal::Missing { at, target }),
        MoveError::Conflict { key } => Err(Refusal::Conflict { key }),
        MoveError::Status { name, number } => Err(Refusal::MigrationStatus { name, number }),
        MoveError::BadAnswer { name } => Err(Refusal::MigrationOutput { name }),
        MoveError::Spawn { name } => Err(Refusal::Spawn { name }),
        MoveError::Failed => Err(Refusal::Disk),
        MoveError::Memory => Err(Refusal::Memory),
    }
}

/// Reads the release of the image, moves the store to this version along its transitions, asks the programs on the way, and
/// answers the version and a line feed.
///
/// `BadImage` where the release is missing or has a fault comes first. Then, by `migrate_by`: `NoStore`, `BadLink`,
/// `BadJournal`, `Damaged`, `Missing`, `Conflict`, `MigrationStatus` and `MigrationOutput` by what a program answered, `Spawn` where
/// it could not be asked, and nothing was moved. `Disk` where the disk failed; `Memory` where it runs out of memory, and never once the
/// store is moved.
pub(crate) fn migrate_to<D: Disk, S: Asker>(
    alloc: Global,
    disk: &mut D,
    spawner: &mut S,
    to: &Version,
) -> Result<Bytes, Refusal>
    ensures migrated { IsMigrated to.now (S.asked spawner.old) (S.asked spawner.new) result (D.told disk.old) (D.told disk.new) }
    ensures ran { S.runs spawner.new ≡ S.runs spawner.old }
    ensures cause { HasCauseOf Refusal.Disk (D.faults disk.old) (D.faults disk.new) result }
    ensures spawn_cause { HasNamedCause (λ name. Refusal.Spawn name) (S.faults spawner.old) (S.faults spawner.new) result }
    ensures no_door { IsErrOf result Refusal.Door → ⊥ }
{
    let line = version_line(alloc, to)?;
    let release = read_release(alloc, disk)?;
    match migrate_by(alloc, disk, to, &release, spawner) {
        Ok(_) => Ok(line),
        Err(error) => refused(error),
    }
}
