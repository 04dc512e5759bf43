//! A store is moved to another version.
ghost use Rattle.std.specs.Prelude.{◌≡◌, ◌↔◌, Option, Ok, length, IsTrue};
ghost use Rattle.outside.specs.History.{History};
ghost use Rattle.outside.specs.Told.{Moves};
ghost use Rattle.outside.specs.Faults.{HasCauseOf};
ghost use Rattle.migrate_chain.specs.Causes.{HasNamedCause};
ghost use Rattle.migrate_chain.specs.Starting.{Starts};
ghost use Rattle.migrate_chain.specs.ByPrograms.{MovesByPrograms};

use crate::move_error::MoveError;
use crate::moving::{Moved, move_along};
use crate::start::{Start, find_store};
use outside::{Asker, Disk, Path};
use release_file::{Release, Transition, is_before, way};
use std::alloc::Global;
use std::mem;
use version_links::Version;

// Whether there is nothing to do.
fn is_there(steps: &[&Transition], format: u8) -> bool
    ensures { IsTrue result ↔ ((length steps.now ≡ 0) × (format ≡ 2)) }
{
    steps.is_empty() && format == 2
}

// Moves a store that was found along the way to the version, or leaves it where there is nothing to do.
fn move_from<D: Disk, S: Asker>(
    alloc: Global,
    disk: &mut D,
    to: &Version,
    release: &Release,
    spawner: &mut S,
    start: &mut Start,
) -> Result<Moved, MoveError>
    ensures moves { (before : Option History) → Moves before (D.told disk.old) (Starts (Ok start.old))
        → MovesByPrograms to.now release.now result before (D.told disk.new) (S.asked spawner.old) (S.asked spawner.new) }
    ensures ran { S.runs spawner.new ≡ S.runs spawner.old }
    ensures disk_cause { HasCauseOf MoveError.Failed (D.faults disk.old) (D.faults disk.new) result }
    ensures spawn_cause { HasNamedCause (λ name. MoveError.Spawn name) (S.faults spawner.old) (S.faults spawner.new) result }
{
    let steps = way(alloc, &release.transitions, &start.place.version, to)?;
    if is_there(&steps, start.format) {
        return Ok(Moved {
            from: start.place.version,
            to: *to,
            directory: mem::replace(&mut start.place.directory, Path::root(alloc)),
        });
    }
    let back = is_before(to, &start.place.version);
    move_along(
        alloc,
        disk,
        spawner,
        &release.migrations,
        &steps,
        back,
        to,
        start,
    )
}

/// Moves the store to a version along the transitions of the release. It carries out the journal, if there is one, and
/// reads what is held; the migrations are carried out, forward in their order, or back in reverse order; and each version
/// on the way gets a fresh data directory in format 2, with every key owed. At the end the links are pointed to the last
/// one. A store that is at the version is left, or copied once where it is of format 1.
///
/// A mapping makes what its function gives, and a program what it answers. One question is asked for each program on the
/// way, in their order, with the held text of what those before it made.
///
/// At every moment a crash leaves the store as it was, or moved, complete. After every error but `Failed` it is as it
/// was, and copies that were written are left to `prune`. `Conflict` is the refusal of a mapping, `Status` and `BadAnswer`
/// are refusals by what a program answered, and `Spawn` comes where it could not be asked: the spawner's count of faults
/// rose. It takes time linear in what is held, for each step, and for each step of the way a pass over the transitions.
pub fn migrate_by<D: Disk, S: Asker>(
    alloc: Global,
    disk: &mut D,
    to: &Version,
    release: &Release,
    spawner: &mut S,
) -> Result<Moved, MoveError>
    ensures moves { MovesByPrograms to.now release.now result (D.told disk.old) (D.told disk.new) (S.asked spawner.old) (S.asked spawner.new) }
    ensures ran { S.runs spawner.new ≡ S.runs spawner.old }
    ensures disk_cause { HasCauseOf MoveError.Failed (D.faults disk.old) (D.faults disk.new) result }
    ensures spawn_cause { HasNamedCause (λ name. MoveError.Spawn name) (S.faults spawner.old) (S.faults spawner.new) result }
{
    let mut start = find_store(alloc, disk)?;
    move_from(alloc, disk, to, release, spawner, &mut start)
}
