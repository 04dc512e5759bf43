//! A store is moved to another version.
ghost use Rattle.std.specs.Prelude.{◌≡◌, IsTrue, Ok, IfOk, IfErr, OnOk, map};
ghost use Rattle.std.specs.List.{list_all};
ghost use Rattle.outside.specs.Told.{Moves};
ghost use Rattle.outside.specs.Faults.{HasCauseOf};
ghost use Rattle.outside.specs.declared.disk_error.Failed.{Failed as Failure};
ghost use Rattle.settings_tree.specs.declared.held.Held.{Held as World};
ghost use Rattle.version_links.specs.Names.{directory};
ghost use Rattle.version_links.specs.Flip.{Flips};
ghost use Rattle.release_file.specs.Release.{names_known};
ghost use Rattle.migrate_chain.specs.Causes.{HasNamedCause};
ghost use Rattle.migrate_chain.specs.Tasks.{tasks_of};
ghost use Rattle.migrate_chain.specs.Store.{owing_all, TouchesOthers};
ghost use Rattle.migrate_chain.specs.Moving.{IsSaved, FallsShort};
ghost use Rattle.migrate_chain.specs.Carrying.{IsDone, StopsEarly, MovesBy};

use crate::carrying::carry_out;
use crate::copying::copy_owing_all;
use crate::move_error::MoveError;
use crate::start::Start;
use outside::{Asker, Disk, DiskErr, Path};
use release_file::{Named, Transition};
use settings_tree::Held;
use std::alloc::Global;
use version_links::{Names, Version, flip};

/// A store that was moved.
#[derive(Drop)]
pub struct Moved {
    /// Its version before.
    pub from: Version,
    /// Its version now.
    pub to: Version,
    /// Its data directory.
    pub directory: Path,
}

// The version at which a step begins.
fn beginning(back: bool, transition: &Transition) -> Version {
    if back { transition.to } else { transition.from }
}

// Saves what was reached as a version of its own, unless nothing was done for it.
fn copy_reached<D: Disk>(
    alloc: Global,
    disk: &mut D,
    first: bool,
    version: &Version,
    held: &mut Held,
) -> Result<(), DiskErr>
    ensures others { Moves (D.told disk.old) (D.told disk.new) TouchesOthers }
    ensures held { held.new ≡ held.old }
    ensures cause { HasCauseOf DiskErr.Failed (D.faults disk.old) (D.faults disk.new) result }
{
    if first {
        return Ok(());
    }
    copy_owing_all(alloc, disk, version, held).and(Ok(()))
}

// Carries out the migrations of the steps, and saves what they make as the last version, and what is reached on the way
// as the versions between.
fn copy_along<D: Disk, S: Asker>(
    alloc: Global,
    disk: &mut D,
    spawner: &mut S,
    migrations: &[Named],
    way: &[&Transition],
    back: bool,
    to: &Version,
    held: &mut Held,
) -> Result<Names, MoveError>
    requires { IsTrue (list_all (names_known migrations.now) (map (λ t. t.now) way.now)) }
    ensures others { Moves (D.told disk.old) (D.told disk.new) TouchesOthers }
    ensures copied { IfOk result (λ target. (made : World)
        × IsDone (tasks_of migrations.now back (map (λ t. t.now) way.now)) held.old made (S.asked spawner.old) (S.asked spawner.new)
        × Moves (D.told disk.old) (D.told disk.new) (IsSaved to.now (owing_all made) target)) }
    ensures stopped { IfErr result (StopsEarly (tasks_of migrations.now back (map (λ t. t.now) way.now)) held.old (S.asked spawner.old) (S.asked spawner.new)) }
    ensures ran { S.runs spawner.new ≡ S.runs spawner.old }
    ensures disk_cause { HasCauseOf MoveError.Failed (D.faults disk.old) (D.faults disk.new) result }
    ensures spawn_cause { HasNamedCause (λ name. MoveError.Spawn name) (S.faults spawner.old) (S.faults spawner.new) result }
{
    let mut first = true;
    for transition in way {
        copy_reached(alloc, disk, first, &beginning(back, transition), held)?;
        first = false;
        carry_out(alloc, spawner, migrations, transition, back, held)?;
    }
    Ok(copy_owing_all(alloc, disk, to, held)?)
}

// Points the links to the copy, and answers the move to it.
fn lead_to_copy<D: Disk>(
    disk: &mut D,
    from: &Version,
    to: &Version,
    copy: &Names,
) -> Result<Moved, MoveError>
    ensures answer { IfOk result (λ moved. (moved.from ≡ from.now) × (moved.to ≡ to.now) × (moved.directory ≡ directory copy.now)) }
    ensures turned { OnOk result (Moves (D.told disk.old) (D.told disk.new) (Flips {E = Failure} copy.now (Ok tt))) }
    ensures falls_short { IfErr result (FallsShort copy.now (D.told disk.old) (D.told disk.new)) }
    ensures cause { HasCauseOf MoveError.Failed (D.faults disk.old) (D.faults disk.new) result }
{
    let directory = copy.directory().copy()?;
    flip(disk, copy)?;
    Ok(Moved {
        from: *from,
        to: *to,
        directory,
    })
}

// Moves the store along these steps. In the start it leaves what they made of what was held.
pub(crate) fn move_along<D: Disk, S: Asker>(
    alloc: Global,
    disk: &mut D,
    spawner: &mut S,
    migrations: &[Named],
    way: &[&Transition],
    back: bool,
    to: &Version,
    start: &mut Start,
) -> Result<Moved, MoveError>
    requires { IsTrue (list_all (names_known migrations.now) (map (λ t. t.now) way.now)) }
    ensures moves { MovesBy start.old (tasks_of migrations.now back (map (λ t. t.now) way.now)) to.now result
        (D.told disk.old) (D.told disk.new) (S.asked spawner.old) (S.asked spawner.new) }
    ensures ran { S.runs spawner.new ≡ S.runs spawner.old }
    ensures disk_cause { HasCauseOf MoveError.Failed (D.faults disk.old) (D.faults disk.new) result }
    ensures spawn_cause { HasNamedCause (λ name. MoveError.Spawn name) (S.faults spawner.old) (S.faults spawner.new) result }
{
    let copy = copy_along(
        alloc,
        disk,
        spawner,
        migrations,
        way,
        back,
        to,
        &mut start.held,
    )?;
    lead_to_copy(disk, &start.place.version, to, &copy)
}
