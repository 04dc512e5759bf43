//! A command is carried out, from its words to the devices.
ghost use Rattle.std.specs.Prelude.{◌≡◌, ℕ, List, false, IsErrOf};
ghost use Rattle.outside.specs.Faults.{HasCauseOf, Rose};
ghost use Rattle.outside.specs.Spawner.{texts};
ghost use Rattle.core_commands.specs.Handing.{HasSpawnCause};
ghost use Rattle.command_words.specs.Orders.{Order, Spells, SpellsNone};
ghost use Rattle.settings_cmd.specs.Carried.{Carried, IsMisused, ServesNot, RunsNothing, AsksNothing};
ghost use Rattle.event_lines.specs.Logs.{log_state};
ghost use Rattle.settings_cmd.specs.Does.{Does, devices, faults};

use crate::beginning::begin;
use crate::dumping::dump;
use crate::forgetting::forget;
use crate::generating::generate;
use crate::getting::get;
use crate::migrating::migrate_to;
use crate::provisioning::provision;
use crate::pruning::prune_others;
use crate::restoring::restore;
use crate::serving::serve_store;
use crate::store_checking::check_with;
use api_server::Pace;
use command_outcome::Refusal;
use command_words::{Command, WordsError};
use core_commands::{apply, set, verify};
use key_names::Bytes;
use load_input::load;
use outside::{Asker, Disk, Door, Sink};
use std::alloc::Global;

/// Carries out the command that the words spell, and answers what it prints, or why it is refused.
///
/// `Usage` exactly where the words spell no command. The other refusals are those of the commands.
///
/// `migrate` and `generate` alone ask programs: those of a release, and those of generators. `serve`, `set` and `apply` alone run
/// programs, and `serve` alone has to do with the door and the log.
pub fn carry_out<D: Disk, S: Asker, N: Door, L: Sink>(
    alloc: Global,
    words: &[String],
    disk: &mut D,
    spawner: &mut S,
    door: &mut N,
    log: &mut L,
) -> Result<Bytes, Refusal>
    requires idle { (N.state door.old).busy ≡ false }
    requires unused { (N.state door.old).accepted ≡ 0 }
    ensures usage { SpellsNone (texts words.now) → Carried IsMisused result (D.told disk.old) (D.told disk.new) }
    ensures does { (order : Order) → Spells (texts words.now) order → Does order result
        (devices (D.told disk.old) (N.state door.old) (N.told door.old) (S.asked spawner.old) (S.runs spawner.old)
        (log_state (L.told log.old) (L.faults log.old)) (faults (D.faults disk.old) (N.faults door.old) (S.faults spawner.old)))
        (devices (D.told disk.new) (N.state door.new) (N.told door.new) (S.asked spawner.new) (S.runs spawner.new)
        (log_state (L.told log.new) (L.faults log.new)) (faults (D.faults disk.new) (N.faults door.new) (S.faults spawner.new))) }
    ensures unasked { AsksNothing (texts words.now) → S.asked spawner.new ≡ S.asked spawner.old }
    ensures unrun { RunsNothing (texts words.now) → S.runs spawner.new ≡ S.runs spawner.old }
    ensures shut { ServesNot (texts words.now) → N.told door.new ≡ N.told door.old }
    ensures silent { ServesNot (texts words.now) → log_state (L.told log.new) (L.faults log.new) ≡ log_state (L.told log.old) (L.faults log.old) }
    ensures idle { (N.state door.new).busy ≡ false }
    ensures cause { ServesNot (texts words.now) → HasCauseOf Refusal.Disk (D.faults disk.old) (D.faults disk.new) result }
    ensures disk_fault { IsErrOf result Refusal.Disk → Rose (D.faults disk.old) (D.faults disk.new) }
    ensures spawn_cause { ServesNot (texts words.now) → HasSpawnCause (S.faults spawner.old) (S.faults spawner.new) result }
    ensures spawn_fault { (name : List ℕ) → IsErrOf result (Refusal.Spawn name) → Rose (S.faults spawner.old) (S.faults spawner.new) }
    ensures door_fault { IsErrOf result Refusal.Door → Rose (N.faults door.old) (N.faults door.new) }
{
    match Command::read(alloc, words) {
        Ok(Command::Init { version }) => begin(alloc, disk, &version),
        Ok(
            Command::Serve {
                boot,
                slice,
                while_idle,
                connections,
                quiet,
            },
        ) => {
            let pace = Pace { slice, while_idle };
            serve_store(
                alloc,
                boot,
                pace,
                quiet,
                connections,
                disk,
                spawner,
                door,
                log,
            )
        }
        Ok(Command::Set { pairs }) => set(alloc, &pairs, disk, spawner),
        Ok(Command::Get { keys }) => get(alloc, disk, &keys),
        Ok(Command::Apply { all }) => apply(alloc, all, disk, spawner),
        Ok(Command::Verify) => verify(alloc, disk),
        Ok(Command::Check { store }) => check_with(alloc, store, disk),
        Ok(Command::Migrate { to }) => migrate_to(alloc, disk, spawner, &to),
        Ok(Command::Prune) => prune_others(alloc, disk),
        Ok(Command::Generate) => generate(alloc, disk, spawner),
        Ok(Command::UserData { path }) => provision(alloc, disk, &path),
        Ok(Command::Dump) => dump(alloc, disk),
        Ok(Command::Restore { path }) => restore(alloc, disk, &path),
        Ok(Command::Forget { keys }) => forget(alloc, disk, &keys),
        Ok(Command::Load { count }) => load(alloc, count),
        Err(WordsError::Usage) => Err(Refusal::Usage),
        Err(WordsError::Memory) => Err(Refusal::Memory),
    }
}
