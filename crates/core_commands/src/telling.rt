//! What commands tell after their requests.
ghost use Rattle.std.specs.Prelude.{◌≡◌, ◌∷◌, [], All, IfErr, IfOk};
ghost use Rattle.outside.specs.Faults.{HasCauseOf};
ghost use Rattle.settings_tree.specs.Content.{settings_key};
ghost use Rattle.settings_machine.specs.World.{World, Idle};
ghost use Rattle.settings_machine.specs.Asked.{request_of};
ghost use Rattle.core_commands.specs.Asking.{IsPlannable, requests};
ghost use Rattle.core_commands.specs.Carried.{CarriesOut};
ghost use Rattle.core_commands.specs.Handing.{HasSpawnCause};
ghost use Rattle.core_commands.specs.Lines.{IsTreeLine, IsJobLine};
ghost use Rattle.core_commands.specs.Telling.{Tells};

use crate::carrying::carry;
use crate::lines::{line_of, tree_line};
use command_outcome::Refusal;
use key_names::{Bytes, Key};
use machine_answers::job_text;
use outside::{Disk, Spawner};
use settings_machine::{JobStatus, Request};
use settings_tree::{Content, Held, Owed};
use std::alloc::Global;

/// What a command tells of the world at its end.
#[derive(Clone, Copy)]
pub(crate) enum Telling {
    /// The tree of the live settings.
    Settings,
    /// The job, and what is owed.
    Job,
}

// The tree of the live settings, as a line.
fn settings_line(alloc: Global, live: &Content) -> Result<Bytes, Refusal>
    ensures ok { IfOk result (IsTreeLine live.now.values (settings_key ∷ [])) }
    ensures memory { IfErr result (λ refusal. refusal ≡ Refusal.Memory) }
{
    let Ok(settings) = Key::of_segment(alloc, b"settings") else {
        return Err(Refusal::Memory);
    };
    Ok(tree_line(alloc, live, &[settings])?)
}

// What a client learns of an idle job and of what is owed, as a line.
fn idle_line(alloc: Global, owed: &Owed) -> Result<Bytes, Refusal>
    ensures ok { IfOk result (λ line. (W : World) → W.held.owed ≡ owed.now → W.job ≡ Idle → IsJobLine W line) }
    ensures memory { IfErr result (λ refusal. refusal ≡ Refusal.Memory) }
{
    let text = job_text(alloc, &JobStatus::Idle, owed)?;
    Ok(line_of(alloc, &text)?)
}

// The line that tells of a world that holds this, whose job is idle.
fn last_line(alloc: Global, held: &Held, telling: Telling) -> Result<Bytes, Refusal>
    ensures ok { IfOk result (λ line. (W : World) → W.held ≡ held.now → W.job ≡ Idle → Tells telling W line) }
    ensures memory { IfErr result (λ refusal. refusal ≡ Refusal.Memory) }
{
    match telling {
        Telling::Settings => settings_line(alloc, &held.live),
        Telling::Job => idle_line(alloc, &held.owed),
    }
}

/// Carries out the requests as [`carry`] does, and answers the line that tells of the last world.
pub(crate) fn carry_and_tell<D: Disk, S: Spawner>(
    alloc: Global,
    asks: &[Request],
    telling: Telling,
    disk: &mut D,
    spawner: &mut S,
) -> Result<Bytes, Refusal>
    requires plannable { All (λ ask. IsPlannable (request_of ask)) asks.now }
    ensures carries { CarriesOut (requests asks.now) (Tells telling) result
        (S.runs spawner.old) (S.runs spawner.new) (D.told disk.old) (D.told disk.new) }
    ensures cause { HasCauseOf Refusal.Disk (D.faults disk.old) (D.faults disk.new) result }
    ensures spawn { HasSpawnCause (S.faults spawner.old) (S.faults spawner.new) result }
    ensures asked { S.asked spawner.new ≡ S.asked spawner.old }
{
    let core = carry(alloc, asks, disk, spawner)?;
    let line = last_line(alloc, core.held(), telling);
    drop(core);
    line
}
