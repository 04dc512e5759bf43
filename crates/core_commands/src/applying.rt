//! The command `apply`.
ghost use Rattle.std.specs.Prelude.{◌≡◌, ◌∷◌, []};
ghost use Rattle.outside.specs.Faults.{HasCauseOf};
ghost use Rattle.settings_machine.specs.Asked.{request_of};
ghost use Rattle.core_commands.specs.Asking.{IsPlannable};
ghost use Rattle.core_commands.specs.Carried.{CarriesOut, apply_requests};
ghost use Rattle.core_commands.specs.Handing.{HasSpawnCause};
ghost use Rattle.core_commands.specs.Lines.{IsJobLine};

use crate::telling::{Telling, carry_and_tell};
use command_outcome::Refusal;
use key_names::Bytes;
use outside::{Disk, Spawner};
use settings_machine::Request;
use std::alloc::Global;

// The request of the command.
fn apply_ask(all: bool) -> Request
    ensures request { request_of result ∷ [] ≡ apply_requests all }
    ensures plannable { IsPlannable (request_of result) }
{
    if all {
        Request::ApplyAll
    } else {
        Request::Apply
    }
}

/// Applies what is owed, or all that the image has: opens the store, without boot; asks for the job; makes turns until no job runs; and
/// answers what a client of the socket learns of the job, as compact JSON (RFC 8259), and a line feed.
///
/// Why the store can't be opened comes first; then `Spawn`, `Render` or `Status` where the job failed so. `Disk` where the disk
/// failed; `Memory` where it runs out of memory.
pub fn apply<D: Disk, S: Spawner>(
    alloc: Global,
    all: bool,
    disk: &mut D,
    spawner: &mut S,
) -> Result<Bytes, Refusal>
    ensures carried { CarriesOut (apply_requests all) IsJobLine result
        (S.runs spawner.old) (S.runs spawner.new) (D.told disk.old) (D.told disk.new) }
    ensures cause { HasCauseOf Refusal.Disk (D.faults disk.old) (D.faults disk.new) result }
    ensures spawn { HasSpawnCause (S.faults spawner.old) (S.faults spawner.new) result }
    ensures asked { S.asked spawner.new ≡ S.asked spawner.old }
{
    carry_and_tell(alloc, &[apply_ask(all)], Telling::Job, disk, spawner)
}
