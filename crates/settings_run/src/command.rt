//! The top call.
ghost use Rattle.std.specs.Prelude.{◌≡◌, ◌≢◌, ◌⊎◌, ℕ, List, Bool, Option, true, false, codes};
ghost use Rattle.outside.specs.Told.{Moves};
ghost use Rattle.outside.specs.Faults.{Rose};
ghost use Rattle.outside.specs.Spawner.{texts};
ghost use Rattle.outside.specs.Said.{IsSaid};
ghost use Rattle.command_words.specs.Orders.{Spells};
ghost use Rattle.command_words.specs.Orders.{serve as ServeOrder};
ghost use Rattle.api_server.specs.Serving.{wanted};
ghost use Rattle.settings_cmd.specs.Carried.{ServesNot, RunsNothing, AsksNothing};
ghost use Rattle.event_lines.specs.Logs.{log_state};
ghost use Rattle.settings_cmd.specs.Does.{devices, faults};
ghost use Rattle.settings_run.specs.Headline.{Headline};

use command_outcome::tell;
use outside::{Asker, Disk, Door, Sink};
use settings_cmd::carry_out;
use std::alloc::Global;

/// Runs one command, from its words to the devices and the output, and answers the exit status.
///
/// The command was carried out, and the run printed what it came to and ended with the status of that; or the output failed, and the
/// status is 12 and the text was written in part; or it ran out of memory, and the status is 1.
///
/// `serve` writes lines to the log for each event of the machine, where it happens, unless it is to be quiet: they are a function of the
/// events and of the worlds around them. A log that fails is passed over; it changes nothing else and ends nothing.
///
/// The door is not busy, and has accepted no connection yet; it is not busy afterwards.
pub fn run<D: Disk, S: Asker, N: Door, O: Sink, L: Sink>(
    alloc: Global,
    words: &[String],
    disk: &mut D,
    spawner: &mut S,
    door: &mut N,
    out: &mut O,
    log: &mut L,
) -> u8
    requires idle { (N.state door.old).busy ≡ false }
    requires unused { (N.state door.old).accepted ≡ 0 }

    // The run came to what the words order, done as they order it on any disk; and where the disk tells, and was at one world at the start or had
    // no store, that is a run of the map machine.
    ensures headline { Headline (texts words.now) result
        (devices (D.told disk.old) (N.state door.old) (N.told door.old) (S.asked spawner.old) (S.runs spawner.old)
        (log_state (L.told log.old) (L.faults log.old)) (faults (D.faults disk.old) (N.faults door.old) (S.faults spawner.old)))
        (devices (D.told disk.new) (N.state door.new) (N.told door.new) (S.asked spawner.new) (S.runs spawner.new)
        (log_state (L.told log.new) (L.faults log.new)) (faults (D.faults disk.new) (N.faults door.new) (S.faults spawner.new)))
        (O.told out.old) (O.told out.new) }

    ensures served { (boot : Bool) (slice : Option ℕ) (while_idle : Bool) (connections : Option ℕ) (quiet : Bool)
        → Spells (texts words.now) (ServeOrder boot slice while_idle connections quiet)
        → result ≡ 0 → ((N.state door.new).accepted ≡ wanted connections) ⊎ ((N.state door.new).ended ≡ true) }

    // Programs are asked by `migrate` and `generate` alone, and run by `serve`, `set` and `apply` alone; connections are served by `serve` alone.
    ensures unasked { AsksNothing (texts words.now) → S.asked spawner.new ≡ S.asked spawner.old }
    ensures unrun { RunsNothing (texts words.now) → S.runs spawner.new ≡ S.runs spawner.old }
    ensures shut { ServesNot (texts words.now) → N.told door.new ≡ N.told door.old }
    ensures idle { (N.state door.new).busy ≡ false }

    // Lines are logged by `serve` alone.
    ensures silent { ServesNot (texts words.now) → log_state (L.told log.new) (L.faults log.new) ≡ log_state (L.told log.old) (L.faults log.old) }

    // No failure is reported that did not happen, and, but by `serve`, which tells its clients alone, none is passed over.
    ensures disk_fault { result ≡ 3 → Rose (D.faults disk.old) (D.faults disk.new) }
    ensures disk_faults { ServesNot (texts words.now) → result ≢ 1 → result ≢ 3 → result ≢ 12 → D.faults disk.new ≡ D.faults disk.old }
    ensures door_fault { result ≡ 4 → Rose (N.faults door.old) (N.faults door.new) }
    ensures spawn_fault { result ≡ 5 → Rose (S.faults spawner.old) (S.faults spawner.new) }
    ensures spawn_faults { ServesNot (texts words.now) → result ≢ 1 → result ≢ 5 → result ≢ 12 → S.faults spawner.new ≡ S.faults spawner.old }
    ensures sink_fault { result ≡ 12 → Rose (O.faults out.old) (O.faults out.new) }
    ensures sink_faults { result ≢ 1 → result ≢ 12 → O.faults out.new ≡ O.faults out.old }
    ensures memory_line { result ≡ 1 → Moves (O.told out.old) (O.told out.new) (IsSaid (codes "settings: memory\n"))
        ⊎ Rose (O.faults out.old) (O.faults out.new) }
{
    let outcome = carry_out(alloc, words, disk, spawner, door, log);
    tell(alloc, out, &outcome)
}
