//! The command `serve`.
ghost use Rattle.std.specs.Prelude.{◌≡◌, ◌≤◌, Ok, [], false, IsErrOf};
ghost use Rattle.outside.specs.Told.{Moves};
ghost use Rattle.outside.specs.Faults.{Rose};
ghost use Rattle.store_open.specs.Opening.{IsSoundOpened};
ghost use Rattle.api_server.specs.Causes.{fault_counts};
ghost use Rattle.api_server.specs.Serving as server;
ghost use Rattle.api_core.specs.Cores.{IsSound};
ghost use Rattle.event_lines.specs.Logs.{log_state};
ghost use Rattle.settings_cmd.specs.Serving.{served, IsServed, ServesCore, HasAccepted};

use api_core::Core;
use api_server::{Pace, serve};
use command_outcome::Refusal;
use core_commands::not_opened;
use event_lines::{Discard, opened_line, tell};
use key_names::Bytes;
use outside::{Disk, Door, Sink, Spawner};
use std::alloc::Global;
use store_open::open_store;

// How it ends once the store is open.
fn ended(alloc: Global, fine: bool) -> Result<Bytes, Refusal>
    ensures { result ≡ served fine }
{
    if fine {
        Ok(Bytes::of(Vec::new(alloc)))
    } else {
        Err(Refusal::Door)
    }
}

// Serves the open store, and logs that it was opened and what it does, unless it is to be quiet. False exactly where an accept failed.
fn serve_open<D: Disk, S: Spawner, N: Door, L: Sink>(
    alloc: Global,
    core: &mut Core,
    boot: bool,
    pace: Pace,
    quiet: bool,
    connections: Option<u32>,
    disk: &mut D,
    spawner: &mut S,
    door: &mut N,
    log: &mut L,
) -> bool
    requires idle { (N.state door.old).busy ≡ false }
    requires unused { (N.state door.old).accepted ≡ 0 }
    requires sound { IsSound core.old }
    ensures serves { Moves (D.told disk.old) (D.told disk.new) (ServesCore boot pace quiet result core.old core.new
        (fault_counts (D.faults disk.old) (S.faults spawner.old)) (fault_counts (D.faults disk.new) (S.faults spawner.new))
        (N.told door.old) (N.told door.new) (S.runs spawner.old) (S.runs spawner.new)
        (log_state (L.told log.old) (L.faults log.old)) (log_state (L.told log.new) (L.faults log.new))) }
    ensures idle { (N.state door.new).busy ≡ false }
    ensures accepted { server.HasAccepted connections result (N.state door.old) (N.state door.new) }
    ensures cause { result ≡ false → Rose (N.faults door.old) (N.faults door.new) }
    ensures disk_faults { D.faults disk.old ≤ D.faults disk.new }
    ensures spawner_faults { S.faults spawner.old ≤ S.faults spawner.new }
    ensures asked { S.asked spawner.new ≡ S.asked spawner.old }
{
    if quiet {
        return serve(
            alloc,
            core,
            boot,
            pace,
            connections,
            disk,
            spawner,
            door,
            &mut Discard,
        );
    }
    let line = opened_line(alloc, core.version(), &core.held().owed);
    tell(log, line);
    serve(
        alloc,
        core,
        boot,
        pace,
        connections,
        disk,
        spawner,
        door,
        log,
    )
}

/// Opens the store, with boot or without, and serves it: see [`serve`](api_server::serve). It prints nothing. Unless it is to be quiet
/// it logs the opening and each event that follows; where the store can't be opened, nothing.
///
/// Why the store can't be opened comes first. Once it is open, `Door` exactly where an accept failed: a running job is then left, and
/// its keys stay owed. Failures of requests, of turns and of single connections don't end it, and are reported to their clients alone.
pub(crate) fn serve_store<D: Disk, S: Spawner, N: Door, L: Sink>(
    alloc: Global,
    boot: bool,
    pace: Pace,
    quiet: bool,
    connections: Option<u32>,
    disk: &mut D,
    spawner: &mut S,
    door: &mut N,
    log: &mut L,
) -> Result<Bytes, Refusal>
    requires idle { (N.state door.old).busy ≡ false }
    requires unused { (N.state door.old).accepted ≡ 0 }
    ensures served { IsServed boot pace quiet (fault_counts (D.faults disk.old) (S.faults spawner.old))
        (fault_counts (D.faults disk.new) (S.faults spawner.new)) (N.told door.old) (N.told door.new) (S.runs spawner.old) (S.runs spawner.new)
        (log_state (L.told log.old) (L.faults log.old)) (log_state (L.told log.new) (L.faults log.new)) result (D.told disk.old) (D.told disk.new) }
    ensures idle { (N.state door.new).busy ≡ false }
    ensures accepted { HasAccepted connections result (N.state door.old) (N.state door.new) }
    ensures disk_fault { IsErrOf result Refusal.Disk → Rose (D.faults disk.old) (D.faults disk.new) }
    ensures door_fault { IsErrOf result Refusal.Door → Rose (N.faults door.old) (N.faults door.new) }
    ensures spawner_faults { S.faults spawner.old ≤ S.faults spawner.new }
    ensures asked { S.asked spawner.new ≡ S.asked spawner.old }
{
    match open_store(alloc, disk, boot) {
        Ok(store) => {
            let mut core = Core::new(store);
            let fine = serve_open(
                alloc,
                &mut core,
                boot,
                pace,
                quiet,
                connections,
                disk,
                spawner,
                door,
                log,
            );
            ended(alloc, fine)
        }
        Err(error) => Err(not_opened(error)),
    }
}
