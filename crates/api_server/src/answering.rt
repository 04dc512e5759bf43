//! The request of one connection, and its reply.
ghost use Rattle.std.specs.Prelude.{◌≡◌, ◌≤◌, true};
ghost use Rattle.outside.specs.Told.{Moves};
ghost use Rattle.event_lines.specs.Logs.{log_state};
ghost use Rattle.api_core.specs.Cores.{IsSound};
ghost use Rattle.api_server.specs.Answered.{IsTold, Answers};

use crate::{Heard, handle, hear, say};
use api_core::Core;
use api_http::{Refusal, Reply, print_refusal};
use event_lines::{refused_line, tell};
use outside::{Disk, Door, Sink};
use std::alloc::Global;

// The reply of a refusal, which is logged; or the fixed one where there is no memory for it, which isn't.
fn logged_refusal<L: Sink>(alloc: Global, refusal: &Refusal, log: &mut L) -> Reply
    ensures { IsTold refusal.now result (log_state (L.told log.old) (L.faults log.old)) (log_state (L.told log.new) (L.faults log.new)) }
{
    let Ok(reply) = print_refusal(alloc, refusal) else {
        return Reply::memory();
    };
    tell(log, refused_line(alloc, refusal.status(), refusal.word()));
    reply
}

/// Reads the request of a connection that was accepted, has it handled and logged, and then writes its reply.
///
/// A request that is refused in reading is logged and gets the reply of its refusal, and running out of memory in reading it or in printing this reply
/// the fixed 503. Where the input ends before a request is whole or refused, and where a read fails, nothing is written.
pub(crate) fn answer_one<D: Disk, N: Door, L: Sink>(
    alloc: Global,
    core: &mut Core,
    disk: &mut D,
    door: &mut N,
    log: &mut L,
)
    requires busy { (N.state door.old).busy ≡ true }
    requires sound { IsSound core.old }
    ensures answers { Moves (D.told disk.old) (D.told disk.new) (Answers core.old core.new (D.faults disk.old) (D.faults disk.new) (N.told door.old)
        (N.told door.new) (log_state (L.told log.old) (L.faults log.old)) (log_state (L.told log.new) (L.faults log.new))) }
    ensures sound { IsSound core.new }
    ensures same { N.state door.new ≡ N.state door.old }
    ensures disk_faults { D.faults disk.old ≤ D.faults disk.new }
    ensures door_faults { N.faults door.old ≤ N.faults door.new }
{
    match hear(alloc, door) {
        Heard::Ended => {}
        Heard::Memory => say(door, Reply::memory().bytes()),
        Heard::Refused { refusal } => {
            let reply = logged_refusal(alloc, &refusal, log);
            say(door, reply.bytes());
        }
        Heard::Asked { request } => {
            let reply = handle(alloc, core, &request, disk, log).reply();
            say(door, reply.bytes());
        }
    }
}
