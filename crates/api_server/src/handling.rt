//! A request is planned, its answer printed, and then it is committed; or files are read for it, and then its answer is printed.
ghost use Rattle.std.specs.Prelude.{◌≡◌, ◌≢◌, ◌++◌, List, [], IfOk, false};
ghost use Rattle.outside.specs.Told.{Moves};
ghost use Rattle.settings_machine.specs.Asked.{request_of};
ghost use Rattle.settings_machine.specs.Requests.{IsProper, reads_files};
ghost use Rattle.settings_machine.specs.World.{Key, is_running};
ghost use Rattle.affected_apply.specs.Jobs.{job_of};
ghost use Rattle.event_lines.specs.Lines.{changes, request_line, job_lines};
ghost use Rattle.event_lines.specs.Logs.{log_state, Tells};
ghost use Rattle.api_core.specs.Cores.{IsSound, core_state};
ghost use Rattle.api_server.specs.Handled.{IsPrinted, Answers, Handles, GivesUp, sent_of};
ghost use Rattle.api_server.specs.Handled.{IsRefused, IsOtherStore, IsAnswered, IsNotOpened, ChangesNothing, HasDiskCause};

use crate::handled::Handled;
use crate::unopened::given_up;
use crate::verifying::verify;
use api_core::{Core, Effect, JobState, Planned};
use api_http::{Reply, print_answer};
use event_lines::{changed_by, opened_line, request_lines, tell};
use key_names::Bytes;
use outside::{Disk, DiskErr, Sink};
use settings_machine::Request;
use settings_tree::KeyList;
use std::alloc::{AllocError, Global};
use store_open::OpenError;

// The plan of a request, and its answer as it is sent. The only error is out of memory.
fn plan_and_print(
    alloc: Global,
    core: &Core,
    request: &Request,
) -> Result<(Reply, Effect), AllocError>
    requires sound { IsSound core.now }
    requires proper { IsProper (request_of request.now) }
    requires plannable { reads_files (request_of request.now) ≡ false }
    ensures { IfOk result (λ pair. IsPrinted core.now (request_of request.now) pair.0 pair.1) }
{
    let Planned { answer, effect } = core.plan(alloc, request)?;
    let reply = print_answer(alloc, &answer)?;
    Ok((reply, effect))
}

// Handles a request that reads no files, where no call of the disk has failed.
fn carry_out<D: Disk>(alloc: Global, core: &mut Core, request: &Request, disk: &mut D) -> Handled
    requires calm { (core_state core.old).faulted ≡ false }
    requires sound { IsSound core.old }
    requires proper { IsProper (request_of request.now) }
    requires plannable { reads_files (request_of request.now) ≡ false }
    ensures answers { Moves (D.told disk.old) (D.told disk.new)
        (Answers core.old (request_of request.now) result core.new) }
    ensures sound { IsSound core.new }
    ensures image { core.new.image ≡ core.old.image }
    ensures calm { result ≢ Handled.DiskFault → (core_state core.new).faulted ≡ false }
    ensures opened { IsNotOpened result → ⊥ }
    ensures quiet { ChangesNothing (request_of request.now) result → D.told disk.new ≡ D.told disk.old }
    ensures cause { HasDiskCause (D.faults disk.old) (D.faults disk.new) result }
{
    let Ok((reply, effect)) = plan_and_print(alloc, core, request) else {
        return Handled::Memory;
    };
    match core.commit(alloc, disk, effect) {
        Ok(()) => Handled::Answered(reply),
        Err(DiskErr::Failed) => Handled::DiskFault,
        Err(DiskErr::Memory) => Handled::Memory,
    }
}

// Handles a request, where no call of the disk has failed.
fn answer<D: Disk>(alloc: Global, core: &mut Core, request: &Request, disk: &mut D) -> Handled
    requires calm { (core_state core.old).faulted ≡ false }
    requires sound { IsSound core.old }
    requires proper { IsProper (request_of request.now) }
    ensures answers { Moves (D.told disk.old) (D.told disk.new)
        (Answers core.old (request_of request.now) result core.new) }
    ensures sound { IsSound core.new }
    ensures image { core.new.image ≡ core.old.image }
    ensures calm { result ≢ Handled.DiskFault → (core_state core.new).faulted ≡ false }
    ensures opened { IsNotOpened result → ⊥ }
    ensures quiet { ChangesNothing (request_of request.now) result → D.told disk.new ≡ D.told disk.old }
    ensures cause { HasDiskCause (D.faults disk.old) (D.faults disk.new) result }
{
    match request {
        Request::Verify => verify(alloc, core, disk),
        _ => carry_out(alloc, core, request, disk),
    }
}

// The lines of a request that came to this, where these keys were to change.
fn lines_of(
    alloc: Global,
    request: &Request,
    changed: Result<KeyList, AllocError>,
    handled: &Handled,
    was_running: bool,
    job: &JobState,
) -> Result<Bytes, AllocError>
    ensures { (keys : List Key) → IfOk changed (λ list. list ≡ keys) → IfOk result (λ text. text
        ≡ request_line (request_of request.now) keys (sent_of handled.now).status ++ job_lines was_running (job_of job.now)) }
{
    request_lines(
        alloc,
        request,
        &changed?,
        handled.status(),
        was_running,
        job,
    )
}

// Handles a request, where no call of the disk has failed, and logs it.
fn answer_and_tell<D: Disk, L: Sink>(
    alloc: Global,
    core: &mut Core,
    request: &Request,
    disk: &mut D,
    log: &mut L,
) -> Handled
    requires calm { (core_state core.old).faulted ≡ false }
    requires sound { IsSound core.old }
    requires proper { IsProper (request_of request.now) }
    ensures answers { Moves (D.told disk.old) (D.told disk.new)
        (Answers core.old (request_of request.now) result core.new) }
    ensures tells { Tells (request_line (request_of request.now) (changes (core_state core.old).held (request_of request.now)) (sent_of result).status
        ++ job_lines (is_running (core_state core.old).job) (core_state core.new).job)
        (log_state (L.told log.old) (L.faults log.old)) (log_state (L.told log.new) (L.faults log.new)) }
    ensures sound { IsSound core.new }
    ensures image { core.new.image ≡ core.old.image }
    ensures calm { result ≢ Handled.DiskFault → (core_state core.new).faulted ≡ false }
    ensures opened { IsNotOpened result → ⊥ }
    ensures quiet { ChangesNothing (request_of request.now) result → D.told disk.new ≡ D.told disk.old }
    ensures cause { HasDiskCause (D.faults disk.old) (D.faults disk.new) result }
{
    let changed = changed_by(alloc, core.held(), request);
    let was_running = core.job().is_running();
    let handled = answer(alloc, core, request, disk);
    let lines = lines_of(alloc, request, changed, &handled, was_running, core.job());
    tell(log, lines);
    handled
}

// Gives up a request, for the store was not opened, and logs it.
fn give_up_and_tell<L: Sink>(
    alloc: Global,
    core: &Core,
    request: &Request,
    error: &OpenError,
    log: &mut L,
) -> Handled
    ensures gives { GivesUp error.now result }
    ensures tells { Tells (request_line (request_of request.now) [] (sent_of result).status ++ job_lines false (core_state core.now).job)
        (log_state (L.told log.old) (L.faults log.old)) (log_state (L.told log.new) (L.faults log.new)) }
{
    let handled = given_up(alloc, error);
    let changed = Ok(KeyList::new(alloc));
    let lines = lines_of(alloc, request, changed, &handled, false, core.job());
    tell(log, lines);
    handled
}

/// Handles a request: it is planned, its answer is printed, and only then it is committed; so out of memory never comes after a write.
/// For the states of the configuration files these are read and rendered, and the answer is printed; nothing is written.
///
/// Where a call of the disk has failed and no opening has succeeded since, the store is opened again first, without boot; where that
/// fails or is refused the request is given up, and the core is as before. Then the request is one step of the machine: what it makes
/// of what is held is on the disk before it is answered with success.
///
/// - `DiskFault`: a call of the disk failed. The request was taken wholly or not at all, it began no job, and a running one has failed.
/// - `NotOpened`: the store could not be opened again, because of what is there; this never comes where the image is as before.
/// - `Memory` may come at any time, and changes nothing but that the store may have been opened again.
///
/// The opening, if it succeeded, and then the request with its status are told to the log, before this returns. A log that fails ends
/// nothing.
///
/// A refusal of the machine, a 4xx, comes exactly by the machine, and writes nothing. It takes the time of `Core::plan` and
/// `Core::commit`, or of `Core::verify`, and of printing the answer, and after a fault that of `open_store`. Each key of a `Patch` or a
/// `Set` begins with `settings`.
pub fn handle<D: Disk, L: Sink>(
    alloc: Global,
    core: &mut Core,
    request: &Request,
    disk: &mut D,
    log: &mut L,
) -> Handled
    requires sound { IsSound core.old }
    requires proper { IsProper (request_of request.now) }

    // It is one request of the machine, with the reopening before it, on the disk and in the core, crash included; and both are logged.
    ensures handles { Moves (D.told disk.old) (D.told disk.new)
        (Handles core.old (request_of request.now) result core.new
        (log_state (L.told log.old) (L.faults log.old)) (log_state (L.told log.new) (L.faults log.new))) }
    ensures sound { IsSound core.new }
    ensures calm { IsAnswered result → (core_state core.new).faulted ≡ false }

    // Where no call of the disk has failed before, running out of memory, a refusal and a reading leave the disk as it was.
    ensures quiet { (core_state core.old).faulted ≡ false → ChangesNothing (request_of request.now) result
        → D.told disk.new ≡ D.told disk.old }

    // The causes of what doesn't come by the machine alone.
    ensures cause { HasDiskCause (D.faults disk.old) (D.faults disk.new) result }
    ensures store { IsNotOpened result → IsRefused core.old result (D.told disk.old) (D.told disk.new) }
    ensures other { IsNotOpened result → Moves (D.told disk.old) (D.told disk.new) (IsOtherStore core.old) }
{
    if core.faulted() {
        if let Err(error) = core.reopen(alloc, disk) {
            return give_up_and_tell(alloc, core, request, &error, log);
        }
        tell(log, opened_line(alloc, core.version(), &core.held().owed));
    }
    answer_and_tell(alloc, core, request, disk, log)
}
