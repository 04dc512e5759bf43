//! Requests are asked: each is planned and then committed.
ghost use Rattle.std.specs.Prelude.{◌≡◌, All, IfOk, IfErr, OnOk, false};
ghost use Rattle.outside.specs.Told.{Moves};
ghost use Rattle.outside.specs.Faults.{HasCauseOf};
ghost use Rattle.settings_machine.specs.Asked.{request_of};
ghost use Rattle.api_core.specs.Cores.{core_state, IsSound};
ghost use Rattle.machine_answers.specs.Replies.{reply_of, MayPrint};
ghost use Rattle.core_commands.specs.Asking.{AsksEach, AsksFor, IsPlannable, TellsReply, requests};
ghost use Rattle.core_commands.specs.Committing.{IsBodyLine};
ghost use Rattle.core_commands.specs.Handing.{IsOfRequest};

use crate::lines::{bytes_line, line_of};
use api_core::{Core, Planned};
use command_outcome::Refusal;
use key_names::Bytes;
use machine_answers::Answer;
use outside::Disk;
use settings_machine::Request;
use std::alloc::{AllocError, Global};

// Why a request was refused, if it was.
fn refused(answer: Answer) -> Result<(), Refusal>
    ensures { TellsReply (λ reply done. Unit {0}) (reply_of answer) result }
{
    match answer {
        Answer::Said(_) | Answer::File(_) | Answer::Empty => Ok(()),
        Answer::Refused(refusal) => Err(Refusal::Refused(refusal)),
    }
}

// Asks one request.
fn ask<D: Disk>(
    alloc: Global,
    core: &mut Core,
    request: &Request,
    disk: &mut D,
) -> Result<(), Refusal>
    requires sound { IsSound core.old }
    requires calm { (core_state core.old).faulted ≡ false }
    requires plannable { IsPlannable (request_of request.now) }
    ensures asks { Moves (D.told disk.old) (D.told disk.new)
        (AsksFor (request_of request.now) (λ reply done. Unit {0}) result core.old core.new) }
    ensures sound { IsSound core.new }
    ensures calm { OnOk result ((core_state core.new).faulted ≡ false) }
    ensures of_request { IfErr result IsOfRequest }
    ensures cause { HasCauseOf Refusal.Disk (D.faults disk.old) (D.faults disk.new) result }
{
    let Planned { answer, effect } = core.plan(alloc, request)?;
    core.commit(alloc, disk, effect)?;
    refused(answer)
}

/// Asks one request after another, until one isn't answered with success. No call of the disk has failed since the store was opened,
/// each key of a `Patch` or a `Set` begins with `settings`, and none of them reads the configuration files.
///
/// `Refused` comes exactly where the machine refuses a request, `Disk` where the disk failed, and `Memory` where it ran out of memory.
pub(crate) fn ask_each<D: Disk>(
    alloc: Global,
    core: &mut Core,
    asks: &[Request],
    disk: &mut D,
) -> Result<(), Refusal>
    requires sound { IsSound core.old }
    requires calm { (core_state core.old).faulted ≡ false }
    requires plannable { All (λ ask. IsPlannable (request_of ask)) asks.now }

    // They are requests of the machine, on the disk and in the core, crash included.
    ensures asks { Moves (D.told disk.old) (D.told disk.new)
        (AsksEach (requests asks.now) result core.old core.new) }
    ensures sound { IsSound core.new }
    ensures calm { OnOk result ((core_state core.new).faulted ≡ false) }
    ensures of_request { IfErr result IsOfRequest }
    ensures cause { HasCauseOf Refusal.Disk (D.faults disk.old) (D.faults disk.new) result }
{
    for request in asks {
        ask(alloc, core, request, disk)?;
    }
    Ok(())
}

// The line that tells an answer, or why the request was refused; the error is out of memory.
fn line_told(alloc: Global, answer: Answer) -> Result<Result<Bytes, Refusal>, AllocError>
    requires { MayPrint answer }
    ensures { IfOk result (TellsReply IsBodyLine (reply_of answer)) }
{
    match answer {
        Answer::Said(body) => Ok(Ok(line_of(alloc, &body.text(alloc)?)?)),
        Answer::File(bytes) => Ok(Ok(bytes_line(alloc, bytes.as_slice())?)),
        Answer::Empty => Ok(Ok(Bytes::of(Vec::new(alloc)))),
        Answer::Refused(refusal) => Ok(Err(Refusal::Refused(refusal))),
    }
}

/// Asks one request, and answers the text of what it is answered, and a line feed, which is printed before anything is written.
/// It is for a core like that of `ask_each`, and its errors tell the same.
pub(crate) fn ask_and_print<D: Disk>(
    alloc: Global,
    core: &mut Core,
    request: &Request,
    disk: &mut D,
) -> Result<Bytes, Refusal>
    requires sound { IsSound core.old }
    requires calm { (core_state core.old).faulted ≡ false }
    requires plannable { IsPlannable (request_of request.now) }
    ensures asks { Moves (D.told disk.old) (D.told disk.new)
        (AsksFor (request_of request.now) IsBodyLine result core.old core.new) }
    ensures sound { IsSound core.new }
    ensures of_request { IfErr result IsOfRequest }
    ensures cause { HasCauseOf Refusal.Disk (D.faults disk.old) (D.faults disk.new) result }
{
    let Planned { answer, effect } = core.plan(alloc, request)?;
    let line = line_told(alloc, answer)?;
    core.commit(alloc, disk, effect)?;
    line
}
