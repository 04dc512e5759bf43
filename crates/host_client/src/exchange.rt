//! One question over a link, and its reply.
ghost use Rattle.std.specs.Prelude.{◌≡◌, ◌≤◌, ◌<◌, List, ℕ, true, length, IfOk, OnOk, IsErrOf};
ghost use Rattle.std.specs.Option.{option_copied};
ghost use Rattle.outside.specs.Told.{Moves};
ghost use Rattle.outside.specs.Faults.{HasCause, HasCauseOf};
ghost use Rattle.outside.specs.Exchange.{Exchange};
ghost use Rattle.host_client.specs.Question.{is_question, ask_text};
ghost use Rattle.host_client.specs.Exchanges.{IsSent, IsSentInPart, IsHeard, IsHeardToEnd, IsWhole, IsAnswered, IsAnsweredBadly, IsAnsweredAtLength};

use crate::exchange_error::AskError;
use crate::question::question_text;
use crate::reply::{Got, read_reply};
use crate::reply_error::ReplyError;
use outside::{Failed, Link};
use std::alloc::Global;

const MOST_INPUT: usize = 16_777_216;

// Writes the whole text.
#[tactic(auto, using(crate::proofs::Sendings::sendings))]
fn send<L: Link>(link: &mut L, text: &[u8]) -> Result<(), Failed>
    requires { L.connected link.old ≡ true }
    ensures connected { L.connected link.new ≡ true }
    ensures sent { OnOk result (Moves (L.told link.old) (L.told link.new) (IsSent text.now)) }
    ensures in_part { Moves (L.told link.old) (L.told link.new) (IsSentInPart text.now) }
    ensures cause { HasCause (L.faults link.old) (L.faults link.new) result }
{
    let mut rest = text;
    while !rest.is_empty() {
        let taken = link.write(rest)?;
        rest = &rest[taken..];
    }
    Ok(())
}

// Reads the input to its end, as long as it has no more bytes than it may have.
#[tactic(auto, using(crate::proofs::Hearings::hearings))]
fn receive<L: Link>(alloc: Global, link: &mut L) -> Result<Vec<u8>, AskError>
    requires { L.connected link.old ≡ true }
    ensures whole { IfOk result (λ bytes. Moves (L.told link.old) (L.told link.new) (IsHeardToEnd bytes.items)) }
    ensures within { IfOk result (λ bytes. length bytes.items ≤ 16777216) }
    ensures long { IsErrOf result AskError.TooLong
        → (bytes : List ℕ) × (16777216 < length bytes) × Moves (L.told link.old) (L.told link.new) (IsHeard bytes) }
    ensures unwritten { Moves (L.told link.old) (L.told link.new) (λ old new. new.written ≡ old.written) }
    ensures read { IsErrOf result AskError.BadReply → ⊥ }
    ensures cause { HasCauseOf AskError.Failed (L.faults link.old) (L.faults link.new) result }
{
    let mut room = [0u8; 4096];
    let mut bytes = Vec::new(alloc);
    while bytes.len() <= MOST_INPUT {
        let count = link.read(&mut room)?;
        if count == 0 {
            return Ok(bytes);
        }
        bytes.extend_from_slice(&room[..count])?;
    }
    Err(AskError::TooLong)
}

// Connects, writes the text, and reads the input to its end.
#[tactic(auto, using(crate::proofs::Hearings::hearings))]
fn exchange<L: Link>(alloc: Global, link: &mut L, text: &[u8]) -> Result<Vec<u8>, AskError>
    ensures whole { IfOk result (λ bytes. Moves (L.told link.old) (L.told link.new) (IsWhole text.now bytes.items)) }
    ensures long { IsErrOf result AskError.TooLong → Moves (L.told link.old) (L.told link.new) (IsAnsweredAtLength text.now) }
    ensures in_part { Moves (L.told link.old) (L.told link.new) (IsSentInPart text.now) }
    ensures read { IsErrOf result AskError.BadReply → ⊥ }
    ensures cause { HasCauseOf AskError.Failed (L.faults link.old) (L.faults link.new) result }
{
    link.connect()?;
    send(link, text)?;
    receive(alloc, link)
}

/// Asks the server one question over the link, a method as `GET`, a target as `/settings` and maybe a body, and reads
/// its whole answer.
///
/// The link is connected, the question's text is written, and the input is read to its end as one reply. `Failed`
/// only where the link's count of faults rose; `BadReply` exactly where the input up to its end, at most 16,777,216
/// bytes, is no reply; `TooLong` exactly where more bytes than that were read, which then stops. After `Memory` the
/// question may have been sent. Never are other bytes written than those of the text, from the first on.
pub fn ask<L: Link>(
    alloc: Global,
    link: &mut L,
    method: &[u8],
    target: &[u8],
    body: Option<&[u8]>,
) -> Result<Got, AskError>
    requires { is_question method.now target.now (option_copied body) ≡ true }
    ensures answered { IfOk result (λ got. Moves (L.told link.old) (L.told link.new)
        (IsAnswered got.status got.body (ask_text method.now target.now (option_copied body.entry)))) }
    ensures badly { IsErrOf result AskError.BadReply → Moves (L.told link.old) (L.told link.new)
        (IsAnsweredBadly (ask_text method.now target.now (option_copied body.entry))) }
    ensures at_length { IsErrOf result AskError.TooLong → Moves (L.told link.old) (L.told link.new)
        (IsAnsweredAtLength (ask_text method.now target.now (option_copied body.entry))) }
    ensures in_part { Moves (L.told link.old) (L.told link.new)
        (IsSentInPart (ask_text method.now target.now (option_copied body.entry))) }
    ensures cause { HasCauseOf AskError.Failed (L.faults link.old) (L.faults link.new) result }
{
    let text = question_text(alloc, method, target, body)?;
    let bytes = exchange(alloc, link, &text)?;
    match read_reply(alloc, &bytes) {
        Ok(got) => Ok(got),
        Err(ReplyError::BadReply) => Err(AskError::BadReply),
        Err(ReplyError::Memory) => Err(AskError::Memory),
    }
}
