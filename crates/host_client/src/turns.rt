//! Questions are asked, one after another, each over a link of its own.
ghost use Rattle.std.specs.Prelude.{◌≡◌, ◌⊎◌, true, map, MatchOption, IfOk, IsErr, IsErrOf};
ghost use Rattle.outside.specs.Told.{Moves};
ghost use Rattle.outside.specs.Faults.{HasCauseOf};
ghost use Rattle.host_client.specs.Exchanges.{IsSentInPart, IsAnswered, IsAnsweredBadly, IsAnsweredAtLength};
ghost use Rattle.host_client.specs.Question.{is_question};
ghost use Rattle.host_client.specs.Orders.{order_of};
ghost use Rattle.host_client.specs.Steps.{next};
ghost use Rattle.host_client.specs.declared.step.Question.{Question};
ghost use Rattle.host_client.specs.Ended.{AsksNext, IsTurn, MayAsk, IsAtEnd, IsAsking, IsUnfinished, IsStopped, AnyRose, EndsHere, text_of};

use crate::command::Command;
use crate::exchange::ask;
use crate::exchange_error::AskError;
use crate::next::next_of;
use crate::reply::Got;
use crate::step::{Ending, Question, Step};
use crate::stop::Stop;
use outside::Link;
use std::alloc::Global;

// The reply to a question that can be asked.
fn reply_to<L: Link>(alloc: Global, link: &mut L, question: &Question) -> Result<Got, Stop>
    requires { is_question question.now.method question.now.target question.now.body ≡ true }
    ensures answered { IfOk result (λ got. Moves (L.told link.old) (L.told link.new)
        (IsAnswered got.status got.body (text_of question.now))) }
    ensures badly { IsErrOf result Stop.BadReply
        → Moves (L.told link.old) (L.told link.new) (IsAnsweredBadly (text_of question.now)) }
    ensures at_length { IsErrOf result Stop.TooLong
        → Moves (L.told link.old) (L.told link.new) (IsAnsweredAtLength (text_of question.now)) }
    ensures in_part { Moves (L.told link.old) (L.told link.new) (IsSentInPart (text_of question.now)) }
    ensures finished { IsErrOf result Stop.Unfinished → ⊥ }
    ensures cause { HasCauseOf Stop.Link (L.faults link.old) (L.faults link.new) result }
{
    let body = question.body.as_ref().map(|body| body.as_slice());
    match ask(
        alloc,
        link,
        question.method.as_slice(),
        question.target.as_slice(),
        body,
    ) {
        Ok(got) => Ok(got),
        Err(AskError::Failed) => Err(Stop::Link),
        Err(AskError::BadReply) => Err(Stop::BadReply),
        Err(AskError::TooLong) => Err(Stop::TooLong),
        Err(AskError::Memory) => Err(Stop::Memory),
    }
}

// One turn: the order ends, or its next question is asked over the link and the reply is added.
fn turn<L: Link>(
    alloc: Global,
    command: &Command<'_>,
    replies: &mut Vec<Got>,
    link: &mut L,
) -> Result<Option<Ending>, Stop>
    ensures went { IfOk result (λ o. MatchOption o
        (IsTurn (order_of command.now) replies.old.items replies.new.items (L.told link.old) (L.told link.new))
        (λ ending. EndsHere (order_of command.now) replies.old.items ending (L.told link.old) (L.told link.new))) }
    ensures badly { IsErrOf result Stop.BadReply
        → AsksNext IsAnsweredBadly (order_of command.now) replies.old.items (L.told link.old) (L.told link.new) }
    ensures at_length { IsErrOf result Stop.TooLong
        → AsksNext IsAnsweredAtLength (order_of command.now) replies.old.items (L.told link.old) (L.told link.new) }
    ensures in_part { IsErrOf result Stop.Link
        → AsksNext IsSentInPart (order_of command.now) replies.old.items (L.told link.old) (L.told link.new) }
    ensures memory { IsErrOf result Stop.Memory
        → MayAsk (order_of command.now) replies.old.items (L.told link.old) (L.told link.new) }
    ensures finished { IsErrOf result Stop.Unfinished → ⊥ }
    ensures cause { HasCauseOf Stop.Link (L.faults link.old) (L.faults link.new) result }
{
    let step = match next_of(alloc, command, replies) {
        Ok(step) => step,
        Err(_) => return Err(Stop::Memory),
    };
    let question = match step {
        Step::Ask { question } => question,
        Step::End { ending } => return Ok(Some(ending)),
    };
    let got = reply_to(alloc, link, &question)?;
    match replies.push(got) {
        Ok(()) => Ok(None),
        Err(_) => Err(Stop::Memory),
    }
}

// What is left to do where no link is.
fn last_step(alloc: Global, command: &Command<'_>, replies: &[Got]) -> Result<Ending, Stop>
    ensures ended { IfOk result (λ ending. next (order_of command.now) replies.now ≡ Step.End ending) }
    ensures unfinished { IsErrOf result Stop.Unfinished
        → (question : Question) × (next (order_of command.now) replies.now ≡ Step.Ask question) }
    ensures others { IsErr result → (IsErrOf result Stop.Unfinished ⊎ IsErrOf result Stop.Memory) }
{
    match next_of(alloc, command, replies) {
        Ok(Step::End { ending }) => Ok(ending),
        Ok(Step::Ask { .. }) => Err(Stop::Unfinished),
        Err(_) => Err(Stop::Memory),
    }
}

/// Carries out what is ordered, over as many of the links as there are questions, from the first on.
///
/// `Link` only where the count of faults of a link rose; `BadReply` and `TooLong` as of `ask`; `Unfinished` where each
/// link was used and there is a further question. After `Memory` some questions may have been sent.
pub(crate) fn carry_out<L: Link>(
    alloc: Global,
    command: &Command<'_>,
    links: &mut [L],
) -> Result<Ending, Stop>
    ensures ended { IfOk result (λ ending.
        IsAtEnd (order_of command.now) ending (map L.told links.old) (map L.told links.new)) }
    ensures badly { IsErrOf result Stop.BadReply
        → IsAsking IsAnsweredBadly (order_of command.now) (map L.told links.old) (map L.told links.new) }
    ensures at_length { IsErrOf result Stop.TooLong
        → IsAsking IsAnsweredAtLength (order_of command.now) (map L.told links.old) (map L.told links.new) }
    ensures in_part { IsErrOf result Stop.Link
        → IsAsking IsSentInPart (order_of command.now) (map L.told links.old) (map L.told links.new) }
    ensures unfinished { IsErrOf result Stop.Unfinished
        → IsUnfinished (order_of command.now) (map L.told links.old) (map L.told links.new) }
    ensures memory { IsErrOf result Stop.Memory
        → IsStopped (order_of command.now) (map L.told links.old) (map L.told links.new) }
    ensures rose { IsErrOf result Stop.Link → AnyRose (map L.faults links.old) (map L.faults links.new) }
    ensures kept { (IsErrOf result Stop.Link → ⊥) → map L.faults links.new ≡ map L.faults links.old }
{
    let mut replies = Vec::new(alloc);
    for i in 0..links.len() {
        match turn(alloc, command, &mut replies, &mut links[i]) {
            Ok(None) => {}
            Ok(Some(ending)) => return Ok(ending),
            Err(stop) => return Err(stop),
        }
    }
    last_step(alloc, command, &replies)
}
