//! Replies of what the machine answers.
ghost use Rattle.std.specs.Prelude.{◌≡◌, [], IfOk, codes};
ghost use Rattle.settings_machine.specs.Requests.{Said, Refused};
ghost use Rattle.machine_answers.specs.Replies.{body_of, reply_of, MayNest, MayPrint};
ghost use Rattle.api_http.specs.Replies.{with_body};
ghost use Rattle.api_http.specs.Says.{Says, phrase_of};

use crate::Reply;
use crate::reply::{file_reply, json_reply};
use key_names::Text;
use machine_answers::{Answer, Body, refusal_text};
use settings_machine::Refusal;
use std::alloc::{AllocError, Global};

fn said_reply(alloc: Global, body: &Body) -> Result<Reply, AllocError>
    requires { MayNest body.now }
    ensures { IfOk result (Says (Said (body_of body.now))) }
{
    let text = body.text(alloc)?;
    print_text(alloc, &text)
}

// The phrase of the status of a refusal.
fn phrase_of(refusal: &Refusal) -> &'static str
    ensures { result.now ≡ phrase_of refusal.now }
{
    match refusal {
        Refusal::BadType { .. } => "Bad Request",
        Refusal::NoKey { .. } | Refusal::NoName { .. } => "Not Found",
        Refusal::NoPending { .. } | Refusal::NotRendered { .. } => "Unprocessable Content",
    }
}

fn told_reply(alloc: Global, refusal: &Refusal) -> Result<Reply, AllocError>
    ensures { IfOk result (Says (Refused refusal.now)) }
{
    let text = refusal_text(alloc, refusal)?;
    json_reply(alloc, refusal.status(), phrase_of(refusal), &text)
}

/// The reply with HTTP status 200 and this text, compact JSON, as its body, as `print_answer` prints one. The only error is out of memory.
pub fn print_text(alloc: Global, text: &Text) -> Result<Reply, AllocError>
    ensures { IfOk result (λ reply. reply ≡ with_body (200, codes "OK") [] text.now) }
{
    json_reply(alloc, 200, "OK", text)
}

/// The reply of what the machine answers, as HTTP/1.1 (RFC 9112).
///
/// With a body it is the status line, `Content-Type: application/json`, `Content-Length` with the
/// decimal length of the body, `Connection: close`, an empty line and the body. What is said has HTTP
/// status 200 and its text as body; a file has HTTP status 200, its bytes as body, and the type
/// `application/octet-stream`; a refusal has its status, and its text, compact JSON whose names rise.
/// Without a body, 204, it is the status line, `Connection: close` and an empty line.
///
/// What is said can be printed (`MayPrint`). It takes time and memory linear in the body, and the time
/// of printing it; the only error is out of memory.
pub fn print_answer(alloc: Global, answer: &Answer) -> Result<Reply, AllocError>
    requires { MayPrint answer.now }
    ensures { IfOk result (Says (reply_of answer.now)) }
{
    match answer {
        Answer::Said(body) => said_reply(alloc, body),
        Answer::File(bytes) => file_reply(alloc, bytes.as_slice()),
        Answer::Empty => Ok(Reply::done()),
        Answer::Refused(refusal) => told_reply(alloc, refusal),
    }
}
