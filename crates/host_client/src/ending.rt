//! Ends of a run of questions.
ghost use Rattle.std.specs.Prelude.{◌≡◌, ◌++◌, IfOk};
ghost use Rattle.host_client.specs.Steps.{IsSound, asking, ended, ended_by, shown_by, refused_by, bad_reply, is_success};
ghost use Rattle.host_client.specs.Steps.{body_line, settings_line, refused_line};

use crate::question::is_question;
use crate::reply::Got;
use crate::step::{Ending, Question, Step};
use itoa::Buffer;
use key_names::Bytes;
use std::alloc::{AllocError, Global};

/// One of the ends of a run of questions.
pub(crate) fn ended(status: u8, line: Vec<u8>) -> Step
    ensures { result ≡ ended status line.items }
{
    Step::End {
        ending: Ending {
            status,
            line: Bytes::of(line),
        },
    }
}

/// The question, where it can be asked.
pub(crate) fn asking(alloc: Global, question: Question) -> Result<Step, AllocError>
    ensures step { IfOk result (λ step. step ≡ asking question) }
    ensures sound { IfOk result IsSound }
{
    let body = question.body.as_ref().map(|body| body.as_slice());
    if is_question(question.method.as_slice(), question.target.as_slice(), body) {
        Ok(Step::Ask { question })
    } else {
        Ok(ended(2, b"settingsctl: usage\n".to_vec(alloc)?))
    }
}

/// The bytes of the body as a line, nothing of an empty one.
pub(crate) fn body_line(alloc: Global, body: &[u8]) -> Result<Vec<u8>, AllocError>
    ensures { IfOk result (λ line. line.items ≡ body_line body.now) }
{
    let mut line = body.to_vec(alloc)?;
    if !body.is_empty() {
        line.extend_from_slice(b"\n")?;
    }
    Ok(line)
}

/// The front and this text.
pub(crate) fn joined(alloc: Global, front: &[u8], text: &[u8]) -> Result<Vec<u8>, AllocError>
    ensures { IfOk result (λ line. line.items ≡ front.now ++ text.now) }
{
    let mut line = front.to_vec(alloc)?;
    line.extend_from_slice(text)?;
    Ok(line)
}

fn refused_line(alloc: Global, reply: &Got) -> Result<Vec<u8>, AllocError>
    ensures { IfOk result (λ line. line.items ≡ refused_line reply.now.status reply.now.body) }
{
    let mut buffer = Buffer::new();
    let mut line = b"settingsctl: refused ".to_vec(alloc)?;
    line.extend_from_slice(buffer.format(reply.status).as_bytes())?;
    line.extend_from_slice(b" ")?;
    line.extend_from_slice(reply.body.as_slice())?;
    line.extend_from_slice(b"\n")?;
    Ok(line)
}

/// Whether the status is one of 200 to 299.
pub(crate) fn is_success(reply: &Got) -> bool
    ensures { result ≡ is_success reply.now.status }
{
    200 <= reply.status && reply.status <= 299
}

/// The end by a refusal, after what was to be printed before.
pub(crate) fn refused_by(alloc: Global, front: &[u8], reply: &Got) -> Result<Step, AllocError>
    ensures step { IfOk result (λ step. step ≡ refused_by front.now reply.now) }
    ensures sound { IfOk result IsSound }
{
    let line = refused_line(alloc, reply)?;
    let line = joined(alloc, front, &line)?;
    Ok(ended(13, line))
}

/// The end by a reply: the body of a success, or a refusal.
pub(crate) fn ended_by(alloc: Global, reply: &Got) -> Result<Step, AllocError>
    ensures step { IfOk result (λ step. step ≡ ended_by reply.now) }
    ensures sound { IfOk result IsSound }
{
    if is_success(reply) {
        let line = body_line(alloc, reply.body.as_slice())?;
        Ok(ended(0, line))
    } else {
        refused_by(alloc, &[], reply)
    }
}

/// What is below `settings` as a line, as `settings get` prints it.
pub(crate) fn settings_line(alloc: Global, tree: &[u8]) -> Result<Vec<u8>, AllocError>
    ensures { IfOk result (λ line. line.items ≡ settings_line tree.now) }
{
    let mut line = b"{\"settings\":".to_vec(alloc)?;
    line.extend_from_slice(tree)?;
    line.extend_from_slice(b"}\n")?;
    Ok(line)
}

/// The end by a reply whose body is printed as it is, or a refusal.
pub(crate) fn shown_by(alloc: Global, reply: &Got) -> Result<Step, AllocError>
    ensures step { IfOk result (λ step. step ≡ shown_by reply.now) }
    ensures sound { IfOk result IsSound }
{
    if is_success(reply) {
        Ok(ended(0, reply.body.as_slice().to_vec(alloc)?))
    } else {
        refused_by(alloc, &[], reply)
    }
}

/// The end by a reply that can't be read.
pub(crate) fn bad_reply(alloc: Global) -> Result<Step, AllocError>
    ensures step { IfOk result (λ step. step ≡ bad_reply) }
    ensures sound { IfOk result IsSound }
{
    Ok(ended(21, b"settingsctl: bad reply\n".to_vec(alloc)?))
}
