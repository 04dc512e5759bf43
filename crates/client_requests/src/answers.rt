//! Replies of the server, as the client reads them.
ghost use Rattle.std.specs.Prelude.{◌≡◌, MatchResult};
ghost use Rattle.machine_answers.specs.Replies.{reply_of, MayPrint};
ghost use Rattle.api_http.specs.Replies.{Sent, refused};
ghost use Rattle.api_http.specs.Says.{Says};
ghost use Rattle.client_requests.specs.Answered.{IsReplied, IsHeard};

use api_http::{Refusal, print_answer, print_refusal};
use host_client::{Got, ReplyError, read_reply};
use machine_answers::Answer;
use std::alloc::Global;

/// What the client reads where the server sends what the machine answers: the status and the body of a reply that says it; the
/// body is empty for `Answer::Empty`.
///
/// What is said can be printed (`MayPrint`). It is never `BadReply`; the only error is out of memory. The cost is that of
/// printing the answer.
pub fn read_answer(alloc: Global, answer: &Answer) -> Result<Got, ReplyError>
    requires { MayPrint answer.now }
    ensures reply { (sent : Sent) → Says (reply_of answer.now) sent → IsReplied sent }
    ensures read { MatchResult result
        (λ got. IsHeard (reply_of answer.now) got.status got.body) (λ e. e ≡ ReplyError.Memory) }
{
    let reply = print_answer(alloc, answer)?;
    read_reply(alloc, reply.bytes())
}

/// What the client reads where the server sends a refusal of HTTP: its status and its body. It is never `BadReply`; the only
/// error is out of memory. The cost is that of printing the refusal.
pub fn read_refusal(alloc: Global, refusal: &Refusal) -> Result<Got, ReplyError>
    ensures reply { IsReplied (refused refusal.now) }
    ensures read { MatchResult result
        (λ got. (got.status ≡ (refused refusal.now).status) × (got.body ≡ (refused refusal.now).body)) (λ e. e ≡ ReplyError.Memory) }
{
    let reply = print_refusal(alloc, refusal)?;
    read_reply(alloc, reply.bytes())
}
