//! A reply is read.
ghost use Rattle.std.specs.Prelude.{◌≡◌, ◌≤◌, ℕ, List, length, drop, IfOk, IfSome, IfNone, IsErrOf, MatchResult};
ghost use Rattle.host_client.specs.Reply.{IsReply, IsNoReply};

use crate::length::fits;
use crate::reply_error::ReplyError;
use httparse::Status;
use httparse::spans::{EMPTY_HEADER_SPAN, parse_response};
use key_names::Bytes;
use std::alloc::Global;

/// What was answered: a status, as 200, and the bytes after the head.
#[derive(Debug, Drop)]
pub struct Got {
    /// The status, below 1,000.
    pub status: u16,
    /// The body, in any form.
    pub body: Bytes,
}

const MOST_FIELDS: usize = 64;

// The status of the reply, and where its body begins; none where the bytes are no reply.
fn parts_of(bytes: &[u8]) -> Option<(u16, usize)>
    ensures reply { IfSome result (λ p. IsReply bytes.now p.0 (drop p.1 bytes.now)) }
    ensures within { IfSome result (λ p. p.1 ≤ length bytes.now) }
    ensures none { IfNone result (IsNoReply bytes.now) }
{
    let mut headers = [EMPTY_HEADER_SPAN; MOST_FIELDS];
    let Ok(Status::Complete(head)) = parse_response(bytes, &mut headers) else {
        return None;
    };
    let (fields, _) = headers.split_at(head.headers);
    if fits(bytes, fields, bytes.len() - head.len) {
        Some((head.code, head.len))
    } else {
        None
    }
}

/// Reads all of the bytes as one reply: a response head (RFC 9112, as `httparse` reads it by default) with at most 64
/// fields, and then the body.
///
/// `BadReply` exactly where the bytes don't begin with such a head, or it has more than one Content-Length, or one whose
/// value isn't digits that give the number of the bytes after the head; that takes no memory. `Memory` where it runs
/// out of memory for the body. The cost is that of the bytes.
pub fn read_reply(alloc: Global, bytes: &[u8]) -> Result<Got, ReplyError>
    ensures reply { IfOk result (λ got. IsReply bytes.now got.status got.body) }
    ensures every { (status : ℕ) (body : List ℕ) → IsReply bytes.now status body
        → MatchResult result (λ got. (got.status ≡ status) × (got.body ≡ body)) (λ e. e ≡ ReplyError.Memory) }
    ensures refused { IsErrOf result ReplyError.BadReply → IsNoReply bytes.now }
    ensures refuses { IsNoReply bytes.now → IsErrOf result ReplyError.BadReply }
{
    let Some((status, start)) = parts_of(bytes) else {
        return Err(ReplyError::BadReply);
    };
    let body = bytes[start..].to_vec(alloc)?;
    Ok(Got {
        status,
        body: Bytes::of(body),
    })
}
