//! Bytes read as a request.
ghost use Rattle.std.specs.Prelude.{◌≡◌, ◌+◌, ◌<◌, ◌≤◌, ◌^◌, ◌++◌, ℕ, List, All, IfOk, IsOk, length, map};
ghost use Rattle.httparse.specs.Spans.{IsHeaderWithin, IsRequestOf, IsRequestWithin, header_bytes};
ghost use Rattle.api_http.specs.Requests.{Told, Asks, Refuses, MayRefuse, Waits, IfWhole, IfRefused, IsWhole};
ghost use Rattle.api_http.specs.Heads.{shown, HoldsNoHead, IsHopeless};
ghost use Rattle.settings_machine.specs.Requests as machine;
ghost use Rattle.api_http.specs.declared.refusal.Refusal.{Refusal};
ghost use Rattle.api_http.specs.Plans.{Tells, ReadsAs, planned_verdict, IsSoundLength};

use crate::body::request_with;
use crate::fields::{BodyLength, body_length, has_field};
use crate::head::{HeadError, head_of, shown_of};
use crate::plan::Plan;
use crate::target::aim_of;
use crate::verdict::{Aim, Verdict};
use crate::{Reading, Refusal};
use httparse::spans::{EMPTY_HEADER_SPAN, HeaderSpan, RequestSpans};
use std::alloc::{AllocError, Global};

// What a head with this plan comes to by its fields; the length is none where it is over the limit.
fn planned(plan: Plan, length: Option<usize>, coded: bool) -> Verdict
    ensures { result ≡ planned_verdict plan length coded }
{
    if coded {
        return Verdict::Refused {
            refusal: Refusal::Length,
        };
    }
    match length {
        Some(length) => Verdict::Planned { plan, length },
        None => Verdict::Refused {
            refusal: Refusal::BodyTooLong,
        },
    }
}

// What a whole head comes to whose length of the body is sound.
fn verdict_with(
    alloc: Global,
    method: &[u8],
    target: &[u8],
    part: &[u8],
    headers: &[HeaderSpan],
    size: Option<usize>,
) -> Result<Verdict, AllocError>
    requires within { All (IsHeaderWithin (length part.now)) headers.now }
    requires sound { IsSoundLength (map (header_bytes part.now) headers.now) size }
    ensures { IfOk result (Tells (record {
      method = method.now;
      target = target.now;
      fields = map (header_bytes part.now) headers.now;
    })) }
{
    match aim_of(alloc, method, target)? {
        Aim::Refused(refusal) => Ok(Verdict::Refused { refusal }),
        Aim::Planned(plan) => {
            let coded = has_field(part, headers, b"Transfer-Encoding");
            Ok(planned(plan, size, coded))
        }
    }
}

// What a whole head comes to.
fn verdict_of(
    alloc: Global,
    method: &[u8],
    target: &[u8],
    part: &[u8],
    headers: &[HeaderSpan],
) -> Result<Verdict, AllocError>
    requires { All (IsHeaderWithin (length part.now)) headers.now }
    ensures { IfOk result (Tells (record {
      method = method.now;
      target = target.now;
      fields = map (header_bytes part.now) headers.now;
    })) }
{
    match body_length(part, headers) {
        BodyLength::Bad => Ok(Verdict::Refused {
            refusal: Refusal::Head,
        }),
        BodyLength::Over => verdict_with(alloc, method, target, part, headers, None),
        BodyLength::Within(size) => {
            verdict_with(alloc, method, target, part, headers, Some(size))
        }
    }
}

// The request of a whole head of this size, with what follows it.
fn with_body(
    alloc: Global,
    verdict: Verdict,
    size: usize,
    rest: &[u8],
) -> Result<Reading, AllocError>
    requires { size + length rest.now < 2 ^ 64 }
    ensures { IfOk result (λ reading. (t : Told) → Tells t verdict → ReadsAs t rest.now size reading) }
{
    match verdict {
        Verdict::Refused { refusal } => Ok(Reading::Refused { refusal }),
        Verdict::Planned { plan, length } => {
            if rest.len() < length {
                return Ok(Reading::NotYet);
            }
            match request_with(alloc, plan, &rest[..length])? {
                Some(request) => Ok(Reading::Whole {
                    request,
                    length: size + length,
                }),
                None => Ok(Reading::Refused {
                    refusal: Refusal::Body,
                }),
            }
        }
    }
}

// The request whose head was found in the part of the bytes that may hold it.
fn reading_at(
    alloc: Global,
    bytes: &[u8],
    part: &[u8],
    head: RequestSpans,
    headers: &[HeaderSpan],
) -> Result<Reading, AllocError>
    requires part { part.now ≡ shown bytes.now }
    requires within { IsRequestWithin part.now headers.now head }
    requires head { IsRequestOf part.now headers.now head }
    ensures whole { IfOk result (λ reading. IfWhole reading (Asks bytes.now)) }
    ensures refused { IfOk result (λ reading. IfRefused reading (MayRefuse bytes.now)) }
    ensures not_yet { IfOk result (λ reading. reading ≡ Reading.NotYet → Waits bytes.now) }
{
    let (fields, _) = headers.split_at(head.headers);
    let (_, rest) = bytes.split_at(head.len);
    let method = head.method.of(part);
    let target = head.path.of(part);
    let verdict = verdict_of(alloc, method, target, part, fields)?;
    with_body(alloc, verdict, head.len, rest)
}

// The request that the bytes are.
fn reading_of(alloc: Global, bytes: &[u8]) -> Result<Reading, AllocError>
    ensures whole { IfOk result (λ reading. IfWhole reading (Asks bytes.now)) }
    ensures refused { IfOk result (λ reading. IfRefused reading (MayRefuse bytes.now)) }
    ensures not_yet { IfOk result (λ reading. reading ≡ Reading.NotYet → Waits bytes.now) }
    ensures free { HoldsNoHead bytes.now → IsOk result }
{
    let mut headers = [EMPTY_HEADER_SPAN; 64];
    let (part, full) = shown_of(bytes);
    match head_of(bytes, part, full, &mut headers) {
        Ok(head) => reading_at(alloc, bytes, part, head, &headers),
        Err(HeadError::NotYet) => Ok(Reading::NotYet),
        Err(HeadError::TooLong) => Ok(Reading::Refused {
            refusal: Refusal::HeadTooLong,
        }),
        Err(HeadError::Refused) => Ok(Reading::Refused {
            refusal: Refusal::Head,
        }),
    }
}

/// What the bytes are, read as a request of HTTP/1.0 or 1.1 (RFC 9112).
///
/// A request is a head, as `httparse` reads it, of at most 64 fields, 66 lines and 16,384 bytes, and
/// as many bytes of body as its Content-Length says, none without one. Fields are told apart by their names
/// without case; of them Content-Length and Transfer-Encoding alone count. The target is split at its
/// first `?`; the path is one of the table byte for byte, and the query is read as a form. The body of
/// a `PATCH` and of a `POST` of `/set` is a JSON tree of settings, and every other is passed over. What
/// follows the request is left alone.
///
/// - `Whole` comes exactly where the bytes begin with a whole request that nothing refuses, with which
///   of the machine's it is and its length.
/// - `Refused` comes exactly where the bytes show a refusal, with the first by the order of `Refusal`;
///   those before `Body` don't wait for the body.
/// - `NotYet` comes exactly where there is no whole head, no fault and room for more, or where the
///   head is whole and nothing in it is refused, but part of the body is missing.
///
/// A hopeless head is one that no bytes can complete and that is neither too long nor has too many
/// lines. It may be refused as `Head` at once, or as soon as it is full.
///
/// More bytes change neither a request nor a refusal once it is there, and each proper part of a whole
/// request is `NotYet`. A caller that gets a request in pieces asks `bytes_wanted` how long to wait.
///
/// It takes time linear in the bytes of the request, up to a logarithm for a tree, and memory a few
/// times that for what is asked. The only error is out of memory, which doesn't come before there is
/// a whole head.
pub fn read_request(alloc: Global, bytes: &[u8]) -> Result<Reading, AllocError>
    ensures whole { IfOk result (λ reading. IfWhole reading (Asks bytes.now)) }
    ensures refused { IfOk result (λ reading. IfRefused reading (MayRefuse bytes.now)) }
    ensures not_yet { IfOk result (λ reading. reading ≡ Reading.NotYet → Waits bytes.now) }

    // So exactly the whole requests are read, and, but for a hopeless head, exactly the first refusal
    // is answered, and exactly what is waited for.
    ensures every_whole { IfOk result (λ reading. (q : machine.Request) (n : ℕ) → Asks bytes.now q n
        → IsWhole reading q n) }
    ensures every_refused { IfOk result (λ reading. ¬ IsHopeless bytes.now → (r : Refusal)
        → Refuses bytes.now r → reading ≡ Reading.Refused r) }
    ensures every_wait { IfOk result (λ reading. ¬ IsHopeless bytes.now → Waits bytes.now
        → reading ≡ Reading.NotYet) }

    // So how the bytes were cut changes nothing: a whole request stays the same when more bytes come,
    // what is refused stays refused for the same cause and never becomes whole, and a proper part of
    // a whole request is waited for.
    ensures stays { IfOk result (λ reading. IfWhole reading (λ q n. (more : List ℕ)
        → Asks (bytes.now ++ more) q n)) }
    ensures kept { IfOk result (λ reading. IfRefused reading (λ r. (more : List ℕ)
        → MayRefuse (bytes.now ++ more) r)) }
    ensures never { IfOk result (λ reading. IfRefused reading (λ _. (more : List ℕ) (q : machine.Request) (n : ℕ)
        → ¬ Asks (bytes.now ++ more) q n)) }
    ensures cut { IfOk result (λ reading. (more : List ℕ) (q : machine.Request) (n : ℕ)
        → Asks (bytes.now ++ more) q n → length bytes.now < n → reading ≡ Reading.NotYet) }

    // The request lies within the bytes, and meets what calls that take one of the machine want of it.
    ensures within { IfOk result (λ reading. IfWhole reading (λ _ n. n ≤ length bytes.now)) }
    ensures proper { IfOk result (λ reading. IfWhole reading (λ q _. machine.IsProper q)) }

    // Without a whole head no memory is asked for.
    ensures free { HoldsNoHead bytes.now → IsOk result }
{
    reading_of(alloc, bytes)
}
