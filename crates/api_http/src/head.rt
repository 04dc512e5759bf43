//! Where a request's head is, within the limits on bytes, lines and fields.
ghost use Rattle.std.specs.Prelude.{◌≡◌, ◌≢◌, ◌≤◌, ◌<◌, ◌↔◌, ◌⊎◌, Err, IfOk, IfErr, IsTrue, length, take};
ghost use Rattle.httparse.specs.Grammar.{HasNoRequest, NeverHasRequest};
ghost use Rattle.httparse.specs.Spans.{IsRequestOf, IsRequestWithin};
ghost use Rattle.api_http.specs.Heads.{line_feeds, lines_end, shown};

use httparse::spans::{HeaderSpan, RequestSpans, parse_request};
use httparse::{Error, Status};

/// Why there is no whole head.
#[derive(Clone, Copy, Debug, PartialEq, Eq)]
pub(crate) enum HeadError {
    NotYet,
    TooLong,
    Refused,
}

const MOST_BYTES: usize = 16_384;

const MOST_LINES: usize = 66;

fn near_of(bytes: &[u8]) -> &[u8]
    ensures { result.now ≡ take 16384 bytes.now }
{
    if bytes.len() < MOST_BYTES {
        bytes
    } else {
        &bytes[..MOST_BYTES]
    }
}

// How many bytes the lines of a head may take, and whether all those lines are there.
fn line_end(near: &[u8]) -> (usize, bool)
    ensures within { result.0 ≤ length near.now }
    ensures end { result.0 ≡ lines_end 66 near.now }
    ensures full { IsTrue result.1 ↔ (line_feeds (take result.0 near.now) ≡ 66) }
{
    let mut left = MOST_LINES;
    for (i, b) in near.iter().enumerate() {
        if *b == b'\n' {
            left -= 1;
            if left == 0 {
                return (i + 1, true);
            }
        }
    }
    (near.len(), false)
}

/// The bytes that may hold the head, and whether they have all the lines that a head may have.
pub(crate) fn shown_of(bytes: &[u8]) -> (&[u8], bool)
    ensures part { result.0.now ≡ shown bytes.now }
    ensures full { IsTrue result.1 ↔ (line_feeds (shown bytes.now) ≡ 66) }
{
    let near = near_of(bytes);
    let (end, full) = line_end(near);
    (&near[..end], full)
}

/// The head at the front of the bytes, of which `part` may hold it.
pub(crate) fn head_of(
    bytes: &[u8],
    part: &[u8],
    full: bool,
    headers: &mut [HeaderSpan],
) -> Result<RequestSpans, HeadError>
    requires room { 64 ≤ length headers.old }
    requires part { part.now ≡ shown bytes.now }
    requires full { IsTrue full ↔ (line_feeds (shown bytes.now) ≡ 66) }
    ensures within { IfOk result (IsRequestWithin part.now headers.new) }
    ensures whole { IfOk result (IsRequestOf part.now headers.new) }
    ensures none { IfErr result (λ _. HasNoRequest part.now) }
    ensures not_yet { result ≡ Err HeadError.NotYet
        → HasNoRequest part.now × (line_feeds part.now ≢ 66) × (length bytes.now < 16384) }
    ensures too_long { result ≡ Err HeadError.TooLong
        → HasNoRequest part.now × (line_feeds part.now ≢ 66) × (16384 ≤ length bytes.now) }
    ensures refused { result ≡ Err HeadError.Refused
        → HasNoRequest part.now × ((line_feeds part.now ≡ 66) ⊎ NeverHasRequest part.now) }
{
    match parse_request(part, headers) {
        Ok(Status::Complete(head)) => Ok(head),
        Ok(Status::Partial) => Err(unfinished(bytes, full)),
        Err(Error::TooManyHeaders) => Err(HeadError::Refused),
        Err(_) => Err(HeadError::Refused),
    }
}

// Why a head that shows no fault is not whole.
fn unfinished(bytes: &[u8], full: bool) -> HeadError
    ensures not_yet { result ≡ HeadError.NotYet → ¬ IsTrue full × (length bytes.now < 16384) }
    ensures too_long { result ≡ HeadError.TooLong → ¬ IsTrue full × (16384 ≤ length bytes.now) }
    ensures refused { result ≡ HeadError.Refused → IsTrue full }
{
    if full {
        HeadError::Refused
    } else if bytes.len() < MOST_BYTES {
        HeadError::NotYet
    } else {
        HeadError::TooLong
    }
}
