//! How many bytes of a request are waited for, and whether all of them are there.
ghost use Rattle.std.specs.Prelude.{◌≡◌, ◌≤◌, ◌<◌, ◌+◌, ◌↔◌, List, ℕ, All, IsTrue, false, length, map};
ghost use Rattle.httparse.specs.Grammar.{RequestHead, print_request};
ghost use Rattle.httparse.specs.Spans.{IsHeaderWithin, header_bytes};
ghost use Rattle.api_http.specs.Heads.{HoldsNoHead};
ghost use Rattle.api_http.specs.Fields.{body_length, has_bad_length};
ghost use Rattle.api_http.specs.Requests.{told, IsCleanHead, HoldsMessage, Waits, WaitsUntil};

use crate::fields::{BodyLength, body_length, is_body_within};
use crate::head::{head_of, shown_of};
use httparse::spans::{EMPTY_HEADER_SPAN, HeaderSpan};

// The length of the body where it is one that is waited for, and else 0.
fn sound_length(part: &[u8], headers: &[HeaderSpan]) -> usize
    requires { All (IsHeaderWithin (length part.now)) headers.now }
    ensures sound { let fields = map (header_bytes part.now) headers.now in
        has_bad_length fields ≡ false → body_length fields ≤ 1048576 → result ≡ body_length fields }
    ensures bound { result ≤ 1048576 }
{
    match body_length(part, headers) {
        BodyLength::Within(length) => length,
        _ => 0,
    }
}

// One byte more where there is no whole head, and else all bytes of the request.
fn wanted_of(bytes: &[u8]) -> usize
    ensures head { HoldsNoHead bytes.now → result ≡ length bytes.now + 1 }
    ensures body { (head : RequestHead) (rest : List ℕ) → IsCleanHead bytes.now head rest
        → result ≡ length (print_request head) + body_length (told head).fields }
{
    let mut headers = [EMPTY_HEADER_SPAN; 64];
    let (part, full) = shown_of(bytes);
    match head_of(bytes, part, full, &mut headers) {
        Ok(head) => {
            let (fields, _) = headers.split_at(head.headers);
            head.len + sound_length(part, fields)
        }
        Err(_) => bytes.len() + 1,
    }
}

/// How many bytes there are to be before bytes that read as `NotYet` can read as anything else.
///
/// Without a whole head that is one byte more than there are. With one it is the length of the head
/// and of its body, and as soon as so many bytes are there they are whole or refused.
///
/// A caller that gets a request in pieces asks this after each `NotYet`, and reads again once so many
/// bytes are there. So it parses the head, of at most 16,384 bytes, twice for each piece up to the one
/// that ends the head, and never for a piece of the body: a body of 1 MiB in pieces of 1 KiB costs
/// what one read of it costs. It takes no memory, and time linear in the head.
pub fn bytes_wanted(bytes: &[u8]) -> usize
    ensures head { HoldsNoHead bytes.now → result ≡ length bytes.now + 1 }
    ensures body { (head : RequestHead) (rest : List ℕ) → IsCleanHead bytes.now head rest
        → result ≡ length (print_request head) + body_length (told head).fields }

    // So where bytes are waited for, more are wanted, and with fewer than these the answer stays NotYet.
    ensures more { Waits bytes.now → length bytes.now < result }
    ensures waits { Waits bytes.now → WaitsUntil bytes.now result }
{
    wanted_of(bytes)
}

/// Whether all bytes of the message are there at which these begin: a whole head and, as its fields say, all of its body. They may be refused. It is false
/// where nobody can say where the message ends, as its head is not whole or too long, or has a bad length, one over the limit, or a Transfer-Encoding.
///
/// It takes no memory, and time linear in the head.
pub(crate) fn holds_message(bytes: &[u8]) -> bool
    ensures { IsTrue result ↔ HoldsMessage bytes.now }
{
    let mut headers = [EMPTY_HEADER_SPAN; 64];
    let (part, full) = shown_of(bytes);
    match head_of(bytes, part, full, &mut headers) {
        Ok(head) => {
            let (fields, _) = headers.split_at(head.headers);
            let (_, rest) = bytes.split_at(head.len);
            is_body_within(part, fields, rest.len())
        }
        Err(_) => false,
    }
}
