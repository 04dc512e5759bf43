//! How far texts and tags go.
ghost use Rattle.std.specs.Prelude.{◌≡◌, ◌≤◌, ◌<◌, ◌+◌, ◌^◌, length, drop, true, false, codes, IfSome, IsTrue, ◌==◌, not, if◌then◌else◌};
ghost use Rattle.template_reader.specs.Bytes.{begins, more};
ghost use Rattle.template_reader.specs.Words.{quoted_after};
ghost use Rattle.template_reader.specs.Cut.{text_length, through, through_dashes, through_unquoted, tag_length};

/// The bytes from a place on.
pub fn tail(bytes: &[u8], at: usize) -> &[u8]
    requires { at ≤ length bytes.now }
    ensures { result.now ≡ drop at bytes.now }
{
    bytes.split_at(at).1
}

/// The mark is at the place.
pub fn begins_at(bytes: &[u8], at: usize, mark: &[u8]) -> bool
    requires { at ≤ length bytes.now }
    ensures value { result ≡ begins (drop at bytes.now) mark.now }
    ensures bound { IsTrue result → at + length mark.now ≤ length bytes.now }
{
    tail(bytes, at).starts_with(mark)
}

/// How many bytes are before the first `{{`.
pub fn text_length(bytes: &[u8]) -> usize
    ensures { result ≡ text_length bytes.now }
{
    let mut length = 0;
    while length < bytes.len() && !begins_at(bytes, length, b"{{") {
        length += 1;
    }
    length
}

// How many bytes go to the end of the first mark.
fn through(mark: &[u8], bytes: &[u8]) -> Option<usize>
    ensures value { result ≡ through mark.now bytes.now }
    ensures bound { IfSome result (λ n. n ≤ length bytes.now) }
{
    for i in 0..bytes.len() {
        if begins_at(bytes, i, mark) {
            return Some(i + mark.len());
        }
    }
    None
}

// How many bytes go to the end of the first `--}}` or `--~}}`.
fn through_dashes(bytes: &[u8]) -> Option<usize>
    ensures value { result ≡ through_dashes bytes.now }
    ensures bound { IfSome result (λ n. n ≤ length bytes.now) }
{
    for i in 0..bytes.len() {
        if begins_at(bytes, i, b"--}}") {
            return Some(i + 4);
        }
        if begins_at(bytes, i, b"--~}}") {
            return Some(i + 5);
        }
    }
    None
}

/// What follows a byte is inside double quotes.
pub fn is_quoted_after(quoted: bool, byte: u8) -> bool
    ensures { result ≡ quoted_after quoted byte }
{
    if quoted { byte != b'"' } else { byte == b'"' }
}

// How many bytes go to the end of the first mark outside double quotes.
fn through_unquoted(mark: &[u8], bytes: &[u8]) -> Option<usize>
    ensures value { result ≡ through_unquoted mark.now false bytes.now }
    ensures bound { IfSome result (λ n. n ≤ length bytes.now) }
{
    let mut quoted = false;
    for i in 0..bytes.len() {
        let stands = begins_at(bytes, i, mark);
        if stands && !quoted {
            return Some(i + mark.len());
        }
        quoted = is_quoted_after(quoted, bytes[i]);
    }
    None
}

/// So many bytes more, where an end was found.
pub fn more(n: usize, found: Option<usize>) -> Option<usize>
    requires { IfSome found (λ m. n + m < 2 ^ 64) }
    ensures { result ≡ more n found }
{
    match found {
        Some(m) => Some(n + m),
        None => None,
    }
}

/// How many bytes the tag at the start has.
#[tactic(auto, unfolding(crate::specs::Cut::tag_length))]
pub fn tag_length(bytes: &[u8]) -> Option<usize>
    requires { 2 ≤ length bytes.now }
    ensures value { result ≡ tag_length bytes.now }
    ensures bound { IfSome result (λ n. (2 ≤ n) × (n ≤ length bytes.now)) }
{
    if bytes.starts_with(b"{{!--") {
        more(5, through_dashes(tail(bytes, 5)))
    } else if bytes.starts_with(b"{{~!--") {
        more(6, through_dashes(tail(bytes, 6)))
    } else if bytes.starts_with(b"{{!") {
        more(3, through(b"}}", tail(bytes, 3)))
    } else if bytes.starts_with(b"{{~!") {
        more(4, through(b"}}", tail(bytes, 4)))
    } else if bytes.starts_with(b"{{{") {
        more(3, through_unquoted(b"}}}", tail(bytes, 3)))
    } else {
        more(2, through_unquoted(b"}}", tail(bytes, 2)))
    }
}
