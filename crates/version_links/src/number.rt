//! Numbers and ids in the texts of links.
ghost use Rattle.std.specs.Prelude.{◌≡◌, ◌≢◌, ◌<◌, ◌^◌, ◌++◌, ◌∷◌, ℕ, length, false, not, List, Some, IfSome, MatchOption};
ghost use Rattle.std.specs.List.{position};
ghost use Rattle.std.specs.Fmt.{decimal, digit_glyph};
ghost use Rattle.version_links.specs.Names.{id_text};
ghost use Rattle.version_links.specs.Steps.{digits_behind, extended};
ghost use Rattle.version_links.specs.Glyphs.{is_glyph, Glyphs, Ends, HasNumber, HasNoNumber};

use itoa::Buffer;

// What `parse` makes of the digits, which may have a plus and zeros before them.
fn parsed(digits: &[u8]) -> Option<u64>
    ensures { (n : ℕ) → n < 2 ^ 64 → digits.now ≡ decimal n → result ≡ Some n }
{
    match std::str::from_utf8(digits) {
        Ok(text) => text.parse().ok(),
        Err(_) => None,
    }
}

// The number below 2 ^ 64 that these digits are in decimal, with nothing before them.
fn number(digits: &[u8]) -> Option<u64>
    ensures { MatchOption result ((n : ℕ) → n < 2 ^ 64 → digits.now ≢ decimal n) (λ n. digits.now ≡ decimal n) }
{
    let n = parsed(digits)?;
    let mut buffer = Buffer::new();
    if buffer.format(n).as_bytes() == digits {
        Some(n)
    } else {
        None
    }
}

fn digit(glyph: u8) -> Option<u8>
    ensures { MatchOption result ((n : ℕ) → n < 16 → glyph ≢ digit_glyph false n)
        (λ n. (n < 16) × (glyph ≡ digit_glyph false n)) }
{
    match glyph {
        b'0'..=b'9' => Some(glyph - b'0'),
        b'a'..=b'f' => Some(glyph - b'a' + 10),
        _ => None,
    }
}

// The id that these 16 lower-case hexadecimal digits spell.
fn id(digits: &[u8]) -> Option<u64>
    ensures { MatchOption result ((n : ℕ) → n < 2 ^ 64 → digits.now ≢ id_text n) (λ n. digits.now ≡ id_text n) }
{
    if digits.len() != 16 {
        return None;
    }
    let mut id = 0;
    for glyph in digits {
        id = id * 16 + u64::from(digit(*glyph)?);
    }
    Some(id)
}

// What follows the front in the text.
fn after<'a>(text: &'a [u8], front: &[u8]) -> Option<&'a [u8]>
    ensures { MatchOption result ((rest : List ℕ) → text.now ≢ front.now ++ rest) (λ rest. text.now ≡ front.now ++ rest.now) }
{
    text.strip_prefix(front)
}

// What follows the mark in the text.
fn past(text: &[u8], mark: u8) -> Option<&[u8]>
    ensures { MatchOption result ((rest : List ℕ) → text.now ≢ mark ∷ rest) (λ rest. text.now ≡ mark ∷ rest.now) }
{
    match text {
        [first, rest @ ..] if *first == mark => Some(rest),
        _ => None,
    }
}

// The number that these digits are after the mark: an id after a `_`, and else one in decimal.
fn value(digits: &[u8], mark: u8) -> Option<u64>
    ensures { MatchOption result ((n : ℕ) → n < 2 ^ 64 → digits.now ≢ digits_behind mark n)
        (λ n. digits.now ≡ digits_behind mark n) }
{
    if mark == b'_' {
        id(digits)
    } else {
        number(digits)
    }
}

/// The number after the front and the mark: an id after a `_`, and else one in decimal.
pub fn number_behind(text: &[u8], front: &[u8], mark: u8) -> Option<u64>
    ensures { MatchOption result ((n : ℕ) → n < 2 ^ 64 → text.now ≢ extended front.now mark n)
        (λ n. text.now ≡ extended front.now mark n) }
{
    let digits = past(after(text, front)?, mark)?;
    value(digits, mark)
}

fn is_glyph(byte: u8) -> bool
    ensures { result ≡ is_glyph byte }
{
    byte.is_ascii_digit() || (b'a' <= byte && byte <= b'f')
}

// The place of the first byte that is no digit.
fn end_of_digits(text: &[u8]) -> Option<usize>
    ensures value { result ≡ position (λ c. not (is_glyph c)) text.now }
    ensures bound { IfSome result (λ at. at < length text.now) }
{
    text.iter().position(|b| !is_glyph(*b))
}

// The digits at the front of the text, and what follows them.
fn split_digits(text: &[u8]) -> (&[u8], &[u8])
    ensures split { text.now ≡ result.0.now ++ result.1.now }
    ensures digits { Glyphs result.0.now }
    ensures rest { Ends result.1.now }
{
    match end_of_digits(text) {
        Some(at) => text.split_at(at),
        None => (text, b""),
    }
}

/// The number after the mark at the front of the text, and what follows its digits: an id after a `_`, and else a number
/// below 2 ^ 64 in decimal. None exactly where the text doesn't begin so. It takes no memory.
pub fn first_number(text: &[u8], mark: u8) -> Option<(u64, &[u8])>
    ensures { MatchOption result (HasNoNumber mark text.now) (λ p. HasNumber mark text.now p.0 p.1.now) }
{
    let (digits, rest) = split_digits(past(text, mark)?);
    let n = value(digits, mark)?;
    Some((n, rest))
}
