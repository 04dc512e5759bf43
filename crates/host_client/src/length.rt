//! What the fields of a reply say of the length of its body.
ghost use Rattle.std.specs.Prelude.{◌≡◌, ◌≤◌, ◌<◌, ◌^◌, ◌∷◌, [], length, map, All, IsTrue, MatchOption, MatchResult};
ghost use Rattle.std.specs.Option.{option_copied, option_to_list};
ghost use Rattle.std.specs.Char.{is_ascii_digit};
ghost use Rattle.std.specs.List.{list_all};
ghost use Rattle.std.specs.Str.Parse.{digits_value};
ghost use Rattle.httparse.specs.Spans.{IsHeaderWithin, header_bytes};
ghost use Rattle.host_client.specs.Reply.{is_length_field, lengths, is_number, fits};

use httparse::spans::HeaderSpan;

fn is_length_field(bytes: &[u8], header: &HeaderSpan) -> bool
    requires { IsHeaderWithin (length bytes.now) header.now }
    ensures { result ≡ is_length_field (header_bytes bytes.now header.now) }
{
    header
        .name
        .of(bytes)
        .eq_ignore_ascii_case(b"Content-Length")
}

// The value of the one Content-Length field, if there is one; an error where there are more.
fn length_value<'a>(bytes: &'a [u8], headers: &[HeaderSpan]) -> Result<Option<&'a [u8]>, ()>
    requires { All (IsHeaderWithin (length bytes.now)) headers.now }
    ensures { let values = lengths (map (header_bytes bytes.entry.now) headers.entry.now) in
        MatchResult result (λ value. values ≡ option_to_list (option_copied value)) (λ _. 1 < length values) }
{
    let mut found = None;
    for header in headers {
        if is_length_field(bytes, header) {
            if found.is_some() {
                return Err(());
            }
            found = Some(header.value.of(bytes));
        }
    }
    Ok(found)
}

fn are_digits(value: &[u8]) -> bool
    ensures { result ≡ list_all is_ascii_digit value.now }
{
    value.iter().all(|b| b.is_ascii_digit())
}

/// Whether it is one or more digits.
pub(crate) fn is_number(value: &[u8]) -> bool
    ensures { result ≡ is_number value.now }
{
    !value.is_empty() && are_digits(value)
}

/// The number that the digits spell, if it is below 2 to the 64.
pub(crate) fn number_of(digits: &[u8]) -> Option<usize>
    requires { IsTrue (is_number digits.now) }
    ensures { MatchOption result (2 ^ 64 ≤ digits_value 10 digits.now) (λ n. n ≡ digits_value 10 digits.now) }
{
    let mut number = 0usize;
    for digit in digits {
        let tens = number.checked_mul(10)?;
        number = tens.checked_add(usize::from(*digit - b'0'))?;
    }
    Some(number)
}

// Whether the value spells this number.
fn spells(value: &[u8], number: usize) -> bool
    ensures { result ≡ fits (value.now ∷ []) number }
{
    if !is_number(value) {
        return false;
    }
    number_of(value) == Some(number)
}

/// Whether a body of this length may follow these fields: there is no Content-Length, or one alone, whose value is
/// digits that give this length.
pub(crate) fn fits(bytes: &[u8], headers: &[HeaderSpan], size: usize) -> bool
    requires { All (IsHeaderWithin (length bytes.now)) headers.now }
    ensures { result ≡ fits (lengths (map (header_bytes bytes.now) headers.now)) size }
{
    match length_value(bytes, headers) {
        Ok(None) => true,
        Ok(Some(value)) => spells(value, size),
        Err(()) => false,
    }
}
