//! A question to the server: which are asked, and the bytes that are sent for one.
ghost use Rattle.std.specs.Prelude.{◌≡◌, ◌++◌, codes, decimal, length, IfOk, OnOk};
ghost use Rattle.std.specs.Option.{option_copied};
ghost use Rattle.std.specs.List.{list_all};
ghost use Rattle.std.specs.Char.{is_ascii_uppercase};
ghost use Rattle.host_client.specs.Question.{is_method, is_target_byte, is_target, is_body, is_question, length_fields, ask_text};

use itoa::Buffer;
use std::alloc::{AllocError, Global};

const MOST_METHOD: usize = 16;

const MOST_TARGET: usize = 8192;

const MOST_BODY: usize = 1_048_576;

fn are_upper(bytes: &[u8]) -> bool
    ensures { result ≡ list_all is_ascii_uppercase bytes.now }
{
    bytes.iter().all(|b| b.is_ascii_uppercase())
}

fn is_method(method: &[u8]) -> bool
    ensures { result ≡ is_method method.now }
{
    let fits = 1 <= method.len() && method.len() <= MOST_METHOD;
    let upper = are_upper(method);
    fits && upper
}

fn is_target_byte(b: u8) -> bool
    ensures { result ≡ is_target_byte b }
{
    b.is_ascii_alphanumeric() || b"/?&=-_.%,".contains(&b)
}

fn are_target_bytes(bytes: &[u8]) -> bool
    ensures { result ≡ list_all is_target_byte bytes.now }
{
    bytes.iter().all(|b| is_target_byte(*b))
}

fn is_target(target: &[u8]) -> bool
    ensures { result ≡ is_target target.now }
{
    let fits = target.starts_with(b"/") && target.len() <= MOST_TARGET;
    let clean = are_target_bytes(target);
    fits && clean
}

fn is_body(body: Option<&[u8]>) -> bool
    ensures { result ≡ is_body (option_copied body.entry) }
{
    match body {
        Some(body) => body.len() <= MOST_BODY,
        None => true,
    }
}

/// Whether this can be asked: the method is 1 to 16 upper-case letters of ASCII; the target begins with `/` and has at
/// most 8,192 bytes, each a letter or digit of ASCII or one of `/?&=-_.%,`; the body has at most 1,048,576 bytes.
///
/// It takes no memory.
pub fn is_question(method: &[u8], target: &[u8], body: Option<&[u8]>) -> bool
    ensures { result ≡ is_question method.now target.now (option_copied body.entry) }
{
    let sound = is_method(method) && is_target(target);
    sound && is_body(body)
}

// Adds the fields that tell of a body of this length.
fn push_length(text: &mut Vec<u8>, size: usize) -> Result<(), AllocError>
    ensures { OnOk result (text.new.items ≡ text.old.items ++ codes "Content-Type: application/json\r\nContent-Length: " ++ decimal size ++ codes "\r\n") }
{
    let mut buffer = Buffer::new();
    text.extend_from_slice(b"Content-Type: application/json\r\nContent-Length: ")?;
    text.extend_from_slice(buffer.format(size).as_bytes())?;
    text.extend_from_slice(b"\r\n")
}

// Adds the fields that tell of the body, where there is one.
fn push_length_fields(text: &mut Vec<u8>, body: Option<&[u8]>) -> Result<(), AllocError>
    ensures { OnOk result (text.new.items ≡ text.old.items ++ length_fields (option_copied body.entry)) }
{
    match body {
        Some(body) => push_length(text, body.len()),
        None => Ok(()),
    }
}

// The request line and the first field.
fn front_of(alloc: Global, method: &[u8], target: &[u8]) -> Result<Vec<u8>, AllocError>
    ensures { IfOk result (λ text. text.items ≡ method.now ++ codes " " ++ target.now ++ codes " HTTP/1.1\r\nHost: localhost\r\n") }
{
    let mut text = method.to_vec(alloc)?;
    text.extend_from_slice(b" ")?;
    text.extend_from_slice(target)?;
    text.extend_from_slice(b" HTTP/1.1\r\nHost: localhost\r\n")?;
    Ok(text)
}

/// The bytes that are sent for a question, an HTTP/1.1 request (RFC 9112) after which the connection is closed; or out
/// of memory.
pub fn question_text(
    alloc: Global,
    method: &[u8],
    target: &[u8],
    body: Option<&[u8]>,
) -> Result<Vec<u8>, AllocError>
    ensures { IfOk result (λ text. text.items ≡ ask_text method.now target.now (option_copied body.entry)) }
{
    let mut text = front_of(alloc, method, target)?;
    push_length_fields(&mut text, body)?;
    text.extend_from_slice(b"Connection: close\r\n\r\n")?;
    text.extend_from_slice(body.unwrap_or(&[]))?;
    Ok(text)
}
