//! Replies.
ghost use Rattle.std.specs.Prelude.{◌≡◌, ◌≤◌, ◌++◌, [], length, IfOk, OnOk, map, codes, decimal};
ghost use Rattle.api_http.specs.ReplyBytes.{bytes_of};
ghost use Rattle.api_http.specs.Routes.{row_of, methods_in, methods_of};
ghost use Rattle.api_http.specs.Replies.{listed, allow_field, with_body, with_file, done, refused, ended, is_of_success};

use crate::Refusal;
use crate::route::{ROWS, Row};
use itoa::Buffer;
use key_names::Text;
use std::alloc::{AllocError, Global};
use std::marker::Model;

// The bytes of a reply: fixed ones take no memory.
#[derive(Debug, Drop)]
enum ReplyBytes {
    Fixed(&'static [u8]),
    Made(Vec<u8>),
}

/// A reply: its status, and its bytes as they are sent, head and body.
#[derive(Debug, Drop)]
pub struct Reply {
    status: u16,
    bytes: ReplyBytes,
    // How long the head is: the body begins there.
    head: usize,
    ghost within: { head ≤ length (bytes_of bytes) },
}

impl Model for Reply {
    ghost use Rattle.std.specs.Prelude.{drop};
    ghost use Rattle.api_http.specs.Replies.{Sent, sent_code};
    ghost use Rattle.api_http.specs.ReplyBytes.{bytes_of};

    ghost Value = { Sent };

    ghost coded = { sent_code };

    ghost view = { λ r. record { status = r.status; bytes = bytes_of r.bytes; body = drop r.head (bytes_of r.bytes) } };
}

const NO_MEMORY: &[u8; 125] =
    b"HTTP/1.1 503 Service Unavailable\r\nContent-Type: application/json\r\nContent-Length: 18\r\nConnection: close\r\n\r\n{\"error\":\"memory\"}";

const DISK_FAULT: &[u8; 125] =
    b"HTTP/1.1 500 Internal Server Error\r\nContent-Type: application/json\r\nContent-Length: 16\r\nConnection: close\r\n\r\n{\"error\":\"disk\"}";

const DONE: &[u8; 46] = b"HTTP/1.1 204 No Content\r\nConnection: close\r\n\r\n";

impl Reply {
    /// The reply of `Refusal::Memory`, as `print_refusal` prints it. It is fixed, and takes no memory.
    pub fn memory() -> Reply
        ensures { result ≡ refused Refusal.Memory }
    {
        Reply {
            status: 503,
            bytes: ReplyBytes::Fixed(NO_MEMORY),
            head: 107,
        }
    }

    /// The reply of `Refusal::DiskFault`, as `print_refusal` prints it. It is fixed, and takes no memory.
    pub fn disk() -> Reply
        ensures { result ≡ refused Refusal.DiskFault }
    {
        Reply {
            status: 500,
            bytes: ReplyBytes::Fixed(DISK_FAULT),
            head: 109,
        }
    }

    /// The reply without a body: it was done. It is fixed, and takes no memory.
    pub(crate) fn done() -> Reply
        ensures { result ≡ done }
    {
        Reply {
            status: 204,
            bytes: ReplyBytes::Fixed(DONE),
            head: DONE.len(),
        }
    }

    /// The number of its status line. It takes no memory.
    pub fn status(&self) -> u16
        ensures { result ≡ self.now.status }
    {
        self.status
    }

    /// Whether its status is one of success, 200 to 299 (RFC 9110, 15.3). It takes no memory.
    pub fn is_of_success(&self) -> bool
        ensures { result ≡ is_of_success self.now.status }
    {
        200 <= self.status && self.status <= 299
    }

    /// All its bytes. It takes no memory.
    pub fn bytes(&self) -> &[u8]
        ensures { result.now ≡ self.now.bytes }
    {
        match &self.bytes {
            ReplyBytes::Fixed(bytes) => *bytes,
            ReplyBytes::Made(bytes) => bytes.as_slice(),
        }
    }

    /// The body of the reply, empty where it has none. It takes no memory.
    pub fn body(&self) -> &[u8]
        ensures { result.now ≡ self.now.body }
    {
        &self.bytes()[self.head..]
    }
}

// Adds the methods that the rows give the path, joined by comma and space.
fn push_methods(out: &mut Vec<u8>, rows: &[Row], path: &[u8]) -> Result<(), AllocError>
    ensures { OnOk result (out.new.items
        ≡ out.old.items ++ listed (methods_in (map row_of rows.now) path.now)) }
{
    let mut first = true;
    for (row_path, method, _) in rows {
        if row_path.as_bytes() == path {
            if !first {
                out.extend_from_slice(b", ")?;
            }
            out.extend_from_slice(method.as_bytes())?;
            first = false;
        }
    }
    Ok(())
}

// Adds the field with the methods that the rows give the path.
fn push_allowed(out: &mut Vec<u8>, rows: &[Row], path: &[u8]) -> Result<(), AllocError>
    ensures { OnOk result (out.new.items ≡ out.old.items
        ++ (codes "Allow: " ++ listed (methods_in (map row_of rows.now) path.now) ++ codes "\r\n")) }
{
    out.extend_from_slice(b"Allow: ")?;
    push_methods(out, rows, path)?;
    out.extend_from_slice(b"\r\n")
}

// Adds the field with the methods of the path.
fn push_methods_of(out: &mut Vec<u8>, path: &[u8]) -> Result<(), AllocError>
    ensures { OnOk result (out.new.items ≡ out.old.items ++ (codes "Allow: " ++ listed (methods_of path.now) ++ codes "\r\n")) }
{
    push_allowed(out, &ROWS, path)
}

// Adds the field with the methods of a path, where another was asked for.
fn push_allow(out: &mut Vec<u8>, refusal: &Refusal) -> Result<(), AllocError>
    ensures { OnOk result (out.new.items ≡ out.old.items ++ allow_field refusal.now) }
{
    match refusal {
        Refusal::Method { path } => push_methods_of(out, path.as_str().as_bytes()),
        _ => Ok(()),
    }
}

// The status line, and the fields that tell of the body.
fn front_of(alloc: Global, status: u16, phrase: &str, size: usize) -> Result<Vec<u8>, AllocError>
    ensures { IfOk result (λ out. out.items ≡ codes "HTTP/1.1 " ++ decimal status ++ codes " " ++ phrase.now
        ++ codes "\r\nContent-Type: application/json\r\nContent-Length: " ++ decimal size ++ codes "\r\n") }
{
    let mut buffer = Buffer::new();
    let mut out = Vec::from_slice(alloc, b"HTTP/1.1 ")?;
    out.extend_from_slice(buffer.format(status).as_bytes())?;
    out.extend_from_slice(b" ")?;
    out.extend_from_slice(phrase.as_bytes())?;
    out.extend_from_slice(b"\r\nContent-Type: application/json\r\nContent-Length: ")?;
    out.extend_from_slice(buffer.format(size).as_bytes())?;
    out.extend_from_slice(b"\r\n")?;
    Ok(out)
}

// The reply whose head begins with these bytes: the end of the head is added, and the body.
fn ended(status: u16, front: Vec<u8>, body: &[u8]) -> Result<Reply, AllocError>
    ensures { IfOk result (λ reply. reply ≡ ended status front.items body.now) }
{
    let mut bytes = front;
    bytes.extend_from_slice(b"Connection: close\r\n\r\n")?;
    let head = bytes.len();
    bytes.extend_from_slice(body)?;
    Ok(Reply {
        status,
        bytes: ReplyBytes::Made(bytes),
        head,
    })
}

/// The reply with this status line and body, and no further field. The only error is out of memory.
pub(crate) fn json_reply(
    alloc: Global,
    status: u16,
    phrase: &str,
    text: &Text,
) -> Result<Reply, AllocError>
    ensures { IfOk result (λ reply. reply ≡ with_body (status, phrase.now) [] text.now) }
{
    let body = text.as_str().as_bytes();
    let front = front_of(alloc, status, phrase, body.len())?;
    ended(status, front, body)
}

// The status line of a file, and the fields that tell of it.
fn file_front(alloc: Global, size: usize) -> Result<Vec<u8>, AllocError>
    ensures { IfOk result (λ out. out.items
        ≡ codes "HTTP/1.1 200 OK\r\nContent-Type: application/octet-stream\r\nContent-Length: "
        ++ decimal size ++ codes "\r\n") }
{
    let mut buffer = Buffer::new();
    let mut out = Vec::from_slice(
        alloc,
        b"HTTP/1.1 200 OK\r\nContent-Type: application/octet-stream\r\nContent-Length: ",
    )?;
    out.extend_from_slice(buffer.format(size).as_bytes())?;
    out.extend_from_slice(b"\r\n")?;
    Ok(out)
}

/// The reply with the bytes of a file. The only error is out of memory.
pub(crate) fn file_reply(alloc: Global, bytes: &[u8]) -> Result<Reply, AllocError>
    ensures { IfOk result (λ reply. reply ≡ with_file bytes.now) }
{
    let front = file_front(alloc, bytes.len())?;
    ended(200, front, bytes)
}

/// The reply of a refusal of HTTP, as HTTP/1.1 (RFC 9112).
///
/// It is the status line, `Content-Type: application/json`, `Content-Length` with the decimal length of
/// the body, for a path without the method `Allow` with the methods that it has, `Connection: close`, an
/// empty line and the body, compact JSON whose names rise.
///
/// It takes time and memory linear in the body; the only error is out of memory.
pub fn print_refusal(alloc: Global, refusal: &Refusal) -> Result<Reply, AllocError>
    ensures { IfOk result (λ reply. reply ≡ refused refusal.now) }
{
    let (status, phrase) = refusal.status_line();
    let text = refusal.body(alloc)?;
    let body = text.as_str().as_bytes();
    let mut front = front_of(alloc, status, phrase, body.len())?;
    push_allow(&mut front, refusal)?;
    ended(status, front, body)
}
