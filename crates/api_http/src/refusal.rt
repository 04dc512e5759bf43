//! Why HTTP refuses a request.
ghost use Rattle.std.specs.Prelude.{◌≡◌, IfOk};
ghost use Rattle.api_http.specs.Replies.{status_of, word_of, refusal_text};

use crate::refusal_body::refusal_body;
use key_names::Text;
use std::alloc::{AllocError, Global};

/// Why HTTP refuses a request, in the order in which the causes are looked for, each with its status, and
/// after `Body` why there is no answer of the machine. The bytes of the request alone tell those up
/// to `Body`.
#[derive(Debug, Drop)]
pub enum Refusal {
    /// 413: the first 16,384 bytes hold no whole head, and show no fault.
    HeadTooLong,
    /// 400: the bytes don't begin with a head of a request, or it has over 64 fields or 66 lines, or
    /// more than one Content-Length, or one that is no number.
    Head,
    /// 404: there is no such path.
    NoPath,
    /// 405: the path has no such method.
    Method {
        /// The path, one of those that there are.
        path: Text,
    },
    /// 400: the query has an unknown name, one twice, or a value outside its grammar, gives `keys`
    /// together with `prefix`, or lacks a name that is wanted.
    Query,
    /// 411: there is a Transfer-Encoding, so Content-Length doesn't tell the body's length.
    Length,
    /// 413: Content-Length is over 1,048,576 bytes.
    BodyTooLong,
    /// 400: the body is to be a tree of settings, and is none.
    Body,
    /// 503: it ran out of memory. It says nothing of the request.
    Memory,
    /// 500: a call of the disk failed.
    DiskFault,
    /// 500: the store could not be opened again after a fault of the disk.
    Store {
        /// The path, file or key that was at fault; empty where there is no store.
        at: Text,
    },
}

impl Refusal {
    /// The status with its phrase. It takes no memory.
    pub(crate) fn status_line(&self) -> (u16, &'static str)
        ensures number { result.0 ≡ (status_of self.now).0 }
        ensures phrase { result.1.now ≡ (status_of self.now).1 }
    {
        match self {
            Refusal::HeadTooLong => (413, "Content Too Large"),
            Refusal::Head => (400, "Bad Request"),
            Refusal::NoPath => (404, "Not Found"),
            Refusal::Method { .. } => (405, "Method Not Allowed"),
            Refusal::Query => (400, "Bad Request"),
            Refusal::Length => (411, "Length Required"),
            Refusal::BodyTooLong => (413, "Content Too Large"),
            Refusal::Body => (400, "Bad Request"),
            Refusal::Memory => (503, "Service Unavailable"),
            Refusal::DiskFault => (500, "Internal Server Error"),
            Refusal::Store { .. } => (500, "Internal Server Error"),
        }
    }

    /// The status of its reply. It takes no memory.
    pub fn status(&self) -> u16
        ensures { result ≡ (status_of self.now).0 }
    {
        self.status_line().0
    }

    /// The word for it in the body of its reply. It takes no memory.
    pub fn word(&self) -> &'static str
        ensures { result.now ≡ word_of self.now }
    {
        match self {
            Refusal::HeadTooLong => "head-too-long",
            Refusal::Head => "head",
            Refusal::NoPath => "path",
            Refusal::Method { .. } => "method",
            Refusal::Query => "query",
            Refusal::Length => "length",
            Refusal::BodyTooLong => "body-too-long",
            Refusal::Body => "body",
            Refusal::Memory => "memory",
            Refusal::DiskFault => "disk",
            Refusal::Store { .. } => "store",
        }
    }

    /// The body of its reply: compact JSON (RFC 8259) whose names rise. The only error is out of memory.
    pub fn body(&self, alloc: Global) -> Result<Text, AllocError>
        ensures { IfOk result (λ text. text ≡ refusal_text self.now) }
    {
        refusal_body(alloc, self)
    }
}
