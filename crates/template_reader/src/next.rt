//! The next tag of a body.
ghost use Rattle.std.specs.Prelude.{◌≡◌, ◌≢◌, ◌≤◌, length, IfOk, IfErr, IfSome, IfNone};
ghost use Rattle.template_reader.specs.Reading.{IsLast, IsNext, IsWrong};

use crate::scan::{tag_length, tail, text_length};
use crate::tag::Tag;
use crate::tags::read_tag;
use crate::{TemplateError, TemplateKind};
use std::alloc::Global;

/// A tag, and where it is.
#[derive(Drop)]
pub struct Found {
    pub start: usize,
    pub end: usize,
    pub tag: Tag,
}

/// The next tag from a place on.
pub fn next_tag(alloc: Global, body: &[u8], from: usize) -> Result<Option<Found>, TemplateError>
    requires { from ≤ length body.now }
    ensures last { IfOk result (λ o. IfNone o (IsLast body.now from)) }
    ensures next { IfOk result (λ o. IfSome o (λ f. IsNext body.now from f.start f.end f.tag)) }
    ensures wrong { IfErr result (λ e. e.kind ≢ TemplateKind.Memory → IsWrong body.now from e) }
{
    let rest = tail(body, from);
    let (text, behind) = rest.split_at(text_length(rest));
    let start = from + text.len();
    if behind.is_empty() {
        return Ok(None);
    }
    if text.ends_with(b"\\") {
        return Err(TemplateError {
            kind: TemplateKind::Escape,
            place: start - 1,
        });
    }
    let Some(len) = tag_length(behind) else {
        return Err(TemplateError {
            kind: TemplateKind::Unclosed,
            place: start,
        });
    };
    let (bytes, _) = behind.split_at(len);
    match read_tag(alloc, bytes)? {
        Some(tag) => Ok(Some(Found {
            start,
            end: start + len,
            tag,
        })),
        None => Err(TemplateError {
            kind: TemplateKind::BadTag,
            place: start,
        }),
    }
}
