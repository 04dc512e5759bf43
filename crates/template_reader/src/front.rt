//! The frontmatter of a source.
ghost use Rattle.std.specs.Prelude.{◌≡◌, ◌≢◌, ◌≤◌, ◌+◌, ◌&&◌, length, Some, None, is_some, IfOk, IfErr, IfSome};
ghost use Rattle.template_reader.specs.Front.{is_fence, front_length, is_toml, body_start};

use crate::scan::tail;
use crate::{TemplateError, TemplateKind};
use std::alloc::{AllocError, Global};
use toml::Table;

// A line that is exactly `+++` is at the start.
fn is_fence(bytes: &[u8]) -> bool
    ensures { result ≡ is_fence bytes.now }
{
    bytes.starts_with(b"+++\n") || (bytes.starts_with(b"+++") && bytes.len() == 3)
}

fn is_fence_line(begins_line: bool, bytes: &[u8]) -> bool
    ensures { result ≡ (begins_line && is_fence bytes.now) }
{
    begins_line && is_fence(bytes)
}

// How many bytes are before the first line that is exactly `+++`.
fn front_length(source: &[u8]) -> Option<usize>
    ensures value { result ≡ front_length source.now }
    ensures bound { IfSome result (λ n. n ≤ length source.now) }
{
    let mut begins_line = true;
    for i in 0..source.len() {
        if is_fence_line(begins_line, tail(source, i)) {
            return Some(i);
        }
        begins_line = source[i] == b'\n';
    }
    None
}

// The TOML document that the bytes are, if they are one.
fn document(alloc: Global, bytes: &[u8]) -> Result<Option<Table>, AllocError>
    ensures { IfOk result (λ o. is_some o ≡ is_toml bytes.now) }
{
    match toml::table_from_slice(alloc, bytes) {
        Ok(table) => Ok(Some(table)),
        Err(error) => {
            if error.is_memory() {
                Err(AllocError)
            } else {
                Ok(None)
            }
        }
    }
}

fn is_toml(alloc: Global, bytes: &[u8]) -> Result<bool, AllocError>
    ensures { IfOk result (λ b. b ≡ is_toml bytes.now) }
{
    let document = document(alloc, bytes)?;
    Ok(document.is_some())
}

/// Where the body begins: after the first line `+++`, if there is one. What is before that line
/// must be TOML, else it is `BadFront` at 0.
pub fn body_start(alloc: Global, source: &[u8]) -> Result<usize, TemplateError>
    ensures ok { IfOk result (λ n. body_start source.now ≡ Some n) }
    ensures bound { IfOk result (λ n. n ≤ length source.now) }
    ensures err { IfErr result (λ e. e.kind ≢ TemplateKind.Memory → (body_start source.now ≡ None) × (e ≡ record { kind = TemplateKind.BadFront; place = 0 })) }
{
    let Some(n) = front_length(source) else {
        return Ok(0);
    };
    let front = source.split_at(n).0;
    if !is_toml(alloc, front)? {
        return Err(TemplateError {
            kind: TemplateKind::BadFront,
            place: 0,
        });
    }
    Ok((n + 4).min(source.len()))
}
