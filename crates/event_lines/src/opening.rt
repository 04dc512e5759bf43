//! The lines of openings, and of requests that were refused in reading.
ghost use Rattle.std.specs.Prelude.{◌≡◌, IfOk};
ghost use Rattle.event_lines.specs.Lines.{opened_line, refused_line};

use crate::logfmt::Lines;
use crate::values::owed_text;
use held_text::version_text;
use key_names::Bytes;
use settings_tree::Owed;
use std::alloc::{AllocError, Global};
use version_links::Version;

/// The line of an opening: `opened version=1.5.2 owed=all`, with the version of the store and what is owed after it. The only error is
/// out of memory. It takes the time of printing the owed keys.
pub fn opened_line(alloc: Global, version: Version, owed: &Owed) -> Result<Bytes, AllocError>
    ensures { IfOk result (λ text. text ≡ opened_line version owed.now) }
{
    let version = version_text(alloc, version)?;
    let owed = owed_text(alloc, owed)?;
    let lines = Lines::new(alloc)
        .begin("opened")?
        .pair("version", version.as_str())?
        .pair("owed", owed.as_str())?
        .end()?;
    Ok(lines.into_bytes())
}

/// The line of a request that was refused in reading: `refused status=400 error=query`, with the status by which it was answered and
/// the word for why. The only error is out of memory.
pub fn refused_line(alloc: Global, status: u16, error: &str) -> Result<Bytes, AllocError>
    ensures { IfOk result (λ text. text ≡ refused_line (record { status = status; error = error.now })) }
{
    let lines = Lines::new(alloc)
        .begin("refused")?
        .number("status", u64::from(status))?
        .pair("error", error)?
        .end()?;
    Ok(lines.into_bytes())
}
