//! The line of a version.
ghost use Rattle.std.specs.Prelude.{◌≡◌, ◌∷◌, ◌++◌, [], IfOk};
ghost use Rattle.version_links.specs.Versions.{version_text};

use key_names::Bytes;
use std::alloc::{AllocError, Global};
use version_links::Version;

/// The version and a line feed. The only error is out of memory.
pub(crate) fn version_line(alloc: Global, version: &Version) -> Result<Bytes, AllocError>
    ensures { IfOk result (λ line. line ≡ version_text version.now ++ 10 ∷ []) }
{
    let text = format!(in alloc; "{version}")?;
    let mut line = text.as_bytes().to_vec(alloc)?;
    line.push(b'\n')?;
    Ok(Bytes::of(line))
}
