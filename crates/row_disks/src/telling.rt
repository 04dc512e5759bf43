//! What rows of a disk spell, and what calls of it answer.
ghost use Rattle.std.specs.Prelude.{◌≡◌, length, IfOk};

use outside::Path;
use row_files::{bad, line, path_of};
use std::alloc::Global;
use std::io;

/// The path of two names that the text spells, which may be that of a data directory.
pub fn directory_of(alloc: Global, text: &[u8]) -> io::Result<Path>
    ensures { IfOk result (λ path. length path ≡ 2) }
{
    let path = path_of(alloc, text)?;
    if path.names().len() == 2 {
        return Ok(path);
    }
    Err(bad())
}

/// Tells a line of this word where the call is done, and of `failed` where it is not.
pub fn done<E: Drop>(out: &mut Vec<u8>, word: &str, answer: Result<(), E>) -> io::Result<()> {
    line(out, &[if answer.is_ok() { word } else { "failed" }])
}
