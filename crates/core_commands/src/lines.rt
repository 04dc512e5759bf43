//! What commands print.
ghost use Rattle.std.specs.Prelude.{◌≡◌, ◌∷◌, ◌++◌, [], IfOk};
ghost use Rattle.core_commands.specs.Lines.{IsTreeLine};

use key_names::{Bytes, Key, Text};
use settings_tree::{Content, tree_below};
use std::alloc::{AllocError, Global};

/// The bytes and a line feed. The only error is out of memory.
pub(crate) fn bytes_line(alloc: Global, bytes: &[u8]) -> Result<Bytes, AllocError>
    ensures { IfOk result (λ line. line ≡ bytes.now ++ 10 ∷ []) }
{
    let mut line = bytes.to_vec(alloc)?;
    line.push(b'\n')?;
    Ok(Bytes::of(line))
}

/// The text and a line feed. The only error is out of memory.
pub fn line_of(alloc: Global, text: &Text) -> Result<Bytes, AllocError>
    ensures { IfOk result (λ line. line ≡ text.now ++ 10 ∷ []) }
{
    bytes_line(alloc, text.as_str().as_bytes())
}

/// The tree of the values at the keys and below them, as compact JSON (RFC 8259), and a line feed. The only error is out of memory.
/// It takes one pass over all values.
pub fn tree_line(alloc: Global, live: &Content, keys: &[Key]) -> Result<Bytes, AllocError>
    ensures { IfOk result (IsTreeLine live.now.values keys.now) }
{
    let text = tree_below(alloc, live, keys)?;
    line_of(alloc, &text)
}
