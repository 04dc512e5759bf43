//! The command `dump`.
ghost use Rattle.std.specs.Prelude.{◌≡◌, ◌∷◌, ◌++◌, [], IfOk};
ghost use Rattle.outside.specs.Faults.{HasCauseOf};
ghost use Rattle.held_text.specs.Dump.{dump_text};
ghost use Rattle.settings_cmd.specs.Stores.{IsDumped};

use command_outcome::Refusal;
use core_commands::{line_of, not_opened};
use held_text::dump_text;
use key_names::Bytes;
use outside::Disk;
use std::alloc::{AllocError, Global};
use store_open::{Stored, read_store};

// The dump of a store that was read, and a line feed.
fn dump_line(alloc: Global, stored: &Stored) -> Result<Bytes, AllocError>
    ensures { IfOk result (λ line. line ≡ dump_text stored.now.place.version stored.now.held ++ 10 ∷ []) }
{
    let text = dump_text(alloc, stored.place.version, &stored.held)?;
    line_of(alloc, &text)
}

/// Reads what the store holds, whatever the image says, and answers its dump, which has its version, and a line feed: see
/// `held_text::dump_text`.
///
/// Why the store can't be read comes first: `NoStore`, `BadLink`, `BadJournal`, `Damaged` or `OldFormat`. A change that was cut off is
/// carried out before, and nothing else is written. `Disk` where the disk failed; `Memory` where it runs out of memory. It takes the time
/// of printing all values.
pub(crate) fn dump<D: Disk>(alloc: Global, disk: &mut D) -> Result<Bytes, Refusal>
    ensures dumped { IsDumped result (D.told disk.old) (D.told disk.new) }
    ensures cause { HasCauseOf Refusal.Disk (D.faults disk.old) (D.faults disk.new) result }
{
    match read_store(alloc, disk) {
        Ok(stored) => Ok(dump_line(alloc, &stored)?),
        Err(error) => Err(not_opened(error)),
    }
}
