//! A change that was cut off is carried out.
ghost use Rattle.std.specs.Prelude.{◌≡◌, length, IsErrOf};
ghost use Rattle.outside.specs.Names.{Names};
ghost use Rattle.outside.specs.DiskCalls.{Syncs};
ghost use Rattle.outside.specs.Told.{Moves};
ghost use Rattle.outside.specs.Faults.{HasCause, HasCauseOf};
ghost use Rattle.commit_journal.specs.Recovery.{Recovers};

use crate::changing::carry_out;
use crate::placed_entry::journal_path;
use crate::{Batch, JournalError};
use outside::{Disk, Failed, Path};
use std::alloc::Global;

// A journal that was not synced could vanish in a crash that leaves half of its entries installed.
fn sync_first<D: Disk>(disk: &mut D) -> Result<(), Failed>
    ensures synced { Moves (D.told disk.old) (D.told disk.new) (Syncs result) }
    ensures cause { HasCause (D.faults disk.old) (D.faults disk.new) result }
{
    disk.sync()
}

/// Carries out the journal of a directory of two names, if there is one, and tells whether there was. It syncs
/// before anything else, and may be cut off by a crash too. Linear in the journal's text.
///
/// `BadJournal` exactly where the file `journal` is no journal, and nothing is changed then; `Failed` where the disk
/// failed; `Memory` where it runs out of memory, which may be found after the sync.
pub fn recover<D: Disk>(alloc: Global, disk: &mut D, dir: &Path) -> Result<bool, JournalError>
    requires { length dir.now ≡ 2 }
    ensures recovers { Moves (D.told disk.old) (D.told disk.new) (Recovers dir.now result) }
    ensures cause { HasCauseOf JournalError.Failed (D.faults disk.old) (D.faults disk.new) result }
    ensures bad_without_fault { (path : Names) → IsErrOf result (JournalError.BadJournal path) → D.faults disk.new ≡ D.faults disk.old }
{
    let path = journal_path(alloc, dir)?;
    sync_first(disk)?;
    let Some(text) = disk.read(alloc, &path)? else {
        return Ok(false);
    };
    let Some(batch) = Batch::read(alloc, dir, text)? else {
        return Err(JournalError::BadJournal { path });
    };
    carry_out(disk, &batch)?;
    Ok(true)
}
