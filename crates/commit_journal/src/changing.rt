//! A change of many files, by way of a journal.
ghost use Rattle.std.specs.Prelude.{Some, None};
ghost use Rattle.outside.specs.Tree.{file};
ghost use Rattle.outside.specs.Told.{Moves};
ghost use Rattle.outside.specs.Faults.{HasCause};
ghost use Rattle.commit_journal.specs.Placed.{places_of};
ghost use Rattle.commit_journal.specs.Change.{PutsKept, InstallsKept, CarriesOut, Commits};

use crate::Batch;
use crate::install::install;
use crate::placed_entry::PlacedEntry;
use outside::{Disk, Failed, Path};

// Makes the path a file with these bytes, on the disk.
#[tactic(auto, using(crate::proofs::Kept::puts))]
fn put_kept<D: Disk>(disk: &mut D, path: &Path, bytes: &[u8]) -> Result<(), Failed>
    ensures moves { Moves (D.told disk.old) (D.told disk.new) (PutsKept path.now (Some (file bytes.now)) result) }
    ensures cause { HasCause (D.faults disk.old) (D.faults disk.new) result }
{
    disk.replace(path, bytes)?;
    disk.sync()
}

// Takes the file away, on the disk.
#[tactic(auto, using(crate::proofs::Kept::puts))]
fn remove_kept<D: Disk>(disk: &mut D, path: &Path) -> Result<(), Failed>
    ensures moves { Moves (D.told disk.old) (D.told disk.new) (PutsKept path.now None result) }
    ensures cause { HasCause (D.faults disk.old) (D.faults disk.new) result }
{
    disk.remove(path)?;
    disk.sync()
}

// Puts the entries in their places, on the disk.
#[tactic(auto, using(crate::proofs::Kept::installs))]
fn install_kept<D: Disk>(disk: &mut D, entries: &[PlacedEntry]) -> Result<(), Failed>
    ensures moves { Moves (D.told disk.old) (D.told disk.new) (InstallsKept (places_of entries.now) result) }
    ensures cause { HasCause (D.faults disk.old) (D.faults disk.new) result }
{
    install(disk, entries)?;
    disk.sync()
}

/// Carries out the batch whose journal is on the disk, and takes the journal away.
pub fn carry_out<D: Disk>(disk: &mut D, batch: &Batch) -> Result<(), Failed>
    ensures moves { Moves (D.told disk.old) (D.told disk.new) (CarriesOut batch.now result) }
    ensures cause { HasCause (D.faults disk.old) (D.faults disk.new) result }
{
    install_kept(disk, &batch.entries)?;
    remove_kept(disk, &batch.journal)
}

/// Changes the files of a batch, all or none: replaces the journal, syncs, installs each entry, syncs, removes the
/// journal and syncs. One pass over the entries, and it takes no memory of its own.
///
/// Where the directory has no journal and its paths are settled at the start, a crash at any moment leaves what
/// represents the files before the change or those after it, and after Ok the files after it are on the disk,
/// without a journal. `Failed` where the disk failed; the next call on the directory is then
/// [`recover`](crate::recover).
pub fn change<D: Disk>(disk: &mut D, batch: &Batch) -> Result<(), Failed>
    ensures commits { Moves (D.told disk.old) (D.told disk.new) (Commits batch.now result) }
    ensures cause { HasCause (D.faults disk.old) (D.faults disk.new) result }
{
    put_kept(disk, &batch.journal, &batch.text)?;
    carry_out(disk, batch)
}
