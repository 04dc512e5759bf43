//! The entries of a batch are put in their places.
ghost use Rattle.outside.specs.Told.{Moves};
ghost use Rattle.outside.specs.Faults.{HasCause};
ghost use Rattle.commit_journal.specs.Install.{InstallsOne, Installs};
ghost use Rattle.commit_journal.specs.Placed.{places_of};

use crate::placed_entry::PlacedEntry;
use outside::{Disk, Failed};

#[tactic(auto, using(crate::proofs::Installs::ones))]
fn install_one<D: Disk>(disk: &mut D, entry: &PlacedEntry) -> Result<(), Failed>
    ensures moves { Moves (D.told disk.old) (D.told disk.new) (InstallsOne entry.now.path entry.now.bytes result) }
    ensures cause { HasCause (D.faults disk.old) (D.faults disk.new) result }
{
    match &entry.bytes {
        Some(bytes) => disk.write(&entry.path, bytes.as_slice()),
        None => disk.remove(&entry.path),
    }
}

/// Puts the entries in their places, with no sync. One pass over them, and it takes no memory.
#[tactic(auto, using(crate::proofs::Installs::all))]
pub fn install<D: Disk>(disk: &mut D, entries: &[PlacedEntry]) -> Result<(), Failed>
    ensures moves { Moves (D.told disk.old) (D.told disk.new) (Installs (places_of entries.now) result) }
    ensures cause { HasCause (D.faults disk.old) (D.faults disk.new) result }
{
    for entry in entries {
        install_one(disk, entry)?;
    }
    Ok(())
}
