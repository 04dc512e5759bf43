//! The links are pointed to another data directory.
ghost use Rattle.outside.specs.Told.{Moves};
ghost use Rattle.outside.specs.Faults.{HasCause};
ghost use Rattle.version_links.specs.Flip.{Keeps, Flips};

use crate::Names;
use crate::link::Link;
use outside::{Disk, Failed};

// Gives the link its text, on the disk.
#[tactic(auto, using(crate::proofs::Kept::relinks))]
fn relink<D: Disk>(disk: &mut D, link: &Link) -> Result<(), Failed>
    ensures moves { Moves (D.told disk.old) (D.told disk.new) (Keeps (link.now.path, link.now.text.items) result) }
    ensures cause { HasCause (D.faults disk.old) (D.faults disk.new) result }
{
    disk.relink(&link.path, &link.text)?;
    disk.sync()
}

/// Points the links to a data directory: the link that is named like the version, then those of its minor and its
/// major version, and `current` last, each followed by a sync. It takes no memory.
///
/// One of the relinks alone changes where the links lead, or none does where they led to the directory already. Where
/// the links of the store are settled at the start, they lead in every crash state since then where they led at the start,
/// to a bad link or nowhere included, or to the directory: a link that an earlier version left never leads anywhere
/// else. After Ok they lead to the directory, and this is on the disk. `Failed` where the disk failed.
pub fn flip<D: Disk>(disk: &mut D, names: &Names) -> Result<(), Failed>
    ensures flips { Moves (D.told disk.old) (D.told disk.new) (Flips names.now result) }
    ensures cause { HasCause (D.faults disk.old) (D.faults disk.new) result }
{
    relink(disk, &names.patch)?;
    relink(disk, &names.minor)?;
    relink(disk, &names.major)?;
    relink(disk, &names.current)
}
