//! The entries of a batch, each with its whole path.
ghost use Rattle.std.specs.Prelude.{◌≡◌, ◌≤◌, ◌<◌, ◌++◌, length, IfOk, OnOk, IsErrOf, IsTrue, false};
ghost use Rattle.std.specs.List.{list_all};
ghost use Rattle.outside.specs.Names.{are_names};
ghost use Rattle.commit_journal.specs.Entries.{fits_below};
ghost use Rattle.commit_journal.specs.Placed.{ArePlaced};
ghost use Rattle.commit_journal.specs.Stands.{journal};

use crate::BatchError;
use key_names::Bytes;
use outside::{Name, Path};
use std::alloc::{AllocError, Global};

/// An entry of a batch.
#[derive(Debug, Drop)]
pub struct PlacedEntry {
    /// The path below the batch's directory.
    pub relative: Path,
    /// The whole path.
    pub path: Path,
    /// The new bytes of the file, or None to take it away.
    pub bytes: Option<Bytes>,
}

/// The path of the journal in a directory, or out of memory.
pub fn journal_path(alloc: Global, dir: &Path) -> Result<Path, AllocError>
    requires { length dir.now < 40 }
    ensures { IfOk result (λ path. path ≡ dir.now ++ journal) }
{
    dir.join(&Name::of(b"journal".to_vec(alloc)?))
}

// The directory's path with the names of the relative path after it.
fn join(alloc: Global, dir: &Path, relative: &Path) -> Result<Path, AllocError>
    requires { length (dir.now ++ relative.now) ≤ 40 }
    ensures path { IfOk result (λ path. path ≡ dir.now ++ relative.now) }
    ensures named { OnOk result (IsTrue (are_names relative.now)) }
{
    let mut path = dir.copy()?;
    let names = relative.names();
    for name in names {
        let bytes = name.as_slice();
        path.push_name(Name::of(bytes.to_vec(alloc)?))?;
    }
    Ok(path)
}

/// The entries with their whole paths below a directory of two names.
///
/// `TooDeep` exactly where one of these paths has more than 40 names, and `Memory` where it runs out of memory.
pub fn place_all(
    alloc: Global,
    dir: &Path,
    entries: Vec<(Path, Option<Bytes>)>,
) -> Result<Vec<PlacedEntry>, BatchError>
    requires { length dir.now ≡ 2 }
    ensures ok { IfOk result (λ all. ArePlaced dir.now entries.items all.items) }
    ensures named { OnOk result (IsTrue (list_all (λ e. are_names e.0) entries.items)) }
    ensures fit { OnOk result (IsTrue (list_all (fits_below dir.now) entries.items)) }
    ensures too_deep { IsErrOf result BatchError.TooDeep → list_all (fits_below dir.now) entries.items ≡ false }
{
    let room = Path::MAX_NAMES - dir.names().len();
    let mut all = Vec::new(alloc);
    for (relative, bytes) in entries {
        if relative.names().len() > room {
            return Err(BatchError::TooDeep);
        }
        let path = join(alloc, dir, &relative)?;
        all.push(PlacedEntry {
            relative,
            path,
            bytes,
        })?;
    }
    Ok(all)
}
