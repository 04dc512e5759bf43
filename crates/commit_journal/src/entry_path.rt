//! The paths of a journal's entries.
ghost use Rattle.std.specs.Prelude.{◌≡◌, ◌≢◌, ◌&&◌, nat_le, length, Ok, IfOk, MatchOption};
ghost use Rattle.outside.specs.Names.{Names};
ghost use Rattle.outside.specs.PathText.{path_of};
ghost use Rattle.commit_journal.specs.Entries.{is_first_name, has_first_name};
ghost use Rattle.commit_journal.specs.Parts.{IsPathText};

use crate::parts::are_same;
use outside::{Path, PathError};
use std::alloc::{AllocError, Global};

// Such a path fits below a directory of two names.
const MAX_NAMES: usize = 38;

fn is_first_name(name: &[u8]) -> bool
    ensures { result ≡ is_first_name name.now }
{
    let live = are_same(name, b"live");
    let pending = are_same(name, b"pending");
    let owed = are_same(name, b"owed");
    let image = are_same(name, b"image");
    let weak = are_same(name, b"weak");
    live || pending || owed || image || weak
}

/// Whether the path begins with a name that a path of a batch may begin with.
pub fn has_first_name(path: &Path) -> bool
    ensures { result ≡ has_first_name path.now }
{
    match path.names() {
        [] => false,
        [first, ..] => is_first_name(first.as_slice()),
    }
}

// Whether an entry may have this path.
fn may_be_named(path: &Path) -> bool
    ensures { result ≡ (has_first_name path.now && nat_le (length path.now) 38) }
{
    has_first_name(path) && path.names().len() <= MAX_NAMES
}

// The path that the text spells, or None where it spells none.
fn path_or_none(alloc: Global, text: &[u8]) -> Result<Option<Path>, AllocError>
    ensures { IfOk result (λ found. MatchOption found ((path : Names) → path_of text.now ≢ Ok path)
        (λ path. path_of text.now ≡ Ok path)) }
{
    match Path::read(alloc, text) {
        Ok(path) => Ok(Some(path)),
        Err(PathError::Memory) => Err(AllocError),
        Err(PathError::BadName | PathError::TooDeep) => Ok(None),
    }
}

/// The path of an entry of which this is the printed text, or None where there is none.
#[tactic(auto, using(crate::proofs::Spellings::paths))]
pub fn read_entry_path(alloc: Global, text: &[u8]) -> Result<Option<Path>, AllocError>
    ensures { IfOk result (λ found. MatchOption found ((path : Names) → IsPathText path text.now → ⊥)
        (λ path. IsPathText path text.now)) }
{
    let Some(path) = path_or_none(alloc, text)? else {
        return Ok(None);
    };
    // `read` would also take a slash before the path.
    let printed = path.print()?;
    if may_be_named(&path) && are_same(&printed, text) {
        Ok(Some(path))
    } else {
        Ok(None)
    }
}
