//! A change of what is held, as a batch of files.
ghost use Rattle.std.specs.Prelude.{◌≡◌, length, IfOk, OnOk, IsTrue};
ghost use Rattle.std.specs.BTreeMap.{IsOrdered};
ghost use Rattle.std.specs.List.{list_all};
ghost use Rattle.outside.specs.Names.{path_cmp};
ghost use Rattle.commit_journal.specs.Entries.{are_rising};
ghost use Rattle.settings_tree.specs.Change.{has_bare_name};
ghost use Rattle.fs_datastore.specs.Batches.{WritesDown, Follows, PutsFile, AreFilesOf};

use crate::entry_file::{bytes_of, path_of};
use commit_journal::{Batch, BatchError};
use key_names::Bytes;
use outside::Path;
use settings_tree::{Change, Entry};
use std::alloc::{AllocError, Global};
use std::collections::BTreeMap;

// Puts the file of the entry over what an earlier entry has for its path.
fn put_file(
    alloc: Global,
    files: &mut BTreeMap<Path, Option<Bytes>>,
    entry: &Entry,
) -> Result<(), AllocError>
    requires { IsTrue (has_bare_name entry.now) }
    ensures { OnOk result (PutsFile entry.now files.old files.new) }
{
    let base = Path::root(alloc);
    let path = path_of(alloc, &base, entry)?;
    let bytes = bytes_of(alloc, entry)?;
    files.insert(path, bytes)?;
    Ok(())
}

// The files of all entries, a later one over an earlier one.
fn files_of(alloc: Global, entries: &[Entry]) -> Result<BTreeMap<Path, Option<Bytes>>, AllocError>
    requires { IsTrue (list_all has_bare_name entries.now) }
    ensures { IfOk result (AreFilesOf entries.now) }
{
    let mut files = BTreeMap::new(alloc);
    for entry in entries {
        put_file(alloc, &mut files, entry)?;
    }
    Ok(files)
}

// The files in the order of their paths.
fn listed(
    alloc: Global,
    files: BTreeMap<Path, Option<Bytes>>,
) -> Result<Vec<(Path, Option<Bytes>)>, AllocError>
    ensures items { IfOk result (λ list. list.items ≡ files.entries) }
    ensures rising { IfOk result (λ list. IsTrue (are_rising list.items)) }
    ensures ordered { OnOk result (IsOrdered path_cmp files) }
{
    let mut list = Vec::new(alloc);
    for file in files {
        list.push(file)?;
    }
    Ok(list)
}

/// The batch that writes down a change of what is held, below a data directory of two names: for each place that the
/// change names, the new bytes of its file or none, and no other path. A live value, metadata and pending values are
/// written as compact JSON, a pending removal as `null`.
///
/// Laid over files that represent what is held, its entries represent that with the change laid, in the same format,
/// where the change may be laid ([`Held::lay`](settings_tree::Held::lay)). It takes a logarithmic step for each entry.
/// The only error is out of memory.
pub fn batch_of(alloc: Global, dir: &Path, change: &Change) -> Result<Batch, AllocError>
    requires { length dir.now ≡ 2 }
    ensures dir { IfOk result (λ batch. batch.dir ≡ dir.now) }
    ensures written { IfOk result (λ batch. WritesDown change.now batch.entries) }
    ensures laid { IfOk result (λ batch. Follows change.now batch.entries) }
{
    let files = files_of(alloc, change.as_slice())?;
    let entries = listed(alloc, files)?;
    match Batch::of(alloc, dir, entries) {
        Ok(batch) => Ok(batch),
        Err(BatchError::Memory) => Err(AllocError),
        Err(BatchError::TooDeep) => unreachable!(),
    }
}
