//! Changes of files below a data directory, their journals, and recoveries.
ghost use Rattle.std.specs.Prelude.{◌≡◌, length, IsTrue};
ghost use Rattle.std.specs.List.{list_all};
ghost use Rattle.commit_journal.specs.Entries.{has_first_name};

use commit_journal::{
    Batch, BatchError, JournalError, are_rising, change, has_first_name, recover,
};
use disk_memory::MemoryDisk;
use key_names::Bytes;
use outside::Path;
use row_disks::{directory_of, done};
use row_files::{Given, at, bad, line, parts, path_of, text_of};
use std::alloc::Global;
use std::io;

// A path below the directory, and the new bytes of its file, or none to take it away.
type Entry = (Path, Option<Bytes>);

// The entries of these lines, of `set PATH BYTES` or `remove PATH` each.
fn entries_of(alloc: Global, lines: &str) -> io::Result<Vec<Entry>> {
    let mut entries = Vec::new(alloc);
    for text in lines.lines() {
        let (word, rest) = parts(text);
        let (path, bytes) = parts(rest);
        let path = path_of(alloc, path.as_bytes())?;
        let bytes = match word {
            "set" => Some(Bytes::of(bytes.as_bytes().to_vec(alloc)?)),
            "remove" => None,
            _ => return Err(bad()),
        };
        entries.push((path, bytes))?;
    }
    Ok(entries)
}

// Whether each path begins with a name that a path of a batch may begin with. Rows have four entries at most.
fn are_named(entries: &[Entry]) -> bool
    ensures { IsTrue result → IsTrue (list_all (λ e. has_first_name e.0) entries.now) }
{
    match entries {
        [] => true,
        [a] => has_first_name(&a.0),
        [a, b] => has_first_name(&a.0) && has_first_name(&b.0),
        [a, b, c] => has_first_name(&a.0) && has_first_name(&b.0) && has_first_name(&c.0),
        [a, b, c, d] => has_first_name(&a.0)
            && has_first_name(&b.0)
            && has_first_name(&c.0)
            && has_first_name(&d.0),
        _ => false,
    }
}

// Tells the journal of the change below the directory that the lines say, or what comes of making it.
fn changed(out: &mut Vec<u8>, disk: &mut MemoryDisk, dir: &Path, given: Given<'_>) -> io::Result<()>
    requires { length dir.now ≡ 2 }
{
    let entries = entries_of(*out.allocator(), text_of(given.below())?)?;
    if !are_named(&entries) || !are_rising(&entries) {
        return Err(bad());
    }
    match Batch::of(*out.allocator(), dir, entries) {
        Ok(batch) if given.word == "journal" => Ok(out.extend_from_slice(batch.text())?),
        Ok(batch) => done(out, "changed", change(disk, &batch)),
        Err(BatchError::TooDeep) => line(out, &["too deep"]),
        Err(BatchError::Memory) => line(out, &["memory"]),
    }
}

/// Tells what a step of a word for journals comes to.
pub fn tell(out: &mut Vec<u8>, disk: &mut MemoryDisk, given: Given<'_>) -> io::Result<()> {
    let alloc = *out.allocator();
    let dir = directory_of(alloc, given.text)?;
    if given.word != "recover" {
        return changed(out, disk, &dir, given);
    }
    match recover(alloc, disk, &dir) {
        Ok(true) => line(out, &["carried out"]),
        Ok(false) => line(out, &["no journal"]),
        Err(JournalError::BadJournal { path }) => at(out, "bad journal", &path),
        Err(JournalError::Failed) => line(out, &["failed"]),
        Err(JournalError::Memory) => line(out, &["memory"]),
    }
}
