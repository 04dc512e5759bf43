//! Data directories: their files, what they hold, and the journals of commits.
ghost use Rattle.std.specs.Prelude.{◌≡◌, length};

use disk_memory::MemoryDisk;
use fs_datastore::{Found, LoadError, batch_of, load, save_all};
use held_text::HeldText;
use outside::Path;
use pending_tx::{CommitError, commit};
use row_disks::{directory_of, done};
use row_files::{Given, at, bad, good, line, path_of};
use settings_tree::{Held, TxName};
use std::alloc::Global;
use std::io::{self, Write};

// What is held by the text.
fn held_of(alloc: Global, text: &[u8]) -> io::Result<Held> {
    good(Held::read(alloc, text.strip_suffix(b"\n").unwrap_or(text)))
}

/// Tells what the data directory holds, after its format, or why it holds nothing.
pub fn loaded(out: &mut Vec<u8>, disk: &mut MemoryDisk, dir: &Path) -> io::Result<()>
    requires { length dir.now ≡ 2 }
{
    match load(*out.allocator(), disk, dir) {
        Ok(loaded) => {
            let held = loaded.held.print()?;
            writeln!(out, "format {}\n{}", loaded.format, held.as_str())
        }
        Err(LoadError::Damaged { path }) => at(out, "damaged", &path),
        Err(LoadError::Failed) => line(out, &["failed"]),
        Err(LoadError::Memory) => line(out, &["memory"]),
    }
}

// Tells the journal of the commit of the transaction.
fn journal(out: &mut Vec<u8>, dir: &Path, held: &Held, tx: &TxName) -> io::Result<()>
    requires { length dir.now ≡ 2 }
{
    let alloc = *out.allocator();
    match commit(alloc, held, tx) {
        Ok(committed) => {
            let batch = batch_of(alloc, dir, &committed.change)?;
            Ok(out.extend_from_slice(batch.text())?)
        }
        Err(CommitError::NoPending) => line(out, &["no pending"]),
        Err(CommitError::Memory) => line(out, &["memory"]),
    }
}

/// Tells what a step of a word for data directories comes to.
pub fn tell(out: &mut Vec<u8>, disk: &mut MemoryDisk, given: Given<'_>) -> io::Result<()> {
    let (alloc, lines) = (*out.allocator(), given.below());
    match given.word {
        "stands" => {
            let path = path_of(alloc, given.text)?;
            let taken = Found::new(alloc).read(alloc, path.names(), lines.to_vec(alloc)?)?;
            line(out, &[if taken { "taken" } else { "refused" }])
        }
        "commit" => {
            let tx = TxName::read(alloc, given.text)?.ok_or(bad())?;
            let dir = directory_of(alloc, b"data/7")?;
            journal(out, &dir, &held_of(alloc, lines)?, &tx)
        }
        "load" => loaded(out, disk, &directory_of(alloc, given.text)?),
        _ => {
            let dir = directory_of(alloc, given.text)?;
            let saved = save_all(alloc, disk, &dir, &held_of(alloc, lines)?);
            done(out, "saved", saved)
        }
    }
}
