//! The text of a journal is printed.
ghost use Rattle.std.specs.Prelude.{◌≡◌, ◌++◌, string_bytes, Some, None, IfOk, OnOk, IsTrue};
ghost use Rattle.std.specs.Fmt.{decimal};
ghost use Rattle.std.specs.List.{list_all};
ghost use Rattle.commit_journal.specs.Entries.{fits_memory};
ghost use Rattle.commit_journal.specs.Journal.{entry_text, journal_text};

use key_names::Bytes;
use outside::Path;
use std::alloc::{AllocError, Global};

fn digits(alloc: Global, n: usize) -> Result<String, AllocError>
    ensures { IfOk result (λ text. string_bytes text ≡ decimal n) }
{
    format!(in alloc; "{n}")
}

fn push_removal(text: &mut Vec<u8>, path: &Path) -> Result<(), AllocError>
    ensures { OnOk result (text.new.items ≡ text.old.items ++ entry_text (path.now, None)) }
{
    let printed = path.print()?;
    text.extend_from_slice(b"remove ")?;
    text.extend_from_slice(&printed)?;
    text.push(b'\n')?;
    Ok(())
}

fn push_writing(text: &mut Vec<u8>, path: &Path, bytes: &[u8]) -> Result<(), AllocError>
    ensures text { OnOk result (text.new.items ≡ text.old.items ++ entry_text (path.now, Some bytes.now)) }
    ensures fits { OnOk result (IsTrue (fits_memory (Some bytes.now))) }
{
    let printed = path.print()?;
    let size = digits(*text.allocator(), bytes.len())?;
    text.extend_from_slice(b"set ")?;
    text.extend_from_slice(&printed)?;
    text.push(b' ')?;
    text.extend_from_slice(size.as_bytes())?;
    text.push(b'\n')?;
    text.extend_from_slice(bytes)?;
    text.push(b'\n')?;
    Ok(())
}

fn push_entry(text: &mut Vec<u8>, path: &Path, bytes: &Option<Bytes>) -> Result<(), AllocError>
    ensures text { OnOk result (text.new.items ≡ text.old.items ++ entry_text (path.now, bytes.now)) }
    ensures fits { OnOk result (IsTrue (fits_memory bytes.now)) }
{
    match bytes {
        None => push_removal(text, path),
        Some(bytes) => push_writing(text, path, bytes.as_slice()),
    }
}

/// The journal of these entries.
pub fn journal_text(alloc: Global, entries: &[(Path, Option<Bytes>)]) -> Result<Vec<u8>, AllocError>
    ensures text { IfOk result (λ text. text.items ≡ journal_text entries.now) }
    ensures fits { OnOk result (IsTrue (list_all (λ e. fits_memory e.1) entries.now)) }
{
    let mut text = Vec::new(alloc);
    for (path, bytes) in entries {
        push_entry(&mut text, path, bytes)?;
    }
    text.extend_from_slice(b"end\n")?;
    Ok(text)
}
