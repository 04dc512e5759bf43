//! The text of a journal is read.
ghost use Rattle.std.specs.Prelude.{◌≡◌, List, IfOk, MatchOption};
ghost use Rattle.std.specs.Ordering.{is_lt};
ghost use Rattle.std.specs.Str.{bytes_eq};
ghost use Rattle.outside.specs.Names.{path_cmp};
ghost use Rattle.commit_journal.specs.Entries.{Entry, are_rising};
ghost use Rattle.commit_journal.specs.Journal.{IsJournal, end_text};
ghost use Rattle.commit_journal.specs.Parts.{HasNoEntry, ReadsOne};

use crate::entry_path::read_entry_path;
use crate::parts::{are_same, removal_of, writing_of};
use key_names::Bytes;
use outside::Path;
use std::alloc::{AllocError, Global};

fn copy_bytes(alloc: Global, bytes: &[u8]) -> Result<Bytes, AllocError>
    ensures { IfOk result (λ copy. copy ≡ bytes.now) }
{
    Ok(Bytes::of(bytes.to_vec(alloc)?))
}

// Reads the entry that the text begins with, if there is one, and gives what follows it.
#[tactic(auto, using(crate::proofs::Readings::ones))]
fn read_one<'a>(
    alloc: Global,
    entries: &mut Vec<(Path, Option<Bytes>)>,
    text: &'a [u8],
) -> Result<Option<&'a [u8]>, AllocError>
    ensures { IfOk result (λ found. MatchOption found (HasNoEntry text.now)
        (λ rest. ReadsOne text.now entries.old.items entries.new.items rest.now)) }
{
    if let Some((name, rest)) = removal_of(text) {
        let Some(path) = read_entry_path(alloc, name)? else {
            return Ok(None);
        };
        entries.push((path, None))?;
        return Ok(Some(rest));
    }
    let Some((name, bytes, rest)) = writing_of(text) else {
        return Ok(None);
    };
    let Some(path) = read_entry_path(alloc, name)? else {
        return Ok(None);
    };
    let bytes = copy_bytes(alloc, bytes)?;
    entries.push((path, Some(bytes)))?;
    Ok(Some(rest))
}

fn is_before(one: &Path, other: &Path) -> bool
    ensures { result ≡ is_lt (path_cmp one.now other.now) }
{
    one < other
}

/// Whether the paths rise strictly.
pub fn are_rising(entries: &[(Path, Option<Bytes>)]) -> bool
    ensures { result ≡ are_rising entries.now }
{
    for i in 1..entries.len() {
        if !is_before(&entries[i - 1].0, &entries[i].0) {
            return false;
        }
    }
    true
}

fn is_end(text: &[u8]) -> bool
    ensures { result ≡ bytes_eq text.now end_text }
{
    are_same(text, b"end\n")
}

/// The entries of which this is the journal, or None where it is the journal of none. One pass over the text.
#[tactic(auto, using(crate::proofs::Readings::all))]
pub fn read_entries(
    alloc: Global,
    text: &[u8],
) -> Result<Option<Vec<(Path, Option<Bytes>)>>, AllocError>
    ensures { IfOk result (λ found. MatchOption found
        ((entries : List Entry) → IsJournal entries text.now → ⊥) (λ entries. IsJournal entries.items text.now)) }
{
    let mut entries = Vec::new(alloc);
    let mut rest = text;
    while !is_end(rest) {
        let Some(after) = read_one(alloc, &mut entries, rest)? else {
            return Ok(None);
        };
        rest = after;
    }
    if are_rising(&entries) {
        Ok(Some(entries))
    } else {
        Ok(None)
    }
}
