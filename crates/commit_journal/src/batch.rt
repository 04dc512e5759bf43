//! Changes of many files below a directory.
ghost use Rattle.std.specs.Prelude.{◌≡◌, List, length, IfOk, OnOk, IsErrOf, IsTrue, MatchOption, false};
ghost use Rattle.std.specs.List.{list_all};
ghost use Rattle.commit_journal.specs.Entries.{Entry, has_first_name, are_rising, fits_below, is_batch};
ghost use Rattle.commit_journal.specs.Journal.{IsJournal};

use crate::BatchError;
use crate::placed_entry::{PlacedEntry, journal_path, place_all};
use crate::printing::journal_text;
use crate::reading::read_entries;
use key_names::Bytes;
use outside::Path;
use std::alloc::{AllocError, Global};
use std::marker::Model;

/// What is to change below a directory of two names, with all paths and the text that the change needs.
///
/// Contracts see it as the directory and its entries: paths below the directory, each with new bytes or none.
/// Its text is always the journal of these entries.
#[derive(Debug, Drop)]
pub struct Batch {
    dir: Path,
    pub(crate) journal: Path,
    pub(crate) text: Vec<u8>,
    pub(crate) entries: Vec<PlacedEntry>,
}

impl Model for Batch {
    ghost use Rattle.commit_journal.specs.Entries.{Changes};
    ghost use Rattle.commit_journal.specs.Placed.{entries_of, AreParts};

    ghost Value = { Changes };

    ghost view = { λ b. record { dir = b.dir; entries = entries_of b.entries.items } };

    ghost invariant = { λ b. AreParts b.dir b.journal b.text.items b.entries.items };
}

impl Batch {
    /// The change of these files below a directory of two names. An entry is a path below the directory with the
    /// new bytes of its file, or with None to take it away.
    ///
    /// The paths rise strictly, and each begins with `live`, `pending`, `owed`, `image` or `weak`. `TooDeep` exactly
    /// where a path, joined to the directory's, has more than 40 names; `Memory` where it runs out of memory.
    #[tactic(auto, using(crate::proofs::Made::made))]
    pub fn of(
        alloc: Global,
        dir: &Path,
        entries: Vec<(Path, Option<Bytes>)>,
    ) -> Result<Batch, BatchError>
        requires two_names { length dir.now ≡ 2 }
        requires first_names { IsTrue (list_all (λ e. has_first_name e.0) entries.items) }
        requires rising { IsTrue (are_rising entries.items) }
        ensures ok { IfOk result (λ batch. batch ≡ record { dir = dir.now; entries = entries.items }) }
        ensures valid { OnOk result (IsTrue (is_batch entries.items)) }
        ensures fit { OnOk result (IsTrue (list_all (fits_below dir.now) entries.items)) }
        ensures too_deep { IsErrOf result BatchError.TooDeep → list_all (fits_below dir.now) entries.items ≡ false }
    {
        let text = journal_text(alloc, &entries)?;
        let entries = place_all(alloc, dir, entries)?;
        let journal = journal_path(alloc, dir)?;
        let dir = dir.copy()?;
        Ok(Batch {
            dir,
            journal,
            text,
            entries,
        })
    }

    /// The change below a directory of two names whose journal this is, or None where it is the journal of none.
    /// The only error is out of memory.
    #[tactic(auto, using(crate::proofs::Made::reads))]
    pub(crate) fn read(
        alloc: Global,
        dir: &Path,
        text: Vec<u8>,
    ) -> Result<Option<Batch>, AllocError>
        requires { length dir.now ≡ 2 }
        ensures { IfOk result (λ found. MatchOption found
            ((entries : List Entry) → IsJournal entries text.items → ⊥)
            (λ batch. (batch.dir ≡ dir.now) × IsJournal batch.entries text.items)) }
    {
        let Some(entries) = read_entries(alloc, &text)? else {
            return Ok(None);
        };
        let entries = match place_all(alloc, dir, entries) {
            Ok(entries) => entries,
            Err(BatchError::Memory) => return Err(AllocError),
            Err(BatchError::TooDeep) => unreachable!(),
        };
        let journal = journal_path(alloc, dir)?;
        let dir = dir.copy()?;
        Ok(Some(Batch {
            dir,
            journal,
            text,
            entries,
        }))
    }

    /// The text of its journal.
    pub fn text(&self) -> &[u8]
        ensures { IsJournal self.now.entries result.now }
    {
        &self.text
    }
}
