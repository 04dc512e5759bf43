//! What is the case with a configuration file.
ghost use Rattle.std.specs.Prelude.{◌≡◌, Ok, IfOk};
ghost use Rattle.std.specs.Option.{option_copied};
ghost use Rattle.settings_machine.specs.Verified.{is_kept, state_in};
ghost use Rattle.settings_machine.specs.VerifySeen.{IsStateSeen, HasNames, marked_files};

use crate::file::file_bytes;
use key_names::Text;
use metadata_links::Manifest;
use outside::Path;
use settings_tree::{LiveView, Os, Owed};
use std::alloc::{AllocError, Global};
use std::collections::BTreeSet;
use template_eval::RenderError;
use template_reader::Templates;

/// What is the case with a configuration file.
#[derive(Debug, Drop)]
pub enum FileState {
    /// It is what its template renders to from scratch.
    Current,
    /// It isn't, and it is due: the next job writes it.
    Owed,
    /// Its template refuses.
    Refused {
        /// Why it refuses, and where.
        error: RenderError,
    },
    /// It isn't what its template renders to, and nothing that is owed affects it: someone else wrote it.
    Differs,
    /// The same, and no file is there.
    Absent,
}

/// A configuration file with its state.
#[derive(Debug, Drop)]
pub struct VerifiedFile {
    /// Its name.
    pub name: Text,
    /// Where it is written.
    pub path: Path,
    /// What is the case with it.
    pub state: FileState,
}

impl FileState {
    /// Whether it is what its template renders to, or due.
    pub fn is_kept(&self) -> bool
        ensures { result ≡ is_kept self.now }
    {
        matches!(self, FileState::Current | FileState::Owed)
    }
}

// The state of a file that renders to these bytes.
fn state_of(bytes: &[u8], found: Option<&[u8]>, is_due: bool) -> FileState
    ensures { result ≡ state_in (Ok bytes.now) (option_copied found.entry) is_due }
{
    match found {
        Some(there) if there == bytes => FileState::Current,
        _ if is_due => FileState::Owed,
        Some(_) => FileState::Differs,
        None => FileState::Absent,
    }
}

/// The state of a file over these live values, by the bytes that are there and by whether it is due. It takes the time and the memory of
/// rendering the file. The only error is out of memory.
pub fn file_state(
    alloc: Global,
    templates: &Templates,
    os: &Os,
    live: &LiveView<'_>,
    file: &Text,
    found: Option<&[u8]>,
    is_due: bool,
) -> Result<FileState, AllocError>
    ensures { IfOk result (IsStateSeen templates.now os.now live.now file.now (option_copied found.entry) is_due) }
{
    match file_bytes(alloc, templates, os, live, file) {
        Ok(bytes) => Ok(state_of(bytes.as_slice(), found, is_due)),
        Err(RenderError::Memory) => Err(AllocError),
        Err(error) => Ok(FileState::Refused { error }),
    }
}

#[tactic(auto, using(crate::proofs::Naming::naming))]
// The set of these names.
fn set_of(alloc: Global, names: Vec<Text>) -> Result<BTreeSet<Text>, AllocError>
    ensures { IfOk result (HasNames names.items) }
{
    let mut set = BTreeSet::new(alloc);
    for name in names {
        set.insert(name)?;
    }
    Ok(set)
}

/// The files of the manifest by name, each with whether what is owed makes it due. It takes the time of `Manifest::files_of`, and a
/// logarithmic step for each file. The only error is out of memory.
pub fn marked_files(
    alloc: Global,
    manifest: &Manifest,
    owed: &Owed,
) -> Result<Vec<(Text, bool)>, AllocError>
    ensures { IfOk result (λ files. files.items ≡ marked_files manifest.now owed.now) }
{
    let due = set_of(alloc, manifest.files_of(owed)?)?;
    let mut files = Vec::new(alloc);
    for file in manifest.file_names()? {
        let is_due = due.contains(&file);
        files.push((file, is_due))?;
    }
    Ok(files)
}
