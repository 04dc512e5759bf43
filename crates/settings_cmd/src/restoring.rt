//! The command `restore`.
ghost use Rattle.std.specs.Prelude.{◌≡◌, ◌∷◌, ◌++◌, [], Some, IfOk, IfErr, IsErrOf, codes, ℕ, List};
ghost use Rattle.outside.specs.History.{tree_of};
ghost use Rattle.outside.specs.Tree.{node_at, file_in};
ghost use Rattle.outside.specs.Told.{WhereTold};
ghost use Rattle.outside.specs.Faults.{HasCauseOf};
ghost use Rattle.version_links.specs.Versions.{version_text};
ghost use Rattle.settings_cmd.specs.Stores.{IsOfDump, IsRestored, BeginsBy, TellsOfDump, TellsOfDumpFault, dump_word};

use crate::beginning::not_begun;
use crate::version_line::version_line;
use command_outcome::Refusal;
use held_text::{Dump, DumpError, read_dump};
use key_names::{Bytes, Text};
use outside::{Disk, Path};
use settings_tree::Owed;
use std::alloc::{AllocError, Global};
use store_open::begin;

// The word for a fault; out of memory has none.
fn dump_word(error: DumpError) -> &'static str
    ensures { result.now ≡ dump_word error }
{
    match error {
        DumpError::NotJson => "not-json",
        DumpError::BadHeld => "bad-held",
        DumpError::BadVersion => "bad-version",
        DumpError::Memory => "",
    }
}

// The refusal that tells of a fault of a dump. It has no place.
fn bad_dump(alloc: Global, kind: &str) -> Result<Refusal, AllocError>
    ensures { IfOk result (λ refusal. refusal ≡ Refusal.Dump kind.now (codes "-")) }
{
    Ok(Refusal::Dump {
        kind: Text::from_str(alloc, kind)?,
        at: Text::from_str(alloc, "-")?,
    })
}

// Why the text is no dump.
fn refused(alloc: Global, error: DumpError) -> Result<Refusal, AllocError>
    ensures { IfOk result (TellsOfDumpFault error) }
{
    if error == DumpError::Memory {
        return Ok(Refusal::Memory);
    }
    bad_dump(alloc, dump_word(error))
}

// The dump that the text spells.
fn dump_of(alloc: Global, text: &[u8]) -> Result<Dump, Refusal>
    ensures tells { TellsOfDump (Some text.now) result }
    ensures of_dump { IfErr result IsOfDump }
    ensures no_disk { IsErrOf result Refusal.Disk → ⊥ }
{
    match read_dump(alloc, text) {
        Ok(dump) => Ok(dump),
        Err(error) => Err(refused(alloc, error)?),
    }
}

// The dump in the file at the path.
fn dump_at<D: Disk>(alloc: Global, disk: &mut D, path: &Path) -> Result<Dump, Refusal>
    ensures same { D.told disk.new ≡ D.told disk.old }
    ensures tells { WhereTold (D.told disk.old) (λ h. TellsOfDump (file_in (node_at (tree_of h) path.now)) result) }
    ensures of_dump { IfErr result IsOfDump }
    ensures cause { HasCauseOf Refusal.Disk (D.faults disk.old) (D.faults disk.new) result }
{
    match disk.read(alloc, path)? {
        Some(text) => dump_of(alloc, &text),
        None => Err(bad_dump(alloc, "missing")?),
    }
}

// Begins a store of the version of the dump that holds what the dump holds, and owes all.
fn begin_by<D: Disk>(alloc: Global, disk: &mut D, dump: Dump, line: Bytes) -> Result<Bytes, Refusal>
    requires line { line ≡ version_text dump.version ++ 10 ∷ [] }
    ensures begins { BeginsBy dump result (D.told disk.old) (D.told disk.new) }
    ensures cause { HasCauseOf Refusal.Disk (D.faults disk.old) (D.faults disk.new) result }
{
    let Dump { version, mut held } = dump;
    held.owed = Owed::All;
    match begin(alloc, disk, &version, &held) {
        Ok(()) => Ok(line),
        Err(error) => not_begun(error),
    }
}

/// Begins a store by a dump: reads the file at the path, and begins a store of the dump's version that holds what the dump holds, live
/// and pending, where all is owed. It answers the version and a line feed.
///
/// `Dump` exactly where no file is at the path or it is no dump, with the kind of the fault: the file is read before it is looked whether a
/// store is there. Then `AlreadyThere` exactly where the links lead to a store; `BadLink` where a link of the chain is missing or bad; and
/// nothing is changed then. `Disk` where the disk failed; `Memory` where it runs out of memory, and never once the store is begun.
pub(crate) fn restore<D: Disk>(alloc: Global, disk: &mut D, path: &Path) -> Result<Bytes, Refusal>
    ensures restored { IsRestored path.now result (D.told disk.old) (D.told disk.new) }
    ensures unspawned { (name : List ℕ) → IsErrOf result (Refusal.Spawn name) → ⊥ }
    ensures no_door { IsErrOf result Refusal.Door → ⊥ }
    ensures cause { HasCauseOf Refusal.Disk (D.faults disk.old) (D.faults disk.new) result }
{
    let dump = dump_at(alloc, disk, path)?;
    let line = version_line(alloc, &dump.version)?;
    begin_by(alloc, disk, dump, line)
}
