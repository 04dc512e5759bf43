//! The command `init`.
ghost use Rattle.outside.specs.Faults.{HasCauseOf};
ghost use Rattle.settings_cmd.specs.Carried.{Carried, IsBegun};
ghost use Rattle.settings_cmd.specs.Handing.{HandsBeginning};

use crate::version_line::version_line;
use command_outcome::Refusal;
use key_names::Bytes;
use outside::Disk;
use std::alloc::Global;
use store_open::{InitError, init};
use version_links::Version;

/// Why no store was begun.
pub(crate) fn not_begun(error: InitError) -> Result<Bytes, Refusal>
    ensures { HandsBeginning error result }
{
    match error {
        InitError::AlreadyThere { version } => Err(Refusal::AlreadyThere { version }),
        InitError::BadLink { path } => Err(Refusal::BadLink { path }),
        InitError::Failed => Err(Refusal::Disk),
        InitError::Memory => Err(Refusal::Memory),
    }
}

/// Begins a store of this version, and answers the version and a line feed.
///
/// `AlreadyThere` exactly where the links lead to a store; `BadLink` where a link of the chain is missing or bad; `Disk` where the
/// disk failed; `Memory` where it runs out of memory, and never once the store is begun.
pub(crate) fn begin<D: Disk>(
    alloc: Global,
    disk: &mut D,
    version: &Version,
) -> Result<Bytes, Refusal>
    ensures begun { Carried (IsBegun version.now) result (D.told disk.old) (D.told disk.new) }
    ensures cause { HasCauseOf Refusal.Disk (D.faults disk.old) (D.faults disk.new) result }
{
    let line = version_line(alloc, version)?;
    match init(alloc, disk, version) {
        Ok(()) => Ok(line),
        Err(error) => not_begun(error),
    }
}
