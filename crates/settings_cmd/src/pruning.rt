//! The command `prune`.
ghost use Rattle.std.specs.Prelude.{◌≡◌, IfOk};
ghost use Rattle.outside.specs.Faults.{HasCauseOf};
ghost use Rattle.settings_cmd.specs.Carried.{IsPruned};
ghost use Rattle.settings_cmd.specs.Handing.{HandsPruning};
ghost use Rattle.settings_cmd.specs.Prunes.{pruned_line};

use command_outcome::Refusal;
use key_names::Bytes;
use migrate_chain::{PruneError, prune};
use outside::Disk;
use std::alloc::{AllocError, Global};

// How many files were removed, as a line.
fn line_of(alloc: Global, count: u64) -> Result<Bytes, AllocError>
    ensures { IfOk result (λ line. line ≡ pruned_line count) }
{
    let text = format!(in alloc; "pruned {count}\n")?;
    Ok(Bytes::of(text.into_bytes()))
}

// Why nothing was pruned.
fn refused(error: PruneError) -> Result<Bytes, Refusal>
    ensures { HandsPruning error result }
{
    match error {
        PruneError::NoStore => Err(Refusal::NoStore),
        PruneError::BadLink { path } => Err(Refusal::BadLink { path }),
        PruneError::Failed => Err(Refusal::Disk),
        PruneError::Memory => Err(Refusal::Memory),
    }
}

/// Empties the data directories to which the links don't lead, and answers a line with the number of files that were removed.
///
/// `NoStore` where `store/current` is no link, `BadLink` with the first path of the chain that is bad, `Disk` where the disk
/// failed, `Memory` where it runs out of memory, for the line too.
pub(crate) fn prune_others<D: Disk>(alloc: Global, disk: &mut D) -> Result<Bytes, Refusal>
    ensures pruned { IsPruned result (D.told disk.old) (D.told disk.new) }
    ensures cause { HasCauseOf Refusal.Disk (D.faults disk.old) (D.faults disk.new) result }
{
    match prune(alloc, disk) {
        Ok(count) => Ok(line_of(alloc, count)?),
        Err(error) => refused(error),
    }
}
