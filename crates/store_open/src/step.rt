//! The opening step, as one change of a data directory.
ghost use Rattle.std.specs.Prelude.{◌≡◌, length, IfOk, OnOk, OnErr};
ghost use Rattle.outside.specs.Told.{Moves};
ghost use Rattle.outside.specs.Faults.{HasCauseOf};
ghost use Rattle.settings_tree.specs.Laid.{laid, KeepsPrefixRule, NamesWeak, TellsWeak};
ghost use Rattle.fs_datastore.specs.Batches.{Follows};
ghost use Rattle.store_open.specs.Phases.{Lays};
ghost use Rattle.store_image.specs.Image.{AreSections};
ghost use Rattle.store_open.specs.Step.{opened};
ghost use Rattle.settings_machine.specs.Typed.{IsTypedHeld};
ghost use Rattle.store_open.specs.Typed.{FitsImage};
ghost use Rattle.typed_settings.specs.Row.{IsPrefixFree};
ghost use Rattle.model_file.specs.Model.{AreKnown, AreTyped};

use commit_journal::Batch;
use fs_datastore::batch_of;
use opening_step::opening_change;
use outside::{Disk, DiskErr, Failed, Path};
use settings_tree::{Change, Held};
use std::alloc::{AllocError, Global};
use store_image::Image;

/// Writes the change as a batch of the directory, and lays it over what is held. The only error is out of memory, which leaves what is
/// held as it was. It takes the time of `batch_of`, and a logarithmic step for each entry.
pub fn lay_change(
    alloc: Global,
    dir: &Path,
    held: &mut Held,
    change: Change,
) -> Result<Batch, AllocError>
    requires two_names { length dir.now ≡ 2 }
    requires rule { KeepsPrefixRule (laid held.old change) }
    requires weak { NamesWeak held.old change }
    requires told { TellsWeak held.old change }
    ensures held { OnOk result (held.new ≡ laid held.old change) }
    ensures kept { OnErr result (held.new ≡ held.old) }
    ensures dir { IfOk result (λ batch. batch.dir ≡ dir.now) }
    ensures follows { IfOk result (λ batch. Follows change batch.entries) }
{
    let batch = batch_of(alloc, dir, &change)?;
    held.lay(change)?;
    Ok(batch)
}

/// Makes the change, on the disk and in what is held, as one change of the directory. From the first writing call on it takes no memory.
pub(crate) fn make<D: Disk>(
    alloc: Global,
    disk: &mut D,
    dir: &Path,
    held: &mut Held,
    change: Change,
) -> Result<(), DiskErr>
    requires two_names { length dir.now ≡ 2 }
    requires rule { KeepsPrefixRule (laid held.old change) }
    requires weak { NamesWeak held.old change }
    requires told { TellsWeak held.old change }
    ensures lays { Moves (D.told disk.old) (D.told disk.new)
        (Lays dir.now held.old (laid held.old change) result) }
    ensures made { OnOk result (held.new ≡ laid held.old change) }
    ensures cause { HasCauseOf DiskErr.Failed (D.faults disk.old) (D.faults disk.new) result }
{
    let batch = lay_change(alloc, dir, held, change)?;
    match commit_journal::change(disk, &batch) {
        Ok(()) => Ok(()),
        Err(Failed) => Err(DiskErr::Failed),
    }
}

/// Makes the opening step, on the disk and in what is held: as one change of the directory, or none where nothing differs.
pub fn make_step<D: Disk>(
    alloc: Global,
    disk: &mut D,
    dir: &Path,
    boot: bool,
    held: &mut Held,
    image: &Image,
) -> Result<(), DiskErr>
    requires two_names { length dir.now ≡ 2 }
    requires free { IsPrefixFree image.now.model.types }
    requires known { AreKnown image.now.model.types image.now.model.content.values }
    requires typed { AreTyped image.now.model.types image.now.model.content.values }
    requires sections { AreSections image.now.model.content.values }
    requires types { IsTypedHeld image.now.model.types held.old }
    ensures lays { Moves (D.told disk.old) (D.told disk.new)
        (Lays dir.now held.old (opened boot image.now held.old) result) }
    ensures made { OnOk result (held.new ≡ opened boot image.now held.old) }
    ensures fits { OnOk result
        (FitsImage image.now.model.types image.now.model.content image.now.text held.new) }
    ensures cause { HasCauseOf DiskErr.Failed (D.faults disk.old) (D.faults disk.new) result }
{
    let change = opening_change(alloc, boot, &image.model.content, &image.text, held)?;
    if change.as_slice().is_empty() {
        return Ok(());
    }
    make(alloc, disk, dir, held, change)
}
