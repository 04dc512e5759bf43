//! The command `check --store`.
ghost use Rattle.std.specs.Prelude.{◌≡◌, IfErr};
ghost use Rattle.outside.specs.History.{tree_of};
ghost use Rattle.outside.specs.Told.{WhereTold};
ghost use Rattle.outside.specs.Faults.{HasCauseOf};
ghost use Rattle.model_file.specs.Model.{AreKnown};
ghost use Rattle.typed_settings.specs.Row.{IsPrefixFree};
ghost use Rattle.store_image.specs.Image.{AreSections};
ghost use Rattle.settings_cmd.specs.Carried.{IsCheckedWith};
ghost use Rattle.settings_cmd.specs.Checks.{IsOfCheck};
ghost use Rattle.settings_cmd.specs.StoreChecks.{verdict, ReportsHeld, ChecksHeld, IsStoreChecked};

use crate::checking::{check, refused};
use command_outcome::Refusal;
use core_commands::not_opened;
use coverage_report::{are_covered, check_files, lines_of};
use key_names::Bytes;
use outside::Disk;
use settings_tree::Held;
use std::alloc::Global;
use store_image::{Image, read_image};
use store_open::peek_store;
use store_report::report;

// The lines, in the place of a refusal where something is wrong.
fn verdict_of(ill_typed: bool, refuses: bool, covered: bool, lines: Bytes) -> Result<Bytes, Refusal>
    ensures { result ≡ verdict ill_typed refuses covered lines }
{
    if ill_typed {
        Err(Refusal::HoldsIllTyped { lines })
    } else if refuses {
        Err(Refusal::WouldNotRender { lines })
    } else if !covered {
        Err(Refusal::NotCovered { lines })
    } else {
        Ok(lines)
    }
}

// The lines of the files of the image, and behind them those of what is held.
fn report_held(alloc: Global, image: &Image, held: &Held) -> Result<Bytes, Refusal>
    requires free { IsPrefixFree image.now.model.types }
    requires known { AreKnown image.now.model.types image.now.model.content.values }
    requires sections { AreSections image.now.model.content.values }
    ensures reports { ReportsHeld image.now held.now result }
{
    let checks = check_files(alloc, image)?;
    let store = report(alloc, image, held)?;
    let mut lines = lines_of(alloc, &checks)?;
    lines.extend_from_slice(store.lines.as_slice())?;
    verdict_of(
        store.ill_typed,
        store.refuses,
        are_covered(&checks),
        Bytes::of(lines),
    )
}

// Reads the image, and reports on it and on what is held.
fn check_held<D: Disk>(alloc: Global, disk: &mut D, held: &Held) -> Result<Bytes, Refusal>
    ensures same { D.told disk.new ≡ D.told disk.old }
    ensures checks { WhereTold (D.told disk.old) (λ h. ChecksHeld (tree_of h) held.now result) }
    ensures of_check { IfErr result IsOfCheck }
    ensures cause { HasCauseOf Refusal.Disk (D.faults disk.old) (D.faults disk.new) result }
{
    match read_image(alloc, disk) {
        Ok(image) => {
            // What holds of each table of types.
            let _ = image.model.types.len();
            report_held(alloc, &image, held)
        }
        Err(error) => refused(error),
    }
}

// Reads what an opening would find that the store holds, and then the image, and reports on both. It writes nothing.
fn check_store<D: Disk>(alloc: Global, disk: &mut D) -> Result<Bytes, Refusal>
    ensures checked { IsStoreChecked result (D.told disk.old) (D.told disk.new) }
    ensures of_check { IfErr result IsOfCheck }
    ensures cause { HasCauseOf Refusal.Disk (D.faults disk.old) (D.faults disk.new) result }
{
    match peek_store(alloc, disk) {
        Ok(stored) => check_held(alloc, disk, &stored.held),
        Err(error) => Err(not_opened(error)),
    }
}

/// What `check` answers, or, with `store`, what `check --store` does: besides the lines of `check` one for each stored value that
/// the types of the image refuse, and one for each configuration file that could not be rendered from what an opening makes of
/// the store (see `store_report::report`). It changes nothing: a change that was cut off is carried out in memory alone.
///
/// With `store`, first `NoStore`, `BadLink`, `BadJournal`, `Damaged` or `OldFormat`, as an opening would find it; then `BadImage`.
/// Then the lines are those of `HoldsIllTyped` where a value is ill typed, else of `WouldNotRender` where a file would not be
/// rendered, else of `NotCovered` where one isn't covered. `Disk` where the disk failed; `Memory` where it runs out of memory. It takes
/// the time of `peek_store`, `read_image`, `check_files` and of rendering each file, and memory in proportion to the store.
pub(crate) fn check_with<D: Disk>(
    alloc: Global,
    store: bool,
    disk: &mut D,
) -> Result<Bytes, Refusal>
    ensures checked { IsCheckedWith store result (D.told disk.old) (D.told disk.new) }
    ensures of_check { IfErr result IsOfCheck }
    ensures cause { HasCauseOf Refusal.Disk (D.faults disk.old) (D.faults disk.new) result }
{
    if store {
        check_store(alloc, disk)
    } else {
        check(alloc, disk)
    }
}
