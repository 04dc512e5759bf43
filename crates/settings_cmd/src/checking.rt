//! The command `check`.
ghost use Rattle.std.specs.Prelude.{◌≡◌, IfErr};
ghost use Rattle.outside.specs.History.{tree_of};
ghost use Rattle.outside.specs.Told.{WhereTold};
ghost use Rattle.outside.specs.Faults.{HasCauseOf};
ghost use Rattle.store_image.specs.Paths.{sources_in};
ghost use Rattle.settings_cmd.specs.Checks.{Reports, TellsOfImage, IsOfCheck};
ghost use Rattle.settings_cmd.specs.Handing.{HandsImage};

use command_outcome::Refusal;
use coverage_report::{are_covered, check_files, lines_of};
use key_names::Bytes;
use outside::Disk;
use std::alloc::Global;
use store_image::{Image, ImageError, read_image};

// Why there is no image to check.
pub(crate) fn refused(error: ImageError) -> Result<Bytes, Refusal>
    ensures hands { HandsImage error result }
    ensures of_check { IfErr result IsOfCheck }
{
    match error {
        ImageError::Bad { file, kind, at } => Err(Refusal::BadImage { file, kind, at }),
        ImageError::Failed => Err(Refusal::Disk),
        ImageError::Memory => Err(Refusal::Memory),
    }
}

// The lines of the files of the image, in the place of a refusal where one isn't covered.
fn report(alloc: Global, image: &Image) -> Result<Bytes, Refusal>
    ensures reports { Reports image.now result }
    ensures of_check { IfErr result IsOfCheck }
{
    let checks = check_files(alloc, image)?;
    let lines = Bytes::of(lines_of(alloc, &checks)?);
    if are_covered(&checks) {
        Ok(lines)
    } else {
        Err(Refusal::NotCovered { lines })
    }
}

/// Reads the image below `image/` and answers a line for each of its configuration files, by name, that says whether it is
/// covered; where one isn't, they are those of the refusal `NotCovered`. It changes nothing.
///
/// `BadImage` exactly where the files make no image, with the first fault; `Disk` where the disk failed; `Memory` where it
/// runs out of memory. It takes the time of `read_image` and of `check_files`.
pub(crate) fn check<D: Disk>(alloc: Global, disk: &mut D) -> Result<Bytes, Refusal>
    ensures same { D.told disk.new ≡ D.told disk.old }
    ensures tells { WhereTold (D.told disk.old) (λ h. TellsOfImage (sources_in (tree_of h)) result) }
    ensures of_check { IfErr result IsOfCheck }
    ensures cause { HasCauseOf Refusal.Disk (D.faults disk.old) (D.faults disk.new) result }
{
    match read_image(alloc, disk) {
        Ok(image) => report(alloc, &image),
        Err(error) => refused(error),
    }
}
