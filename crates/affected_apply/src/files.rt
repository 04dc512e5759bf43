//! Turns that write a file.
ghost use Rattle.std.specs.Prelude.{◌≡◌, ◌≢◌, ◌⊎◌, IfErr};
ghost use Rattle.std.specs.FinMap.{get};
ghost use Rattle.outside.specs.DiskCalls.{Writes};
ghost use Rattle.outside.specs.Told.{Moves};
ghost use Rattle.outside.specs.Faults.{HasCause};
ghost use Rattle.settings_machine.specs.World.{Image, path_in};
ghost use Rattle.affected_apply.specs.Sees.{Sees, HasRow};
ghost use Rattle.affected_apply.specs.Turning.{FailsToWrite, WritesByImage, WritesOne, disk_answer};

use crate::View;
use key_names::Text;
use outside::Disk;
use settings_machine::{Cause, file_bytes};
use settings_tree::LiveView;
use std::alloc::Global;
use template_eval::RenderError;

// Why a file that didn't render isn't written.
fn refused(file: &Text, error: RenderError) -> Cause
    ensures { result ≡ Cause.Memory ⊎ ((error ≢ RenderError.Memory) × (result ≡ Cause.Render file.now error)) }
{
    match error {
        RenderError::Memory => Cause::Memory,
        error => match file.copy() {
            Ok(file) => Cause::Render { file, error },
            Err(_) => Cause::Memory,
        },
    }
}

// Writes the bytes of the file.
fn put<D: Disk>(view: &View<'_>, file: &Text, bytes: &[u8], disk: &mut D) -> Result<(), Cause>
    requires { HasRow view.now.manifest.now file.now }
    ensures cause { IfErr result (λ e. e ≡ Cause.Disk) }
    ensures written { Moves (D.told disk.old) (D.told disk.new)
        (Writes (path_in (get view.now.manifest.now.files file.now)) bytes.now result) }
    ensures faults { HasCause (D.faults disk.old) (D.faults disk.new) result }
{
    match view.manifest.file(file.as_str().as_bytes()) {
        Some(row) => match disk.write(&row.path, bytes) {
            Ok(()) => Ok(()),
            Err(_) => Err(Cause::Disk),
        },
        None => unreachable!(),
    }
}

/// Writes the file as its template renders now, by one write of the disk. It fails with `Render` where the
/// template refuses, with `Disk` where the disk fails, and with `Memory` where it runs out of memory; in the
/// first and the last case the disk is left alone. It takes the time of `file_bytes` and of the write.
pub(crate) fn write_file<D: Disk>(
    alloc: Global,
    view: &View<'_>,
    file: &Text,
    disk: &mut D,
) -> Result<(), Cause>
    requires { HasRow view.now.manifest.now file.now }
    ensures cause { IfErr result (FailsToWrite file.now) }
    ensures image { (I : Image) → Sees I view.now → WritesByImage I view.now.live.now file.now result }
    ensures written { Moves (D.told disk.old) (D.told disk.new)
        (λ old new. (I : Image) → Sees I view.now → WritesOne I view.now.live.now file.now result old new) }
    ensures faults { HasCause (D.faults disk.old) (D.faults disk.new) (disk_answer result) }
{
    match file_bytes(
        alloc,
        view.templates,
        view.os,
        &LiveView::of(view.live),
        file,
    ) {
        Ok(bytes) => put(view, file, bytes.as_slice(), disk),
        Err(error) => Err(refused(file, error)),
    }
}
