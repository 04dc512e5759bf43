//! The sources of templates, read from a disk.
ghost use Rattle.std.specs.Prelude.{◌≡◌, ◌≤◌, ℕ, List, length, Some, None, IfOk, IfErr, IsErrOf, IsTrue};
ghost use Rattle.outside.specs.History.{tree_of};
ghost use Rattle.outside.specs.Told.{WhereTold};
ghost use Rattle.outside.specs.Faults.{HasCauseOf};
ghost use Rattle.template_reader.specs.Parses.{fault};
ghost use Rattle.store_image.specs.Paths.{sources_in, template_path};
ghost use Rattle.store_image.specs.Refused.{template_fault};
ghost use Rattle.std.specs.Fmt.{decimal};
ghost use Rattle.store_image.specs.Words.{template_file, template_word};
ghost use Rattle.store_image.specs.Reading.{Refuses, AreShort, AreAt, AreFaultless, AreThere, IsBadAt, IsBadSource, IsFirstBadOf};

use crate::ImageError;
use crate::bad::bad_template;
use crate::path_map::PathMap;
use crate::template_paths::template_path;
use crate::words::template_word;
use key_names::Bytes;
use outside::{Disk, Path};
use std::alloc::Global;
use template_reader::{TemplateError, TemplateKind, read};

// The error that tells of the template's fault.
fn faulty(alloc: Global, path: &Path, error: TemplateError) -> Result<ImageError, ImageError>
    ensures ok { IfOk result (λ e. e ≡ ImageError.Bad (template_file path.now) (template_word error.kind) (decimal error.place)) }
    ensures err { IfErr result (λ e. e ≡ ImageError.Memory) }
{
    let place = format!(in alloc; "{}", error.place)?;
    Ok(bad_template(alloc, path, template_word(error.kind), place.as_str())?)
}

fn refused(alloc: Global, path: &Path, error: TemplateError) -> ImageError
    ensures { Refuses (IsBadSource path.now error) result }
{
    match error.kind {
        TemplateKind::Memory => ImageError::Memory,
        _ => match faulty(alloc, path, error) {
            Ok(bad) => bad,
            Err(_) => ImageError::Memory,
        },
    }
}

// The bytes, where they are a template.
fn check(alloc: Global, path: &Path, bytes: Vec<u8>) -> Result<Bytes, ImageError>
    ensures ok { IfOk result (λ source. source ≡ bytes.items) }
    ensures faultless { IfOk result (λ source. fault source ≡ None) }
    ensures refused { IfErr result (Refuses (λ file found. (file ≡ template_file path.now) × (template_fault (Some bytes.items) ≡ Some found))) }
{
    match read(alloc, &bytes) {
        Ok(_) => Ok(Bytes::of(bytes)),
        Err(error) => Err(refused(alloc, path, error)),
    }
}

// The source of the template at the path.
fn read_source<D: Disk>(alloc: Global, disk: &mut D, path: &Path) -> Result<Bytes, ImageError>
    requires { length path.now ≤ 38 }
    ensures same { D.told disk.new ≡ D.told disk.old }
    ensures there { IfOk result (λ source. WhereTold (D.told disk.old) (λ h. sources_in (tree_of h) (template_path path.now) ≡ Some source)) }
    ensures faultless { IfOk result (λ source. fault source ≡ None) }
    ensures bad { (file kind at : List ℕ) → IsErrOf result (ImageError.Bad file kind at) → WhereTold (D.told disk.old) (IsBadAt path.now file (kind, at)) }
    ensures cause { HasCauseOf ImageError.Failed (D.faults disk.old) (D.faults disk.new) result }
    ensures bad_without_fault { (file kind at : List ℕ) → IsErrOf result (ImageError.Bad file kind at) → D.faults disk.new ≡ D.faults disk.old }
{
    let full = template_path(alloc, path)?;
    let Some(bytes) = disk.read(alloc, &full)? else {
        return Err(bad_template(alloc, path, "missing", "-")?);
    };
    check(alloc, path, bytes)
}

/// The sources of the templates at the paths, or the first fault in order of path. It reads each file once.
pub fn read_sources<D: Disk>(
    alloc: Global,
    disk: &mut D,
    paths: &PathMap<()>,
) -> Result<PathMap<Bytes>, ImageError>
    requires { AreShort paths.now }
    ensures same { D.told disk.new ≡ D.told disk.old }
    ensures at { IfOk result (AreAt paths.now) }
    ensures faultless { IfOk result AreFaultless }
    ensures there { IfOk result (λ sources. WhereTold (D.told disk.old) (AreThere sources)) }
    ensures bad { (file kind at : List ℕ) → IsErrOf result (ImageError.Bad file kind at)
        → WhereTold (D.told disk.old) (IsFirstBadOf paths.now file (kind, at)) }
    ensures cause { HasCauseOf ImageError.Failed (D.faults disk.old) (D.faults disk.new) result }
    ensures bad_without_fault { (file kind at : List ℕ) → IsErrOf result (ImageError.Bad file kind at) → D.faults disk.new ≡ D.faults disk.old }
{
    let mut sources = PathMap::new(alloc);
    let mut after = None;
    while let Some((path, ())) = paths.next_after(after) {
        let source = read_source(alloc, disk, path)?;
        sources.put(path.copy()?, source)?;
        after = Some(path);
    }
    Ok(sources)
}
