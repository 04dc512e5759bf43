//! Images are read.
ghost use Rattle.std.specs.Prelude.{◌≡◌, ℕ, List, Some, IfOk, IsErrOf};
ghost use Rattle.outside.specs.History.{tree_of};
ghost use Rattle.outside.specs.Told.{WhereTold};
ghost use Rattle.outside.specs.Faults.{HasCauseOf};
ghost use Rattle.model_file.specs.Model.{AreKnown, AreTyped};
ghost use Rattle.typed_settings.specs.Row.{IsPrefixFree};
ghost use Rattle.store_image.specs.Paths.{sources_in, model_path};
ghost use Rattle.store_image.specs.Image.{AreSources, IsImageOf, AreSections};
ghost use Rattle.store_image.specs.Reading.{IsLinked, IsBadTemplate, AreThere, AreReadFrom};
ghost use Rattle.store_image.specs.Refused.{IsRefused};

use crate::bad::no_model;
use crate::image_text::image_text;
use crate::linking::linked;
use crate::path_map::PathMap;
use crate::sources::read_sources;
use crate::template_paths::{model_path, template_paths};
use crate::templates::templates_of;
use crate::{Image, ImageError};
use key_names::Bytes;
use metadata_links::Manifest;
use outside::Disk;
use std::alloc::Global;
use template_reader::Templates;

// The text of the model.
fn read_model<D: Disk>(alloc: Global, disk: &mut D) -> Result<Vec<u8>, ImageError>
    ensures same { D.told disk.new ≡ D.told disk.old }
    ensures there { IfOk result (λ text. WhereTold (D.told disk.old) (λ h. sources_in (tree_of h) model_path ≡ Some text.items)) }
    ensures bad { (file kind at : List ℕ) → IsErrOf result (ImageError.Bad file kind at)
        → WhereTold (D.told disk.old) (λ h. IsRefused (sources_in (tree_of h)) file (kind, at)) }
    ensures cause { HasCauseOf ImageError.Failed (D.faults disk.old) (D.faults disk.new) result }
    ensures bad_without_fault { (file kind at : List ℕ) → IsErrOf result (ImageError.Bad file kind at) → D.faults disk.new ≡ D.faults disk.old }
{
    let path = model_path(alloc)?;
    match disk.read(alloc, &path)? {
        Some(text) => Ok(text),
        None => Err(no_model(alloc)?),
    }
}

// The sources of the manifest's templates, or the first fault of one.
fn sources_of<D: Disk>(
    alloc: Global,
    disk: &mut D,
    manifest: &Manifest,
) -> Result<PathMap<Bytes>, ImageError>
    requires { IsLinked manifest.now }
    ensures same { D.told disk.new ≡ D.told disk.old }
    ensures read { IfOk result (AreSources manifest.now) }
    ensures there { IfOk result (λ sources. WhereTold (D.told disk.old) (AreThere sources)) }
    ensures bad { (file kind at : List ℕ) → IsErrOf result (ImageError.Bad file kind at)
        → WhereTold (D.told disk.old) (IsBadTemplate manifest.now file (kind, at)) }
    ensures cause { HasCauseOf ImageError.Failed (D.faults disk.old) (D.faults disk.new) result }
    ensures bad_without_fault { (file kind at : List ℕ) → IsErrOf result (ImageError.Bad file kind at) → D.faults disk.new ≡ D.faults disk.old }
{
    let paths = template_paths(alloc, manifest)?;
    read_sources(alloc, disk, &paths)
}

// The templates of the manifest's files, and the image text with their sources.
fn read_templates<D: Disk>(
    alloc: Global,
    disk: &mut D,
    model: &[u8],
    manifest: &Manifest,
) -> Result<(Templates, Bytes), ImageError>
    requires { IsLinked manifest.now }
    ensures same { D.told disk.new ≡ D.told disk.old }
    ensures ok { IfOk result (λ both. AreReadFrom (D.told disk.old) model.now manifest.now both.0 both.1) }
    ensures bad { (file kind at : List ℕ) → IsErrOf result (ImageError.Bad file kind at)
        → WhereTold (D.told disk.old) (IsBadTemplate manifest.now file (kind, at)) }
    ensures cause { HasCauseOf ImageError.Failed (D.faults disk.old) (D.faults disk.new) result }
    ensures bad_without_fault { (file kind at : List ℕ) → IsErrOf result (ImageError.Bad file kind at) → D.faults disk.new ≡ D.faults disk.old }
{
    let sources = sources_of(alloc, disk, manifest)?;
    let text = image_text(alloc, model, &sources)?;
    let templates = templates_of(alloc, manifest, &sources)?;
    Ok((templates, text))
}

// The image whose model has this text.
fn image_of<D: Disk>(alloc: Global, disk: &mut D, text: &[u8]) -> Result<Image, ImageError>
    ensures same { D.told disk.new ≡ D.told disk.old }
    ensures ok { IfOk result (λ image. WhereTold (D.told disk.old) (λ h. sources_in (tree_of h) model_path ≡ Some text.now
        → IsImageOf (sources_in (tree_of h)) image.model image.manifest image.templates image.text)) }
    ensures free { IfOk result (λ image. IsPrefixFree image.model.types) }
    ensures known { IfOk result (λ image. AreKnown image.model.types image.model.content.values) }
    ensures typed { IfOk result (λ image. AreTyped image.model.types image.model.content.values) }
    ensures sections { IfOk result (λ image. AreSections image.model.content.values) }
    ensures bad { (file kind at : List ℕ) → IsErrOf result (ImageError.Bad file kind at)
        → WhereTold (D.told disk.old) (λ h. sources_in (tree_of h) model_path ≡ Some text.now
        → IsRefused (sources_in (tree_of h)) file (kind, at)) }
    ensures cause { HasCauseOf ImageError.Failed (D.faults disk.old) (D.faults disk.new) result }
    ensures bad_without_fault { (file kind at : List ℕ) → IsErrOf result (ImageError.Bad file kind at) → D.faults disk.new ≡ D.faults disk.old }
{
    let (model, manifest) = linked(alloc, text)?;
    let (templates, text) = read_templates(alloc, disk, text, &manifest)?;
    Ok(Image {
        model,
        manifest,
        templates,
        text,
    })
}

/// Reads the image: the model `image/model.toml`, its manifest, and the template of each file below `image/templates/`. It
/// reads each file of the disk once, and changes nothing.
///
/// `Bad` exactly where the files make no image, with the first fault in the order of the model, the manifest, and the
/// templates by path. `Failed` where the disk failed, `Memory` where it ran out of memory. It takes a logarithmic step for each
/// configuration file, besides what its parts take to be read.
pub fn read_image<D: Disk>(alloc: Global, disk: &mut D) -> Result<Image, ImageError>
    ensures same { D.told disk.new ≡ D.told disk.old }
    ensures ok { IfOk result (λ image. WhereTold (D.told disk.old) (λ h. IsImageOf (sources_in (tree_of h)) image.model image.manifest image.templates
        image.text)) }
    ensures free { IfOk result (λ image. IsPrefixFree image.model.types) }
    ensures known { IfOk result (λ image. AreKnown image.model.types image.model.content.values) }
    ensures typed { IfOk result (λ image. AreTyped image.model.types image.model.content.values) }
    ensures sections { IfOk result (λ image. AreSections image.model.content.values) }
    ensures bad { (file kind at : List ℕ) → IsErrOf result (ImageError.Bad file kind at)
        → WhereTold (D.told disk.old) (λ h. IsRefused (sources_in (tree_of h)) file (kind, at)) }
    ensures cause { HasCauseOf ImageError.Failed (D.faults disk.old) (D.faults disk.new) result }
    ensures bad_without_fault { (file kind at : List ℕ) → IsErrOf result (ImageError.Bad file kind at) → D.faults disk.new ≡ D.faults disk.old }
{
    let text = read_model(alloc, disk)?;
    image_of(alloc, disk, &text)
}
