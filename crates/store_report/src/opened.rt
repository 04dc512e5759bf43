//! What an opening would make of a store, and the files that would refuse on it.
ghost use Rattle.std.specs.Prelude.{◌≡◌, IfOk, false};
ghost use Rattle.model_file.specs.Model.{AreKnown};
ghost use Rattle.typed_settings.specs.Row.{IsPrefixFree};
ghost use Rattle.settings_machine.specs.Typed.{IsTypedHeld};
ghost use Rattle.store_image.specs.Image.{AreSections};
ghost use Rattle.store_report.specs.Report.{IsOpenedBy, AreRefusedBy};

use key_names::Text;
use opening_step::opening_change;
use settings_machine::refusing;
use settings_tree::{Held, LiveView};
use std::alloc::{AllocError, Global};
use store_image::Image;
use template_eval::RenderError;

// A copy of what is held, with the opening step made.
fn opened(alloc: Global, image: &Image, held: &Held) -> Result<Held, AllocError>
    requires free { IsPrefixFree image.now.model.types }
    requires known { AreKnown image.now.model.types image.now.model.content.values }
    requires sections { AreSections image.now.model.content.values }
    requires typed { IsTypedHeld image.now.model.types held.now }
    ensures { IfOk result (IsOpenedBy image.now held.now) }
{
    let change = opening_change(alloc, false, &image.model.content, &image.text, held)?;
    let mut opened = held.copy()?;
    opened.lay(change)?;
    Ok(opened)
}

// The files whose templates refuse on what an opening makes of what is held.
fn refused_when_opened(
    alloc: Global,
    image: &Image,
    held: &Held,
) -> Result<Vec<(Text, RenderError)>, AllocError>
    requires free { IsPrefixFree image.now.model.types }
    requires known { AreKnown image.now.model.types image.now.model.content.values }
    requires sections { AreSections image.now.model.content.values }
    requires typed { IsTypedHeld image.now.model.types held.now }
    ensures { IfOk result (λ refused. AreRefusedBy false image.now held.now refused.items) }
{
    let opened = opened(alloc, image, held)?;
    let files = image.manifest.file_names()?;
    refusing(
        alloc,
        &image.templates,
        &image.model.os,
        &LiveView::of(&opened.live),
        &files,
    )
}

/// The files whose templates would refuse on what an opening makes of what is held, by name, each with why; none where a value is ill
/// typed, since an opening makes nothing of it then. The only error is out of memory. It copies what is held, and takes the
/// time of the opening step and that of rendering each file.
pub fn refused_files(
    alloc: Global,
    image: &Image,
    held: &Held,
    is_ill_typed: bool,
) -> Result<Vec<(Text, RenderError)>, AllocError>
    requires free { IsPrefixFree image.now.model.types }
    requires known { AreKnown image.now.model.types image.now.model.content.values }
    requires sections { AreSections image.now.model.content.values }
    requires typed { is_ill_typed ≡ false → IsTypedHeld image.now.model.types held.now }
    ensures { IfOk result (λ refused. AreRefusedBy is_ill_typed image.now held.now refused.items) }
{
    if is_ill_typed {
        return Ok(Vec::new(alloc));
    }
    refused_when_opened(alloc, image, held)
}
