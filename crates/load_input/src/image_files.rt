//! The files of the image of a load run.
ghost use Rattle.std.specs.Prelude.{◌≡◌, ◌≤◌, IfOk, map};
ghost use Rattle.load_input.specs.Image.{model_file, template_file, image_files};
ghost use Rattle.load_input.specs.Files.{file_of};

use crate::model_text::{SERVICES, model_text};
use crate::template_text::template_text;
use key_names::{Bytes, Text};
use std::alloc::{AllocError, Global};

/// A file of the image.
#[derive(Debug, Drop)]
pub struct LoadFile {
    /// Where it lies, its names joined by `/`.
    pub path: Text,
    /// What it holds.
    pub bytes: Bytes,
}

// The model file.
#[tactic(auto, unfolding(crate::specs::Image::model_file))]
fn model_file(alloc: Global, count: u32) -> Result<LoadFile, AllocError>
    ensures { IfOk result (λ file. file_of file ≡ model_file count) }
{
    Ok(LoadFile {
        path: Text::from_str(alloc, "image/model.toml")?,
        bytes: Bytes::of(model_text(alloc, count)?),
    })
}

// The template of a service.
#[tactic(auto, unfolding(crate::specs::Image::template_file))]
fn template_file(alloc: Global, count: u32, service: u32) -> Result<LoadFile, AllocError>
    ensures { IfOk result (λ file. file_of file ≡ template_file count service) }
{
    Ok(LoadFile {
        path: Text::of(format!(in alloc; "image/templates/f{service}")?),
        bytes: Bytes::of(template_text(alloc, count, service)?),
    })
}

/// The files of the image for so many settings: `image/model.toml`, then `image/templates/f0` to `image/templates/f9`.
///
/// The model has one type for all settings, ten services with a file and a restart command each, and for each setting the one
/// service that it affects, in turn. The template of a service has a line for each setting that affects it. The only error is
/// out of memory. It takes time and memory in proportion to the count.
pub fn files(alloc: Global, count: u32) -> Result<Vec<LoadFile>, AllocError>
    requires some { 1 ≤ count }
    requires most { count ≤ 10000 }
    ensures { IfOk result (λ files. map file_of files.items ≡ image_files count) }
{
    let mut files = Vec::new(alloc);
    files.push(model_file(alloc, count)?)?;
    for service in 0..SERVICES {
        files.push(template_file(alloc, count, service)?)?;
    }
    Ok(files)
}
