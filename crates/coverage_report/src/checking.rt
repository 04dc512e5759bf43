//! The configuration files of an image are checked.
ghost use Rattle.std.specs.Prelude.{◌≡◌, All, IfOk, IsSome, map};
ghost use Rattle.std.specs.FinMap as finite;
ghost use Rattle.coverage_report.specs.Checked.{IsChecked, file_in};

use crate::FileCoverage;
use depend_check::covered;
use key_names::Text;
use std::alloc::{AllocError, Global};
use store_image::Image;

// Whether the file of the image is covered.
fn check_file(alloc: Global, image: &Image, file: &Text) -> Result<FileCoverage, AllocError>
    requires there { IsSome (finite.get image.now.manifest.files file.now) }
    ensures file { IfOk result (λ check. check.file ≡ file.now) }
    ensures checked { IfOk result (IsChecked image.now) }
{
    let name = file.as_str().as_bytes();
    let Some(parsed) = image.templates.parsed(name) else {
        unreachable!();
    };
    let coverage = covered(
        alloc,
        &image.manifest,
        &image.model.types,
        parsed.template,
        name,
    )?;
    Ok(FileCoverage {
        file: file.copy()?,
        coverage,
    })
}

// Whether each of these files is covered.
fn check_each(alloc: Global, image: &Image, files: &[Text]) -> Result<Vec<FileCoverage>, AllocError>
    requires there { All (λ file. IsSome (finite.get image.now.manifest.files file)) files.now }
    ensures files { IfOk result (λ checks. map file_in checks.items ≡ files.now) }
    ensures checked { IfOk result (λ checks. All (IsChecked image.now) checks.items) }
{
    let mut checks = Vec::new(alloc);
    for file in files {
        checks.push(check_file(alloc, image, file)?)?;
    }
    Ok(checks)
}

/// Whether each configuration file of the image is covered, files by name, also those that no service lists. The only error is
/// out of memory. It takes the time of `covered` for each file, and a logarithmic step to find its template, which is not
/// read again.
pub fn check_files(alloc: Global, image: &Image) -> Result<Vec<FileCoverage>, AllocError>
    ensures files { IfOk result (λ checks. map file_in checks.items ≡ finite.keys image.now.manifest.files) }
    ensures checked { IfOk result (λ checks. All (IsChecked image.now) checks.items) }
{
    let files = image.manifest.file_names()?;
    check_each(alloc, image, &files)
}
