//! The report of a store.
ghost use Rattle.std.specs.Prelude.{IfOk};
ghost use Rattle.model_file.specs.Model.{AreKnown};
ghost use Rattle.typed_settings.specs.Row.{IsPrefixFree};
ghost use Rattle.store_image.specs.Image.{AreSections};
ghost use Rattle.store_report.specs.Report.{IsStoreReport};

use crate::found::ill_typed;
use crate::lines::report_lines;
use crate::opened::refused_files;
use key_names::Bytes;
use settings_tree::Held;
use std::alloc::{AllocError, Global};
use store_image::Image;

/// What a store was found to hold, set against an image.
#[derive(Drop)]
pub struct StoreReport {
    /// A line for each value that the types refuse, and for each file that would refuse, each with a line feed.
    pub lines: Bytes,
    /// Whether the types refuse a value, so that the store can't be opened.
    pub ill_typed: bool,
    /// Whether a file would refuse on what an opening makes of what is held.
    pub refuses: bool,
}

/// Reports what is held, set against the image: `ill typed KEY WANTED` for each live value that its types refuse, by key; then
/// `ill typed TX KEY WANTED` for each pending value or removal that they refuse, by transaction and key; then `render FILE KIND PATH`
/// for each file whose template would refuse on what an opening makes of what is held, by name. WANTED is the type word of the row
/// that matches the key, `nothing` where none does or where what is pending is no setting. Values of services and of configuration
/// files are not looked at, since an opening puts those of the image in their place. Where the types refuse a value an opening makes
/// nothing of the store, and no file is reported.
///
/// The only error is out of memory. It takes a logarithmic step for each value and the time of its check, and where the types take
/// all, a copy of what is held, the time of the opening step, and that of rendering each file.
pub fn report(alloc: Global, image: &Image, held: &Held) -> Result<StoreReport, AllocError>
    requires free { IsPrefixFree image.now.model.types }
    requires known { AreKnown image.now.model.types image.now.model.content.values }
    requires sections { AreSections image.now.model.content.values }
    ensures { IfOk result (IsStoreReport image.now held.now) }
{
    let values = ill_typed(alloc, &image.model.types, held)?;
    let is_ill_typed = !values.is_empty();
    let files = refused_files(alloc, image, held, is_ill_typed)?;
    Ok(StoreReport {
        lines: report_lines(alloc, &values, &files)?,
        ill_typed: is_ill_typed,
        refuses: !files.is_empty(),
    })
}
