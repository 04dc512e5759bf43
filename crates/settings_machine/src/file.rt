//! What a file is, rendered from scratch.
ghost use Rattle.std.specs.Prelude.{◌≡◌, ◌≢◌, IfOk, IfErr, Ok, Err};
ghost use Rattle.template_eval.specs.declared.render_error.RenderError.TheVariants.{Memory as NoRoom};
ghost use Rattle.settings_machine.specs.Seen.{IsRenderedAs};

use key_names::Text;
use settings_tree::{LiveView, Os};
use std::alloc::Global;
use template_eval::{RenderError, render};
use template_reader::Templates;

/// The bytes that the template of the file renders to over these values, or the first refusal; a file
/// without a template is empty. `Memory` may come at any place. It takes the time of `render`, and reads
/// no template again: each is kept parsed.
pub fn file_bytes(
    alloc: Global,
    templates: &Templates,
    os: &Os,
    live: &LiveView<'_>,
    file: &Text,
) -> Result<Vec<u8>, RenderError>
    ensures ok { IfOk result (λ bytes. IsRenderedAs templates.now os.now file.now live.now (Ok bytes.items)) }
    ensures err { IfErr result (λ e. e ≢ NoRoom → IsRenderedAs templates.now os.now file.now live.now (Err e)) }
{
    let Some(parsed) = templates.parsed(file.as_str().as_bytes()) else {
        return Ok(Vec::new(alloc));
    };
    render(alloc, parsed.template, parsed.source, live, os)
}
