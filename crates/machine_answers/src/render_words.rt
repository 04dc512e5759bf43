//! Why a template refused, in words.
ghost use Rattle.std.specs.Prelude.{◌≡◌};
ghost use Rattle.machine_answers.specs.RenderWords.{render_word, render_path};

use template_eval::RenderError;

/// The word for why a template refused: `missing`, `not-scalar`, `not-list` or `bad-base64`; out of memory has none. It takes no memory.
pub fn render_word(error: &RenderError) -> &'static str
    ensures { result.now ≡ render_word error.now }
{
    match error {
        RenderError::Missing { .. } => "missing",
        RenderError::NotScalar { .. } => "not-scalar",
        RenderError::NotList { .. } => "not-list",
        RenderError::BadBase64 { .. } => "bad-base64",
        RenderError::Memory => "",
    }
}

/// The path at which it refused, as it is written in the template with its key printed; out of memory has none. It takes no memory.
pub fn render_path(error: &RenderError) -> &str
    ensures { result.now ≡ render_path error.now }
{
    match error {
        RenderError::Missing { path }
        | RenderError::NotScalar { path }
        | RenderError::NotList { path }
        | RenderError::BadBase64 { path } => path.as_str(),
        RenderError::Memory => "",
    }
}
