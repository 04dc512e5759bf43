//! Why a template may not be rendered.

use key_names::Text;
use std::alloc::AllocError;

/// Why a template may not be rendered. The path is that of the expression or the block, as it is
/// written in the template with its key printed: `settings.motd`, `this`, `this.name`.
#[derive(Debug, Drop)]
pub enum RenderError {
    /// Nothing is at the path.
    Missing { path: Text },
    /// A list or a map is at the path, where a scalar is wanted.
    NotScalar { path: Text },
    /// No list is at the path where one is wanted, or no map where one is wanted, or neither in
    /// an `each`.
    NotList { path: Text },
    /// What is at the path is no text that is padded base64 of RFC 4648.
    BadBase64 { path: Text },
    /// It ran out of memory. It says nothing of the template and the values.
    Memory,
}

impl From<AllocError> for RenderError {
    ghost use Rattle.std.specs.Prelude.{◌≡◌};
    ghost use Rattle.template_eval.specs.declared.render_error.RenderError.TheVariants.{Memory};

    ghost from_gives = { λ _ e. e ≡ Memory };

    fn from(_: AllocError) -> Self {
        RenderError::Memory
    }
}
