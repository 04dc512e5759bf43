//! How a part of a document is refused.
ghost use Rattle.std.specs.Prelude.{◌≡◌, ◌∷◌, [], IfOk};
ghost use Rattle.std.specs.List.{join_with_byte};
ghost use Rattle.model_file.specs.Model.{printed_path};
ghost use Rattle.model_file.specs.Refused.{IsAt};

use crate::ModelKind;
use key_names::Text;
use std::alloc::{AllocError, Global};
use toml_values::LocatedFault;

/// The refusal of this kind, at a path that begins with the name of a section.
pub fn refused(
    alloc: Global,
    kind: ModelKind,
    section: &str,
    path: &[Text],
) -> LocatedFault<ModelKind>
    ensures { IsAt kind (section.now ∷ path.now) result }
{
    match printed(alloc, section, path) {
        Ok(at) => LocatedFault::Fault(kind, at),
        Err(AllocError) => LocatedFault::Memory,
    }
}

fn printed(alloc: Global, section: &str, path: &[Text]) -> Result<Text, AllocError>
    ensures { IfOk result (λ text. text ≡ printed_path (section.now ∷ path.now)) }
{
    let mut text = String::from_str(alloc, section)?;
    for name in path {
        text.push('/')?;
        text.push_str(name.as_str())?;
    }
    Ok(Text::of(text))
}
