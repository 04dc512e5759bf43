//! Paths as they are written.
ghost use Rattle.std.specs.Prelude.{◌≡◌, ◌++◌, IfOk, codes};
ghost use Rattle.template_eval.specs.Written.{path_text, child_text};

use key_names::{Text, are_bare};
use std::alloc::{AllocError, Global};
use template_reader::Walk;

/// The path as it is written, its key printed. The only error is out of memory.
pub fn path_text(alloc: Global, path: &Walk) -> Result<Text, AllocError>
    ensures { IfOk result (λ text. text ≡ path_text path.now) }
{
    match path {
        Walk::Root(key) => key.print(),
        Walk::This(None) => Text::from_str(alloc, "this"),
        Walk::This(Some(key)) => below_this(alloc, key.print()?.as_str()),
        Walk::AtKey => Text::from_str(alloc, "@key"),
        Walk::AtIndex => Text::from_str(alloc, "@index"),
    }
}

fn below_this(alloc: Global, key: &str) -> Result<Text, AllocError>
    ensures { IfOk result (λ text. text ≡ codes "this." ++ key.now) }
{
    let text = format!(in alloc; "this.{key}")?;
    Ok(Text::of(text))
}

/// The path of a child, as it would be written. The only error is out of memory.
pub fn child_text(alloc: Global, path: &Walk, name: &str) -> Result<Text, AllocError>
    ensures { IfOk result (λ text. text ≡ child_text path.now name.now) }
{
    let parent = path_text(alloc, path)?;
    let parent = parent.as_str();
    let text = if are_bare(name.as_bytes()) {
        format!(in alloc; "{parent}.{name}")?
    } else {
        format!(in alloc; "{parent}.\"{name}\"")?
    };
    Ok(Text::of(text))
}
