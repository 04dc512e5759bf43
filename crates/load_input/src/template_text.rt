//! The templates of a load run.
ghost use Rattle.std.specs.Prelude.{◌≡◌, ◌++◌, IfOk, OnOk};
ghost use Rattle.load_input.specs.Image.{value_line, line_in, template_text};

use crate::model_text::SERVICES;
use std::alloc::{AllocError, Global};

// Adds the line of a setting.
#[tactic(auto, unfolding(crate::specs::Image::value_line))]
fn push_value(out: &mut Vec<u8>, i: u32) -> Result<(), AllocError>
    ensures { OnOk result (out.new.items ≡ out.old.items ++ value_line i) }
{
    let alloc = *out.allocator();
    let line = format!(in alloc; "{{{{default 0 settings.load.k{i}}}}}\n")?;
    out.extend_from_slice(line.as_bytes())
}

// Adds the line of a setting, if it affects the service.
#[tactic(auto, unfolding(crate::specs::Image::line_in))]
fn push_if_concerned(out: &mut Vec<u8>, service: u32, i: u32) -> Result<(), AllocError>
    ensures { OnOk result (out.new.items ≡ out.old.items ++ line_in service i) }
{
    if i % SERVICES == service {
        return push_value(out, i);
    }
    Ok(())
}

/// The text of the template of this service, for so many settings. The only error is out of memory.
pub(crate) fn template_text(alloc: Global, count: u32, service: u32) -> Result<Vec<u8>, AllocError>
    ensures { IfOk result (λ text. text.items ≡ template_text count service) }
{
    let mut text = Vec::new(alloc);
    for i in 0..count {
        push_if_concerned(&mut text, service, i)?;
    }
    Ok(text)
}
