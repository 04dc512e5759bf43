//! The model file of a load run.
ghost use Rattle.std.specs.Prelude.{◌≡◌, IfOk};
ghost use Rattle.std.specs.List.{flat_map};
ghost use Rattle.load_input.specs.Numbers.{below};
ghost use Rattle.load_input.specs.Image.{type_lines, service_lines, setting_lines, model_text};

use crate::numbered::push_number;
use std::alloc::{AllocError, Global};

/// How many services a load run has.
pub(crate) const SERVICES: u32 = 10;

// The lines of the one type.
#[tactic(auto, unfolding(crate::specs::Image::type_lines))]
fn type_lines(alloc: Global) -> Result<Vec<u8>, AllocError>
    ensures { IfOk result (λ lines. lines.items ≡ type_lines) }
{
    Vec::from_slice(alloc, b"[types]\n\"settings.load.*\" = \"int 0 999999\"\n")
}

// The lines of a service and of its file.
#[tactic(auto, unfolding(crate::specs::Image::service_lines))]
fn service_lines(alloc: Global, j: u32) -> Result<Vec<u8>, AllocError>
    ensures { IfOk result (λ lines. lines.items ≡ service_lines j) }
{
    let mut lines = Vec::from_slice(alloc, b"[services.s")?;
    push_number(&mut lines, j)?;
    lines.extend_from_slice(b"]\nconfiguration-files = [\"f")?;
    push_number(&mut lines, j)?;
    lines.extend_from_slice(b"\"]\nrestart-commands = [\"restart s")?;
    push_number(&mut lines, j)?;
    lines.extend_from_slice(b"\"]\n[configuration-files.f")?;
    push_number(&mut lines, j)?;
    lines.extend_from_slice(b"]\npath = \"/etc/load/f")?;
    push_number(&mut lines, j)?;
    lines.extend_from_slice(b"\"\ntemplate-path = \"f")?;
    push_number(&mut lines, j)?;
    lines.extend_from_slice(b"\"\n")?;
    Ok(lines)
}

// The lines of a setting.
#[tactic(auto, unfolding(crate::specs::Image::setting_lines))]
fn setting_lines(alloc: Global, i: u32) -> Result<Vec<u8>, AllocError>
    ensures { IfOk result (λ lines. lines.items ≡ setting_lines i) }
{
    let mut lines = Vec::from_slice(alloc, b"[metadata.settings.load.k")?;
    push_number(&mut lines, i)?;
    lines.extend_from_slice(b"]\naffected-services = [\"s")?;
    push_number(&mut lines, i % SERVICES)?;
    lines.extend_from_slice(b"\"]\n")?;
    Ok(lines)
}

// The lines of all services.
fn services_text(alloc: Global) -> Result<Vec<u8>, AllocError>
    ensures { IfOk result (λ lines. lines.items ≡ flat_map service_lines (below 10)) }
{
    let mut text = Vec::new(alloc);
    for j in 0..SERVICES {
        let lines = service_lines(alloc, j)?;
        text.extend_from_slice(lines.as_slice())?;
    }
    Ok(text)
}

/// The text of the model for so many settings. The only error is out of memory.
pub(crate) fn model_text(alloc: Global, count: u32) -> Result<Vec<u8>, AllocError>
    ensures { IfOk result (λ text. text.items ≡ model_text count) }
{
    let mut text = type_lines(alloc)?;
    let services = services_text(alloc)?;
    text.extend_from_slice(services.as_slice())?;
    for i in 0..count {
        let lines = setting_lines(alloc, i)?;
        text.extend_from_slice(lines.as_slice())?;
    }
    Ok(text)
}
