//! The lines of a report.
ghost use Rattle.std.specs.Prelude.{◌≡◌, ◌++◌, ◌∷◌, [], IfOk, OnOk, codes};
ghost use Rattle.std.specs.List.{flat_map};
ghost use Rattle.key_names.specs.Key.{printed};
ghost use Rattle.coverage_report.specs.Lines.{told, line};

use crate::FileCoverage;
use depend_check::Coverage;
use key_names::Key;
use std::alloc::{AllocError, Global};

fn push_key(text: &mut Vec<u8>, key: &Key) -> Result<(), AllocError>
    ensures { OnOk result (text.new.items ≡ text.old.items ++ (32 ∷ printed key.now)) }
{
    text.push(b' ')?;
    text.extend_from_slice(key.print()?.as_str().as_bytes())
}

// What is said of the file after its name.
fn push_told(text: &mut Vec<u8>, coverage: &Coverage) -> Result<(), AllocError>
    ensures { OnOk result (text.new.items ≡ text.old.items ++ told coverage.now) }
{
    match coverage {
        Coverage::Covered => text.extend_from_slice(b" covered"),
        Coverage::NoService => text.extend_from_slice(b" no service"),
        Coverage::NotInModel { path } => {
            text.extend_from_slice(b" not in model")?;
            push_key(text, path)
        }
        Coverage::Uncovered { path, at, service } => {
            text.extend_from_slice(b" uncovered")?;
            push_key(text, path)?;
            push_key(text, at)?;
            text.push(b' ')?;
            text.extend_from_slice(service.as_str().as_bytes())
        }
    }
}

fn push_line(text: &mut Vec<u8>, check: &FileCoverage) -> Result<(), AllocError>
    ensures { OnOk result (text.new.items ≡ text.old.items ++ line check.now) }
{
    text.extend_from_slice(check.file.as_str().as_bytes())?;
    push_told(text, &check.coverage)?;
    text.push(b'\n')?;
    Ok(())
}

/// The lines that tell of these files, one for each: `FILE covered`, `FILE no service`, `FILE not in model PATH`, or
/// `FILE uncovered PATH AT SERVICE`, each with a line feed. The only error is out of memory.
pub fn lines_of(alloc: Global, checks: &[FileCoverage]) -> Result<Vec<u8>, AllocError>
    ensures { IfOk result (λ text. text.items ≡ flat_map line checks.now) }
{
    let mut text = Vec::new(alloc);
    for check in checks {
        push_line(&mut text, check)?;
    }
    Ok(text)
}
