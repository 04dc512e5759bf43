//! The states of configuration files, in words and in lines.
ghost use Rattle.std.specs.Prelude.{◌≡◌, ◌++◌, IfOk, OnOk};
ghost use Rattle.machine_answers.specs.StateLines.{state_word, reason, state_line, states_text};

use crate::render_words::{render_path, render_word};
use key_names::Bytes;
use settings_machine::{FileState, VerifiedFile};
use std::alloc::{AllocError, Global};

/// The word for a state: `current`, `owed`, `refused`, `differs` or `absent`. It takes no memory.
pub fn state_word(state: &FileState) -> &'static str
    ensures { result.now ≡ state_word state.now }
{
    match state {
        FileState::Current => "current",
        FileState::Owed => "owed",
        FileState::Refused { .. } => "refused",
        FileState::Differs => "differs",
        FileState::Absent => "absent",
    }
}

fn push_reason(text: &mut Vec<u8>, state: &FileState) -> Result<(), AllocError>
    ensures { OnOk result (text.new.items ≡ text.old.items ++ reason state.now) }
{
    let FileState::Refused { error } = state else {
        return Ok(());
    };
    text.push(b' ')?;
    text.extend_from_slice(render_word(error).as_bytes())?;
    text.push(b' ')?;
    text.extend_from_slice(render_path(error).as_bytes())?;
    Ok(())
}

fn push_line(text: &mut Vec<u8>, file: &VerifiedFile) -> Result<(), AllocError>
    ensures { OnOk result (text.new.items ≡ text.old.items ++ state_line file.now) }
{
    text.extend_from_slice(file.name.as_str().as_bytes())?;
    text.push(b' ')?;
    text.extend_from_slice(state_word(&file.state).as_bytes())?;
    push_reason(text, &file.state)?;
    text.push(b'\n')?;
    Ok(())
}

/// The lines of these files, one for each: `FILE STATE`, or `FILE refused KIND PATH`, each with a line feed. The only error is out of
/// memory.
pub fn states_text(alloc: Global, files: &[VerifiedFile]) -> Result<Bytes, AllocError>
    ensures { IfOk result (λ text. text ≡ states_text files.now) }
{
    let mut text = Vec::new(alloc);
    for file in files {
        push_line(&mut text, file)?;
    }
    Ok(Bytes::of(text))
}
