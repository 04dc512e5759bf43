//! What a running job is to do next.
ghost use Rattle.std.specs.Prelude.{◌≡◌, IfOk, map, string_bytes};
ghost use Rattle.settings_machine.specs.JobSeen.{work_seen};
ghost use Rattle.plain_machine.specs.Turns.{IsTodo};

use key_names::Text;
use settings_machine::Work;
use settings_tree::KeyList;
use std::alloc::{AllocError, Global};

/// What a running job is to do next.
#[derive(Drop)]
pub enum Todo {
    /// This file is to be written.
    File { file: Text },
    /// No file is left, and this command of the service is to be run.
    Command { service: Text, words: Vec<Text> },
    /// Nothing is left: these keys were noted, and it was asked for again or not.
    End { since: KeyList, again: bool },
}

// Copies of the words.
fn words_of(alloc: Global, words: &[String]) -> Result<Vec<Text>, AllocError>
    ensures { IfOk result (λ copies. copies.items ≡ map (λ w. string_bytes w) words.now) }
{
    let mut copies = Vec::new(alloc);
    for word in words {
        copies.push(Text::from_str(alloc, word.as_str())?)?;
    }
    Ok(copies)
}

/// What the running job is to do next. The only error is out of memory.
pub fn next_todo(alloc: Global, work: &Work) -> Result<Todo, AllocError>
    ensures { IfOk result (IsTodo (work_seen work.now)) }
{
    if let Some(file) = work.files.first() {
        return Ok(Todo::File { file: file.copy()? });
    }
    if let Some(command) = work.commands.first() {
        return Ok(Todo::Command {
            service: command.service.copy()?,
            words: words_of(alloc, &command.words)?,
        });
    }
    Ok(Todo::End {
        since: work.since.copy()?,
        again: work.again,
    })
}
