//! A migration is carried out: a mapping, or a program that is asked.
ghost use Rattle.std.specs.Prelude.{◌≡◌, ◌++◌, ◌∷◌, [], map, string_bytes, IfOk, IfErr};
ghost use Rattle.outside.specs.Told.{Moves};
ghost use Rattle.outside.specs.Faults.{HasCauseOf};
ghost use Rattle.settings_tree.specs.Laid.{KeepsPrefixRule};
ghost use Rattle.migrate_helpers.specs.Kept.{Kept};
ghost use Rattle.migrate_chain.specs.Tasks.{task_of, Makes, Refuses, Names, program};
ghost use Rattle.migrate_chain.specs.Asking.{direction, HasAsked};

use crate::answer::{MOST, state_in};
use crate::mapping::made_by;
use crate::task_error::TaskError;
use held_text::HeldText;
use key_names::Text;
use outside::{AskErr, Asker};
use release_file::Work;
use settings_tree::Held;
use std::alloc::{AllocError, Global};

fn direction(back: bool) -> &'static str
    ensures { result.now ≡ direction back }
{
    if back { "--backward" } else { "--forward" }
}

// The words that a program is asked with.
fn asked_words(alloc: Global, words: &[String], back: bool) -> Result<Vec<String>, AllocError>
    ensures { IfOk result (λ all. map string_bytes all.items ≡ map string_bytes words.now ++ direction back ∷ []) }
{
    let mut all = Vec::new(alloc);
    for word in words {
        all.push(String::from_str(alloc, word.as_str())?)?;
    }
    all.push(String::from_str(alloc, direction(back))?)?;
    Ok(all)
}

// Asks the program of these words what it makes of what is held.
fn ask_program<S: Asker>(
    alloc: Global,
    spawner: &mut S,
    name: &Text,
    words: &[String],
    back: bool,
    held: &Held,
) -> Result<Held, TaskError>
    ensures asked { Moves (S.asked spawner.old) (S.asked spawner.new)
        (HasAsked (record { name = name.now; deed = program (map string_bytes words.now); back = back }) held.now result) }
    ensures kept { IfOk result (Kept held.now) }
    ensures named { IfErr result (Names name.now) }
    ensures ran { S.runs spawner.new ≡ S.runs spawner.old }
    ensures cause { HasCauseOf (TaskError.Failed name.now) (S.faults spawner.old) (S.faults spawner.new) result }
{
    let name = name.copy()?;
    let words = asked_words(alloc, words, back)?;
    let input = held.print()?;
    match spawner.ask(alloc, &words, input.as_str().as_bytes(), MOST) {
        Ok(answer) => state_in(alloc, name, held, &answer),
        Err(AskErr::Failed) => Err(TaskError::Failed { name }),
        Err(AskErr::Memory) => Err(TaskError::Memory),
    }
}

/// What the migration makes of what is held, forward or back: a mapping its value, and a program what it answers. A program is
/// asked with its words and `--forward` or `--backward` after them, and is given the held text to read.
///
/// `Conflict` exactly where the mapping has one. `Status` exactly where the program's status isn't 0. `BadAnswer` exactly where its
/// output is longer than 16,777,216 bytes, spells nothing that a store may hold, or spells something with other keys owed or
/// another image text. `Failed` where it could not be asked: the spawner's count of faults rose. `Memory` where it runs out of memory.
pub(crate) fn make<S: Asker>(
    alloc: Global,
    spawner: &mut S,
    name: &Text,
    work: &Work,
    back: bool,
    held: &Held,
) -> Result<Held, TaskError>
    ensures made { IfOk result (Makes (task_of name.now work.now back) held.now) }
    ensures of_task { IfErr result (Refuses (task_of name.now work.now back) held.now) }
    ensures asked { Moves (S.asked spawner.old) (S.asked spawner.new) (HasAsked (task_of name.now work.now back) held.now result) }
    ensures kept { KeepsPrefixRule held.now → IfOk result (Kept held.now) }
    ensures named { IfErr result (Names name.now) }
    ensures ran { S.runs spawner.new ≡ S.runs spawner.old }
    ensures cause { HasCauseOf (TaskError.Failed name.now) (S.faults spawner.old) (S.faults spawner.new) result }
{
    match work {
        Work::Plain(migration) => made_by(migration, back, held),
        Work::Program { words } => ask_program(alloc, spawner, name, words, back, held),
    }
}
