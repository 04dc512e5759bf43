//! What a program answered is read.
ghost use Rattle.std.specs.Prelude.{◌≡◌, ◌↔◌, IsTrue, IfErr};
ghost use Rattle.migrate_chain.specs.Tasks.{Names};
ghost use Rattle.migrate_chain.specs.Asking.{Takes};

use crate::owed::is_same;
use crate::spelling::read_spelled;
use crate::task_error::TaskError;
use held_text::HeldError;
use key_names::Text;
use outside::Answer;
use settings_tree::Held;
use std::alloc::Global;

/// The most bytes that a program may write.
pub(crate) const MOST: usize = 16_777_216;

// Whether what was made owes the same keys and has the same image text.
fn may_follow(held: &Held, made: &Held) -> bool
    ensures { IsTrue result ↔ ((made.now.owed ≡ held.now.owed) × (made.now.image ≡ held.now.image)) }
{
    is_same(&made.owed, &held.owed) && made.image.as_slice() == held.image.as_slice()
}

// What the output spells.
fn state_of(alloc: Global, name: Text, held: &Held, output: &[u8]) -> Result<Held, TaskError>
    ensures takes { Takes held.now 0 output.now result }
    ensures named { IfErr result (Names name) }
{
    if output.len() > MOST {
        return Err(TaskError::BadAnswer { name });
    }
    match read_spelled(alloc, output) {
        Ok(made) if may_follow(held, &made) => Ok(made),
        Err(HeldError::Memory) => Err(TaskError::Memory),
        _ => Err(TaskError::BadAnswer { name }),
    }
}

/// What a program made of what is held, by its answer.
///
/// `Status` exactly where its status isn't 0. `BadAnswer` exactly where the output is longer than 16,777,216 bytes, spells nothing
/// that a store may hold, or spells something with other keys owed or another image text. `Memory` where it runs out of memory.
pub(crate) fn state_in(
    alloc: Global,
    name: Text,
    held: &Held,
    answer: &Answer,
) -> Result<Held, TaskError>
    ensures takes { Takes held.now answer.now.status answer.now.output.items result }
    ensures named { IfErr result (Names name) }
{
    if answer.status != 0 {
        return Err(TaskError::Status {
            name,
            number: answer.status,
        });
    }
    state_of(alloc, name, held, &answer.output)
}
