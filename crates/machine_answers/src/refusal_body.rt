//! The texts of refusals.
ghost use Rattle.std.specs.Prelude.{◌≡◌, IfOk};
ghost use Rattle.key_names.specs.Key.{printed};
ghost use Rattle.settings_machine.specs.World.{Key};
ghost use Rattle.settings_machine.specs.declared.refusal.Refusal.TheVariants.{BadType};
ghost use Rattle.machine_answers.specs.Bodies.{refusal_text};

use crate::objects::object_text;
use crate::render_words::{render_path, render_word};
use key_names::Text;
use settings_machine::Refusal;
use std::alloc::{AllocError, Global};

// The text for a key whose type wants another value. Its texts have one lifetime, as those of an array need.
fn bad_type<'a>(alloc: Global, key: &'a str, wanted: &'a str) -> Result<Text, AllocError>
    ensures { IfOk result (λ text. (k : Key) → key.now ≡ printed k → text ≡ refusal_text (BadType k wanted.now)) }
{
    let members = [("error", "type"), ("key", key), ("wanted", wanted)];
    object_text(alloc, &members)
}

/// The text that reports a refusal to a client: an object of compact JSON (RFC 8259) whose names rise. Its `error` is `type`,
/// `key`, `name`, `no-pending` or `render`, and the other members tell where, for a type what is wanted, and for a template why it
/// refuses. The only error is out of memory.
pub fn refusal_text(alloc: Global, refusal: &Refusal) -> Result<Text, AllocError>
    ensures { IfOk result (λ text. text ≡ refusal_text refusal.now) }
{
    match refusal {
        Refusal::BadType { key, wanted } => {
            let key = key.print()?;
            bad_type(alloc, key.as_str(), wanted.as_str())
        }
        Refusal::NoKey { key } => {
            let key = key.print()?;
            object_text(alloc, &[("error", "key"), ("key", key.as_str())])
        }
        Refusal::NoName { name } => {
            object_text(alloc, &[("error", "name"), ("name", name.as_str())])
        }
        Refusal::NoPending { tx } => {
            object_text(alloc, &[("error", "no-pending"), ("tx", tx.as_str())])
        }
        Refusal::NotRendered { file, error } => {
            let members = [
                ("error", "render"),
                ("file", file.as_str()),
                ("kind", render_word(error)),
                ("path", render_path(error)),
            ];
            object_text(alloc, &members)
        }
    }
}
