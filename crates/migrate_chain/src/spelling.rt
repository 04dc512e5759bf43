//! A held text is read in any spelling.
ghost use Rattle.std.specs.Prelude.{◌≡◌, IfOk, IfErr, MatchOption, string_bytes};
ghost use Rattle.json_trees.specs.Json.{data_of};
ghost use Rattle.held_text.specs.HeldRules.{IsRead};
ghost use Rattle.settings_tree.specs.declared.held.Held.{Held as World};
ghost use Rattle.held_text.specs.declared.held_error.HeldError.TheVariants.{BadHeld};
ghost use Rattle.migrate_chain.specs.Spelling.{SpellsHeld, IsCompact};

use held_text::{HeldError, HeldText};
use serde_json::Value;
use settings_tree::Held;
use std::alloc::{AllocError, Global};

// The compact text of the JSON value that the bytes are, or None where they are no JSON.
fn compact_of(alloc: Global, text: &[u8]) -> Result<Option<String>, AllocError>
    ensures { IfOk result (λ found. MatchOption found (data_of text.now ≡ None) (λ compact. IsCompact text.now (string_bytes compact))) }
{
    match Value::from_slice(alloc, text) {
        Ok(value) => Ok(Some(value.to_string(alloc)?)),
        Err(error) if error.is_memory() => Err(AllocError),
        Err(_) => Ok(None),
    }
}

/// What the text spells: it is JSON (RFC 8259), in whatever spelling, with the value of a held text. Numbers are written as whole
/// numbers, and of two members of one name the last one counts.
///
/// `BadHeld` exactly where it spells nothing that a store may hold; `Memory` where it runs out of memory. It takes the time of reading
/// the text and of `HeldText::read`.
pub(crate) fn read_spelled(alloc: Global, text: &[u8]) -> Result<Held, HeldError>
    ensures ok { IfOk result (SpellsHeld text.now) }
    ensures bad { IfErr result (λ e. e ≡ BadHeld → (held : World) → SpellsHeld text.now held → ⊥) }
    ensures exact { (held : World) → SpellsHeld text.now held → IsRead result held }
{
    let Some(compact) = compact_of(alloc, text)? else {
        return Err(HeldError::BadHeld);
    };
    Held::read(alloc, compact.as_bytes())
}
