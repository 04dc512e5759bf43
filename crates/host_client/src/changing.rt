//! The verbs that say changes.
ghost use Rattle.std.specs.Prelude.{◌≡◌, ◌∷◌, [], ℕ, List, IfOk, MatchOption, codes};
ghost use Rattle.outside.specs.Spawner.{texts};
ghost use Rattle.change_words.specs.Said.{Says};
ghost use Rattle.change_words.specs.declared.form.Form.TheVariants.{Removals, Texts};
ghost use Rattle.host_client.specs.Orders.{SaysChanges, SaysSet, Spells, SpellsNone, order_of};

use crate::command::Command;
use crate::verbs::one_in;
use change_words::{Form, body_in};
use key_names::Text;
use std::alloc::{AllocError, Global};

// The body of changes to these texts, where `--text` comes before them.
fn texts_in(alloc: Global, words: &[String]) -> Result<Option<Text>, AllocError>
    ensures { IfOk result (λ o. MatchOption o
        ((pairs : List (List ℕ)) (body : List ℕ) → texts words.now ≡ codes "--text" ∷ pairs → ¬ Says Texts pairs body)
        (SaysChanges (texts words.now))) }
{
    let Some((word, pairs)) = words.split_first() else {
        return Ok(None);
    };
    if word.as_str() == "--text" {
        body_in(alloc, Form::Texts, pairs)
    } else {
        Ok(None)
    }
}

// The body of the changes that the words say.
fn changes_in(alloc: Global, words: &[String]) -> Result<Option<Text>, AllocError>
    ensures { IfOk result (λ o. MatchOption o
        ((body : List ℕ) → ¬ SaysChanges (texts words.now) body)
        (SaysChanges (texts words.now))) }
{
    match body_in(alloc, Form::Values, words)? {
        Some(body) => Ok(Some(body)),
        None => texts_in(alloc, words),
    }
}

/// What `set` orders.
pub(crate) fn set_in(alloc: Global, words: &[String]) -> Result<Option<Command<'_>>, AllocError>
    ensures { IfOk result (λ o. MatchOption o (SpellsNone (codes "set" ∷ texts words.now))
        (λ command. Spells (codes "set" ∷ texts words.now) (order_of command))) }
{
    match changes_in(alloc, words)? {
        Some(body) => Ok(Some(Command::Set { body })),
        None => Ok(None),
    }
}

/// What `unset` orders.
pub(crate) fn unset_in(alloc: Global, words: &[String]) -> Result<Option<Command<'_>>, AllocError>
    ensures { IfOk result (λ o. MatchOption o (SpellsNone (codes "unset" ∷ texts words.now))
        (λ command. Spells (codes "unset" ∷ texts words.now) (order_of command))) }
{
    match body_in(alloc, Form::Removals, words)? {
        Some(body) => Ok(Some(Command::Set { body })),
        None => Ok(None),
    }
}

/// What `edit` orders.
pub(crate) fn edit_in(alloc: Global, words: &[String]) -> Result<Option<Command<'_>>, AllocError>
    ensures { IfOk result (λ o. MatchOption o (SpellsNone (codes "edit" ∷ texts words.now))
        (λ command. Spells (codes "edit" ∷ texts words.now) (order_of command))) }
{
    let Some((tx, rest)) = words.split_first() else {
        return Ok(None);
    };
    match changes_in(alloc, rest)? {
        Some(body) => Ok(Some(Command::Edit {
            tx: tx.as_bytes(),
            body,
        })),
        None => Ok(None),
    }
}

// What `plan` orders with words that say no changes.
fn plan_of(words: &[String]) -> Option<Command<'_>>
    requires { (body : List ℕ) → ¬ SaysChanges (texts words.now) body }
    ensures { MatchOption result (SpellsNone (codes "plan" ∷ texts words.entry.now))
        (λ command. Spells (codes "plan" ∷ texts words.entry.now) (order_of command)) }
{
    if words.is_empty() {
        return Some(Command::Plan { tx: None });
    }
    let tx = one_in(words)?;
    Some(Command::Plan { tx: Some(tx) })
}

/// What `plan` orders.
pub(crate) fn plan_in(alloc: Global, words: &[String]) -> Result<Option<Command<'_>>, AllocError>
    ensures { IfOk result (λ o. MatchOption o (SpellsNone (codes "plan" ∷ texts words.now))
        (λ command. Spells (codes "plan" ∷ texts words.now) (order_of command))) }
{
    match changes_in(alloc, words)? {
        Some(body) => Ok(Some(Command::TryOut { body })),
        None => Ok(plan_of(words)),
    }
}
