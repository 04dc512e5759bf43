//! Questions in words, and the verbs that say no changes.
ghost use Rattle.std.specs.Prelude.{◌≡◌, ◌≢◌, ◌∷◌, [], ℕ, List, Option, MatchOption, codes};
ghost use Rattle.std.specs.Option.{option_copied};
ghost use Rattle.outside.specs.Spawner.{texts};
ghost use Rattle.host_client.specs.Words.{words_of, AsksFor};
ghost use Rattle.host_client.specs.Orders.{Spells, SpellsNone, IsSeconds, order_of};

use crate::command::{Command, MOST_SECONDS};
use crate::length::{is_number, number_of};
use crate::question::is_question;

// The parts of a question.
#[derive(Clone, Copy, Debug)]
struct Parts<'a> {
    method: &'a [u8],
    target: &'a [u8],
    body: Option<&'a [u8]>,
}

// METHOD, TARGET and, where it is given, BODY.
fn parts_of(words: &[String]) -> Option<Parts<'_>>
    ensures { MatchOption result
        ((method target : List ℕ) (body : Option (List ℕ)) → texts words.now ≢ words_of method target body)
        (λ q. texts words.now ≡ words_of q.method.now q.target.now (option_copied q.body)) }
{
    match words {
        [method, target] => Some(Parts {
            method: method.as_bytes(),
            target: target.as_bytes(),
            body: None,
        }),
        [method, target, body] => Some(Parts {
            method: method.as_bytes(),
            target: target.as_bytes(),
            body: Some(body.as_bytes()),
        }),
        _ => None,
    }
}

/// The question that the words are, where it can be asked.
pub(crate) fn plain_in(words: &[String]) -> Option<Command<'_>>
    ensures { MatchOption result
        ((method target : List ℕ) (body : Option (List ℕ)) → ¬ AsksFor (texts words.now) method target body)
        (λ command. Spells (texts words.now) (order_of command)) }
{
    let parts = parts_of(words)?;
    if is_question(parts.method, parts.target, parts.body) {
        Some(Command::Plain {
            method: parts.method,
            target: parts.target,
            body: parts.body,
        })
    } else {
        None
    }
}

/// The one word that there is.
pub(crate) fn one_in(words: &[String]) -> Option<&[u8]>
    ensures { MatchOption result
        ((word : List ℕ) → texts words.now ≢ word ∷ []) (λ word. texts words.now ≡ word.now ∷ []) }
{
    match words {
        [word] => Some(word.as_bytes()),
        _ => None,
    }
}

/// What `pending` orders with these words after it.
pub(crate) fn pending_in(words: &[String]) -> Option<Command<'_>>
    ensures { MatchOption result (SpellsNone (codes "pending" ∷ texts words.now))
        (λ command. Spells (codes "pending" ∷ texts words.now) (order_of command)) }
{
    if words.is_empty() {
        return Some(Command::Pending { tx: None });
    }
    let tx = one_in(words)?;
    Some(Command::Pending { tx: Some(tx) })
}

/// What `drop` orders.
pub(crate) fn discard_in(words: &[String]) -> Option<Command<'_>>
    ensures { MatchOption result (SpellsNone (codes "drop" ∷ texts words.now))
        (λ command. Spells (codes "drop" ∷ texts words.now) (order_of command)) }
{
    let tx = one_in(words)?;
    Some(Command::Discard { tx })
}

/// What `commit` orders.
pub(crate) fn commit_in(words: &[String]) -> Option<Command<'_>>
    ensures { MatchOption result (SpellsNone (codes "commit" ∷ texts words.now))
        (λ command. Spells (codes "commit" ∷ texts words.now) (order_of command)) }
{
    let tx = one_in(words)?;
    Some(Command::Commit { tx })
}

/// What `transactions` orders.
pub(crate) fn transactions_in(words: &[String]) -> Option<Command<'_>>
    ensures { MatchOption result (SpellsNone (codes "transactions" ∷ texts words.now))
        (λ command. Spells (codes "transactions" ∷ texts words.now) (order_of command)) }
{
    if words.is_empty() {
        Some(Command::Transactions)
    } else {
        None
    }
}

/// What `apply` orders.
pub(crate) fn apply_in(words: &[String]) -> Option<Command<'_>>
    ensures { MatchOption result (SpellsNone (codes "apply" ∷ texts words.now))
        (λ command. Spells (codes "apply" ∷ texts words.now) (order_of command)) }
{
    if words.is_empty() {
        return Some(Command::Apply { all: false });
    }
    let word = one_in(words)?;
    if word == b"--all".as_slice() {
        Some(Command::Apply { all: true })
    } else {
        None
    }
}

/// What `show` orders.
pub(crate) fn show_in(words: &[String]) -> Option<Command<'_>>
    ensures { MatchOption result (SpellsNone (codes "show" ∷ texts words.now))
        (λ command. Spells (codes "show" ∷ texts words.now) (order_of command)) }
{
    match words {
        [file] => Some(Command::Show {
            file: file.as_bytes(),
            tx: None,
        }),
        [file, tx] => Some(Command::Show {
            file: file.as_bytes(),
            tx: Some(tx.as_bytes()),
        }),
        _ => None,
    }
}

/// What `status` orders.
pub(crate) fn status_in(words: &[String]) -> Option<Command<'_>>
    ensures { MatchOption result (SpellsNone (codes "status" ∷ texts words.now))
        (λ command. Spells (codes "status" ∷ texts words.now) (order_of command)) }
{
    if words.is_empty() {
        Some(Command::Status)
    } else {
        None
    }
}

/// What `verify` orders.
pub(crate) fn verify_in(words: &[String]) -> Option<Command<'_>>
    ensures { MatchOption result (SpellsNone (codes "verify" ∷ texts words.now))
        (λ command. Spells (codes "verify" ∷ texts words.now) (order_of command)) }
{
    if words.is_empty() {
        Some(Command::Verify)
    } else {
        None
    }
}

// The number of seconds that the word is.
fn seconds_in(text: &[u8]) -> Option<usize>
    ensures { MatchOption result ((seconds : ℕ) → ¬ IsSeconds text.now seconds) (IsSeconds text.now) }
{
    if !is_number(text) {
        return None;
    }
    match number_of(text) {
        Some(seconds) if seconds <= MOST_SECONDS => Some(seconds),
        _ => None,
    }
}

/// What `wait` orders.
pub(crate) fn wait_in(words: &[String]) -> Option<Command<'_>>
    ensures { MatchOption result (SpellsNone (codes "wait" ∷ texts words.now))
        (λ command. Spells (codes "wait" ∷ texts words.now) (order_of command)) }
{
    if words.is_empty() {
        return Some(Command::Wait { seconds: None });
    }
    let text = one_in(words)?;
    let seconds = seconds_in(text)?;
    Some(Command::Wait {
        seconds: Some(seconds),
    })
}
