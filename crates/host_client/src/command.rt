//! The words of the command line are read.
ghost use Rattle.std.specs.Prelude.{◌≡◌, IfOk, MatchOption};
ghost use Rattle.outside.specs.Spawner.{texts};
ghost use Rattle.host_client.specs.Orders.{Order, Spells, SpellsNone, order_of, is_verb};
ghost use Rattle.host_client.specs.Paces.{AsksAtMost, IsEnough, unpaced, most_of, pace_of};

use crate::changing::{edit_in, plan_in, set_in, unset_in};
use crate::verbs::{
    apply_in, commit_in, discard_in, pending_in, plain_in, show_in, status_in, transactions_in,
    verify_in, wait_in,
};
use key_names::Text;
use std::alloc::{AllocError, Global};

/// What the words order.
#[derive(Debug, Drop)]
pub enum Command<'a> {
    /// One question.
    Plain {
        /// Its method, as `GET`.
        method: &'a [u8],
        /// Its target, as `/settings`.
        target: &'a [u8],
        /// Its body, if it has one.
        body: Option<&'a [u8]>,
    },
    /// The settings.
    Get {
        /// At these keys; all of them where there is no key.
        keys: &'a [String],
    },
    /// Changes are made at once, and applied.
    Set {
        /// The body that asks for them.
        body: Text,
    },
    /// Changes become pending.
    Edit {
        /// In this transaction.
        tx: &'a [u8],
        /// The body that asks for them.
        body: Text,
    },
    /// What is pending.
    Pending {
        /// In this transaction; without it in `default`.
        tx: Option<&'a [u8]>,
    },
    /// A transaction ends without a commit.
    Discard {
        /// Its name.
        tx: &'a [u8],
    },
    /// The transactions.
    Transactions,
    /// A transaction is committed and applied.
    Commit {
        /// Its name.
        tx: &'a [u8],
    },
    /// What an apply would do.
    Plan {
        /// After the commit of this transaction; without it now.
        tx: Option<&'a [u8]>,
    },
    /// What an apply would do after changes, which aren't made.
    TryOut {
        /// The body that asks for them.
        body: Text,
    },
    /// A file as it would be written.
    Show {
        /// Its name.
        file: &'a [u8],
        /// After the commit of this transaction; without it now.
        tx: Option<&'a [u8]>,
    },
    /// What is owed is applied.
    Apply {
        /// Whether all is owed first.
        all: bool,
    },
    /// The job is waited for.
    Wait {
        /// So many seconds.
        seconds: Option<usize>,
    },
    /// The version, the job, what is owed and what is pending.
    Status,
    /// The states of the files.
    Verify,
}

/// How many questions are asked.
#[derive(Clone, Copy, Debug, PartialEq, Eq)]
pub struct Pace {
    /// So many without a pause between them.
    pub at_once: usize,
    /// So many at most.
    pub most: usize,
}

/// How many seconds may be waited for.
pub(crate) const MOST_SECONDS: usize = 3600;

/// What the words order; none where they order nothing. The only error is out of memory.
pub(crate) fn command_of(alloc: Global, words: &[String]) -> Result<Option<Command<'_>>, AllocError>
    ensures { IfOk result (λ o. MatchOption o (SpellsNone (texts words.now))
        (λ command. Spells (texts words.now) (order_of command))) }
{
    let Some((word, rest)) = words.split_first() else {
        return Ok(None);
    };
    match word.as_str() {
        "get" => Ok(Some(Command::Get { keys: rest })),
        "set" => set_in(alloc, rest),
        "unset" => unset_in(alloc, rest),
        "edit" => edit_in(alloc, rest),
        "plan" => plan_in(alloc, rest),
        "pending" => Ok(pending_in(rest)),
        "drop" => Ok(discard_in(rest)),
        "transactions" => Ok(transactions_in(rest)),
        "commit" => Ok(commit_in(rest)),
        "show" => Ok(show_in(rest)),
        "apply" => Ok(apply_in(rest)),
        "wait" => Ok(wait_in(rest)),
        "status" => Ok(status_in(rest)),
        "verify" => Ok(verify_in(rest)),
        _ => Ok(plain_in(words)),
    }
}

// At most so many questions, two of them at once.
fn waiting(most: usize) -> Pace
    ensures { result ≡ record { at_once = 2; most = most } }
{
    Pace { at_once: 2, most }
}

// So many questions at most, all of them at once.
fn unpaced(most: usize) -> Pace
    ensures { result ≡ unpaced most }
{
    Pace {
        at_once: most,
        most,
    }
}

// One key is asked for twice at most, several once together, then each, and then one at which nothing is.
fn most_of(keys: &[String]) -> usize
    ensures { result ≡ most_of (texts keys.now) }
{
    if keys.len() < 2 { 2 } else { keys.len() + 2 }
}

#[tactic(auto, using(crate::proofs::Enough::enough))]
fn pace_of(command: &Command<'_>) -> Pace
    ensures pace { result ≡ pace_of (order_of command.now) }
    ensures enough { IsEnough (order_of command.now) result.most }
{
    match command {
        Command::Set { .. } | Command::Commit { .. } | Command::Apply { .. } => waiting(302),
        Command::Get { keys } => unpaced(most_of(keys)),
        Command::TryOut { .. } => unpaced(4),
        Command::Wait { seconds: None } => waiting(301),
        Command::Wait {
            seconds: Some(seconds),
        } => waiting((*seconds).min(MOST_SECONDS) + 1),
        _ => unpaced(2),
    }
}

/// How many questions the words ask at most: none where they order nothing, as many as there are seconds to wait and
/// one more for `wait`, by default 301, one more than that for `set`, `unset`, `commit` and `apply`, 4 for a plan of
/// changes, two more than there are keys for `get` of several keys, and else 2. Only those that wait for a job may have
/// more to ask after so many replies, and only they are not all asked at once. The only error is out of memory.
pub fn pace_in(alloc: Global, words: &[String]) -> Result<Pace, AllocError>
    ensures { IfOk result (AsksAtMost (texts words.now)) }
{
    match command_of(alloc, words)? {
        Some(command) => Ok(pace_of(&command)),
        None => Ok(Pace {
            at_once: 0,
            most: 0,
        }),
    }
}

/// Whether this is the word of a verb, as `get`.
pub fn is_verb(word: &str) -> bool
    ensures { result ≡ is_verb word.now }
{
    matches!(
        word,
        "get"
            | "set"
            | "unset"
            | "edit"
            | "pending"
            | "drop"
            | "transactions"
            | "commit"
            | "plan"
            | "show"
            | "apply"
            | "wait"
            | "status"
            | "verify"
    )
}
