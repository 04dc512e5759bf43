//! The questions of each verb.
ghost use Rattle.std.specs.Prelude.{◌≡◌, ◌++◌, codes, Some, IfOk};
ghost use Rattle.std.specs.Option.{option_copied};
ghost use Rattle.host_client.specs.Orders.{order_of};
ghost use Rattle.host_client.specs.Steps.{question, sending, below_question, key_question, job_question, edit_question, discard_question, plan_question};
ghost use Rattle.host_client.specs.Steps.{first_question, pending_target, apply_target, escaped, tx_part};

use crate::command::Command;
use crate::step::Question;
use crate::target::{target_of_file, target_of_settings, with_value};
use key_names::{Bytes, Text};
use std::alloc::{AllocError, Global};

/// The transaction in which changes are tried out.
pub(crate) const OWN_TX: &[u8] = b"settingsctl-plan";

fn copied(alloc: Global, bytes: &[u8]) -> Result<Bytes, AllocError>
    ensures { IfOk result (λ copy. copy ≡ bytes.now) }
{
    Ok(Bytes::of(bytes.to_vec(alloc)?))
}

// A question without a body.
fn bare(alloc: Global, method: &[u8], target: Bytes) -> Result<Question, AllocError>
    ensures { IfOk result (λ q. q ≡ question method.now target) }
{
    Ok(Question {
        method: copied(alloc, method)?,
        target,
        body: None,
    })
}

// A question without a query and a body.
fn fixed(alloc: Global, method: &[u8], target: &[u8]) -> Result<Question, AllocError>
    ensures { IfOk result (λ q. q ≡ question method.now target.now) }
{
    let target = copied(alloc, target)?;
    bare(alloc, method, target)
}

fn copied_body(alloc: Global, body: Option<&[u8]>) -> Result<Option<Bytes>, AllocError>
    ensures { IfOk result (λ copy. copy ≡ option_copied body.entry) }
{
    match body {
        Some(body) => Ok(Some(copied(alloc, body)?)),
        None => Ok(None),
    }
}

// The question with these parts.
fn plain(
    alloc: Global,
    method: &[u8],
    target: &[u8],
    body: Option<&[u8]>,
) -> Result<Question, AllocError>
    ensures { IfOk result (λ q. q
        ≡ record { method = method.now; target = target.now; body = option_copied body.entry }) }
{
    Ok(Question {
        method: copied(alloc, method)?,
        target: copied(alloc, target)?,
        body: copied_body(alloc, body)?,
    })
}

fn pending_question(alloc: Global, tx: Option<&[u8]>) -> Result<Question, AllocError>
    ensures { IfOk result (λ q. q ≡ question (codes "GET") (pending_target (option_copied tx.entry))) }
{
    match tx {
        Some(tx) => bare(alloc, b"GET", with_value(alloc, "/tx?tx=", tx)?),
        None => fixed(alloc, b"GET", b"/tx"),
    }
}

// A question with this body.
fn sending(alloc: Global, method: &[u8], target: Bytes, body: &Text) -> Result<Question, AllocError>
    ensures { IfOk result (λ q. q ≡ sending method.now target body.now) }
{
    Ok(Question {
        method: copied(alloc, method)?,
        target,
        body: Some(copied(alloc, body.as_str().as_bytes())?),
    })
}

/// Changes become pending in the transaction.
pub(crate) fn edit_question(alloc: Global, tx: &[u8], body: &Text) -> Result<Question, AllocError>
    ensures { IfOk result (λ q. q ≡ edit_question tx.now body.now) }
{
    let target = with_value(alloc, "/settings?tx=", tx)?;
    sending(alloc, b"PATCH", target, body)
}

/// The transaction is dropped.
pub(crate) fn discard_question(alloc: Global, tx: &[u8]) -> Result<Question, AllocError>
    ensures { IfOk result (λ q. q ≡ discard_question tx.now) }
{
    let target = with_value(alloc, "/tx?tx=", tx)?;
    bare(alloc, b"DELETE", target)
}

/// What would happen, now or after the commit of the transaction.
pub(crate) fn plan_question(alloc: Global, tx: Option<&[u8]>) -> Result<Question, AllocError>
    ensures { IfOk result (λ q. q ≡ plan_question (option_copied tx.entry)) }
{
    match tx {
        Some(tx) => bare(alloc, b"GET", with_value(alloc, "/plan?tx=", tx)?),
        None => fixed(alloc, b"GET", b"/plan"),
    }
}

/// How the job goes.
pub(crate) fn job_question(alloc: Global) -> Result<Question, AllocError>
    ensures { IfOk result (λ q. q ≡ job_question) }
{
    fixed(alloc, b"GET", b"/job")
}

/// The settings at the key and below it.
pub(crate) fn below_question(alloc: Global, key: &[u8]) -> Result<Question, AllocError>
    ensures { IfOk result (λ q. q ≡ below_question key.now) }
{
    let target = with_value(alloc, "/settings?prefix=", key)?;
    bare(alloc, b"GET", target)
}

/// The settings at the key.
pub(crate) fn key_question(alloc: Global, key: &[u8]) -> Result<Question, AllocError>
    ensures { IfOk result (λ q. q ≡ key_question key.now) }
{
    let target = with_value(alloc, "/settings?keys=", key)?;
    bare(alloc, b"GET", target)
}

fn set_question(alloc: Global, body: &Text) -> Result<Question, AllocError>
    ensures { IfOk result (λ q. q ≡ sending (codes "POST") (codes "/set") body.now) }
{
    let target = copied(alloc, b"/set")?;
    sending(alloc, b"POST", target, body)
}

fn show_question(alloc: Global, file: &[u8], tx: Option<&[u8]>) -> Result<Question, AllocError>
    ensures { IfOk result (λ q. q ≡ question (codes "GET")
        (codes "/plan/file?name=" ++ escaped file.now ++ tx_part (option_copied tx.entry))) }
{
    let target = target_of_file(alloc, file, tx)?;
    bare(alloc, b"GET", target)
}

fn commit_question(alloc: Global, tx: &[u8]) -> Result<Question, AllocError>
    ensures { IfOk result (λ q. q
        ≡ question (codes "POST") (codes "/tx/commit_and_apply?tx=" ++ escaped tx.now)) }
{
    let target = with_value(alloc, "/tx/commit_and_apply?tx=", tx)?;
    bare(alloc, b"POST", target)
}

fn apply_question(alloc: Global, all: bool) -> Result<Question, AllocError>
    ensures { IfOk result (λ q. q ≡ question (codes "POST") (apply_target all)) }
{
    if all {
        fixed(alloc, b"POST", b"/tx/apply?all")
    } else {
        fixed(alloc, b"POST", b"/tx/apply")
    }
}

/// What is asked first.
pub(crate) fn first_question(alloc: Global, command: &Command<'_>) -> Result<Question, AllocError>
    ensures { IfOk result (λ q. q ≡ first_question (order_of command.now)) }
{
    match command {
        Command::Plain {
            method,
            target,
            body,
        } => plain(alloc, method, target, *body),
        Command::Get { keys } => bare(alloc, b"GET", target_of_settings(alloc, keys)?),
        Command::Set { body } => set_question(alloc, body),
        Command::Edit { tx, body } => edit_question(alloc, tx, body),
        Command::Pending { tx } => pending_question(alloc, *tx),
        Command::Discard { tx } => discard_question(alloc, tx),
        Command::Transactions => fixed(alloc, b"GET", b"/tx/list"),
        Command::Commit { tx } => commit_question(alloc, tx),
        Command::Plan { tx } => plan_question(alloc, *tx),
        Command::TryOut { .. } => discard_question(alloc, OWN_TX),
        Command::Show { file, tx } => show_question(alloc, file, *tx),
        Command::Apply { all } => apply_question(alloc, *all),
        Command::Wait { .. } => job_question(alloc),
        Command::Status => fixed(alloc, b"GET", b"/store"),
        Command::Verify => fixed(alloc, b"GET", b"/verify"),
    }
}
