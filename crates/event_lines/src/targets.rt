//! What a request is about.
ghost use Rattle.std.specs.Prelude.{◌≡◌, ◌++◌, ◌∷◌, [], IfOk, codes};
ghost use Rattle.std.specs.List.{flat_map};
ghost use Rattle.settings_machine.specs.Asked.{request_of};
ghost use Rattle.event_lines.specs.Logfmt.{pair_text};
ghost use Rattle.event_lines.specs.Lines.{target_of, tx_pair, subject};

use crate::logfmt::Lines;
use settings_machine::{Guard, Request};
use settings_tree::TxName;
use std::alloc::AllocError;

/// Its method. It takes no memory.
pub fn method_of(request: &Request) -> &'static str
    ensures { result.now ≡ (target_of (request_of request.now)).0 }
{
    match request {
        Request::Patch { .. } => "PATCH",
        Request::DropTx { .. } => "DELETE",
        Request::Commit { .. }
        | Request::Apply
        | Request::CommitAndApply { .. }
        | Request::Set { .. }
        | Request::ApplyAll => "POST",
        _ => "GET",
    }
}

/// Its path. It takes no memory.
pub fn path_of(request: &Request) -> &'static str
    ensures { result.now ≡ (target_of (request_of request.now)).1 }
{
    match request {
        Request::Root => "/",
        Request::OsNames => "/os",
        Request::Settings
        | Request::SettingsAt { .. }
        | Request::SettingsBelow { .. }
        | Request::Patch { .. } => "/settings",
        Request::Services { .. } => "/services",
        Request::ConfigurationFiles { .. } => "/configuration-files",
        Request::Affected { .. } => "/metadata/affected-services",
        Request::Pends { .. } | Request::DropTx { .. } => "/tx",
        Request::TxList => "/tx/list",
        Request::Commit { .. } => "/tx/commit",
        Request::Apply | Request::ApplyAll => "/tx/apply",
        Request::CommitAndApply { .. } => "/tx/commit_and_apply",
        Request::JobNow => "/job",
        Request::Set { .. } => "/set",
        Request::Plan { .. } => "/plan",
        Request::PlanFile { .. } => "/plan/file",
        Request::Store => "/store",
        Request::Verify => "/verify",
    }
}

// The pair of a transaction, where there is one.
fn with_tx(lines: Lines, tx: &Option<TxName>) -> Result<Lines, AllocError>
    ensures { IfOk result (λ more. more ≡ lines ++ flat_map pair_text (tx_pair tx.now)) }
{
    match tx {
        Some(tx) => lines.pair("tx", tx.as_str()),
        None => Ok(lines),
    }
}

// The pairs of a transaction whose commit is guarded.
fn with_guarded(lines: Lines, tx: &TxName) -> Result<Lines, AllocError>
    ensures { IfOk result (λ more. more ≡ lines
        ++ flat_map pair_text ((codes "tx", tx.now) ∷ (codes "check", codes "render") ∷ [])) }
{
    lines.pair("tx", tx.as_str())?.pair("check", "render")
}

/// The pairs for what it is about. The only error is out of memory.
pub fn with_subject(lines: Lines, request: &Request) -> Result<Lines, AllocError>
    ensures { IfOk result (λ more. more ≡ lines ++ flat_map pair_text (subject (request_of request.now))) }
{
    match request {
        Request::Patch { tx, .. }
        | Request::Pends { tx }
        | Request::DropTx { tx }
        | Request::Commit {
            tx,
            guard: Guard::Off,
        }
        | Request::CommitAndApply {
            tx,
            guard: Guard::Off,
        } => lines.pair("tx", tx.as_str()),
        Request::Commit {
            tx,
            guard: Guard::Render,
        }
        | Request::CommitAndApply {
            tx,
            guard: Guard::Render,
        } => with_guarded(lines, tx),
        Request::Set {
            guard: Guard::Render,
            ..
        } => lines.pair("check", "render"),
        Request::ApplyAll => lines.pair("all", "true"),
        Request::Plan { tx } => with_tx(lines, tx),
        Request::PlanFile { file, tx } => with_tx(lines.pair("name", file.as_str())?, tx),
        _ => Ok(lines),
    }
}
