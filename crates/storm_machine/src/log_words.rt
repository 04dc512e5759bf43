//! What the line of a request says of what was asked, or of why it was refused in reading.
use crate::log_lines::add_pair;
use api_http::Refusal;
use settings_machine::{Guard, Request};
use settings_tree::TxName;
use std::alloc::AllocError;

/// The method and the path of the request.
pub fn target(request: &Request) -> (&'static str, &'static str) {
    match request {
        Request::Root => ("GET", "/"),
        Request::OsNames => ("GET", "/os"),
        Request::Settings | Request::SettingsAt { .. } | Request::SettingsBelow { .. } => {
            ("GET", "/settings")
        }
        Request::Patch { .. } => ("PATCH", "/settings"),
        Request::Services { .. } => ("GET", "/services"),
        Request::ConfigurationFiles { .. } => ("GET", "/configuration-files"),
        Request::Affected { .. } => ("GET", "/metadata/affected-services"),
        Request::Pends { .. } => ("GET", "/tx"),
        Request::DropTx { .. } => ("DELETE", "/tx"),
        Request::TxList => ("GET", "/tx/list"),
        Request::Commit { .. } => ("POST", "/tx/commit"),
        Request::Apply | Request::ApplyAll => ("POST", "/tx/apply"),
        Request::CommitAndApply { .. } => ("POST", "/tx/commit_and_apply"),
        Request::JobNow => ("GET", "/job"),
        Request::Set { .. } => ("POST", "/set"),
        Request::Plan { .. } => ("GET", "/plan"),
        Request::PlanFile { .. } => ("GET", "/plan/file"),
        Request::Store => ("GET", "/store"),
        Request::Verify => ("GET", "/verify"),
    }
}

// The transaction of the request, if it has one.
fn transaction(request: &Request) -> Option<&TxName> {
    match request {
        Request::Patch { tx, .. }
        | Request::Pends { tx }
        | Request::DropTx { tx }
        | Request::Commit { tx, .. }
        | Request::CommitAndApply { tx, .. } => Some(tx),
        Request::Plan { tx } | Request::PlanFile { tx, .. } => tx.as_ref(),
        _ => None,
    }
}

// Whether the request is a guarded change.
fn is_guarded(request: &Request) -> bool {
    match request {
        Request::Commit { guard, .. }
        | Request::CommitAndApply { guard, .. }
        | Request::Set { guard, .. } => matches!(guard, Guard::Render),
        _ => false,
    }
}

/// Adds what the request is about: a file, a transaction, that all is to be owed, that it is guarded.
pub fn subject(line: &mut String, request: &Request) -> Result<(), AllocError> {
    if let Request::PlanFile { file, .. } = request {
        add_pair(line, "name", file.as_str())?;
    }
    if let Some(tx) = transaction(request) {
        add_pair(line, "tx", tx.as_str())?;
    }
    if matches!(request, Request::ApplyAll) {
        add_pair(line, "all", "true")?;
    }
    if is_guarded(request) {
        add_pair(line, "check", "render")?;
    }
    Ok(())
}

/// The word for why a request was refused in reading.
pub fn word_of(refusal: &Refusal) -> &'static str {
    match refusal {
        Refusal::HeadTooLong => "head-too-long",
        Refusal::Head => "head",
        Refusal::NoPath => "path",
        Refusal::Method { .. } => "method",
        Refusal::Query => "query",
        Refusal::Length => "length",
        Refusal::BodyTooLong => "body-too-long",
        Refusal::Body => "body",
        _ => "not of reading",
    }
}
