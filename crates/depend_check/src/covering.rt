//! Whether a configuration file is covered.
ghost use Rattle.std.specs.Prelude.{◌≡◌, ◌↔◌, IfOk, IfSome, IfNone, IsTrue, false};
ghost use Rattle.template_reader.specs.Forest.{tree_in};
ghost use Rattle.typed_settings.specs.Row.{IsReached, IsPrefixFree};
ghost use Rattle.depend_check.specs.Nodes.{is_of_os};
ghost use Rattle.depend_check.specs.Coverage.{IsCoverage};
ghost use Rattle.depend_check.specs.Steps.{IsTested, FailsAt, IsOutcome};
ghost use Rattle.depend_check.specs.Laws.{KeysConcern, ChangesAreSeen};
ghost use Rattle.depend_check.specs.declared.coverage.Coverage.{Coverage};

use crate::Coverage;
use crate::gaps::first_gap;
use crate::root_paths::reads;
use key_names::{Key, Text};
use metadata_links::Manifest;
use std::alloc::{AllocError, Global};
use template_reader::Template;
use typed_settings::Types;

// Whether the path begins with `os`.
fn is_of_os(path: &Key) -> bool
    ensures { result ≡ is_of_os path.now }
{
    path.len() > 0 && path.segment(0) == b"os".as_slice()
}

// How the path fails, if it does; one that begins with `os` does not.
fn failure_at(
    manifest: &Manifest,
    types: &Types,
    services: &[Text],
    path: &Key,
) -> Result<Option<Coverage>, AllocError>
    ensures failure { IfOk result (λ o. IfSome o (FailsAt types.now manifest.now.index services.now path.now)) }
    ensures none { IfOk result (λ o. IfNone o (is_of_os path.now ≡ false
        → IsTested types.now manifest.now.index services.now path.now)) }
{
    if is_of_os(path) {
        return Ok(None);
    }
    if !types.reaches(path) {
        return Ok(Some(Coverage::NotInModel { path: path.copy()? }));
    }
    match first_gap(manifest, services, path)? {
        Some(gap) => Ok(Some(Coverage::Uncovered {
            path: path.copy()?,
            at: gap.at,
            service: gap.service,
        })),
        None => Ok(None),
    }
}

// The first failure of the paths, or that they are covered.
fn first_failure(
    manifest: &Manifest,
    types: &Types,
    services: &[Text],
    paths: &[Key],
) -> Result<Coverage, AllocError>
    ensures { IfOk result (IsOutcome types.now manifest.now.index services.now paths.now) }
{
    for path in paths {
        if let Some(failure) = failure_at(manifest, types, services, path)? {
            return Ok(failure);
        }
    }
    Ok(Coverage::Covered)
}

/// Whether the file, which the template is of, is covered: some service lists it, and each path that
/// the template reads begins with `os`, or some row of the types reaches it and each service that
/// lists the file is in the list nearest to the path and in that of each longer key that begins with
/// the path and has one. Else the first failure: `NoService`; then by path, rising, `NotInModel`, and
/// then `Uncovered` at the path itself and at the longer keys, rising, by service. The only error is
/// out of memory.
///
/// It takes one pass over the template and over the services' lists of files, and for each path read
/// one pass over the rows of the types, a logarithmic search for the keys below the path that have a
/// list, and one for each prefix of each of these; no time for the values of a store.
pub fn covered(
    alloc: Global,
    manifest: &Manifest,
    types: &Types,
    template: &Template,
    file: &[u8],
) -> Result<Coverage, AllocError>
    ensures ok { IfOk result
        (IsCoverage manifest.now types.now (tree_in template.now.nodes) file.now) }
    ensures exact { (coverage : Coverage)
        → IsCoverage manifest.now types.now (tree_in template.now.nodes) file.now coverage
        → IfOk result (λ answer. answer ≡ coverage) }

    // Each change of what is read has the file rendered again, and so no change goes unseen.
    ensures keys { IfOk result (λ answer. answer ≡ Coverage.Covered
        → KeysConcern manifest.now types.now (tree_in template.now.nodes) file.now) }
    ensures changes { IfOk result (λ answer. answer ≡ Coverage.Covered
        → ChangesAreSeen manifest.now (tree_in template.now.nodes) file.now) }
{
    let services = manifest.services_of(file)?;
    if services.is_empty() {
        return Ok(Coverage::NoService);
    }
    let paths = reads(alloc, template)?;
    first_failure(manifest, types, &services, &paths)
}
