//! Pairs of files whose paths are in each other's way.
ghost use Rattle.std.specs.Prelude.{◌≡◌, ◌≢◌, ◌↔◌, ◌++◌, [], Some, None, map, length, IfErr, IfOk, IfSome, IfNone, OnOk, IsTrue};
ghost use Rattle.std.specs.List.{find, AllAdjacentBelow};
ghost use Rattle.std.specs.Option.{option_copied};
ghost use Rattle.metadata_links.specs.Faults.{first_of, pairs_of, same_paths, nested_paths};
ghost use Rattle.metadata_links.specs.Paths.{clash_in, is_apart_before};
ghost use Rattle.metadata_links.specs.declared.manifest_error.ManifestError.TheVariants.{Memory};
ghost use Rattle.metadata_links.specs.declared.paths.Clash.{Clash};

use crate::file_row::FileRow;
use crate::manifest_error::ManifestError;
use key_names::Text;
use outside::Path;
use std::alloc::{AllocError, Global};

/// How the paths of two files may be in each other's way.
#[derive(Clone, Copy, Debug, Drop)]
pub enum Clash {
    /// They are one.
    Same,
    /// One is strictly below the other.
    Nested,
}

// Whether the two files' paths clash in this way.
fn clash_in(clash: Clash, one: &FileRow, other: &FileRow) -> bool
    ensures { result ≡ clash_in clash one.now other.now }
{
    match clash {
        Clash::Same => one.path == other.path,
        Clash::Nested => one.path.is_above(&other.path) || other.path.is_above(&one.path),
    }
}

// The first of the others that clashes with the file.
fn first_behind<'a>(
    clash: Clash,
    row: &FileRow,
    others: &'a [(Text, FileRow)],
) -> Option<&'a FileRow>
    ensures { option_copied result
        ≡ find (λ other. clash_in clash row.now other) (map (λ e. e.1) others.now) }
{
    for (_, other) in others {
        if clash_in(clash, row, other) {
            return Some(other);
        }
    }
    None
}

// The first pair of files that clash, by the first and then by the second.
fn first_pair(clash: Clash, files: &[(Text, FileRow)]) -> Option<(&FileRow, &FileRow)>
    ensures some { IfSome result (λ p. find (λ q. clash_in clash q.0 q.1)
        (pairs_of (map (λ e. e.1) files.now)) ≡ Some (p.0.now, p.1.now)) }
    ensures none { IfNone result (find (λ q. clash_in clash q.0 q.1)
        (pairs_of (map (λ e. e.1) files.now)) ≡ None) }
{
    let mut rest = files;
    while let Some(((_, row), others)) = rest.split_first() {
        match first_behind(clash, row, others) {
            Some(other) => return Some((row, other)),
            None => rest = others,
        }
    }
    None
}

// Whether the first path is before the second, which isn't below it.
fn is_apart_before(one: &Path, other: &Path) -> bool
    ensures { result ≡ is_apart_before one.now other.now }
{
    one.cmp(other).is_lt() && !one.is_above(other)
}

// Whether each path is before the next, which isn't below it.
fn rise_apart(files: &[&(Text, FileRow)]) -> bool
    ensures { IsTrue result ↔ AllAdjacentBelow
        (λ a b. IsTrue (is_apart_before a.now.1.path b.now.1.path)) files.now (length files.now) }
{
    for i in 1..files.len() {
        if !is_apart_before(&files[i - 1].1.path, &files[i].1.path) {
            return false;
        }
    }
    true
}

// Whether no two files clash: in the order of their paths, what is below a path follows it.
fn are_apart(alloc: Global, files: &[(Text, FileRow)]) -> Result<bool, AllocError>
    ensures { IfOk result (λ told. IsTrue told → (clash : Clash)
        → find (λ q. clash_in clash q.0 q.1) (pairs_of (map (λ e. e.1) files.now)) ≡ None) }
{
    let mut sorted: Vec<&(Text, FileRow)> = files.iter().collect(alloc)?;
    sorted.sort_by(|one, other| one.1.path.cmp(&other.1.path))?;
    Ok(rise_apart(&sorted))
}

// Refuses the first pair of files with one path.
fn check_same(files: &[(Text, FileRow)]) -> Result<(), ManifestError>
    ensures ok { OnOk result (same_paths (map (λ e. e.1) files.now) ≡ []) }
    ensures err { IfErr result (λ e. e ≢ Memory
        → first_of (same_paths (map (λ e. e.1) files.now)) ≡ Some e) }
{
    match first_pair(Clash::Same, files) {
        Some((first, second)) => Err(ManifestError::SamePath {
            first: first.name.copy()?,
            second: second.name.copy()?,
        }),
        None => Ok(()),
    }
}

// Refuses the first pair of files of which one path is below the other.
fn check_nested(files: &[(Text, FileRow)]) -> Result<(), ManifestError>
    ensures ok { OnOk result (nested_paths (map (λ e. e.1) files.now) ≡ []) }
    ensures err { IfErr result (λ e. e ≢ Memory
        → first_of (nested_paths (map (λ e. e.1) files.now)) ≡ Some e) }
{
    match first_pair(Clash::Nested, files) {
        Some((first, second)) => Err(ManifestError::NestedPath {
            first: first.name.copy()?,
            second: second.name.copy()?,
        }),
        None => Ok(()),
    }
}

/// Refuses files with one path, and else files of which one path is strictly below the other: the
/// first pair, by the first and then by the second file. It takes the time of a sort, and only where
/// it refuses, time quadratic in the number of files.
pub(crate) fn check_paths(alloc: Global, files: &[(Text, FileRow)]) -> Result<(), ManifestError>
    ensures same { OnOk result (same_paths (map (λ e. e.1) files.now) ≡ []) }
    ensures nested { OnOk result (nested_paths (map (λ e. e.1) files.now) ≡ []) }
    ensures err { IfErr result (λ e. e ≢ Memory → first_of
        (same_paths (map (λ e. e.1) files.now) ++ nested_paths (map (λ e. e.1) files.now)) ≡ Some e) }
{
    if are_apart(alloc, files)? {
        return Ok(());
    }
    check_same(files)?;
    check_nested(files)
}
