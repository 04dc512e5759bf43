//! What `verify` says of the files of a host on which nobody else writes.
use crate::run::Seen;
use crate::trouble::{Trouble, differs};
use std::alloc::Global;
use storm_steps::FILES;

// Whether the line says that the file is current, owed, or refused by its template.
fn is_kept(line: &str, name: &str) -> bool {
    let mut words = line.split(' ');
    words.next() == Some(name) && matches!(words.next(), Some("current" | "owed" | "refused"))
}

/// Each file has to be current, owed, or refused by its template: none may differ or be absent.
pub fn check_verified(alloc: Global, seen: &Seen) -> Result<(), Trouble> {
    let text = str::from_utf8(&seen.printed).unwrap_or("");
    let count = text.lines().count();
    let kept = text
        .lines()
        .zip(FILES)
        .all(|(line, name)| is_kept(line, name));
    if kept && count == FILES.len() {
        return Ok(());
    }
    let text = format!(in alloc; "verify prints {text}")?;
    Err(differs(alloc, text.as_str()))
}
