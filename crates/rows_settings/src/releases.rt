//! Releases, and the plans that they give.
use crate::lines::fault;
use release_file::{PlanError, Release, plan};
use row_files::{Given, bad, good, line, parts};
use std::io::{self, Write};
use version_links::Version;

/// Tells how many transitions and migrations the release has, or its first fault.
pub fn tell(out: &mut Vec<u8>, text: &[u8]) -> io::Result<()> {
    match Release::read(*out.allocator(), text) {
        Ok(release) => {
            let (transitions, migrations) = (release.transitions.len(), release.migrations.len());
            let is_plain = release.is_plain();
            let kind = if is_plain { "plain" } else { "programs" };
            writeln!(out, "{transitions} and {migrations}, {kind}")
        }
        Err(error) => fault(out, error.kind, &error.at),
    }
}

/// Tells the plan of the release below, from one version to another: its steps, each on a line, or where there is none.
pub fn plans(out: &mut Vec<u8>, given: Given<'_>) -> io::Result<()> {
    let alloc = *out.allocator();
    let (from, to) = parts(given.words()?);
    let from = Version::read(alloc, from)?.ok_or(bad())?;
    let to = Version::read(alloc, to)?.ok_or(bad())?;
    let release = good(Release::read(alloc, given.input()))?;
    match plan(alloc, &from, &to, &release) {
        Ok(steps) => {
            for step in &steps {
                let way = if step.back { "back" } else { "forward" };
                writeln!(out, "{way} {} {}", step.from, step.to)?;
            }
            Ok(())
        }
        Err(PlanError::Missing { at, target }) => writeln!(out, "missing {at} {target}"),
        Err(PlanError::Memory) => line(out, &["memory"]),
    }
}
