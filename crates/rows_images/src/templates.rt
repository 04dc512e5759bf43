//! What templates read, and whether their files are covered.
use crate::links::{list_keys, manifest_of};
use coverage_report::{FileCoverage, lines_of};
use depend_check::{covered, reads};
use key_names::Text;
use row_files::{Given, good};
use std::io;
use template_reader::read;

/// Tells the paths that the template reads.
pub fn read_by(out: &mut Vec<u8>, source: &[u8]) -> io::Result<()> {
    let alloc = *out.allocator();
    let keys = reads(alloc, &good(read(alloc, source))?)?;
    list_keys(out, "reads", &keys)
}

/// Tells whether the file of this model file, with this template, is covered, as a line of a report.
pub fn cover(out: &mut Vec<u8>, model: &[u8], given: Given<'_>) -> io::Result<()> {
    let alloc = *out.allocator();
    let (model, manifest) = manifest_of(alloc, model)?;
    let template = good(read(alloc, given.below()))?;
    let file = Text::from_str(alloc, given.words()?)?;
    let coverage = covered(alloc, &manifest, &model.types, &template, given.text)?;
    let checks = vec![in alloc; FileCoverage { file, coverage }]?;
    Ok(out.extend_from_slice(&lines_of(alloc, &checks)?)?)
}
