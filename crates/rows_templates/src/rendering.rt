//! What templates render to.
use key_names::Text;
use row_files::{bad, good, key_of};
use settings_tree::{Content, LiveView, Os, OsName, Scalar};
use std::alloc::{AllocError, Global};
use std::io::{self, Write};
use template_eval::{RenderError, render};
use template_reader::read;

/// Puts the value at the key, both of a line: the key, a space and JSON. The errors are `bad()`, where there is no such setting, and out of memory.
pub fn put(alloc: Global, content: &mut Content, line: &str) -> io::Result<()> {
    let (key, json) = line.split_once(' ').ok_or(bad())?;
    let (key, value) = (key_of(alloc, key)?, Scalar::of_json(alloc, json.as_bytes()));
    if !content.fits(&key) {
        return Err(bad());
    }
    Ok(content.put(key, good(value)?)?)
}

/// An operating system without names.
pub fn no_names(alloc: Global) -> Os {
    Os::of(Vec::new(alloc))
}

// An operating system with one name.
fn named(alloc: Global, name: &str, text: &str) -> Result<Os, AllocError> {
    let name = Text::from_str(alloc, name)?;
    let text = Text::from_str(alloc, text)?;
    let mut names = Vec::new(alloc);
    names.push(OsName { name, text })?;
    Ok(Os::of(names))
}

/// An operating system with one name, of a line: the name, a space and the text. The errors are `bad()`, where there is no space, and out of memory.
pub fn os_of(alloc: Global, line: &str) -> io::Result<Os> {
    let (name, text) = line.split_once(' ').ok_or(bad())?;
    Ok(named(alloc, name, text)?)
}

/// Tells the text that the source renders to, or its refusal with the path as a line. The errors are `bad()`, where the source is no template, and out of
/// memory.
pub fn tell(out: &mut Vec<u8>, content: &Content, os: &Os, source: &[u8]) -> io::Result<()> {
    let alloc = *out.allocator();
    let template = good(read(alloc, source))?;
    let error = match render(alloc, &template, source, &LiveView::of(content), os) {
        Ok(text) => return Ok(out.extend_from_slice(&text)?),
        Err(error) => error,
    };
    let (kind, path) = match &error {
        RenderError::Missing { path } => ("missing", path),
        RenderError::NotScalar { path } => ("not-scalar", path),
        RenderError::NotList { path } => ("not-list", path),
        RenderError::BadBase64 { path } => ("bad-base64", path),
        RenderError::Memory => return Err(bad()),
    };
    writeln!(out, "{kind} {}", path.as_str())
}
