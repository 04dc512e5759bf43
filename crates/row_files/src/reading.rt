//! The steps of a text.
use crate::conditions::{Turn, holds};
use crate::escapes::unescaped;
use crate::subject::Given;
use std::alloc::{AllocError, Global};

// A line of what a step comes to: where it holds, its bytes with the line feed, and whether anything may come from here on, as the line is `...`.
#[derive(Drop)]
struct Wanted {
    when: String,
    bytes: Vec<u8>,
    open: bool,
}

/// A step.
#[derive(Drop)]
pub struct Step {
    /// The number of its line, from 1.
    pub line: usize,
    /// The first word of the line.
    pub word: String,
    /// The bytes after it.
    pub text: Vec<u8>,
    /// What is given in lines below it; none where there are no such lines.
    pub lines: Option<Vec<u8>>,
    // What it is to come to.
    wanted: Vec<Wanted>,
    // Where the lines hold that follow.
    when: String,
}

impl Step {
    /// What is given to it.
    pub fn given(&self) -> Given<'_> {
        Given {
            word: self.word.as_str(),
            text: &self.text,
            lines: self.lines.as_deref(),
        }
    }

    /// The bytes that it is to come to in these turns of the loops around it, and whether more may follow.
    pub fn wanted_at(
        &self,
        alloc: Global,
        outer: Turn<'_>,
        inner: Turn<'_>,
    ) -> Result<(Vec<u8>, bool), AllocError> {
        let mut bytes = Vec::new(alloc);
        for wanted in &self.wanted {
            if holds(wanted.when.as_str(), outer, inner) {
                if wanted.open {
                    return Ok((bytes, true));
                }
                bytes.extend_from_slice(&wanted.bytes)?;
            }
        }
        Ok((bytes, false))
    }
}

// The bytes of a text, which may have escapes.
fn bytes_of(alloc: Global, text: &str) -> Result<Vec<u8>, AllocError> {
    if text == "(esc)" {
        return Ok(Vec::new(alloc));
    }
    match text.strip_suffix(" (esc)") {
        Some(text) => unescaped(alloc, text),
        None => text.as_bytes().to_vec(alloc),
    }
}

// The bytes of a line.
fn line_bytes(alloc: Global, line: &str) -> Result<Vec<u8>, AllocError> {
    if let Some(text) = line.strip_suffix(" (no-eol)") {
        return bytes_of(alloc, text);
    }
    let mut bytes = bytes_of(alloc, line)?;
    bytes.push(b'\n')?;
    Ok(bytes)
}

// Adds a line to what the step is to come to: a condition alone holds for the lines that follow, and one before a text for this line.
fn want(alloc: Global, step: &mut Step, line: &str) -> Result<(), AllocError> {
    let (when, text) = match line.strip_prefix('@') {
        Some(line) => line.split_once(' ').unwrap_or((line, "")),
        None => (step.when.as_str(), line),
    };
    let when = String::from_str(alloc, when)?;
    if line.starts_with('@') && !line.contains(' ') {
        step.when = when;
        return Ok(());
    }
    step.wanted.push(Wanted {
        when,
        bytes: line_bytes(alloc, text)?,
        open: text == "...",
    })?;
    Ok(())
}

fn step_of(alloc: Global, number: usize, line: &str) -> Result<Step, AllocError> {
    let (word, rest) = line.split_once(' ').unwrap_or((line, ""));
    Ok(Step {
        line: number,
        word: String::from_str(alloc, word)?,
        text: bytes_of(alloc, rest)?,
        lines: None,
        wanted: Vec::new(alloc),
        when: String::new(alloc),
    })
}

// Adds a line to what is given.
fn give(alloc: Global, step: &mut Step, line: &str) -> Result<(), AllocError> {
    let mut lines = step.lines.take().unwrap_or(Vec::new(alloc));
    lines.extend_from_slice(&line_bytes(alloc, line.strip_prefix(' ').unwrap_or(line))?)?;
    step.lines = Some(lines);
    Ok(())
}

// Adds the line to the last step, or as a step.
fn add(alloc: Global, steps: &mut Vec<Step>, number: usize, line: &str) -> Result<(), AllocError> {
    if line.is_empty() || line.starts_with('#') {
        return Ok(());
    }
    if let Some(step) = steps.last_mut() {
        if let Some(rest) = line.strip_prefix("  ") {
            return want(alloc, step, rest);
        }
        if let Some(rest) = line.strip_prefix('>') {
            return give(alloc, step, rest);
        }
    }
    steps.push(step_of(alloc, number, line)?)?;
    Ok(())
}

/// The steps of the text, and how many comparisons its last line says that it makes, 0 where that line is missing. The only error is out of memory.
pub fn steps_of(alloc: Global, text: &str) -> Result<(Vec<Step>, u64), AllocError> {
    let mut steps = Vec::new(alloc);
    let mut number = 0usize;
    for line in text.lines() {
        number = number.saturating_add(1);
        add(alloc, &mut steps, number, line)?;
    }
    let rows = text.lines().last().and_then(|it| it.strip_prefix("rows "));
    let rows = rows.and_then(|it| it.parse::<u64>().ok());
    if rows.is_some() {
        steps.pop();
    }
    Ok((steps, rows.unwrap_or(0)))
}
