//! Bytes as they are in a file of rows.
use std::alloc::{AllocError, Global};

// Adds a byte of a line, as an escape where it can't be there as it is.
fn push_byte(out: &mut String, byte: u8, escapes: bool) -> Result<(), AllocError> {
    match byte {
        b'\\' if escapes => out.push_str("\\\\"),
        b' '..=b'~' => out.push(char::from(byte)),
        _ => write!(out, "\\x{byte:02x}"),
    }
}

// Adds a line with this in front. A line with other bytes than printed ones, or with a space at its end, has escapes.
fn push_line(out: &mut String, front: &str, line: &[u8]) -> Result<(), AllocError> {
    let is_plain = line.iter().all(|byte| (b' '..=b'~').contains(byte));
    let escapes = !is_plain || line.last() == Some(&b' ');
    out.push_str(front)?;
    for byte in line {
        push_byte(out, *byte, escapes)?;
    }
    out.push_str(if escapes { " (esc)" } else { "" })
}

/// The lines of the bytes as they are in a file, each with this in front. The only error is out of memory.
pub fn lines_of(alloc: Global, front: &str, bytes: &[u8]) -> Result<String, AllocError> {
    let mut out = String::new(alloc);
    if bytes.is_empty() {
        return Ok(out);
    }
    for line in bytes
        .strip_suffix(b"\n")
        .unwrap_or(bytes)
        .split(|byte| *byte == b'\n')
    {
        push_line(&mut out, front, line)?;
        out.push('\n')?;
    }
    if !bytes.ends_with(b"\n") {
        out.pop();
        out.push_str(" (no-eol)\n")?;
    }
    Ok(out)
}
