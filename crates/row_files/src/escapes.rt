//! Escapes: `\n`, `\r`, `\t`, `\\`, `\xHH` for a byte, and `\(TEXT\)*N;`, which is the text N times.
use std::alloc::{AllocError, Global};

// Adds the byte that these letters after a backslash are, and answers what is after them.
fn push_escape<'a>(out: &mut Vec<u8>, letters: &'a str) -> Result<&'a str, AllocError> {
    let count = if letters.starts_with('x') { 3 } else { 1 };
    let byte = match letters.as_bytes().first() {
        Some(b'n') => b'\n',
        Some(b'r') => b'\r',
        Some(b't') => b'\t',
        Some(b'x') => {
            let digits = letters.get(1..3).unwrap_or("");
            u8::from_str_radix(digits, 16).unwrap_or(0)
        }
        Some(byte) => *byte,
        None => b'\\',
    };
    out.push(byte)?;
    Ok(letters.get(count..).unwrap_or(""))
}

// Adds the bytes of the text, in which nothing is repeated.
fn push_once(out: &mut Vec<u8>, text: &str) -> Result<(), AllocError> {
    let mut rest = text;
    for _ in 0..text.len() {
        let Some((front, letters)) = rest.split_once('\\') else {
            break;
        };
        out.extend_from_slice(front.as_bytes())?;
        rest = push_escape(out, letters)?;
    }
    out.extend_from_slice(rest.as_bytes())
}

// Adds what is repeated at the front of the text, and answers what is after it.
fn push_repeated<'a>(out: &mut Vec<u8>, text: &'a str) -> Result<&'a str, AllocError> {
    let (within, behind) = text.split_once("\\)*").unwrap_or(("", text));
    let (count, rest) = behind.split_once(';').unwrap_or((behind, ""));
    let mut once = Vec::new(*out.allocator());
    push_once(&mut once, within)?;
    for _ in 0..count.parse::<usize>().unwrap_or(0) {
        out.extend_from_slice(&once)?;
    }
    Ok(rest)
}

/// The bytes of the text. The only error is out of memory.
pub fn unescaped(alloc: Global, text: &str) -> Result<Vec<u8>, AllocError> {
    let mut out = Vec::new(alloc);
    let mut rest = text;
    for _ in 0..text.len() {
        let Some((front, behind)) = rest.split_once("\\(") else {
            break;
        };
        push_once(&mut out, front)?;
        rest = push_repeated(&mut out, behind)?;
    }
    push_once(&mut out, rest)?;
    Ok(out)
}
