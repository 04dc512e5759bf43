//! Requests that come to a run.
use crate::coming::Coming;
use disk_memory::Input;
use load_input::requests;
use row_files::{bad, line, number_of, parts};
use std::alloc::{AllocError, Global};
use std::io;

// The field in brackets before a request, and the request: `[Length: 1] GET /os`, and `[X: a*9] GET /os` for nine times the text.
fn own_field<'a>(alloc: Global, text: &'a str) -> Result<Option<(Vec<u8>, &'a str)>, AllocError> {
    let inner = text.strip_prefix('[').and_then(|it| it.split_once("] "));
    let Some((field, rest)) = inner else {
        return Ok(None);
    };
    let (field, times) = field.rsplit_once('*').unwrap_or((field, "1"));
    let times = times.parse::<usize>().unwrap_or(1);
    Ok(Some((field.as_bytes().repeat(alloc, times)?, rest)))
}

// A request as curl sends it: its method, its target, and its body, if it has one; with a field of its own that alone, and no body.
fn request(alloc: Global, text: &str) -> Result<Vec<u8>, AllocError> {
    if let Some((field, line)) = own_field(alloc, text)? {
        let mut sent = format!(in alloc; "{line} HTTP/1.1\r\n")?.into_bytes();
        sent.extend_from_slice(&field)?;
        sent.extend_from_slice(b"\r\n\r\n")?;
        return Ok(sent);
    }
    let (method, rest) = text.split_once(' ').unwrap_or((text, ""));
    let fields = "Host: localhost\r\nUser-Agent: curl/8.5.0\r\nAccept: */*\r\n";
    let sent = match rest.split_once(' ') {
        Some((target, body)) => {
            let count = body.len();
            format!(in alloc;
                "{method} {target} HTTP/1.1\r\n{fields}Content-Type: application/json\r\nContent-Length: {count}\r\n\r\n{body}"
            )?
        }
        None => format!(in alloc; "{method} {rest} HTTP/1.1\r\n{fields}\r\n")?,
    };
    Ok(sent.into_bytes())
}

/// The connections on which the requests of these lines come.
pub fn inputs(alloc: Global, coming: &Coming, lines: &str) -> io::Result<Vec<Input>> {
    let mut inputs = Vec::new(alloc);
    let mut number = 0u64;
    for line in lines.lines() {
        let sent = request(alloc, line)?;
        inputs.push(Input {
            pieces: vec![in alloc; sent]?,
            read_fails: (coming.read == number).then_some(1),
            write_fails: (coming.write == number).then_some(1),
        })?;
        number = number.saturating_add(1);
    }
    Ok(inputs)
}

/// Tells the request at the second number of those of a load run of the first.
pub fn load_sends(out: &mut Vec<u8>, text: &str) -> io::Result<()> {
    let (count, place) = parts(text);
    let (count, place) = (number_of::<u32>(count)?, number_of::<usize>(place)?);
    if count < 1 || count > 10000 {
        return Err(bad());
    }
    match requests(*out.allocator(), count)?.get(place) {
        Some(bytes) => Ok(out.extend_from_slice(bytes.as_slice())?),
        None => line(out, &["no request"]),
    }
}
