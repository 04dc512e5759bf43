//! What bytes are read as: `not yet`, the word of a refusal, or what is asked with its values.
use api_http::{Reading, Refusal, bytes_wanted, read_request};
use key_names::{Key, Text};
use row_files::line;
use settings_machine::{Guard, Request};
use settings_tree::{Pending, TxName};
use std::alloc::{AllocError, Global};
use std::io::{self, Write};

// Tells the word and the keys, a space before each.
fn keys(out: &mut Vec<u8>, word: &str, keys: &[Key]) -> io::Result<()> {
    write!(out, "{word}")?;
    for key in keys {
        write!(out, " {}", key.print()?.as_str())?;
    }
    Ok(())
}

// Tells the word and the names, a space before each.
fn names(out: &mut Vec<u8>, word: &str, names: &Option<Vec<Text>>) -> io::Result<()> {
    write!(out, "{word}")?;
    for name in names.as_deref().unwrap_or(&[]) {
        write!(out, " {}", name.as_str())?;
    }
    Ok(())
}

// Tells each key with its value, a space before each.
fn changes(out: &mut Vec<u8>, pairs: &[(Key, Pending)]) -> io::Result<()> {
    for (key, pending) in pairs {
        let value = match pending {
            Pending::Put(scalar) => scalar.print(*out.allocator())?,
            Pending::Gone => Text::from_str(*out.allocator(), "null")?,
        };
        write!(out, " {}={}", key.print()?.as_str(), value.as_str())?;
    }
    Ok(())
}

// What is before the word of a change: that templates are checked.
fn guarded(guard: Guard) -> &'static str {
    match guard {
        Guard::Off => "",
        Guard::Render => "checked ",
    }
}

// Tells the word, and the transaction after a space, if there is one.
fn planned(out: &mut Vec<u8>, word: &str, tx: &Option<TxName>) -> io::Result<()> {
    match tx {
        Some(tx) => write!(out, "{word} {}", tx.as_str()),
        None => write!(out, "{word}"),
    }
}

/// Tells the word of what is asked, the transaction, and the values.
pub fn request(out: &mut Vec<u8>, request: &Request) -> io::Result<()> {
    match request {
        Request::Root => write!(out, "root"),
        Request::OsNames => write!(out, "os"),
        Request::Settings => write!(out, "settings"),
        Request::SettingsAt { keys: asked } => keys(out, "keys", asked),
        Request::SettingsBelow { key } => write!(out, "prefix {}", key.print()?.as_str()),
        Request::Patch { tx, pairs } => {
            write!(out, "patch {}", tx.as_str())?;
            changes(out, pairs)
        }
        Request::Services { names: asked } => names(out, "services", asked),
        Request::ConfigurationFiles { names: asked } => names(out, "files", asked),
        Request::Affected { keys: asked } => keys(out, "affected", asked),
        Request::Pends { tx } => write!(out, "pending {}", tx.as_str()),
        Request::DropTx { tx } => write!(out, "drop {}", tx.as_str()),
        Request::TxList => write!(out, "transactions"),
        Request::Commit { tx, guard } => write!(out, "{}commit {}", guarded(*guard), tx.as_str()),
        Request::CommitAndApply { tx, guard } => {
            write!(out, "{}commit-and-apply {}", guarded(*guard), tx.as_str())
        }
        Request::Set { pairs, guard } => {
            write!(out, "{}set", guarded(*guard))?;
            changes(out, pairs)
        }
        Request::Apply => write!(out, "apply"),
        Request::JobNow => write!(out, "job"),
        Request::ApplyAll => write!(out, "apply all"),
        Request::Plan { tx } => planned(out, "plan", tx),
        Request::PlanFile { file, tx } => {
            write!(out, "plan-file ")?;
            planned(out, file.as_str(), tx)
        }
        Request::Store => write!(out, "store"),
        Request::Verify => write!(out, "verify"),
    }
}

/// Tells the word of the refusal, with the path where it tells one.
pub fn refusal(out: &mut Vec<u8>, refusal: &Refusal) -> io::Result<()> {
    let word = match refusal {
        Refusal::HeadTooLong => "head-too-long",
        Refusal::Head => "head",
        Refusal::NoPath => "no-path",
        Refusal::Method { path } => return write!(out, "method {}", path.as_str()),
        Refusal::Query => "query",
        Refusal::Length => "length",
        Refusal::BodyTooLong => "body-too-long",
        Refusal::Body => "body",
        _ => "not of reading",
    };
    write!(out, "{word}")
}

/// Tells what the bytes are read as, as a line, and how many come after a whole request, if any, as a second one. The only error is out of memory.
pub fn read(out: &mut Vec<u8>, bytes: &[u8]) -> io::Result<()> {
    let mut more = 0;
    match read_request(*out.allocator(), bytes)? {
        Reading::Whole {
            request: asked,
            length,
        } => {
            more = bytes.len().saturating_sub(length);
            request(out, &asked)?;
        }
        Reading::NotYet => write!(out, "not yet")?,
        Reading::Refused { refusal: why } => refusal(out, &why)?,
    }
    match more {
        0 => line(out, &[]),
        _ => write!(out, "\nand {more} more\n"),
    }
}

// The head with these lines, each with CR LF after it, and an empty one.
fn head_of(alloc: Global, lines: &[u8]) -> Result<Vec<u8>, AllocError> {
    let mut bytes = Vec::new(alloc);
    let lines = lines.strip_suffix(b"\n").unwrap_or(lines);
    for line in lines.split(|byte| *byte == b'\n') {
        bytes.extend_from_slice(line)?;
        bytes.extend_from_slice(b"\r\n")?;
    }
    bytes.extend_from_slice(b"\r\n")?;
    Ok(bytes)
}

/// Tells what the head of these lines is read as.
pub fn head(out: &mut Vec<u8>, lines: &[u8]) -> io::Result<()> {
    let head = head_of(*out.allocator(), lines)?;
    read(out, &head)
}

/// Tells what a request with this method and target and this body is read as: without its last byte, whole, and with three bytes after it.
pub fn bodies(out: &mut Vec<u8>, asked: &str, body: &[u8]) -> io::Result<()> {
    let (alloc, count) = (*out.allocator(), body.len());
    let lines = format!(in alloc; "{asked} HTTP/1.1\nContent-Length: {count}")?;
    let mut bytes = head_of(alloc, lines.as_str().as_bytes())?;
    bytes.extend_from_slice(body)?;
    let front = bytes.get(..bytes.len().saturating_sub(1)).unwrap_or(b"");
    read(out, front)?;
    read(out, &bytes)?;
    bytes.extend_from_slice(b"GET")?;
    read(out, &bytes)
}

/// Tells how often the bytes are read until they are a request, where so many come at a time; 0 where they never are.
pub fn times(out: &mut Vec<u8>, bytes: &[u8], size: usize) -> io::Result<()> {
    let (mut times, mut wanted, mut come) = (0u64, 0, 0usize);
    for _ in 0..bytes.len() {
        come = come.saturating_add(size).min(bytes.len());
        let front = bytes.get(..come).unwrap_or(bytes);
        if come >= wanted {
            times = times.saturating_add(1);
            let reading = read_request(*out.allocator(), front)?;
            if !matches!(&reading, Reading::NotYet) {
                return writeln!(out, "{times}");
            }
            wanted = bytes_wanted(front);
        }
    }
    line(out, &["0"])
}
