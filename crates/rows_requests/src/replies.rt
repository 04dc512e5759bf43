//! The bytes of replies.
use api_http::{Refusal, Reply, print_answer, print_refusal, print_text};
use key_names::{Bytes, Text};
use machine_answers::{Answer, Body};
use row_files::{bad, key_of, parts, path_of, words_of};
use settings_machine::{FileState, Refusal as Refused, VerifiedFile};
use settings_tree::TxName;
use std::alloc::Global;
use std::io::{self, Write};
use template_eval::RenderError;

// The refusal of HTTP of the word, with what is said of it.
fn refusal_of(alloc: Global, word: &str, text: &str) -> io::Result<Refusal> {
    let told = Text::from_str(alloc, text)?;
    Ok(match (word, text) {
        ("method", _) => Refusal::Method { path: told },
        ("store", _) => Refusal::Store { at: told },
        ("head-too-long", "") => Refusal::HeadTooLong,
        ("head", "") => Refusal::Head,
        ("no-path", "") => Refusal::NoPath,
        ("query", "") => Refusal::Query,
        ("length", "") => Refusal::Length,
        ("body-too-long", "") => Refusal::BodyTooLong,
        ("body", "") => Refusal::Body,
        ("memory", "") => Refusal::Memory,
        ("disk", "") => Refusal::DiskFault,
        _ => return Err(bad()),
    })
}

// Why a template refuses: a word, a space and the path.
fn error_of(alloc: Global, text: &str) -> io::Result<RenderError> {
    let (word, path) = text.split_once(' ').ok_or(bad())?;
    let path = Text::from_str(alloc, path)?;
    Ok(match word {
        "missing" => RenderError::Missing { path },
        "not-scalar" => RenderError::NotScalar { path },
        "not-list" => RenderError::NotList { path },
        "bad-base64" => RenderError::BadBase64 { path },
        _ => return Err(bad()),
    })
}

// The refusal of the machine of the word, if it is one, with what is said of it.
fn refused(alloc: Global, word: &str, text: &str) -> io::Result<Option<Refused>> {
    Ok(Some(match word {
        "type" => {
            let (key, wanted) = text.split_once(' ').ok_or(bad())?;
            let (key, wanted) = (key_of(alloc, key)?, Text::from_str(alloc, wanted)?);
            Refused::BadType { key, wanted }
        }
        "no-key" => Refused::NoKey {
            key: key_of(alloc, text)?,
        },
        "no-name" => Refused::NoName {
            name: Text::from_str(alloc, text)?,
        },
        "no-pending" => Refused::NoPending {
            tx: TxName::read(alloc, text.as_bytes())?.ok_or(bad())?,
        },
        "not-rendered" => {
            let (file, why) = text.split_once(' ').ok_or(bad())?;
            let (file, error) = (Text::from_str(alloc, file)?, error_of(alloc, why)?);
            Refused::NotRendered { file, error }
        }
        _ => return Ok(None),
    }))
}

// The state of the word, which one that refuses has with why.
fn state_of(alloc: Global, text: &str) -> io::Result<FileState> {
    Ok(match parts(text) {
        ("current", "") => FileState::Current,
        ("owed", "") => FileState::Owed,
        ("differs", "") => FileState::Differs,
        ("absent", "") => FileState::Absent,
        ("refused", why) => FileState::Refused {
            error: error_of(alloc, why)?,
        },
        _ => return Err(bad()),
    })
}

// The files with their states, with commas between them: a name, a path and a state each.
fn files_of(alloc: Global, text: &str) -> io::Result<Vec<VerifiedFile>> {
    let mut files = Vec::new(alloc);
    for file in &words_of(alloc, text, ',')? {
        let (name, told) = file.as_str().split_once(' ').ok_or(bad())?;
        let (path, state) = told.split_once(' ').ok_or(bad())?;
        files.push(VerifiedFile {
            name: Text::from_str(alloc, name)?,
            path: path_of(alloc, path.as_bytes())?,
            state: state_of(alloc, state)?,
        })?;
    }
    Ok(files)
}

// The reply with the file of these bytes.
fn file_reply(alloc: Global, text: &str) -> io::Result<Reply> {
    let bytes = Bytes::of(text.as_bytes().to_vec(alloc)?);
    Ok(print_answer(alloc, &Answer::File(bytes))?)
}

// The reply with the files and their states.
fn states_reply(alloc: Global, text: &str) -> io::Result<Reply> {
    let files = files_of(alloc, text)?;
    Ok(print_answer(alloc, &Answer::Said(Body::States(files)))?)
}

// The reply of the refusal of the machine or of HTTP of the word.
fn refused_reply(alloc: Global, word: &str, text: &str) -> io::Result<Reply> {
    Ok(match refused(alloc, word, text)? {
        Some(refusal) => print_answer(alloc, &Answer::Refused(refusal))?,
        None => print_refusal(alloc, &refusal_of(alloc, word, text)?)?,
    })
}

// The reply of the word, that of the refusal of the machine or of HTTP, where it is no other; a fixed one takes no memory.
fn reply_of(alloc: Global, word: &str, text: &str) -> io::Result<Reply> {
    match (word, text) {
        ("fixed", "memory") => Ok(Reply::memory()),
        ("fixed", "disk") => Ok(Reply::disk()),
        ("json", _) => Ok(print_text(alloc, &Text::from_str(alloc, text)?)?),
        ("empty", _) => Ok(print_answer(alloc, &Answer::Empty)?),
        ("file", _) => file_reply(alloc, text),
        ("states", _) => states_reply(alloc, text),
        _ => refused_reply(alloc, word, text),
    }
}

/// Tells the status of the reply as a line, and then the bytes as they are sent. The errors are `bad()`, where there is no such answer, and out of memory.
pub fn tell(out: &mut Vec<u8>, line: &str) -> io::Result<()> {
    let (word, text) = parts(line);
    let reply = reply_of(*out.allocator(), word, text)?;
    writeln!(out, "{}", reply.status())?;
    Ok(out.extend_from_slice(reply.bytes())?)
}
