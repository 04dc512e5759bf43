//! What is shown of a run.
use disk_memory::{MemoryDoor, MemorySpawner};
use row_files::{line, text_of};
use std::io;

// Tells the status of a reply, and its body, if it has one; and all that was sent, where it is no reply.
fn tell_sent(out: &mut Vec<u8>, sent: &str) -> io::Result<()> {
    let Some((head, body)) = sent.split_once("\r\n\r\n") else {
        return line(out, &["<", if sent.is_empty() { "nothing" } else { sent }]);
    };
    let status = head.get(9..12).unwrap_or(head);
    if body.is_empty() {
        return line(out, &["<", status]);
    }
    line(out, &["<", status, body])
}

/// Tells a line for what was sent on each connection that was accepted, of so many that came.
pub fn tell_replies(out: &mut Vec<u8>, door: &MemoryDoor, came: usize) -> io::Result<()> {
    for number in 0..came {
        if let Some(sent) = door.output(number) {
            tell_sent(out, text_of(sent)?)?;
        }
    }
    Ok(())
}

fn tell_words(out: &mut Vec<u8>, mark: &str, words: &[String]) -> io::Result<()> {
    let words = words.join(*out.allocator(), " ")?;
    line(out, &[mark, words.as_str()])
}

fn tell_runs(out: &mut Vec<u8>, spawner: &MemorySpawner) -> io::Result<()> {
    for run in spawner.runs() {
        tell_words(out, "!", &run.words)?;
    }
    Ok(())
}

/// Tells a line for each program that was run, and for each that was asked. What these were given, and a line feed after each.
pub fn tell_programs(out: &mut Vec<u8>, spawner: &MemorySpawner) -> io::Result<Vec<u8>> {
    let mut given = Vec::new(*out.allocator());
    tell_runs(out, spawner)?;
    for question in spawner.asked() {
        tell_words(out, "?", &question.words)?;
        given.extend_from_slice(&question.input)?;
        given.push(b'\n')?;
    }
    Ok(given)
}
