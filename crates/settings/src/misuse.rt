//! Which word is at fault, where the words spell no command.
use command_words::{Command, WordsError};
use outside_real::plain;
use std::alloc::{AllocError, Global};

// The words of all commands.
const COMMANDS: [&str; 15] = [
    "init",
    "serve",
    "set",
    "get",
    "apply",
    "verify",
    "check",
    "migrate",
    "prune",
    "generate",
    "user-data",
    "dump",
    "restore",
    "forget",
    "load",
];

const NO_KEY: &str =
    "no key (segments joined by dots; one with other bytes than letters, digits, _ and - stands in double quotes)";

// Whether these two words spell a command.
fn spell(alloc: Global, command: &str, word: &str) -> Result<bool, AllocError> {
    let mut words = Vec::new(alloc);
    words.push(String::from_str(alloc, command)?)?;
    words.push(String::from_str(alloc, word)?)?;
    match Command::read(alloc, &words) {
        Ok(_) => Ok(true),
        Err(WordsError::Usage) => Ok(false),
        Err(WordsError::Memory) => Err(AllocError),
    }
}

// What is before the first `=` outside double quotes.
fn key_of(word: &str) -> Option<&str> {
    let mut closed = true;
    for (place, byte) in word.as_bytes().iter().enumerate() {
        if *byte == b'"' {
            closed = !closed;
        } else if closed && *byte == b'=' {
            return word.get(..place);
        }
    }
    None
}

// What is wrong with a word that `set` doesn't take.
fn wrong_pair(alloc: Global, word: &str) -> Result<&'static str, AllocError> {
    let Some(key) = key_of(word) else {
        return Ok("no KEY=JSON");
    };
    if !spell(alloc, "get", key)? {
        return Ok(NO_KEY);
    }
    let zero = format!(in alloc; "{key}=0")?;
    if spell(alloc, "set", zero.as_str())? {
        Ok("no JSON (a text stands in double quotes)")
    } else {
        Ok("no setting (its key begins with settings)")
    }
}

// What is wrong with a word of `set`, `get` or `forget`, if something is.
fn wrong_word(
    alloc: Global,
    command: &str,
    word: &str,
) -> Result<Option<&'static str>, AllocError> {
    if spell(alloc, command, word)? {
        return Ok(None);
    }
    if command == "set" {
        Ok(Some(wrong_pair(alloc, word)?))
    } else {
        Ok(Some(NO_KEY))
    }
}

// The words that a command takes after its own.
fn wanted_by(command: &str) -> &'static str {
    match command {
        "init" => "--version V, three numbers as 1.5.2",
        "migrate" => "--to V, three numbers as 1.5.2",
        "serve" =>
            "[--boot] [--slice N] [--while-idle] [--connections N] [--quiet], N at most 4294967295 and a slice at least 1",
        "set" => "KEY=JSON ...",
        "apply" => "[--all]",
        "check" => "[--store]",
        "forget" => "KEY ...",
        "user-data" | "restore" => "PATH, a path below the working folder",
        "load" => "N, from 1 to 10000",
        _ => "no word behind it",
    }
}

// The first word after the command that is at fault by itself, with what is wrong, as a line.
fn fault_of_each(
    alloc: Global,
    command: &str,
    words: &[String],
) -> Result<Option<String>, AllocError> {
    for word in words {
        let word = word.as_str();
        if let Some(wrong) = wrong_word(alloc, command, word)? {
            let word = plain(alloc, word)?;
            let word = word.as_str();
            return Ok(Some(format!(in alloc; "{word}: {wrong}")?));
        }
    }
    Ok(None)
}

/// The word at fault, where the words spell no command, with what is wrong, as `settings.motd=hi: no JSON (a text stands in double quotes)`, in one line;
/// None where there is no word. Or out of memory.
pub fn fault_of(alloc: Global, words: &[String]) -> Result<Option<String>, AllocError> {
    let Some((command, behind)) = words.split_first() else {
        return Ok(None);
    };
    let command = command.as_str();
    if !COMMANDS.contains(&command) {
        let command = plain(alloc, command)?;
        let command = command.as_str();
        return Ok(Some(format!(in alloc; "{command}: no command")?));
    }
    if matches!(command, "set" | "get" | "forget") {
        let found = fault_of_each(alloc, command, behind)?;
        if found.is_some() {
            return Ok(found);
        }
    }
    let wanted = wanted_by(command);
    Ok(Some(format!(in alloc; "{command}: takes {wanted}")?))
}
