//! What the words of a command say.
use crate::lines::{keys, pair};
use command_words::{Command, WordsError};
use json_trees::Scalar;
use key_names::Key;
use outside::Path;
use row_files::{line, text_of, words_of};
use std::io::{self, Write};

fn set(out: &mut Vec<u8>, pairs: &[(Key, Scalar)]) -> io::Result<()> {
    write!(out, "set")?;
    for (key, value) in pairs {
        pair(out, " ", key, value)?;
    }
    line(out, &[])
}

fn word_with_path(out: &mut Vec<u8>, word: &str, path: &Path) -> io::Result<()> {
    let (names, path) = (path.names().len(), path.print()?);
    writeln!(out, "{word} of {names} names <{}>", text_of(&path)?)
}

/// Tells what the words between the bars say.
pub fn tell(out: &mut Vec<u8>, text: &str) -> io::Result<()> {
    let alloc = *out.allocator();
    match Command::read(alloc, &words_of(alloc, text, '|')?) {
        Ok(Command::Init { version }) => writeln!(out, "init {version}"),
        Ok(
            Command::Serve {
                boot,
                slice,
                while_idle,
                connections,
                quiet,
            },
        ) => writeln!(
            out,
            "serve {boot} {slice:?} {while_idle} {connections:?} {quiet}"
        ),
        Ok(Command::Set { pairs }) => set(out, &pairs),
        Ok(Command::Get { keys: of }) => keys(out, "get", &of),
        Ok(Command::Apply { all }) => writeln!(out, "apply {all}"),
        Ok(Command::Verify) => line(out, &["verify"]),
        Ok(Command::Check { store }) => writeln!(out, "check {store}"),
        Ok(Command::Migrate { to }) => writeln!(out, "migrate {to}"),
        Ok(Command::Prune) => line(out, &["prune"]),
        Ok(Command::Load { count }) => writeln!(out, "load {count}"),
        Ok(Command::Generate) => line(out, &["generate"]),
        Ok(Command::UserData { path }) => word_with_path(out, "user-data", &path),
        Ok(Command::Dump) => line(out, &["dump"]),
        Ok(Command::Restore { path }) => word_with_path(out, "restore", &path),
        Ok(Command::Forget { keys: of }) => keys(out, "forget", &of),
        Err(WordsError::Usage) => line(out, &["usage"]),
        Err(WordsError::Memory) => line(out, &["memory"]),
    }
}
