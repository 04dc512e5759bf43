//! The lines of refusals.
ghost use Rattle.std.specs.Prelude.{◌≡◌, ◌++◌, ◌∷◌, [], IfOk, OnOk, codes, decimal, string_bytes};
ghost use Rattle.outside.specs.PathText.{joined};
ghost use Rattle.key_names.specs.Key.{printed};
ghost use Rattle.version_links.specs.Versions.{version_text};
ghost use Rattle.settings_machine.specs.Requests.{refusal_status};
ghost use Rattle.machine_answers.specs.Bodies.{refusal_text};
ghost use Rattle.machine_answers.specs.RenderWords.{render_word, render_path};
ghost use Rattle.command_outcome.specs.Lines.{status_of, line_of, told, spaced};

use crate::Refusal;
use itoa::Buffer;
use key_names::{Key, Text};
use machine_answers::{refusal_text, render_path, render_word};
use outside::Path;
use std::alloc::{AllocError, Global};
use template_eval::RenderError;
use version_links::Version;

// Adds a space and a text.
fn push_text(line: &mut Vec<u8>, text: &Text) -> Result<(), AllocError>
    ensures { OnOk result (line.new.items ≡ line.old.items ++ spaced text.now) }
{
    line.push(b' ')?;
    line.extend_from_slice(text.as_str().as_bytes())
}

// Adds words, a space and a path.
fn push_path(line: &mut Vec<u8>, words: &str, path: &Path) -> Result<(), AllocError>
    ensures { OnOk result (line.new.items ≡ line.old.items ++ (words.now ++ spaced (joined path.now))) }
{
    line.extend_from_slice(words.as_bytes())?;
    line.push(b' ')?;
    line.extend_from_slice(&path.print()?)
}

fn push_image(line: &mut Vec<u8>, file: &Text, kind: &Text, at: &Text) -> Result<(), AllocError>
    ensures { OnOk result (line.new.items
        ≡ line.old.items ++ (codes "bad image" ++ spaced file.now ++ spaced kind.now ++ spaced at.now)) }
{
    line.extend_from_slice(b"bad image")?;
    push_text(line, file)?;
    push_text(line, kind)?;
    push_text(line, at)
}

// Adds words, a space and a key.
fn push_key(line: &mut Vec<u8>, words: &str, key: &Key) -> Result<(), AllocError>
    ensures { OnOk result (line.new.items ≡ line.old.items ++ (words.now ++ spaced (printed key.now))) }
{
    line.extend_from_slice(words.as_bytes())?;
    push_text(line, &key.print()?)
}

fn text_of(alloc: Global, version: &Version) -> Result<String, AllocError>
    ensures { IfOk result (λ text. string_bytes text ≡ version_text version.now) }
{
    format!(in alloc; "{version}")
}

// Adds a space and a version.
fn push_version(alloc: Global, line: &mut Vec<u8>, version: &Version) -> Result<(), AllocError>
    ensures { OnOk result (line.new.items ≡ line.old.items ++ spaced (version_text version.now)) }
{
    let text = text_of(alloc, version)?;
    line.push(b' ')?;
    line.extend_from_slice(text.as_bytes())
}

fn push_there(alloc: Global, line: &mut Vec<u8>, version: &Version) -> Result<(), AllocError>
    ensures { OnOk result (line.new.items ≡ line.old.items ++ (codes "already there" ++ spaced (version_text version.now))) }
{
    line.extend_from_slice(b"already there")?;
    push_version(alloc, line, version)
}

fn push_missing(
    alloc: Global,
    line: &mut Vec<u8>,
    at: &Version,
    target: &Version,
) -> Result<(), AllocError>
    ensures { OnOk result (line.new.items ≡ line.old.items
        ++ (codes "missing" ++ spaced (version_text at.now) ++ spaced (version_text target.now))) }
{
    line.extend_from_slice(b"missing")?;
    push_version(alloc, line, at)?;
    push_version(alloc, line, target)
}

// Adds words, a space and a name.
fn push_name(line: &mut Vec<u8>, words: &str, name: &Text) -> Result<(), AllocError>
    ensures { OnOk result (line.new.items ≡ line.old.items ++ (words.now ++ spaced name.now)) }
{
    line.extend_from_slice(words.as_bytes())?;
    push_text(line, name)
}

fn push_render(line: &mut Vec<u8>, file: &Text, error: &RenderError) -> Result<(), AllocError>
    ensures { OnOk result (line.new.items ≡ line.old.items
        ++ (codes "render" ++ spaced file.now ++ spaced (render_word error.now) ++ spaced (render_path error.now))) }
{
    line.extend_from_slice(b"render")?;
    push_text(line, file)?;
    line.push(b' ')?;
    line.extend_from_slice(render_word(error).as_bytes())?;
    line.push(b' ')?;
    line.extend_from_slice(render_path(error).as_bytes())
}

fn push_status(line: &mut Vec<u8>, service: &Text, number: u16) -> Result<(), AllocError>
    ensures { OnOk result (line.new.items
        ≡ line.old.items ++ (codes "status" ++ spaced service.now ++ spaced (decimal number))) }
{
    let mut buffer = Buffer::new();
    push_name(line, "status", service)?;
    line.push(b' ')?;
    line.extend_from_slice(buffer.format(number).as_bytes())
}

// Adds words, a space, a name, and the status of its program.
fn push_program_status(
    line: &mut Vec<u8>,
    words: &str,
    name: &Text,
    number: u16,
) -> Result<(), AllocError>
    ensures { OnOk result (line.new.items
        ≡ line.old.items ++ (words.now ++ spaced name.now ++ codes " status " ++ decimal number)) }
{
    let mut buffer = Buffer::new();
    push_name(line, words, name)?;
    line.extend_from_slice(b" status ")?;
    line.extend_from_slice(buffer.format(number).as_bytes())
}

// Adds words, a space, a name, and that its program's output is refused.
fn push_output(line: &mut Vec<u8>, words: &str, name: &Text) -> Result<(), AllocError>
    ensures { OnOk result (line.new.items ≡ line.old.items ++ (words.now ++ spaced name.now ++ codes " output")) }
{
    push_name(line, words, name)?;
    line.extend_from_slice(b" output")
}

// Adds words, a space, a kind, a space and where the fault is.
fn push_fault(line: &mut Vec<u8>, words: &str, kind: &Text, at: &Text) -> Result<(), AllocError>
    ensures { OnOk result (line.new.items ≡ line.old.items ++ (words.now ++ spaced kind.now ++ spaced at.now)) }
{
    push_name(line, words, kind)?;
    push_text(line, at)
}

// Adds what a client of the socket would get: the status and the text of the refusal.
fn push_refused(
    alloc: Global,
    line: &mut Vec<u8>,
    refusal: &settings_machine::Refusal,
) -> Result<(), AllocError>
    ensures { OnOk result (line.new.items ≡ line.old.items
        ++ (codes "refused" ++ spaced (decimal (refusal_status refusal.now)) ++ spaced (refusal_text refusal.now))) }
{
    let mut buffer = Buffer::new();
    line.extend_from_slice(b"refused ")?;
    line.extend_from_slice(buffer.format(refusal.status()).as_bytes())?;
    push_text(line, &refusal_text(alloc, refusal)?)
}

// Adds what is said of the refusal after the program's name.
fn push_told(alloc: Global, line: &mut Vec<u8>, refusal: &Refusal) -> Result<(), AllocError>
    ensures { OnOk result (line.new.items ≡ line.old.items ++ told refusal.now) }
{
    match refusal {
        Refusal::Memory => line.extend_from_slice(b"memory"),
        Refusal::Usage => line.extend_from_slice(b"usage"),
        Refusal::Disk => line.extend_from_slice(b"disk"),
        Refusal::Door => line.extend_from_slice(b"door"),
        Refusal::Spawn { name } => push_name(line, "spawn", name),
        Refusal::NoStore => line.extend_from_slice(b"no store"),
        Refusal::Damaged { path } => push_path(line, "damaged", path),
        Refusal::BadLink { path } => push_path(line, "bad link", path),
        Refusal::BadJournal { path } => push_path(line, "bad journal", path),
        Refusal::BadImage { file, kind, at } => push_image(line, file, kind, at),
        Refusal::IllTyped { key } => push_key(line, "ill typed", key),
        Refusal::HoldsIllTyped { .. }
        | Refusal::NotCovered { .. }
        | Refusal::WouldNotRender { .. }
        | Refusal::NotCurrent { .. } => Ok(()),
        Refusal::Render { file, error } => push_render(line, file, error),
        Refusal::Status { service, number } => push_status(line, service, *number),
        Refusal::Missing { at, target } => push_missing(alloc, line, at, target),
        Refusal::Conflict { key } => push_key(line, "conflict", key),
        Refusal::Refused(refusal) => push_refused(alloc, line, refusal),
        Refusal::AlreadyThere { version } => push_there(alloc, line, version),
        Refusal::OldFormat { directory } => push_path(line, "old format", directory),
        Refusal::GeneratorStatus { key, number } => {
            push_program_status(line, "generator", &key.print()?, *number)
        }
        Refusal::GeneratorOutput { key } => push_output(line, "generator", &key.print()?),
        Refusal::UserData { kind, at } => push_fault(line, "user data", kind, at),
        Refusal::Dump { kind, at } => push_fault(line, "dump", kind, at),
        Refusal::MigrationStatus { name, number } => {
            push_program_status(line, "migration", name, *number)
        }
        Refusal::MigrationOutput { name } => push_output(line, "migration", name),
    }
}

// The line that begins with the program's name.
fn named_line(alloc: Global, refusal: &Refusal) -> Result<Vec<u8>, AllocError>
    ensures { IfOk result (λ line. line.items ≡ codes "settings: " ++ told refusal.now ++ codes "\n") }
{
    let mut line = Vec::from_slice(alloc, b"settings: ")?;
    push_told(alloc, &mut line, refusal)?;
    line.push(b'\n')?;
    Ok(line)
}

impl Refusal {
    /// The status of a command that is refused so. It takes no memory.
    pub fn status(&self) -> u8
        ensures { result ≡ status_of self.now }
    {
        match self {
            Refusal::Memory => 1,
            Refusal::Usage => 2,
            Refusal::Disk => 3,
            Refusal::Door => 4,
            Refusal::Spawn { .. } => 5,
            Refusal::NoStore => 6,
            Refusal::Damaged { .. } | Refusal::BadLink { .. } | Refusal::BadJournal { .. } => 7,
            Refusal::BadImage { .. } | Refusal::IllTyped { .. } | Refusal::HoldsIllTyped { .. } =>
                8,
            Refusal::NotCovered { .. } => 9,
            Refusal::Render { .. } | Refusal::WouldNotRender { .. } | Refusal::Status { .. } => 10,
            Refusal::Missing { .. } | Refusal::Conflict { .. } => 11,
            Refusal::Refused(_) => 13,
            Refusal::AlreadyThere { .. } => 14,
            Refusal::OldFormat { .. } => 15,
            Refusal::GeneratorStatus { .. } | Refusal::GeneratorOutput { .. } => 16,
            Refusal::UserData { .. } | Refusal::Dump { .. } => 17,
            Refusal::MigrationStatus { .. } | Refusal::MigrationOutput { .. } => 18,
            Refusal::NotCurrent { .. } => 19,
        }
    }

    /// What is printed of the refusal, with a line feed at its end: a line that begins with `settings: `, or the lines that tell of
    /// each configuration file and of the store. The only error is out of memory.
    pub fn line(&self, alloc: Global) -> Result<Vec<u8>, AllocError>
        ensures { IfOk result (λ line. line.items ≡ line_of self.now) }
    {
        match self {
            Refusal::HoldsIllTyped { lines }
            | Refusal::NotCovered { lines }
            | Refusal::WouldNotRender { lines }
            | Refusal::NotCurrent { lines } => lines.as_slice().to_vec(alloc),
            _ => named_line(alloc, self),
        }
    }
}
