//! What a model file links: services, files, commands, and the keys that affect them.
use crate::models::fault;
use key_names::{Key, Text, read_list};
use metadata_links::{Command, Manifest, ManifestError, Steps};
use model_file::Model;
use row_files::{bad, good, key_of, line, text_of};
use settings_tree::{KeyList, Owed};
use std::alloc::Global;
use std::io::{self, Write};

// Tells why the links are refused, and where.
fn refused(out: &mut Vec<u8>, error: &ManifestError) -> io::Result<()> {
    match error {
        ManifestError::Incomplete { file } => line(out, &["incomplete", file.as_str()]),
        ManifestError::BadPath { file } => line(out, &["bad-path", file.as_str()]),
        ManifestError::SamePath { first, second } => {
            line(out, &["same-path", first.as_str(), second.as_str()])
        }
        ManifestError::NestedPath { first, second } => {
            line(out, &["nested-path", first.as_str(), second.as_str()])
        }
        ManifestError::UnknownFile { service, file } => {
            line(out, &["unknown-file", service.as_str(), file.as_str()])
        }
        ManifestError::EmptyCommand { service, index } => {
            writeln!(out, "empty-command {} {index}", service.as_str())
        }
        ManifestError::BadMeta { key } => {
            let key = key.print()?;
            line(out, &["bad-meta", key.as_str()])
        }
        ManifestError::UnknownService { key, service } => {
            let key = key.print()?;
            line(out, &["unknown-service", key.as_str(), service.as_str()])
        }
        ManifestError::Memory => line(out, &["memory"]),
    }
}

// Adds the names, each after a space.
fn push_names(out: &mut Vec<u8>, names: &[Text]) -> io::Result<()> {
    for name in names {
        write!(out, " {}", name.as_str())?;
    }
    Ok(())
}

// Tells the names after a word, each after a space.
fn list(out: &mut Vec<u8>, word: &str, names: &[Text]) -> io::Result<()> {
    write!(out, "{word}:")?;
    push_names(out, names)?;
    Ok(out.push(b'\n')?)
}

/// Tells the keys after a word, each after a space.
pub fn list_keys(out: &mut Vec<u8>, word: &str, keys: &[Key]) -> io::Result<()> {
    write!(out, "{word}")?;
    for key in keys {
        write!(out, " {}", key.print()?.as_str())?;
    }
    Ok(out.push(b'\n')?)
}

// Tells a line for each file: its name, its path, its template's, and the services that list it.
fn tell_files(out: &mut Vec<u8>, manifest: &Manifest) -> io::Result<()> {
    for name in &manifest.file_names()? {
        if let Some(file) = manifest.file(name.as_str().as_bytes()) {
            let (path, template) = (file.path.print()?, file.template.print()?);
            let (path, template) = (text_of(&path)?, text_of(&template)?);
            write!(out, "file {} {path} {template}:", name.as_str())?;
            push_names(out, &manifest.services_of(name.as_str().as_bytes())?)?;
            out.push(b'\n')?;
        }
    }
    Ok(())
}

// Tells a line for each command: its service, its place, and its words.
fn tell_commands(out: &mut Vec<u8>, commands: &[Command]) -> io::Result<()> {
    for command in commands {
        let words = command.words.join(*out.allocator(), " ")?;
        let (service, index) = (command.service.as_str(), command.index);
        writeln!(out, "command {service} {index}: {words}")?;
    }
    Ok(())
}

// Tells the key and its list by a look-up in the index.
fn tell_list(out: &mut Vec<u8>, manifest: &Manifest, key: &Key) -> io::Result<()> {
    write!(out, "list {}:", key.print()?.as_str())?;
    let names = match key.len() {
        0 => None,
        len => manifest.index().at(key, len, &mut Steps::new()),
    };
    match names {
        Some(names) => push_names(out, names)?,
        None => out.extend_from_slice(b" none")?,
    }
    Ok(out.push(b'\n')?)
}

// Tells its files, its commands, and each key below `settings` that has a list.
fn said(out: &mut Vec<u8>, manifest: &Manifest) -> io::Result<()> {
    tell_files(out, manifest)?;
    tell_commands(out, &manifest.commands_of(&Owed::All)?)?;
    for key in &manifest.listed_below(&key_of(*out.allocator(), "settings")?)? {
        tell_list(out, manifest, key)?;
    }
    Ok(())
}

/// Tells what the model file links, or why its links are refused; the fault of the model file, where it is none.
pub fn told(out: &mut Vec<u8>, text: &[u8]) -> io::Result<()> {
    let alloc = *out.allocator();
    match Model::read(alloc, text) {
        Ok(model) => match Manifest::of(alloc, &model.content) {
            Ok(manifest) => said(out, &manifest),
            Err(error) => refused(out, &error),
        },
        Err(error) => fault(out, &error),
    }
}

/// The model that the text says, and its links.
pub fn manifest_of(alloc: Global, text: &[u8]) -> io::Result<(Model, Manifest)> {
    let model = good(Model::read(alloc, text))?;
    let manifest = good(Manifest::of(alloc, &model.content))?;
    Ok((model, manifest))
}

// The keys that the text lists, rising, or all.
fn owed_of(alloc: Global, text: &str) -> io::Result<Owed> {
    if text == "all" {
        return Ok(Owed::All);
    }
    let keys = good(read_list(alloc, text.as_bytes()))?;
    if KeyList::rise(&keys) {
        return Ok(Owed::Keys(KeyList::of(keys)));
    }
    Err(bad())
}

// Tells what a step of a word comes to that asks what a change of these keys affects.
fn affects(out: &mut Vec<u8>, manifest: &Manifest, word: &str, owed: &Owed) -> io::Result<()> {
    match (word, owed) {
        ("affected", _) => list(out, word, &manifest.affected(owed)?),
        ("files", _) => list(out, word, &manifest.files_of(owed)?),
        ("commands", _) => tell_commands(out, &manifest.commands_of(owed)?),
        (_, Owed::Keys(keys)) => {
            let mut steps = Steps::new();
            write!(out, "{word}:")?;
            push_names(out, &manifest.index().affected(keys, &mut steps)?)?;
            writeln!(out, " by {}", steps.count())
        }
        (_, Owed::All) => Err(bad()),
    }
}

/// Tells what a step of a word comes to that asks the links of this model file.
pub fn tell(out: &mut Vec<u8>, model: &[u8], word: &str, text: &str) -> io::Result<()> {
    let alloc = *out.allocator();
    let (_, manifest) = manifest_of(alloc, model)?;
    match word {
        "near" => list(out, word, manifest.nearest(&key_of(alloc, text)?)),
        "below" => list_keys(
            out,
            "below:",
            &manifest.listed_below(&key_of(alloc, text)?)?,
        ),
        _ => affects(out, &manifest, word, &owed_of(alloc, text)?),
    }
}
