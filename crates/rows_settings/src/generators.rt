//! User data and generators, and what their commands give over child programs in memory.
use crate::lines::{fault, pairs};
use disk_memory::{MemorySpawner, Question};
use json_trees::Scalar;
use key_names::{Key, Text};
use outside::Answer;
use row_files::{good, key_of, line, number_of, parts};
use setting_generators::{GenerateError, Generators};
use settings_tree::Content;
use std::alloc::Global;
use std::io::{self, Write};
use std::mem;
use typed_settings::Types;

/// The text of the generators that are asked, and how programs answer.
#[derive(Drop)]
pub struct Asking {
    /// The text of the generators.
    pub text: Vec<u8>,
    /// How the next programs answer, in order.
    pub answers: Vec<Option<Answer>>,
}

/// Tells the pairs of user data, or their first fault.
pub fn user_data(out: &mut Vec<u8>, text: &[u8]) -> io::Result<()> {
    match user_data::read(*out.allocator(), text) {
        Ok(read) => pairs(out, &read),
        Err(error) => fault(out, error.kind, &error.at),
    }
}

// Types by which any text may be at three keys.
fn types(alloc: Global) -> io::Result<Types> {
    let mut rows = Vec::new(alloc);
    for key in ["settings.a", "settings.b", "settings.c.d"] {
        rows.push((Text::from_str(alloc, key)?, Text::from_str(alloc, "text")?))?;
    }
    good(Types::of_rows(alloc, &rows))
}

// Tells the key, and the words of the command.
fn generator(out: &mut Vec<u8>, key: &Key, words: &[String]) -> io::Result<()> {
    write!(out, "{}:", key.print()?.as_str())?;
    for word in words {
        write!(out, " <{word}>")?;
    }
    line(out, &[])
}

// A content with a value at this key, or at none.
fn live(alloc: Global, key: &str) -> io::Result<Content> {
    let mut content = Content::new(alloc);
    if !key.is_empty() {
        let key = key_of(alloc, key)?;
        if content.fits(&key) {
            content.put(key, Scalar::Int(1))?;
        }
    }
    Ok(content)
}

// Tells what the programs gave, or which one gave nothing.
fn told(out: &mut Vec<u8>, given: Result<Vec<(Key, Scalar)>, GenerateError>) -> io::Result<()> {
    match given {
        Ok(given) => pairs(out, &given),
        Err(GenerateError::Failed { key }) => line(out, &[key.print()?.as_str(), "failed"]),
        Err(GenerateError::Status { key, number }) => {
            writeln!(out, "{} status {number}", key.print()?.as_str())
        }
        Err(GenerateError::BadOutput { key }) => line(out, &[key.print()?.as_str(), "output"]),
        Err(GenerateError::Memory) => line(out, &["memory"]),
    }
}

// Tells each program that was asked, and what it was given to read.
fn asked(out: &mut Vec<u8>, asked: &[Question]) -> io::Result<()> {
    for question in asked {
        let words = question.words.join(*out.allocator(), " ")?;
        write!(out, "? {words}")?;
        out.extend_from_slice(&question.input)?;
        out.push(b'\n')?;
    }
    Ok(())
}

impl Asking {
    /// Keeps the text of generators and tells them, or its first fault.
    pub fn read(&mut self, out: &mut Vec<u8>, text: &[u8]) -> io::Result<()> {
        let alloc = *out.allocator();
        self.text = text.to_vec(alloc)?;
        match Generators::read(alloc, text, &types(alloc)?) {
            Ok(generators) => {
                for one in generators.entries() {
                    generator(out, &one.key, &one.words)?;
                }
                Ok(())
            }
            Err(error) => fault(out, error.kind, &error.at),
        }
    }

    /// Keeps how the next program answers: its status and its output.
    pub fn answer(&mut self, alloc: Global, text: &str) -> io::Result<()> {
        let (status, output) = parts(text);
        let status = number_of::<u16>(status)?;
        let output = output.as_bytes().to_vec(alloc)?;
        Ok(self.answers.push(Some(Answer { status, output }))?)
    }

    /// Tells what the programs give where the key has a value, after whose answers the next one fails.
    pub fn ask(&mut self, out: &mut Vec<u8>, key: &str) -> io::Result<()> {
        let alloc = *out.allocator();
        let mut answers = mem::replace(&mut self.answers, Vec::new(alloc));
        answers.push(None)?;
        let mut spawner = MemorySpawner::of_answers(alloc, answers);
        let generators = good(Generators::read(alloc, &self.text, &types(alloc)?))?;
        let given = generators.ask_all(alloc, &live(alloc, key)?, &mut spawner);
        told(out, given)?;
        asked(out, spawner.asked())
    }
}
