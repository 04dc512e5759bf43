//! What a file of rows is about: a driver of one layer.
use crate::words::{bad, text_of};
use std::alloc::Global;
use std::io;

/// What a step is given.
#[derive(Clone, Copy)]
pub struct Given<'a> {
    /// Its word.
    pub word: &'a str,
    /// What is after its word, on its line.
    pub text: &'a [u8],
    /// What the lines below it give; none where there are no such lines.
    pub lines: Option<&'a [u8]>,
}

impl<'a> Given<'a> {
    /// The lines below the step, or else what is after its word.
    pub fn input(&self) -> &'a [u8] {
        self.lines.unwrap_or(self.text)
    }

    /// The same as a text. The only error is `bad()`, where it is none.
    pub fn input_text(&self) -> io::Result<&'a str> {
        text_of(self.input())
    }

    /// The lines below the step; nothing where there are none.
    pub fn below(&self) -> &'a [u8] {
        self.lines.unwrap_or(b"")
    }

    /// What is after its word, as a text. The only error is `bad()`, where it is none.
    pub fn words(&self) -> io::Result<&'a str> {
        text_of(self.text)
    }

    /// The same with at most so many bytes of its input.
    pub fn cut(self, count: usize) -> Given<'a> {
        let cut = self.input().get(..count).unwrap_or(self.input());
        match self.lines {
            Some(_) => Given {
                lines: Some(cut),
                ..self
            },
            None => Given { text: cut, ..self },
        }
    }
}

/// How a call of a device goes wrong in a turn of a loop.
#[derive(Clone, Copy)]
pub enum Fault {
    /// This call fails.
    Fail,
    /// Each call after so many fails.
    Stop,
}

/// A driver: what rows of its words come to. One without devices has `new` and `make` alone, and can loop by `each cut`.
pub trait Subject: Drop {
    /// The driver at the start of a file.
    fn new(alloc: Global) -> io::Result<Self>;

    /// Begins a further file: nothing of an earlier one is left, but what words of the driver have kept by name.
    fn begin(&mut self, alloc: Global) -> io::Result<()> {
        *self = Self::new(alloc)?;
        Ok(())
    }

    /// Tells what the step comes to, as bytes. `bad()` where the word is none of the driver's, or what it is given makes no step: the row fails.
    fn make(&mut self, out: &mut Vec<u8>, given: Given<'_>) -> io::Result<()>;

    /// Keeps a copy of the state on top of those that are kept.
    fn save(&mut self, _alloc: Global) -> io::Result<()> {
        Ok(())
    }

    /// Goes back to the state that was kept last, which stays kept.
    fn restore(&mut self, _alloc: Global) -> io::Result<()> {
        Ok(())
    }

    /// Lets the state go that was kept last.
    fn forget(&mut self) {}

    /// Lets a call of the device go wrong in the next step. `bad()` where there is no such device.
    fn arm(&mut self, _device: &str, _fault: Fault, _number: u64) -> io::Result<()> {
        Err(bad())
    }

    /// Leaves what a crash of this kind leaves of the disk. `bad()` where there is no such kind.
    fn crash(&mut self, _alloc: Global, _kind: &str) -> io::Result<()> {
        Err(bad())
    }

    /// How many calls of the device there were since the state was restored.
    fn calls(&self, _device: &str) -> u64 {
        0
    }
}
