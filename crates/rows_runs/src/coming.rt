//! What comes to the next run besides its words and its requests.
use disk_memory::MemorySpawner;
use outside::Answer;
use row_files::{Given, bad, number_of, parts};
use std::alloc::Global;
use std::{io, mem};

/// How its programs end and answer, and which calls of its devices fail besides those of the disk.
#[derive(Clone, Drop)]
pub struct Coming {
    // The exit statuses of programs that are run, and 0 after them. One without a status can't be run.
    ends: Vec<Option<u16>>,
    // The exit statuses and the outputs of programs that are asked, and 0 and nothing after them. One without a status can't be asked.
    answers: Vec<Option<(u16, Vec<u8>)>>,
    /// The connection whose first read fails, from 0.
    pub read: u64,
    /// The connection whose first write fails, from 0.
    pub write: u64,
    /// The accept that fails, from 1.
    pub accept: u64,
    /// How many looks before each accept find no client.
    pub absent: u64,
    /// The byte of the output from which on it fails.
    pub output: u64,
    /// The same of the log.
    pub log: u64,
}

impl Coming {
    /// Nothing comes, and nothing fails.
    pub fn nothing(alloc: Global) -> Coming {
        Coming {
            ends: Vec::new(alloc),
            answers: Vec::new(alloc),
            read: u64::MAX,
            write: u64::MAX,
            accept: u64::MAX,
            absent: 0,
            output: u64::MAX,
            log: u64::MAX,
        }
    }

    /// Lets a call of a device fail, by its name and a number.
    pub fn fail(&mut self, text: &str) -> io::Result<()> {
        let (device, number) = parts(text);
        let number = number_of(number)?;
        match device {
            "accept" => self.accept = number,
            "read" => self.read = number,
            "write" => self.write = number,
            "output" => self.output = number,
            "log" => self.log = number,
            _ => return Err(bad()),
        }
        Ok(())
    }

    /// Adds what a program does. One that is run does not come with one that is asked.
    pub fn program(&mut self, alloc: Global, given: Given<'_>) -> io::Result<()> {
        match parts(given.words()?) {
            ("fails", "") => self.ends.push(None)?,
            ("ends", status) => self.ends.push(Some(number_of(status)?))?,
            ("is", "missing") => self.answers.push(None)?,
            ("answers", status) => {
                let output = given.below().to_vec(alloc)?;
                self.answers.push(Some((number_of(status)?, output)))?;
            }
            _ => return Err(bad()),
        }
        if self.ends.is_empty() || self.answers.is_empty() {
            return Ok(());
        }
        Err(bad())
    }

    /// The programs, after which none comes.
    pub fn spawner(&mut self, alloc: Global) -> io::Result<MemorySpawner> {
        let ends = mem::replace(&mut self.ends, Vec::new(alloc));
        if self.answers.is_empty() {
            return Ok(MemorySpawner::of_statuses(alloc, ends));
        }
        let mut answers = Vec::new(alloc);
        for answer in mem::replace(&mut self.answers, Vec::new(alloc)) {
            answers.push(answer.map(|(status, output)| Answer { status, output }))?;
        }
        Ok(MemorySpawner::of_answers(alloc, answers))
    }
}
