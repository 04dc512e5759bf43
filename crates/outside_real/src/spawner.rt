//! The programs of the system, as child programs.
ghost use Rattle.std.specs.Prelude.{◌≡◌, ◌+◌, ◌<◌, ◌≤◌, None, length, IfOk};
ghost use Rattle.outside.specs.Faults.{HasCauseOf};

use crate::failure::On;
use crate::faults::Faults;
use crate::limits::check_size;
use crate::places::remove_file;
use crate::work::work_place;
use outside::{Answer, AskErr, Asker, Failed, Spawner};
use std::alloc::{AllocError, Global};
use std::fs;
use std::io::{self, ErrorKind, Read};
use std::process::{Child, Command, ExitStatus, Stdio};
use std::rt::{Files, Processes};

/// Runs the programs of the system: the words as they are, with no shell, and nothing to read on standard input.
///
/// What a program that is run writes to its standard output is let go, so that it doesn't come among this program's
/// lines. Each error of the system is a fault.
#[derive(Drop)]
pub struct RealSpawner<R: Files + Processes + AllocGlobal + Drop> {
    rt: R,
    root: String,
    faults: Faults,
}

// Its exit status, or 256 where it was killed.
fn status_of(status: ExitStatus) -> u16
    ensures { result ≤ 256 }
{
    match status.code() {
        Some(code) => u16::try_from(code).unwrap_or(256).min(256),
        None => 256,
    }
}

// The command of these words, with the file of its input as a last word, if there is one.
fn command_of(alloc: Global, words: &[String], input: Option<&str>) -> io::Result<Command> {
    let Some((program, others)) = words.split_first() else {
        return Err(io::Error::from(ErrorKind::InvalidInput));
    };
    let mut command = Command::new(alloc, program.as_str())?;
    for word in others {
        command.arg(word.as_str())?;
    }
    if let Some(place) = input {
        command.arg(place)?;
    }
    command.stdin(Stdio::null());
    Ok(command)
}

// Reads so many bytes as are wanted, or to the end where it comes first.
fn read_some(reader: &mut impl Read, kept: &mut Vec<u8>, wanted: usize) -> io::Result<()>
    requires { length kept.old.items ≤ wanted }
    ensures { length kept.new.items ≤ wanted }
{
    let mut buffer = [0u8; 4096];
    for _ in 0..u64::MAX {
        let room = buffer.len().min(wanted - kept.len());
        let count = reader.read(&mut buffer[..room])?;
        if count == 0 {
            break;
        }
        kept.extend_from_slice(&buffer[..count])?;
    }
    Ok(())
}

impl<R: Files + Processes + AllocGlobal + Drop> RealSpawner<R> {
    /// A spawner that puts what a program is given to read below `.work` in this folder; `.` is the working folder.
    /// Or out of memory.
    pub fn new(rt: R, root: &str) -> Result<RealSpawner<R>, AllocError> {
        let root = String::from_str(rt.alloc(), root)?;
        let faults = Faults::new(rt.alloc());
        Ok(RealSpawner { rt, root, faults })
    }

    /// What the last failure was, in a line for a person without a line feed; none where no call has failed. Or out of memory.
    pub fn last_failure(&self) -> Result<Option<String>, AllocError> {
        self.faults.print_last()
    }

    fn run_words(&self, words: &[String]) -> io::Result<u16>
        ensures { IfOk result (λ status. status ≤ 256) }
    {
        let mut command = command_of(self.rt.alloc(), words, None)?;
        command.stdout(Stdio::null());
        Ok(status_of(command.status(&self.rt)?))
    }

    // A file with the input, or None where it is empty.
    fn input_file(&self, input: &[u8]) -> io::Result<Option<String>> {
        if input.is_empty() {
            return Ok(None);
        }
        check_size(input.len())?;
        let place = work_place(&self.rt, self.root.as_str(), "input")?;
        remove_file(&self.rt, place.as_str())?;
        fs::write(&self.rt, place.as_str(), input)?;
        Ok(Some(place))
    }

    // Starts the program, with this file as a last word, if there is one. What it writes can be read.
    fn start(&self, words: &[String], place: Option<&str>) -> io::Result<Child<R::Started>> {
        let mut command = command_of(self.rt.alloc(), words, place)?;
        command.stdout(Stdio::piped());
        command.spawn(&self.rt)
    }

    // Reads what the program writes, so many bytes as are wanted, and waits for its end. One that has written so many is killed, so that none is waited
    // for that writes without end; it counts as ended with 0.
    fn read_child(&self, child: &mut Child<R::Started>, wanted: usize) -> io::Result<Answer>
        ensures status { IfOk result (λ answer. answer.status ≤ 256) }
        ensures output { IfOk result (λ answer. length answer.output.items ≤ wanted) }
    {
        let mut output = Vec::new(self.rt.alloc());
        let read = match child.stdout.take() {
            Some(mut stdout) => read_some(&mut stdout, &mut output, wanted),
            None => Ok(()),
        };
        if output.len() == wanted {
            child.kill()?;
            child.wait()?;
            return Ok(Answer { status: 0, output });
        }
        let status = status_of(child.wait()?);
        read?;
        Ok(Answer { status, output })
    }

    // Runs the program to its end, with this file as a last word, if there is one.
    fn read_words(&self, words: &[String], place: Option<&str>, wanted: usize) -> io::Result<Answer>
        ensures status { IfOk result (λ answer. answer.status ≤ 256) }
        ensures output { IfOk result (λ answer. length answer.output.items ≤ wanted) }
    {
        let mut child = self.start(words, place)?;
        self.read_child(&mut child, wanted)
    }

    // The same, with the input in a file that is taken away afterwards.
    fn ask_words(&self, words: &[String], input: &[u8], wanted: usize) -> io::Result<Answer>
        ensures status { IfOk result (λ answer. answer.status ≤ 256) }
        ensures output { IfOk result (λ answer. length answer.output.items ≤ wanted) }
    {
        match self.input_file(input)? {
            None => self.read_words(words, None, wanted),
            Some(place) => {
                let answer = self.read_words(words, Some(place.as_str()), wanted);
                remove_file(&self.rt, place.as_str())?;
                answer
            }
        }
    }
}

impl<R: Files + Processes + AllocGlobal + Drop> Spawner for RealSpawner<R> {
    ghost faults = { λ s. s.faults.count };

    ghost runs = { λ _. None };

    ghost asked = { λ _. None };

    fn run(&mut self, words: &[String]) -> Result<u16, Failed> {
        let answer = self.run_words(words);
        self.faults.counted("run", On::Program(words), answer)
    }
}

impl<R: Files + Processes + AllocGlobal + Drop> Asker for RealSpawner<R> {
    fn ask(
        &mut self,
        _alloc: Global,
        words: &[String],
        input: &[u8],
        most: usize,
    ) -> Result<Answer, AskErr> {
        match self.ask_words(words, input, most + 1) {
            Ok(answer) => Ok(answer),
            Err(e) if e.kind() == ErrorKind::OutOfMemory => Err(AskErr::Memory),
            Err(e) => {
                self.faults.raise("run", On::Program(words), e);
                Err(AskErr::Failed)
            }
        }
    }
}
