//! Files that are gone through, and what they come to. Steps are made one after another; those of a loop once for each turn.
use crate::judging::{Mode, Run};
use crate::loops::Loop;
use crate::reading::{Step, steps_of};
use crate::subject::Subject;
use std::io::{self, ErrorKind};
use std::process::ExitCode;
use std::{env, fs};

impl<'a> Run<'a> {
    // Whether the driver knows what it was asked for; else the row of the step fails.
    fn is_known(&mut self, step: &Step, answer: io::Result<()>) -> io::Result<bool> {
        match answer {
            Ok(()) => Ok(true),
            Err(error) if error.kind() == ErrorKind::InvalidInput => {
                self.refuse(step, "no such row\n")?;
                Ok(false)
            }
            Err(error) => Err(error),
        }
    }

    // Makes a step, with at most so many bytes of what it is given, and judges it.
    fn step<S: Subject>(&mut self, subject: &mut S, step: &Step, cut: usize) -> io::Result<()> {
        let mut shown = Vec::new(self.rt.alloc());
        let made = subject.make(&mut shown, step.given().cut(cut));
        if self.is_known(step, made)? {
            self.judge(step, &shown)?;
        }
        Ok(())
    }

    // Goes back to the state before the loop, and makes its first step in this turn. The index of the next one.
    fn begin_turn<S: Subject>(&mut self, subject: &mut S, of: Loop<'a>) -> io::Result<usize> {
        let alloc = self.rt.alloc();
        self.loops.push(of)?;
        subject.restore(alloc)?;
        let mut cut = usize::MAX;
        if let Some(fault) = of.fault {
            let armed = subject.arm(of.device, fault, of.turn.number);
            if !self.is_known(of.first, armed)? {
                return Ok(of.next);
            }
        } else {
            cut = usize::try_from(of.turn.number).unwrap_or(cut);
        }
        self.step(subject, of.first, cut)?;
        if !of.turn.kind.is_empty() {
            let crashed = subject.crash(alloc, of.turn.kind);
            self.is_known(of.first, crashed)?;
        }
        Ok(of.next)
    }

    // Begins the loop of the step, whose first step has this index; there is at most one within another.
    fn enter<S: Subject>(
        &mut self,
        subject: &mut S,
        index: usize,
        step: &'a Step,
    ) -> io::Result<usize> {
        let words = str::from_utf8(&step.text).unwrap_or("");
        match Loop::read(words, self.steps, index) {
            Some(of) if self.loops.len() < 2 => {
                subject.save(self.rt.alloc())?;
                self.begin_turn(subject, of)
            }
            _ => {
                self.refuse(step, "no such loop\n")?;
                Ok(index)
            }
        }
    }

    // Begins the next turn of the last loop, or ends it. The index of the next step, by default this one.
    fn end<S: Subject>(&mut self, subject: &mut S, index: usize, step: &Step) -> io::Result<usize> {
        match self.loops.pop() {
            Some(of) => match of.next_turn() {
                Some(of) => return self.begin_turn(subject, of),
                None => self.leave(subject, of)?,
            },
            None => self.refuse(step, "no such loop\n")?,
        }
        Ok(index)
    }

    // Ends a loop: its last number was that of the calls which its first step makes where none fails, or of the bytes that it is given, and the state is again
    // that before it.
    fn leave<S: Subject>(&mut self, subject: &mut S, of: Loop<'a>) -> io::Result<()> {
        let (alloc, given) = (self.rt.alloc(), of.first.given());
        subject.restore(alloc)?;
        let mut calls = u64::try_from(given.input().len()).unwrap_or(u64::MAX);
        if of.fault.is_some() {
            // what it comes to was judged in each turn
            let _ = subject.make(&mut Vec::new(alloc), given);
            calls = subject.calls(of.device);
        }
        if calls != of.calls {
            let why = format!(in alloc; "the loop goes to {calls}\n")?;
            self.refuse(of.first, why.as_str())?;
        }
        subject.restore(alloc)?;
        subject.forget();
        Ok(())
    }

    // Makes all steps. A loop without an end is refused.
    fn go<S: Subject>(&mut self, subject: &mut S) -> io::Result<()> {
        let mut index = 0usize;
        for _ in 0..u64::MAX {
            let Some(step) = self.steps.get(index) else {
                break;
            };
            let next = index.saturating_add(1);
            index = match step.word.as_str() {
                "each" => self.enter(subject, next, step)?,
                "end" => self.end(subject, next, step)?,
                _ => {
                    self.step(subject, step, usize::MAX)?;
                    next
                }
            };
        }
        match self.loops.pop() {
            Some(of) => self.refuse(of.first, "no end\n"),
            None => Ok(()),
        }
    }
}

// Goes through a file. Whether its rows are as it says.
fn goes<S: Subject>(rt: &HostRuntime, file: &str, mode: Mode, subject: &mut S) -> io::Result<bool> {
    let text = fs::read_to_string(rt, file)?;
    let (steps, rows) = steps_of(rt.alloc(), text.as_str())?;
    let mut run = Run {
        rt,
        file,
        mode,
        held: 0,
        failed: 0,
        steps: &steps,
        loops: Vec::new(rt.alloc()),
    };
    subject.begin(rt.alloc())?;
    run.go(subject)?;
    let (held, failed, is_well) = (run.held, run.failed, run.is_well(rows));
    if is_well {
        println!(rt; "{file}")?;
    } else {
        eprint!(rt; "{file}: {held} held, {failed} failed, and its last line says rows {rows}\n")?;
    }
    Ok(is_well)
}

/// Goes through the files that the words of the program name, and prints the name of each whose rows are as it says. In a file after the word `--wrong`
/// no row is to hold; in one after `--show` each row is printed with what it comes to. The exit status is 1 where one is not as it says, and where no file is
/// named.
pub fn all_go<S: Subject>(rt: &HostRuntime) -> io::Result<ExitCode> {
    let mut subject = S::new(rt.alloc())?;
    let (mut mode, mut files, mut well) = (Mode::Right, 0u64, 0u64);
    for word in env::args(rt)?.skip(1) {
        match word.as_str() {
            "--wrong" => mode = Mode::Wrong,
            "--show" => mode = Mode::Shown,
            file => {
                files = files.saturating_add(1);
                well = well.saturating_add(u64::from(goes(rt, file, mode, &mut subject)?));
            }
        }
    }
    Ok(if files > 0 && well == files {
        ExitCode::SUCCESS
    } else {
        ExitCode::FAILURE
    })
}
