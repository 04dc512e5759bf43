//! Child programs: those that are run for their effect, and those that are asked for their output.
ghost use Rattle.std.specs.Prelude.{◌≡◌, ◌+◌, ◌<◌, ◌≤◌, List, ℕ, Option, None, length, IfOk};
ghost use Rattle.outside.specs.Spawner.{Run, Question, Runs, Asks, texts};
ghost use Rattle.outside.specs.Told.{Moves};
ghost use Rattle.outside.specs.Faults.{HasCause, HasCauseOf};

use crate::Failed;
use std::alloc::Global;

/// What a program that was asked has answered.
#[derive(Debug, Drop)]
pub struct Answer {
    /// Its exit status, 0 to 255, or 256 where it was killed.
    pub status: u16,
    /// What it wrote to its standard output.
    pub output: Vec<u8>,
}

/// Why a program could not be asked.
#[derive(Clone, Copy, Debug, PartialEq, Eq)]
pub enum AskErr {
    /// The program could not be run: the count of faults rose.
    Failed,
    /// Out of memory.
    Memory,
}

/// Runs child programs. It fails only where its count of faults rises.
pub trait Spawner {
    /// How often it has failed. The count begins at 0, never falls, and stays at the greatest `u64`.
    ghost faults: { Self → ℕ };

    /// The programs that were run, the first one first, where it tells them.
    ghost runs: { Self → Option (List Run) };

    /// The programs that were asked, the first one first, where it tells them.
    ghost asked: { Self → Option (List Question) } = { λ _. None };

    /// Runs the program of the first word with the other words as its arguments, and answers its exit status,
    /// 0 to 255, or 256 where it was killed.
    ///
    /// `Failed` where the program could not be run; it is then no run.
    fn run(&mut self, words: &[String]) -> Result<u16, Failed>
        requires { 0 < length words.now }
        ensures ran { Moves (runs self.old) (runs self.new) (Runs (texts words.now) result) }
        ensures asked { asked self.new ≡ asked self.old }
        ensures status { IfOk result (λ status. status ≤ 256) }
        ensures cause { HasCause (faults self.old) (faults self.new) result };
}

/// Runs child programs and reads what they write.
pub trait Asker: Spawner {
    /// Runs the program of the first word with the other words as its arguments and this input, and answers its
    /// exit status, 0 to 255 or 256 where it was killed, and its output, cut after `most + 1` bytes.
    ///
    /// `Failed` where the program could not be run, `Memory` where it ran out of memory; nothing was then asked.
    fn ask(
        &mut self,
        alloc: Global,
        words: &[String],
        input: &[u8],
        most: usize,
    ) -> Result<Answer, AskErr>
        requires words { 0 < length words.now }
        requires most { most < usize.MAX }
        ensures asked { Moves (Self.asked self.old) (Self.asked self.new) (Asks (texts words.now) input.now result) }
        ensures ran { Self.runs self.new ≡ Self.runs self.old }
        ensures cut { IfOk result (λ answer. length answer.output.items ≤ most + 1) }
        ensures status { IfOk result (λ answer. answer.status ≤ 256) }
        ensures cause { HasCauseOf AskErr.Failed (Self.faults self.old) (Self.faults self.new) result };
}
