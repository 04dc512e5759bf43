//! What a step came to, next to what it is to come to.
ghost use Rattle.std.specs.Prelude.{◌≡◌, IsTrue, false};

use crate::conditions::Turn;
use crate::loops::Loop;
use crate::reading::Step;
use crate::telling::lines_of;
use std::io;

/// What is done with the rows of a file.
#[derive(Clone, Copy)]
pub enum Mode {
    /// They are to hold.
    Right,
    /// None of them is to hold.
    Wrong,
    /// They are to hold, and each is printed with what it comes to.
    Shown,
}

/// A file that is gone through: its name, what is done with its rows, how often rows held and did not, its steps, and the loops around the next one.
#[derive(Drop)]
pub struct Run<'a> {
    /// The runtime.
    pub rt: &'a HostRuntime,
    /// The file.
    pub file: &'a str,
    /// What is done with its rows.
    pub mode: Mode,
    /// How often rows held.
    pub held: u64,
    /// How often they did not.
    pub failed: u64,
    /// The steps.
    pub steps: &'a [Step],
    /// The loop around the next step, and the one within it.
    pub loops: Vec<Loop<'a>>,
}

// Whether these are the wanted bytes, or begin with them where more may follow.
fn agrees(shown: &[u8], wanted: &[u8], more: bool) -> bool
    ensures whole { more ≡ false → IsTrue result → shown.now ≡ wanted.now }
    ensures same { shown.now ≡ wanted.now → IsTrue result }
{
    shown == wanted || more && shown.starts_with(wanted)
}

impl<'a> Run<'a> {
    fn turn(&self, depth: usize) -> Turn<'a> {
        self.loops.get(depth).map_or(Turn::NONE, |it| it.turn)
    }

    /// Compares what the step came to with what it is to come to, counts it, and tells where they differ and are not to.
    pub fn judge(&mut self, step: &Step, shown: &[u8]) -> io::Result<()> {
        if matches!(self.mode, Mode::Shown) {
            self.show(step, shown)?;
        }
        let (wanted, open) = step.wanted_at(self.rt.alloc(), self.turn(0), self.turn(1))?;
        if !agrees(shown, &wanted, open) {
            return self.fail(step, &wanted, shown);
        }
        self.held = self.held.saturating_add(1);
        Ok(())
    }

    /// Counts a row that makes no step, with why.
    pub fn refuse(&mut self, step: &Step, why: &str) -> io::Result<()> {
        let (wanted, _) = step.wanted_at(self.rt.alloc(), self.turn(0), self.turn(1))?;
        self.fail(step, &wanted, why.as_bytes())
    }

    // Counts a row that does not hold, and tells what was wanted and what came, on standard error, whose end the gate shows.
    fn fail(&mut self, step: &Step, wanted: &[u8], shown: &[u8]) -> io::Result<()> {
        self.failed = self.failed.saturating_add(1);
        if matches!(self.mode, Mode::Wrong) {
            return Ok(());
        }
        let wanted = lines_of(self.rt.alloc(), "  ", wanted)?;
        let shown = lines_of(self.rt.alloc(), "  ", shown)?;
        let (file, line, word) = (self.file, step.line, &step.word);
        let Turn { number, kind } = self.turn(0);
        let (inner, within) = (self.turn(1).number, self.turn(1).kind);
        eprint!(self.rt;
            "{file}:{line}: {word} at {number} {kind}: {inner} {within}\nwanted\n{wanted}got\n{shown}"
        )
    }

    // Prints the step, what it is given, and what it came to.
    fn show(&self, step: &Step, shown: &[u8]) -> io::Result<()> {
        let alloc = self.rt.alloc();
        let text = String::from_utf8_lossy(alloc, &step.text)?;
        let lines = lines_of(alloc, "> ", step.given().below())?;
        let (word, shown) = (&step.word, lines_of(alloc, "  ", shown)?);
        print!(self.rt; "{word} {text}\n{lines}{shown}")
    }

    /// Whether the rows are as the file says: so many, and at least one, which all hold, or of which none does where each is wrong.
    pub fn is_well(&self, rows: u64) -> bool {
        let unwanted = match self.mode {
            Mode::Wrong => self.held,
            _ => self.failed,
        };
        rows > 0 && unwanted == 0 && self.held.saturating_add(self.failed) == rows
    }
}
