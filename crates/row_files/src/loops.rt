//! The words of loops.
//!
//! `each fail DEVICE A-B` makes the steps down to its `end` once for each number, from a copy of the same state: the call with this number of the first
//! step fails. `each stop DEVICE A-B KIND ..` makes no call after so many of the first step, after which a crash leaves each of these kinds. `each cut A-B`
//! cuts what the first step is given to so many bytes. The last number is that of the calls that the first step makes when none fails, or `of N` says it.
use crate::conditions::Turn;
use crate::reading::Step;
use crate::subject::Fault;
use crate::words::parts;

/// A loop in one of its turns.
#[derive(Clone, Copy)]
pub struct Loop<'a> {
    /// What goes wrong of the first step; `None` where it is cut.
    pub fault: Option<Fault>,
    /// The device whose call goes wrong.
    pub device: &'a str,
    /// How many calls the first step makes, or of how many bytes it is given.
    pub calls: u64,
    /// Its first step.
    pub first: &'a Step,
    /// The index of the step after it.
    pub next: usize,
    /// The turn.
    pub turn: Turn<'a>,
    // The last number.
    last: u64,
    // The kinds of crashes of each number, with spaces between, and those that follow for this one.
    kinds: &'a str,
    left: &'a str,
}

impl<'a> Loop<'a> {
    /// The loop of these words in its first turn, whose first step is the one of this index.
    pub fn read(words: &'a str, steps: &'a [Step], index: usize) -> Option<Loop<'a>> {
        let (word, rest) = parts(words);
        let (fault, device, rest) = match word {
            "cut" => (None, "", rest),
            "fail" => (Some(Fault::Fail), parts(rest).0, parts(rest).1),
            "stop" => (Some(Fault::Stop), parts(rest).0, parts(rest).1),
            _ => return None,
        };
        let (range, rest) = parts(rest);
        let (number, last) = range.split_once('-').unwrap_or((range, range));
        let (calls, kinds) = match rest.strip_prefix("of ") {
            Some(rest) => parts(rest),
            None => (last, rest),
        };
        let (kind, left) = parts(kinds);
        let number = number.parse::<u64>().ok()?;
        Some(Loop {
            fault,
            device,
            calls: calls.parse::<u64>().ok()?,
            first: steps.get(index)?,
            next: index.saturating_add(1),
            turn: Turn { number, kind },
            last: last.parse::<u64>().ok()?,
            kinds,
            left,
        })
    }

    /// The loop in its next turn: the next kind of crash, or else the next number.
    pub fn next_turn(self) -> Option<Loop<'a>> {
        let (number, kinds) = match (self.left, self.turn.number) {
            ("", number) if number >= self.last => return None,
            ("", number) => (number.saturating_add(1), self.kinds),
            (left, number) => (number, left),
        };
        let (kind, left) = parts(kinds);
        let turn = Turn { number, kind };
        Some(Loop { turn, left, ..self })
    }
}
