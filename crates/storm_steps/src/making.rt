//! Random steps.
use crate::dice::Dice;
use crate::planning::planned;
use crate::requests::{clients, random_change, random_keys};
use crate::step::{Fault, Order, Sent, Serving, Step};
use std::alloc::{AllocError, Global};

const VERSIONS: &[&str] = &["1.5.2", "1.5.3", "1.6.0"];

// So many times of a hundred one of so many numbers, from the least on.
fn number(dice: &mut Dice, percent: u64, count: u32, least: u32) -> Option<u32> {
    if !dice.chance(percent) {
        return None;
    }
    let number = dice.below(u64::from(count).max(1)) as u32;
    Some(number.saturating_add(least))
}

fn serving(dice: &mut Dice) -> Serving {
    Serving {
        boot: dice.chance(20),
        slice: number(dice, 60, 4, 1),
        connections: number(dice, 15, 9, 0),
        while_idle: dice.chance(40),
        quiet: dice.chance(10),
        away: dice.below(4) as u32,
    }
}

// Adds the word of a number that is given, and the number.
fn add_number(
    alloc: Global,
    line: &mut String,
    word: &str,
    number: Option<u32>,
) -> Result<(), AllocError> {
    match number {
        Some(number) => line.push_str(format!(in alloc; " {word} {number}")?.as_str()),
        None => Ok(()),
    }
}

fn serve_line(alloc: Global, serving: &Serving) -> Result<String, AllocError> {
    let mut line = String::from_str(alloc, "serve")?;
    if serving.boot {
        line.push_str(" --boot")?;
    }
    add_number(alloc, &mut line, "--slice", serving.slice)?;
    add_number(alloc, &mut line, "--connections", serving.connections)?;
    if serving.while_idle {
        line.push_str(" --while-idle")?;
    }
    if serving.quiet {
        line.push_str(" --quiet")?;
    }
    Ok(line)
}

fn serve(alloc: Global, dice: &mut Dice) -> Result<Step, AllocError> {
    let serving = serving(dice);
    let line = serve_line(alloc, &serving)?;
    let sent = clients(alloc, dice)?;
    let mut step = Step::calm(alloc, Order::Serve(serving), line.as_str(), sent)?;
    if dice.chance(5) {
        step.accept_fails = Some(dice.below(6).saturating_add(1));
    }
    Ok(step)
}

// A run that begins no job but the planned one, and in which no accept fails.
fn serve_planned(alloc: Global, dice: &mut Dice) -> Result<Step, AllocError> {
    let mut serving = serving(dice);
    serving.boot = false;
    serving.connections = None;
    let line = serve_line(alloc, &serving)?;
    let sent = planned(alloc, dice)?;
    let mut step = Step::calm(alloc, Order::Serve(serving), line.as_str(), sent)?;
    step.is_planned = true;
    Ok(step)
}

// The requests that the lines are.
fn asks(alloc: Global, lines: &[&str]) -> Result<Vec<Sent>, AllocError> {
    let mut all = Vec::new(alloc);
    for line in lines {
        all.push(Sent::whole(alloc, line)?)?;
    }
    Ok(all)
}

fn set(alloc: Global, dice: &mut Dice) -> Result<Step, AllocError> {
    let change = random_change(alloc, dice, false)?;
    let (words, body) = (change.words.as_str(), change.body.as_str());
    let line = format!(in alloc; "set{words}")?;
    let patch = format!(in alloc; "PATCH /settings?tx=cli-set {{{body}}}")?;
    let lines = [
        "DELETE /tx?tx=cli-set",
        patch.as_str(),
        "POST /tx/commit_and_apply?tx=cli-set",
    ];
    let sent = asks(alloc, &lines)?;
    Step::calm(alloc, Order::Set, line.as_str(), sent)
}

fn apply(alloc: Global, all: bool) -> Result<Step, AllocError> {
    let (line, asked) = if all {
        ("apply --all", "POST /tx/apply?all")
    } else {
        ("apply", "POST /tx/apply")
    };
    let sent = asks(alloc, &[asked])?;
    Step::calm(alloc, Order::Apply, line, sent)
}

// A step that asks for nothing.
fn plain(alloc: Global, order: Order, line: &str) -> Result<Step, AllocError> {
    Step::calm(alloc, order, line, Vec::new(alloc))
}

fn migrate(alloc: Global, dice: &mut Dice) -> Result<Step, AllocError> {
    let to = dice.pick(VERSIONS);
    let line = format!(in alloc; "migrate --to {to}")?;
    plain(alloc, Order::Migrate(to), line.as_str())
}

fn forget(alloc: Global, dice: &mut Dice) -> Result<Step, AllocError> {
    let keys = random_keys(alloc, dice)?;
    let line = format!(in alloc; "forget{keys}")?;
    plain(alloc, Order::Forget, line.as_str())
}

fn calm_step(alloc: Global, dice: &mut Dice) -> Result<Step, AllocError> {
    match dice.below(36) {
        0..=8 => serve(alloc, dice),
        9..=12 => serve_planned(alloc, dice),
        13..=15 => set(alloc, dice),
        16 | 17 => apply(alloc, dice.chance(30)),
        18 => plain(alloc, Order::Get, "get"),
        19 => plain(alloc, Order::Check, "check"),
        20 => plain(alloc, Order::Prune, "prune"),
        21 => Step::begin(alloc),
        22 => Step::verify(alloc),
        23..=27 => forget(alloc, dice),
        28 => Step::dump(alloc),
        29..=33 => Step::restore(alloc),
        _ => migrate(alloc, dice),
    }
}

// The statuses of the first few programs: mostly 0.
fn statuses(alloc: Global, dice: &mut Dice) -> Result<Vec<Option<u16>>, AllocError> {
    let mut all = Vec::new(alloc);
    for _ in 0..dice.below(8) {
        all.push(match dice.below(12) {
            0 => None,
            1 => Some(3),
            2 => Some(256),
            _ => Some(0),
        })?;
    }
    Ok(all)
}

fn fault(dice: &mut Dice) -> Fault {
    let behind = dice.below(90);
    match dice.below(10) {
        0..=5 => Fault::Never,
        6 | 7 => Fault::Once(behind),
        _ => Fault::Ever(behind),
    }
}

/// A random step.
pub fn step_of(alloc: Global, dice: &mut Dice) -> Result<Step, AllocError> {
    let mut step = calm_step(alloc, dice)?;
    if dice.chance(40) {
        step.statuses = statuses(alloc, dice)?;
    }
    step.fault = fault(dice);
    step.crash = step.fault.is_lasting() || dice.chance(25);
    Ok(step)
}
