//! Plans that come true: what a server told before a change, next to the replies after it, the programs that were run and the files. The
//! machine has no part in this.
use crate::found::bytes_on;
use crate::run::Seen;
use crate::trouble::{Trouble, differs, same};
use disk_memory::MemoryDisk;
use json_trees::{flatten, json_of};
use key_names::{Key, Text};
use plain_machine::PlainImage;
use serde_json::Value;
use std::alloc::{AllocError, Global};
use std::collections::BTreeSet;
use storm_steps::{FILES, LOOKS, Step};

/// A run whose last requests are a plan and what it plans.
#[derive(Clone, Copy)]
pub struct Planned<'a> {
    /// What was run.
    pub step: &'a Step,
    /// What was seen.
    pub seen: &'a Seen,
    /// The disk before it.
    pub before: &'a MemoryDisk,
    /// The disk after it.
    pub after: &'a MemoryDisk,
}

// The places of replies among those to the last requests: the first of the files, and the last look at the job.
const SETTINGS: usize = 0;

const PLAN: usize = 1;

const FILE: usize = 2;

const CHANGE: usize = 5;

const CHANGED: usize = 6;

const JOB: usize = 6 + LOOKS;

// The reply at the place, as a text.
fn reply(seen: &Seen, place: usize) -> &str {
    let first = seen.replies.len().saturating_sub(JOB + 1);
    match seen.replies.get(first.saturating_add(place)) {
        Some(bytes) => str::from_utf8(bytes).unwrap_or(""),
        None => "",
    }
}

// Whether the reply at the place is of success.
fn is_fine(seen: &Seen, place: usize) -> bool {
    reply(seen, place).starts_with("HTTP/1.1 2")
}

// The body of the reply at the place.
fn body(seen: &Seen, place: usize) -> &str {
    match reply(seen, place).split_once("\r\n\r\n") {
        Some((_, body)) => body,
        None => "",
    }
}

// A list of the plan.
fn rows<'a>(plan: &'a Value, name: &str) -> &'a [Value] {
    match plan.get(name).and_then(Value::as_array) {
        Some(rows) => rows.as_slice(),
        None => &[],
    }
}

// The text at this place of a row.
fn word(row: &Value, place: usize) -> &str {
    row.get(place).and_then(Value::as_str).unwrap_or("")
}

// The first file whose template refuses.
fn refusing(plan: &Value) -> Option<&str> {
    rows(plan, "refused").first().map(|row| word(row, 0))
}

// Whether the job ends before it writes the file, as the template of this one or of one before it refuses.
fn is_left(plan: &Value, name: &str) -> bool {
    let mut ended = false;
    for row in rows(plan, "files") {
        ended = ended || refusing(plan) == Some(word(row, 0));
        if word(row, 0) == name {
            return ended;
        }
    }
    false
}

// Adds the keys of the settings that the others lack.
fn add_others(
    keys: &mut BTreeSet<Text>,
    settings: &[(Text, Text)],
    others: &[(Text, Text)],
) -> Result<(), AllocError> {
    for pair in settings {
        if !others.contains(pair) {
            keys.insert(pair.0.copy()?)?;
        }
    }
    Ok(())
}

// The settings of a tree: each key with its value.
fn settings(alloc: Global, tree: &str) -> Result<Vec<(Text, Text)>, Trouble> {
    let under = Key::of_segment(alloc, b"settings").ok();
    let Ok(pairs) = flatten(alloc, under.as_ref(), tree.as_bytes()) else {
        return Err(differs(alloc, "the settings are no tree"));
    };
    let mut all = Vec::new(alloc);
    for (key, value) in &pairs {
        all.push((key.print()?, value.print(alloc)?))?;
    }
    Ok(all)
}

// The keys, a line each.
fn lines_of(alloc: Global, keys: &BTreeSet<Text>) -> Result<String, AllocError> {
    let mut lines = String::new(alloc);
    for key in keys.iter() {
        writeln!(lines, "{}", key.as_str())?;
    }
    Ok(lines)
}

// The keys whose values differ after the change.
fn changed_keys(alloc: Global, seen: &Seen) -> Result<String, Trouble> {
    let before = settings(alloc, body(seen, SETTINGS))?;
    let after = settings(alloc, body(seen, CHANGED))?;
    let mut keys = BTreeSet::new(alloc);
    add_others(&mut keys, &before, &after)?;
    add_others(&mut keys, &after, &before)?;
    Ok(lines_of(alloc, &keys)?)
}

// The keys that are to be changed.
fn planned_keys(alloc: Global, plan: &Value) -> Result<String, AllocError> {
    let mut keys = BTreeSet::new(alloc);
    for key in rows(plan, "changed") {
        keys.insert(Text::from_str(alloc, key.as_str().unwrap_or(""))?)?;
    }
    lines_of(alloc, &keys)
}

// Adds the words of a command, and the status 0.
fn add_command(lines: &mut String, command: &Value) -> Result<(), AllocError> {
    let count = command.as_array().map_or(0, |words| words.len());
    for place in 1..count {
        write!(lines, "{} ", word(command, place))?;
    }
    writeln!(lines, "0")
}

// The programs that are to be run, as `spawned_lines` prints them.
fn planned_programs(alloc: Global, plan: &Value) -> Result<String, AllocError> {
    let mut lines = String::new(alloc);
    if refusing(plan).is_none() {
        for command in rows(plan, "commands") {
            add_command(&mut lines, command)?;
        }
    }
    Ok(lines)
}

// The job that is to be told at the end.
fn planned_job(alloc: Global, plan: &Value) -> Result<String, AllocError> {
    let (Some(file), Some(owed)) = (refusing(plan), plan.get("owed")) else {
        return String::from_str(alloc, "{\"job\":\"idle\",\"owed\":[]}");
    };
    let owed = owed.to_string(alloc)?;
    let owed = owed.as_str();
    format!(in alloc; "{{\"cause\":\"render {file}\",\"job\":\"failed\",\"owed\":{owed}}}")
}

// What is shown has to be what is wanted.
fn same_text(alloc: Global, shown: &str, wanted: &str, at: &str) -> Result<(), Trouble> {
    same(alloc, shown.as_bytes(), wanted.as_bytes(), at)
}

// The bytes of the file on the disk.
fn file_on<'a>(disk: &'a MemoryDisk, image: &PlainImage, name: &str) -> &'a [u8] {
    bytes_on(disk, image, name).unwrap_or(b"no file")
}

// Each file has to be what was answered for it, or what it was, where the job ends before it.
fn check_files(
    alloc: Global,
    image: &PlainImage,
    planned: &Planned,
    plan: &Value,
) -> Result<(), Trouble> {
    for (index, name) in FILES.iter().enumerate() {
        let wanted = if is_left(plan, name) {
            file_on(planned.before, image, name)
        } else {
            body(planned.seen, FILE.saturating_add(index)).as_bytes()
        };
        let shown = file_on(planned.after, image, name);
        same(alloc, shown, wanted, "a planned file")?;
    }
    Ok(())
}

// The plan has to have come true.
fn check_come(
    alloc: Global,
    image: &PlainImage,
    planned: &Planned,
    plan: &Value,
) -> Result<(), Trouble> {
    let seen = planned.seen;
    let (keys, wanted) = (changed_keys(alloc, seen)?, planned_keys(alloc, plan)?);
    same_text(alloc, keys.as_str(), wanted.as_str(), "planned keys")?;
    let wanted = planned_programs(alloc, plan)?;
    let programs = seen.programs.as_str();
    same_text(alloc, programs, wanted.as_str(), "planned programs")?;
    let wanted = planned_job(alloc, plan)?;
    same_text(alloc, body(seen, JOB), wanted.as_str(), "a planned job")?;
    check_files(alloc, image, planned, plan)
}

// Nothing may have come of a change that was refused.
fn check_nothing(alloc: Global, image: &PlainImage, planned: &Planned) -> Result<(), Trouble> {
    let seen = planned.seen;
    let (before, after) = (body(seen, SETTINGS), body(seen, CHANGED));
    same_text(alloc, after, before, "refused settings")?;
    same_text(alloc, seen.programs.as_str(), "", "refused programs")?;
    for name in FILES {
        let wanted = file_on(planned.before, image, name);
        let shown = file_on(planned.after, image, name);
        same(alloc, shown, wanted, "a refused file")?;
    }
    Ok(())
}

// A change is refused in the words in which its plan was, or for a template of which the plan says so.
fn check_refused(
    alloc: Global,
    image: &PlainImage,
    planned: &Planned,
    plan: &Value,
) -> Result<(), Trouble> {
    let seen = planned.seen;
    if !is_fine(seen, PLAN) {
        let (shown, wanted) = (reply(seen, CHANGE), reply(seen, PLAN));
        same_text(alloc, shown, wanted, "a refused change")?;
    } else if refusing(plan).is_none() {
        return Err(differs(alloc, "a planned change is refused"));
    }
    check_nothing(alloc, image, planned)
}

/// What was planned has to have come, unless a call of the disk failed or a program may have. It answers whether something was planned.
pub fn check_planned(
    alloc: Global,
    image: &PlainImage,
    planned: &Planned,
) -> Result<bool, Trouble> {
    let (step, seen) = (planned.step, planned.seen);
    if !step.is_planned || seen.struck || !step.statuses.is_empty() {
        return Ok(false);
    }
    let Some(plan) = json_of(alloc, body(seen, PLAN).as_bytes())? else {
        return Err(differs(alloc, "a plan is no JSON"));
    };
    if is_fine(seen, CHANGE) {
        check_come(alloc, image, planned, &plan)?;
    } else {
        check_refused(alloc, image, planned, &plan)?;
    }
    Ok(true)
}
