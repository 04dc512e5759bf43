//! The lines that a server logs of the machine's events, from what the machine was before an event and what it is after it.
use crate::log_words::{subject, target};
use json_trees::Scalar;
use key_names::{Key, Text};
use machine_answers::{render_path, render_word};
use machine_replies::{Host, Told};
use plain_machine::PlainMachine;
use settings_machine::{Cause, Job, Request, Work};
use settings_tree::{Content, Owed};
use std::alloc::{AllocError, Global};
use std::collections::BTreeSet;

// Whether the byte stands in a value without quotes.
fn is_plain(byte: u8) -> bool {
    byte.is_ascii_alphanumeric() || matches!(byte, b'_' | b'-' | b'.' | b'/' | b':')
}

// Adds a space, the name and its value, which is in quotes where it is empty or has other bytes than plain ones.
pub(crate) fn add_pair(line: &mut String, name: &str, value: &str) -> Result<(), AllocError> {
    write!(line, " {name}=")?;
    if !value.is_empty() && value.as_bytes().iter().all(|byte| is_plain(*byte)) {
        return line.push_str(value);
    }
    let alloc = *line.allocator();
    let text = Scalar::Text(Text::from_str(alloc, value)?).print(alloc)?;
    line.push_str(text.as_str())
}

fn add_number(line: &mut String, name: &str, number: usize) -> Result<(), AllocError> {
    write!(line, " {name}={number}")
}

// Adds a key to a list.
fn add_key(list: &mut String, key: &Key) -> Result<(), AllocError> {
    if !list.is_empty() {
        list.push(',')?;
    }
    list.push_str(key.print()?.as_str())
}

/// The store was opened.
pub fn opened(log: &mut String, machine: &PlainMachine) -> Result<(), AllocError> {
    let version = machine.version;
    write!(log, "opened version={version}")?;
    let mut owed = String::new(*log.allocator());
    match &machine.held.owed {
        Owed::All => owed.push_str("all")?,
        Owed::Keys(keys) => {
            for key in keys.as_slice() {
                add_key(&mut owed, key)?;
            }
        }
    }
    add_pair(log, "owed", owed.as_str())?;
    log.push('\n')
}

/// A request was refused in reading, by this status and for this word.
pub fn refused(log: &mut String, status: u16, word: &str) -> Result<(), AllocError> {
    writeln!(log, "refused status={status} error={word}")
}

fn began(log: &mut String, work: &Work) -> Result<(), AllocError> {
    log.push_str("job-began")?;
    add_number(log, "files", work.files.len())?;
    add_number(log, "commands", work.commands.len())?;
    log.push('\n')
}

fn failed(log: &mut String, cause: &Cause) -> Result<(), AllocError> {
    let alloc = *log.allocator();
    let text = match cause {
        Cause::Disk => String::from_str(alloc, "disk")?,
        Cause::Memory => String::from_str(alloc, "memory")?,
        Cause::Spawn { service } => format!(in alloc; "spawn {}", service.as_str())?,
        Cause::Status { service, number } => {
            format!(in alloc; "status {} {number}", service.as_str())?
        }
        Cause::Render { file, error } => {
            let (file, word, path) = (file.as_str(), render_word(error), render_path(error));
            format!(in alloc; "render {file} {word} {path}")?
        }
    };
    log.push_str("job-failed")?;
    add_pair(log, "cause", text.as_str())?;
    log.push('\n')
}

/// What a machine was before a request.
#[derive(Drop)]
pub struct Before {
    running: bool,
    // What was live, where the request may change that.
    live: Option<Content>,
}

// Whether the request may change live settings.
fn may_change(request: &Request) -> bool {
    matches!(
        request,
        Request::Commit { .. } | Request::CommitAndApply { .. } | Request::Set { .. }
    )
}

fn is_running(machine: &PlainMachine) -> bool {
    matches!(&machine.job, Job::Running(_))
}

impl Before {
    /// What the machine is before the request.
    pub fn of(machine: &PlainMachine, request: &Request) -> Result<Before, AllocError> {
        let live = if may_change(request) {
            Some(machine.held.live.copy()?)
        } else {
            None
        };
        Ok(Before {
            running: is_running(machine),
            live,
        })
    }
}

// Adds the keys of what is in the first content and not, or otherwise, in the second.
fn add_others(
    alloc: Global,
    keys: &mut BTreeSet<Key>,
    first: &Content,
    second: &Content,
) -> Result<(), AllocError> {
    let Ok(settings) = Key::of_segment(alloc, b"settings") else {
        return Err(AllocError);
    };
    for (key, value) in first.below(&settings)? {
        if second.value(&key) != Some(&value) {
            keys.insert(key)?;
        }
    }
    Ok(())
}

// The keys whose values differ.
fn changed(alloc: Global, before: &Content, after: &Content) -> Result<String, AllocError> {
    let mut keys = BTreeSet::new(alloc);
    add_others(alloc, &mut keys, before, after)?;
    add_others(alloc, &mut keys, after, before)?;
    let mut list = String::new(alloc);
    for key in keys.iter() {
        add_key(&mut list, key)?;
    }
    Ok(list)
}

// Adds what a request did that was answered with success: the keys that it made pending, or those of live settings that it changed.
fn add_deeds(
    log: &mut String,
    request: &Request,
    before: &Before,
    machine: &PlainMachine,
) -> Result<(), AllocError> {
    let alloc = *log.allocator();
    if let Request::Patch { pairs, .. } = request {
        let mut list = String::new(alloc);
        for (key, _) in pairs {
            add_key(&mut list, key)?;
        }
        return add_pair(log, "keys", list.as_str());
    }
    match &before.live {
        Some(live) => {
            let list = changed(alloc, live, &machine.held.live)?;
            add_pair(log, "changed", list.as_str())
        }
        None => Ok(()),
    }
}

// The status of the reply; None represents a disk that failed.
fn status_of(told: &Option<Told>) -> u16 {
    match told {
        None => 500,
        Some(Told::Refused(refusal)) => refusal.status(),
        Some(Told::Empty) => 204,
        Some(_) => 200,
    }
}

// Adds what became of the job by a request.
fn add_job(log: &mut String, was_running: bool, job: &Job) -> Result<(), AllocError> {
    match (was_running, job) {
        (false, Job::Running(work)) => began(log, work),
        (true, Job::Failed(cause)) => failed(log, cause),
        (true, Job::Idle) => log.push_str("job-ended\n"),
        _ => Ok(()),
    }
}

/// A request came to this; None represents a disk that failed.
pub fn asked(
    log: &mut String,
    request: &Request,
    told: &Option<Told>,
    before: &Before,
    machine: &PlainMachine,
) -> Result<(), AllocError> {
    let (method, path) = target(request);
    write!(log, "request method={method} path={path}")?;
    subject(log, request)?;
    let status = status_of(told);
    write!(log, " status={status}")?;
    if status < 300 {
        add_deeds(log, request, before, machine)?;
    }
    log.push('\n')?;
    add_job(log, before.running, &machine.job)
}

/// What a turn is to do.
#[derive(Drop)]
pub enum Doing {
    /// To write a file; the line that tells it.
    File(String),
    /// To run a command; the line that tells it without its status, and how many programs were run before.
    Command(String, usize),
    /// To end the job.
    End,
}

fn file_line(alloc: Global, host: &Host, file: &Text) -> Result<String, AllocError> {
    let mut line = String::from_str(alloc, "wrote")?;
    add_pair(&mut line, "file", file.as_str())?;
    if let Some(row) = host.image.manifest.file(file.as_str().as_bytes()) {
        let path = String::from_utf8_lossy(alloc, &row.path.print()?)?;
        let path = format!(in alloc; "/{}", path.as_str())?;
        add_pair(&mut line, "path", path.as_str())?;
    }
    line.push('\n')?;
    Ok(line)
}

fn command_line(alloc: Global, service: &Text, words: &[String]) -> Result<String, AllocError> {
    let mut line = String::from_str(alloc, "ran")?;
    add_pair(&mut line, "service", service.as_str())?;
    let words = words.join(alloc, " ")?;
    add_pair(&mut line, "command", words.as_str())?;
    Ok(line)
}

/// What the next turn of the host is to do.
pub fn next_doing(alloc: Global, host: &Host) -> Result<Doing, AllocError> {
    let machine = &host.machine;
    if let Job::Running(work) = &machine.job {
        if let Some(file) = work.files.first() {
            return Ok(Doing::File(file_line(alloc, host, file)?));
        }
        if let Some(command) = work.commands.first() {
            let line = command_line(alloc, &command.service, &command.words)?;
            return Ok(Doing::Command(line, machine.runs.len()));
        }
    }
    Ok(Doing::End)
}

// Adds how a command ended, if it was run.
fn add_run(
    log: &mut String,
    line: &str,
    count: usize,
    machine: &PlainMachine,
) -> Result<(), AllocError> {
    match machine.runs.get(count) {
        Some(ran) => {
            let status = ran.status;
            writeln!(log, "{line} status={status}")
        }
        None => Ok(()),
    }
}

// Adds that the job has ended, and that it began again.
fn add_end(log: &mut String, job: &Job) -> Result<(), AllocError> {
    match job {
        Job::Failed(_) => Ok(()),
        Job::Idle => log.push_str("job-ended\n"),
        Job::Running(work) => {
            log.push_str("job-ended\n")?;
            began(log, work)
        }
    }
}

/// A turn that was to do this was made.
pub fn turned(log: &mut String, doing: &Doing, machine: &PlainMachine) -> Result<(), AllocError> {
    match doing {
        Doing::File(line) if is_running(machine) => log.push_str(line.as_str())?,
        Doing::File(_) => {}
        Doing::Command(line, count) => add_run(log, line.as_str(), *count, machine)?,
        Doing::End => add_end(log, &machine.job)?,
    }
    match &machine.job {
        Job::Failed(cause) => failed(log, cause),
        _ => Ok(()),
    }
}
