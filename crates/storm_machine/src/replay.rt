//! The machine goes through the events of a run.
ghost use Rattle.settings_machine.specs.Asked.{request_of};
ghost use Rattle.settings_machine.specs.Requests.{IsProper};

use crate::faults::{Faults, Strike};
use crate::log_lines::{Before, asked, next_doing, opened, turned};
use key_names::{Bytes, Text};
use machine_replies::{Host, Told, changes};
use plain_machine::{OpeningAnswer, TurnAnswer};
use release_file::Release;
use settings_machine::{Cause, Job, Request};
use settings_tree::Held;
use std::alloc::{AllocError, Global};
use std::mem;
use version_links::Version;

/// A host next to a run.
#[derive(Drop)]
pub struct Replay {
    /// The host.
    pub host: Box<Host>,
    /// What leads from one version of a store to another.
    pub release: Release,
    /// What the disk does.
    pub faults: Faults,
    /// The statuses with which programs end, the next one last; 0 where none is left.
    pub statuses: Vec<Option<u16>>,
    /// Where the run moved the store: its version, and what it holds.
    pub moved: Option<(Version, Held)>,
    /// The lines of the events, as a server logs them.
    pub log: String,
}

// What a running job is to do next.
#[derive(Clone, Copy)]
enum Due {
    Nothing,
    File,
    Command,
    End,
}

fn what_is_due(job: &Job) -> Due {
    match job {
        Job::Running(work) if !work.files.is_empty() => Due::File,
        Job::Running(work) if !work.commands.is_empty() => Due::Command,
        Job::Running(_) => Due::End,
        _ => Due::Nothing,
    }
}

// A running job fails, for a call of the disk has failed.
fn fail_job(host: &mut Host) {
    if let Job::Running(_) = &host.machine.job {
        host.machine.job = Job::Failed(Cause::Disk);
    }
}

// The file that is next.
fn next_file(job: &Job) -> Option<&Text> {
    match job {
        Job::Running(work) => work.files.first(),
        _ => None,
    }
}

// What a failed write leaves at the path of the file that is next: what was there.
fn left(host: &Host) -> Result<Option<Bytes>, AllocError> {
    let Some(file) = next_file(&host.machine.job) else {
        return Ok(None);
    };
    let Some(row) = host.image.manifest.file(file.as_str().as_bytes()) else {
        return Ok(None);
    };
    match host.machine.etc.get(&row.path) {
        Some(bytes) => Ok(Some(bytes.copy()?)),
        None => Ok(None),
    }
}

// Whether the request may need the disk: it changes something, or reads files.
fn needs_disk(request: &Request) -> bool {
    changes(request) || matches!(request, Request::Verify)
}

// The machine makes a request that the disk failed and stored all the same: the job stays as it was.
fn take(alloc: Global, host: &mut Host, request: &Request) -> Result<(), AllocError>
    requires { IsProper (request_of request.now) }
{
    let job = mem::replace(&mut host.machine.job, Job::Idle);
    let told = host.ask(alloc, request);
    host.machine.job = job;
    told?;
    Ok(())
}

// What a program ends with.
fn ended(status: Option<Option<u16>>) -> TurnAnswer {
    match status {
        None => TurnAnswer::Fine { status: 0 },
        Some(Some(status)) => TurnAnswer::Fine { status },
        Some(None) => TurnAnswer::NoSpawn,
    }
}

// No jobs of a run take more turns.
const MOST_TURNS: u32 = 1000;

impl Replay {
    /// The host before any run. It goes from one version of a store to another by this release.
    pub fn of(alloc: Global, host: Box<Host>, release: Release) -> Replay {
        Replay {
            host,
            release,
            faults: Faults::of(None),
            statuses: Vec::new(alloc),
            moved: None,
            log: String::new(alloc),
        }
    }

    /// The host goes back to what was kept, before a run in which programs end with these statuses and the disk fails so.
    pub fn begin(
        &mut self,
        alloc: Global,
        statuses: &[Option<u16>],
        strike: Option<Strike>,
    ) -> Result<(), AllocError> {
        self.host.go_back(alloc)?;
        self.faults = Faults::of(strike);
        self.statuses = statuses.to_vec(alloc)?;
        self.statuses.reverse();
        self.moved = None;
        self.log.clear();
        Ok(())
    }

    /// The store is opened. False where the disk failed it.
    pub fn open(&mut self, alloc: Global, boot: bool) -> Result<bool, AllocError> {
        if self.faults.strikes() {
            let taken = self.faults.is_taken();
            self.host
                .open(alloc, boot, OpeningAnswer::Failing { taken })?;
            return Ok(false);
        }
        self.faults.heal();
        self.host.open(alloc, boot, OpeningAnswer::Succeeded)?;
        opened(&mut self.log, &self.host.machine)?;
        Ok(true)
    }

    // Where the disk has failed since the store was opened, it is opened again. False where the disk failed that.
    fn open_again(&mut self, alloc: Global) -> Result<bool, AllocError> {
        if self.faults.is_faulted() {
            return self.open(alloc, false);
        }
        Ok(true)
    }

    // A request over an open store, and what is replied; None where the disk failed.
    fn make(&mut self, alloc: Global, request: &Request) -> Result<Option<Told>, AllocError>
        requires { IsProper (request_of request.now) }
    {
        if !needs_disk(request) || !self.faults.strikes() {
            return Ok(Some(self.host.ask(alloc, request)?));
        }
        if self.faults.is_taken() {
            take(alloc, &mut self.host, request)?;
        }
        fail_job(&mut self.host);
        Ok(None)
    }

    /// A request, and what is replied; None where the disk failed. Where it has failed since the store was opened, that is opened again first.
    pub fn ask(&mut self, alloc: Global, request: &Request) -> Result<Option<Told>, AllocError>
        requires { IsProper (request_of request.now) }
    {
        let is_open = self.open_again(alloc)?;
        let before = Before::of(&self.host.machine, request)?;
        let told = if is_open {
            self.make(alloc, request)?
        } else {
            None
        };
        let machine = &self.host.machine;
        asked(&mut self.log, request, &told, &before, machine)?;
        Ok(told)
    }

    // What the devices let the next turn come to; None where no job runs.
    fn answer(&mut self) -> Result<Option<TurnAnswer>, AllocError> {
        let host = &self.host;
        match what_is_due(&host.machine.job) {
            Due::Nothing => Ok(None),
            Due::Command => Ok(Some(ended(self.statuses.pop()))),
            Due::File if self.faults.strikes() => {
                let left = left(&self.host)?;
                Ok(Some(TurnAnswer::FileFault { left }))
            }
            Due::End if self.faults.strikes() => {
                let stored = self.faults.is_taken();
                Ok(Some(TurnAnswer::OwedFault { stored }))
            }
            _ => Ok(Some(TurnAnswer::Fine { status: 0 })),
        }
    }

    /// So many turns, or without a number until no job runs.
    pub fn turns(&mut self, alloc: Global, slice: Option<u32>) -> Result<(), AllocError> {
        for _ in 0..slice.unwrap_or(MOST_TURNS) {
            let Some(answer) = self.answer()? else {
                return Ok(());
            };
            let doing = next_doing(alloc, &self.host)?;
            self.host.turn(alloc, answer)?;
            turned(&mut self.log, &doing, &self.host.machine)?;
        }
        Ok(())
    }
}
