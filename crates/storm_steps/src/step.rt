//! One step of a seed: a run of the program, and what becomes of its devices.
use std::alloc::{AllocError, Global};

/// Where the dump is by which a store is restored.
pub const DUMP: &str = "dump.json";

/// The words of `serve`.
#[derive(Clone, Copy)]
pub struct Serving {
    /// Whether all is applied first.
    pub boot: bool,
    /// How many turns are made after each connection; without a number all.
    pub slice: Option<u32>,
    /// How many connections are served; without a number all.
    pub connections: Option<u32>,
    /// Whether turns are made while no client is there.
    pub while_idle: bool,
    /// Whether nothing is logged.
    pub quiet: bool,
    /// So many looks before each accept find no client.
    pub away: u32,
}

/// What a step runs.
#[derive(Clone, Copy)]
pub enum Order {
    /// `init`, over a store that is there.
    Init,
    /// `serve`.
    Serve(Serving),
    /// `set`.
    Set,
    /// `apply`.
    Apply,
    /// `get`.
    Get,
    /// `check`.
    Check,
    /// `verify`.
    Verify,
    /// `prune`.
    Prune,
    /// `migrate`, to the version with this text.
    Migrate(&'static str),
    /// `forget`.
    Forget,
    /// `dump`.
    Dump,
    /// `restore`, by the dump at `DUMP`, where no store is.
    Restore,
}

/// What a client sends, in two pieces.
#[derive(Drop)]
pub struct Sent {
    /// The bytes.
    pub bytes: Vec<u8>,
    /// How many of them are in the first piece, at most.
    pub cut: usize,
    /// Whether the first read of them fails.
    pub read_fails: bool,
    /// Whether the first write of the reply fails.
    pub write_fails: bool,
}

/// Which calls of the disk fail.
#[derive(Clone, Copy)]
pub enum Fault {
    /// None.
    Never,
    /// The one after so many of the step.
    Once(u64),
    /// Each one after so many of the step.
    Ever(u64),
}

impl Fault {
    /// Whether no call after a failing one serves.
    pub fn is_lasting(self) -> bool {
        match self {
            Fault::Ever(_) => true,
            _ => false,
        }
    }
}

/// One step.
#[derive(Drop)]
pub struct Step {
    /// What is run.
    pub order: Order,
    /// Its words.
    pub words: Vec<String>,
    /// What the clients of `serve` send; for `set` and `apply`, the requests that the command makes itself.
    pub sent: Vec<Sent>,
    /// Whether the last of them are those of `planned`.
    pub is_planned: bool,
    /// The number of the accept that fails, from 1.
    pub accept_fails: Option<u64>,
    /// The statuses with which programs end, 0 after these. One without a status can't be run.
    pub statuses: Vec<Option<u16>>,
    /// Which calls of the disk fail.
    pub fault: Fault,
    /// Whether the power fails after it.
    pub crash: bool,
}

// The words of the line, which single spaces part.
fn words_of(alloc: Global, line: &str) -> Result<Vec<String>, AllocError> {
    let mut words = Vec::new(alloc);
    for word in line.split(' ') {
        words.push(String::from_str(alloc, word)?)?;
    }
    Ok(words)
}

impl Step {
    /// The step of this order, which the line spells, in which nothing fails.
    pub fn calm(
        alloc: Global,
        order: Order,
        line: &str,
        sent: Vec<Sent>,
    ) -> Result<Step, AllocError> {
        Ok(Step {
            order,
            words: words_of(alloc, line)?,
            sent,
            is_planned: false,
            accept_fails: None,
            statuses: Vec::new(alloc),
            fault: Fault::Never,
            crash: false,
        })
    }

    /// The step that begins a store.
    pub fn begin(alloc: Global) -> Result<Step, AllocError> {
        Step::calm(alloc, Order::Init, "init --version 1.5.2", Vec::new(alloc))
    }

    /// The step that prints a dump of the store.
    pub fn dump(alloc: Global) -> Result<Step, AllocError> {
        Step::calm(alloc, Order::Dump, "dump", Vec::new(alloc))
    }

    /// The step that begins a store by the dump at `DUMP`.
    pub fn restore(alloc: Global) -> Result<Step, AllocError> {
        let line = format!(in alloc; "restore {DUMP}")?;
        Step::calm(alloc, Order::Restore, line.as_str(), Vec::new(alloc))
    }

    /// The step that reads each configuration file.
    pub fn verify(alloc: Global) -> Result<Step, AllocError> {
        Step::calm(alloc, Order::Verify, "verify", Vec::new(alloc))
    }
}

// The bytes of the request that the line is: its method, its target, and its body, if it has one.
fn request(alloc: Global, line: &str) -> Result<Vec<u8>, AllocError> {
    let (method, rest) = line.split_once(' ').unwrap_or((line, ""));
    let (target, body) = rest.split_once(' ').unwrap_or((rest, ""));
    let count = body.len();
    let text = format!(in alloc;
        "{method} {target} HTTP/1.1\r\nHost: localhost\r\nContent-Length: {count}\r\n\r\n{body}"
    )?;
    Ok(text.into_bytes())
}

impl Sent {
    /// The request of the line (its method, its target and maybe its body), whole and in one piece.
    pub fn whole(alloc: Global, line: &str) -> Result<Sent, AllocError> {
        let bytes = request(alloc, line)?;
        Ok(Sent {
            bytes,
            cut: usize::MAX,
            read_fails: false,
            write_fails: false,
        })
    }
}
