//! When the turns of a job are made.

/// When a server makes the turns of a running job: how many follow each connection, and whether they are made while no client is
/// there too.
#[derive(Clone, Copy, Debug)]
pub struct Pace {
    /// How many follow each connection, or fewer where the job stops running; without a number, all until no job runs.
    pub slice: Option<u32>,
    /// Whether they are made, one at a time, while no client is there.
    pub while_idle: bool,
}
