//! A run of the program, and what is seen of it.
use disk_memory::MemoryDisk;
use storm_steps::Step;

/// What is seen of a run.
#[derive(Drop)]
pub struct Seen {
    /// The exit status.
    pub status: u8,
    /// What was printed.
    pub printed: Vec<u8>,
    /// What was logged.
    pub logged: Vec<u8>,
    /// What was written to each connection that was accepted.
    pub replies: Vec<Vec<u8>>,
    /// The lines of the programs that were run.
    pub programs: String,
    /// Whether a call of the disk failed.
    pub struck: bool,
}

/// A run of the program.
#[derive(Clone, Copy)]
pub struct Run<'a> {
    /// What was run.
    pub step: &'a Step,
    /// What was seen.
    pub seen: &'a Seen,
    /// The disk after it, and after the crash that followed.
    pub disk: &'a MemoryDisk,
}
