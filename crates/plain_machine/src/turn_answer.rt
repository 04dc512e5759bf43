//! What the outside lets a turn come to.

use key_names::Bytes;

/// What the outside lets a turn come to. One that doesn't fit the turn fails the job with `Disk`.
#[derive(Debug, Drop)]
pub enum TurnAnswer {
    /// It goes well; a program ends with the status.
    Fine {
        /// The status, which only a command reads.
        status: u16,
    },
    /// It runs out of memory.
    NoRoom,
    /// The write of a file fails.
    FileFault {
        /// What is left at its path.
        left: Option<Bytes>,
    },
    /// The program can't be run.
    NoSpawn,
    /// The sync before the end fails.
    SyncFault,
    /// What is owed can't be stored.
    OwedFault {
        /// Whether it was stored all the same.
        stored: bool,
    },
}
