//! Why a run of questions has no end of its own.

/// Why a run of questions has no end of its own.
#[derive(Clone, Copy, Debug, PartialEq, Eq)]
pub enum Stop {
    /// A link failed: its count of faults rose.
    Link,
    /// What came is no reply.
    BadReply,
    /// What came is too long.
    TooLong,
    /// There is more to ask, and no further link.
    Unfinished,
    /// Out of memory.
    Memory,
}
