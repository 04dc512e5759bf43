//! What one read of a connection comes to.

// What one read of a connection came to.
#[derive(Clone, Copy, Debug, PartialEq, Eq)]
pub(crate) enum More {
    // Some bytes came.
    Bytes,
    // None came: the input is at its end, or the read failed.
    End,
    // Bytes came, and there was no memory for them.
    Memory,
}
