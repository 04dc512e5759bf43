//! What the other side of a connection sends.

/// What the other side of a connection in memory sends, piece by piece, and which calls of the connection fail.
/// Calls are counted from 1.
#[derive(Debug, Drop)]
pub struct Input {
    /// What it sends. One read gives bytes of one piece, and empty pieces are passed over.
    pub pieces: Vec<Vec<u8>>,
    /// The number of the read that fails, if one does.
    pub read_fails: Option<u64>,
    /// The number of the write that fails, if one does.
    pub write_fails: Option<u64>,
}
