//! What a crash leaves of a disk.
use disk_memory::{Bytes, MemoryDisk, Pick};
use row_files::bad;
use std::alloc::{AllocError, Global};
use std::io;

// So many paths at most are touched between two syncs.
const PICKS: usize = 48;

/// A copy of the disk, on which all is synced and no call fails. The only error is out of memory.
pub fn copy_of(alloc: Global, disk: &MemoryDisk) -> Result<Box<MemoryDisk>, AllocError> {
    Ok(Box::new(alloc, disk.crash(&[])?)?)
}

/// What a crash of this kind leaves of the disk: of each path that isn't synced what was there (`old`), what is there now (`new`), torn bytes or nothing
/// where it was being written (`torn`, `gone`), or of one path after another what is new, old, gone and torn (`mixed`).
pub fn crashed(alloc: Global, disk: &MemoryDisk, kind: &str) -> io::Result<Box<MemoryDisk>> {
    let kinds = match kind {
        "mixed" => vec![in alloc; "new", "old", "gone", "torn"]?,
        _ => vec![in alloc; kind]?,
    };
    let mut picks = Vec::new(alloc);
    for kind in &kinds.repeat(alloc, PICKS)? {
        picks.push(match *kind {
            "old" => Pick::Old,
            "new" => Pick::New,
            "torn" => Pick::Torn(Bytes::of(b"torn".to_vec(alloc)?)),
            "gone" => Pick::Gone,
            _ => return Err(bad()),
        })?;
    }
    Ok(Box::new(alloc, disk.crash(&picks)?)?)
}
