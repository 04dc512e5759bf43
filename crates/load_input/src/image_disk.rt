//! A disk with the image of a load run.
ghost use Rattle.std.specs.Prelude.{◌≤◌, IfOk};
ghost use Rattle.disk_memory.specs.Disk.{history_of};
ghost use Rattle.load_input.specs.Files.{file_of};
ghost use Rattle.load_input.specs.Starting.{IsNodeOf, HasImage};

use crate::{LoadFile, files};
use disk_memory::{Bytes, MemoryDisk, Node};
use outside::Path;
use std::alloc::{AllocError, Global};

// The node of a file.
fn node_of(alloc: Global, file: &LoadFile) -> Result<(Path, Node), AllocError>
    ensures { IfOk result (IsNodeOf (file_of file.now)) }
{
    match Path::read(alloc, file.path.as_str().as_bytes()) {
        Ok(path) => {
            let bytes = Bytes::of(file.bytes.as_slice().to_vec(alloc)?);
            Ok((path, Node::File(bytes)))
        }
        Err(_) => Err(AllocError),
    }
}

/// A disk on which there is nothing but the image for so many settings. The only error is out of memory.
pub(crate) fn image_disk(alloc: Global, count: u32) -> Result<MemoryDisk, AllocError>
    requires some { 1 ≤ count }
    requires most { count ≤ 10000 }
    ensures { IfOk result (λ disk. HasImage count (history_of disk)) }
{
    let image = files(alloc, count)?;
    let mut nodes = Vec::new(alloc);
    for file in &image {
        nodes.push(node_of(alloc, file)?)?;
    }
    MemoryDisk::of_tree(alloc, nodes)
}
