//! Images on a disk: their texts, why there is none, and the coverage of their files.
use coverage_report::{are_covered, check_files, lines_of};
use disk_memory::MemoryDisk;
use row_files::line;
use std::io;
use store_image::{ImageError, read_image};

/// Tells the text of the image on the disk, or whether all its files are covered and the report of them, or why there is no image.
pub fn tell(out: &mut Vec<u8>, disk: &mut MemoryDisk, word: &str) -> io::Result<()> {
    let alloc = *out.allocator();
    match read_image(alloc, disk) {
        Ok(image) if word == "image" => Ok(out.extend_from_slice(image.text.as_slice())?),
        Ok(image) => {
            let checks = check_files(alloc, &image)?;
            let all = are_covered(&checks);
            line(out, &[if all { "all" } else { "not all" }])?;
            Ok(out.extend_from_slice(&lines_of(alloc, &checks)?)?)
        }
        Err(ImageError::Bad { file, kind, at }) => {
            line(out, &["bad", file.as_str(), kind.as_str(), at.as_str()])
        }
        Err(ImageError::Failed) => line(out, &["failed"]),
        Err(ImageError::Memory) => line(out, &["memory"]),
    }
}
