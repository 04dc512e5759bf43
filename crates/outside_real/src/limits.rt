//! The limit of the size of files.
use std::rt::Files;
use std::{fs, io};

// The number of the limit, RLIMIT_FSIZE.
const SIZE_OF_FILES: i32 = 1;

// How a place in an open file is asked for that stays where it is, SEEK_CUR.
const FROM_HERE: i32 = 1;

// How many bytes the system lets a file have; none where it can't be asked.
fn most_bytes() -> Option<u64> {
    let mut limit = libc::types::rlimit {
        rlim_cur: 0,
        rlim_max: 0,
    };
    if libc::getrlimit(SIZE_OF_FILES, &mut limit) != 0 {
        return None;
    }
    Some(limit.rlim_cur)
}

// The error of a file that may not have so many bytes.
fn too_large() -> io::Error {
    io::Error::from_raw_os_error(libc::EFBIG)
}

/// An error where the system lets no file grow to so many bytes. It answers a write beyond that limit by the signal SIGXFSZ, which ends
/// the program.
pub fn check_size(count: usize) -> io::Result<()> {
    let Some(most) = most_bytes() else {
        return Ok(());
    };
    match u64::try_from(count) {
        Ok(count) if count <= most => Ok(()),
        _ => Err(too_large()),
    }
}

/// An error where a write to this descriptor, whose open file is at the place, would be at the limit or beyond it. What is no file has none: a pipe, a
/// terminal, a device. A place that can't be looked at counts as such.
pub fn check_room(files: &impl Files, descriptor: i32, place: &str) -> io::Result<()> {
    let Some(most) = most_bytes() else {
        return Ok(());
    };
    if most == u64::MAX {
        return Ok(());
    }
    match fs::metadata(files, place) {
        Ok(data) if data.is_file() => {
            // (who adds to a file writes at its end, wherever the descriptor is)
            let here = u64::try_from(libc::lseek(descriptor, 0, FROM_HERE)).unwrap_or(0);
            if here.max(data.len()) < most {
                Ok(())
            } else {
                Err(too_large())
            }
        }
        _ => Ok(()),
    }
}
