//! The mark of programs that changed what may not be on the disk yet.
use crate::places::{Standing, look, write_over};
use crate::work::{place_in_work, refused};
use std::fs;
use std::io::{self, ErrorKind};
use std::rt::Files;

/// The name of the mark in `.work`.
pub const UNSETTLED: &str = "unsettled";

// Its name while nothing is marked, so that to mark takes no room on the disk.
const SETTLED: &str = "settled";

// What is known of the changes of programs.
#[derive(Clone, Copy, Debug, PartialEq, Eq)]
enum Stage {
    // Nobody has looked.
    Unread,
    // Earlier programs may have left what is not on the disk. The mark is there.
    Left,
    // Only this program may have changed what is not on the disk. The mark is there.
    Set,
    // All that is there is on the disk.
    Settled,
}

/// The mark, an empty file in `.work`. It is there while something that a program has changed may not be on the disk.
///
/// It is never flushed itself. While the system runs, what a program did is seen in its order: so where something is unsynced, the mark is
/// there. After a start of the system nothing is unsynced, whether or not the mark is there.
#[derive(Drop)]
pub struct Mark {
    stage: Stage,
    // Whether the file is there under its other name.
    laid: bool,
}

// Whether there is a file of this name in `.work`. What is no file is refused.
fn is_in_work<R: Files + AllocGlobal>(rt: &R, root: &str, name: &str) -> io::Result<bool> {
    let place = place_in_work(rt.alloc(), root, name)?;
    match look(rt, place.as_str())? {
        Standing::Nothing => Ok(false),
        Standing::File => Ok(true),
        _ => Err(refused()),
    }
}

// Renames the file of the one name in `.work` to the other.
fn rename_in_work<R: Files + AllocGlobal>(
    rt: &R,
    root: &str,
    from: &str,
    to: &str,
) -> io::Result<()> {
    let from = place_in_work(rt.alloc(), root, from)?;
    let to = place_in_work(rt.alloc(), root, to)?;
    fs::rename(rt, from.as_str(), to.as_str())
}

impl Mark {
    /// One that nobody has looked at.
    pub fn new() -> Mark {
        Mark {
            stage: Stage::Unread,
            laid: false,
        }
    }

    // Looks for the mark, if nobody has.
    fn read<R: Files + AllocGlobal>(&mut self, rt: &R, root: &str) -> io::Result<()> {
        if self.stage != Stage::Unread {
            return Ok(());
        }
        self.laid = is_in_work(rt, root, SETTLED)?;
        let is_left = is_in_work(rt, root, UNSETTLED)?;
        self.stage = if is_left { Stage::Left } else { Stage::Settled };
        Ok(())
    }

    /// Whether earlier programs may have left what is not on the disk.
    pub fn is_left<R: Files + AllocGlobal>(&mut self, rt: &R, root: &str) -> io::Result<bool> {
        self.read(rt, root)?;
        Ok(self.stage == Stage::Left)
    }

    /// What earlier programs left is from now on flushed with what this one changes.
    pub fn take_over(&mut self) {
        self.stage = Stage::Set;
    }

    // Makes the mark.
    fn make<R: Files + AllocGlobal>(&mut self, rt: &R, root: &str) -> io::Result<()> {
        if self.laid {
            rename_in_work(rt, root, SETTLED, UNSETTLED)?;
            self.laid = false;
            return Ok(());
        }
        let place = place_in_work(rt.alloc(), root, UNSETTLED)?;
        write_over(rt, place.as_str(), b"")?;
        Ok(())
    }

    /// The mark is there from now on: this program is about to change something.
    pub fn set<R: Files + AllocGlobal>(&mut self, rt: &R, root: &str) -> io::Result<()> {
        self.read(rt, root)?;
        if self.stage == Stage::Settled {
            self.make(rt, root)?;
            self.stage = Stage::Set;
        }
        Ok(())
    }

    /// All that is there is on the disk, and the mark goes, if it is there. On a read-only file system it stays.
    pub fn clear<R: Files + AllocGlobal>(&mut self, rt: &R, root: &str) -> io::Result<()> {
        if self.stage != Stage::Set {
            return Ok(());
        }
        match rename_in_work(rt, root, UNSETTLED, SETTLED) {
            Err(e) if e.kind() == ErrorKind::ReadOnlyFilesystem => Ok(()),
            answer => {
                answer?;
                self.laid = true;
                self.stage = Stage::Settled;
                Ok(())
            }
        }
    }
}
