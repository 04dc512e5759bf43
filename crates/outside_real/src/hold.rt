//! The lock on a folder.
use crate::work::{Lock, is_held, pause, take_lock_unwritten};
use std::alloc::{AllocError, Global};
use std::io::{self, ErrorKind};
use std::rt::Files;

// How many tenths of a second one that is patient waits for a command that holds the lock.
const PATIENCE: u32 = 100;

/// The hold on a folder, which lasts as long as this lives.
#[derive(Drop)]
pub struct Hold<R: Files> {
    // The lock, once it is taken.
    lock: Option<R::File>,
    // Whether another program held it at the last try, and whether that was a server.
    locked_out: bool,
    served: bool,
    // How many tenths of a second it is waited for; none once they were.
    waits: u32,
    // Whether none is taken.
    free: bool,
}

impl<R: Files + AllocGlobal> Hold<R>
where
    R::File: Lock,
{
    /// One that isn't taken yet.
    pub fn new() -> Hold<R> {
        Hold {
            lock: None,
            locked_out: false,
            served: false,
            waits: 0,
            free: false,
        }
    }

    /// Whether another program held the lock at the last try.
    pub fn is_locked_out(&self) -> bool {
        self.locked_out
    }

    /// A command that holds the lock is waited for, ten seconds at most, and no server.
    pub fn wait(&mut self) {
        self.waits = PATIENCE;
    }

    /// No lock is taken.
    pub fn take_none(&mut self) {
        self.free = true;
    }

    /// Who holds the lock, in words. Or out of memory.
    pub fn explain(&self, alloc: Global) -> Result<String, AllocError> {
        let words = if self.served {
            "a server is at work in this folder: use settingsctl"
        } else {
            "another program is at work in this folder"
        };
        String::from_str(alloc, words)
    }

    // The lock. One that a command holds is waited for where that is wanted, and one that a server holds is not.
    fn lock(&mut self, rt: &R, root: &str) -> io::Result<R::File> {
        for _ in 0..self.waits {
            let answer = take_lock_unwritten(rt, root, "lock");
            if !matches!(&answer, Err(e) if e.kind() == ErrorKind::WouldBlock) {
                return answer;
            }
            self.served = is_held(rt, root, "socket-lock");
            if self.served {
                return answer;
            }
            pause();
        }
        self.waits = 0;
        take_lock_unwritten(rt, root, "lock")
    }

    /// Takes the lock on the folder, if it isn't taken. `WouldBlock` where another program holds it.
    pub fn take(&mut self, rt: &R, root: &str) -> io::Result<()> {
        if self.lock.is_some() || self.free {
            return Ok(());
        }
        let answer = self.lock(rt, root);
        self.locked_out = matches!(&answer, Err(e) if e.kind() == ErrorKind::WouldBlock);
        self.lock = Some(answer?);
        Ok(())
    }
}
