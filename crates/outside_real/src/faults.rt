//! How often a device has failed, and how it did the last time.
ghost use Rattle.std.specs.Prelude.{◌≡◌, ◌<◌, ◌≤◌, length, Ok, IfOk};
ghost use Rattle.outside.specs.Faults.{HasCause, HasCauseOf, Rose};

use crate::failure::{Failure, On};
use outside::{DiskErr, Failed};
use std::alloc::{AllocError, Global};
use std::io::{self, ErrorKind};

/// A count of failures, which stays at the greatest `u64`, and the last one.
#[derive(Debug, Drop)]
pub struct Faults {
    /// How many there were.
    pub count: u64,
    alloc: Global,
    last: Option<Failure>,
}

impl Faults {
    /// None yet.
    pub fn new(alloc: Global) -> Faults {
        Faults {
            count: 0,
            alloc,
            last: None,
        }
    }

    /// The last failure, if there was one.
    pub fn last(&self) -> Option<&Failure> {
        self.last.as_ref()
    }

    /// The last failure in words, if there was one. Or out of memory.
    pub fn print_last(&self) -> Result<Option<String>, AllocError> {
        match &self.last {
            Some(failure) => Ok(Some(failure.print(self.alloc)?)),
            None => Ok(None),
        }
    }

    /// One more: this call failed by this error.
    pub fn raise(&mut self, call: &'static str, on: On<'_>, error: io::Error)
        ensures rose { Rose self.old.count self.new.count }
        ensures later { self.old.count ≤ self.new.count }
    {
        self.count = self.count.saturating_add(1);
        self.last = Some(Failure::new(self.alloc, call, on, error));
    }

    /// The answer of the system to this call, whose error is a failure.
    pub fn counted<T: Drop>(
        &mut self,
        call: &'static str,
        on: On<'_>,
        answer: io::Result<T>,
    ) -> Result<T, Failed>
        ensures cause { HasCause self.old.count self.new.count result }
        ensures value { IfOk result (λ value. answer ≡ Ok value) }
    {
        match answer {
            Ok(value) => Ok(value),
            Err(e) => {
                self.raise(call, on, e);
                Err(Failed)
            }
        }
    }

    /// The same of a reading call, where out of memory is no failure.
    pub fn counted_read<T: Drop>(
        &mut self,
        call: &'static str,
        on: On<'_>,
        answer: io::Result<T>,
    ) -> Result<T, DiskErr>
        ensures { HasCauseOf DiskErr.Failed self.old.count self.new.count result }
    {
        match answer {
            Ok(value) => Ok(value),
            Err(e) if e.kind() == ErrorKind::OutOfMemory => Err(DiskErr::Memory),
            Err(e) => {
                self.raise(call, on, e);
                Err(DiskErr::Failed)
            }
        }
    }
}

/// How many bytes of the piece were written; none of a piece that isn't empty is an error.
pub fn written_of(piece: &[u8], answer: io::Result<usize>) -> io::Result<usize>
    requires { IfOk answer (λ count. count ≤ length piece.now) }
    ensures bound { IfOk result (λ count. count ≤ length piece.now) }
    ensures goes_on { IfOk result (λ count. 0 < length piece.now → 0 < count) }
{
    match answer {
        Ok(0) if !piece.is_empty() => Err(io::Error::from(ErrorKind::WriteZero)),
        _ => answer,
    }
}
