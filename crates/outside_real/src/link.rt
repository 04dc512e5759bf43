//! A connection to a Unix socket in a folder, as a link.
ghost use Rattle.std.specs.Prelude.{None};
ghost use Rattle.std.specs.Option.{is_some};

use crate::failure::On;
use crate::faults::{Faults, written_of};
use crate::patience::Patience;
use crate::places::SOCKET;
use outside::{Failed, Link};
use std::alloc::AllocError;
use std::io::{self, ErrorKind};
use std::os::unix::net::UnixStream;
use std::rt::Net;
use std::time::Clock;

/// How many seconds a server is waited for. It answers one client after another, and each may hold it for some twenty seconds: one
/// that keeps silent must not make the next give up.
const PATIENCE: u64 = 30;

/// A link to the Unix socket `api.sock` in a folder. Each error of the system is a fault.
///
/// So is a server that keeps the calls of the connection waiting for thirty seconds in all, those that read or those that
/// write.
#[derive(Drop)]
pub struct RealLink<R: Net + Clock + Drop> {
    rt: R,
    place: String,
    stream: Option<UnixStream>,
    patience: Patience,
    faults: Faults,
}

// Whether a call of the connection waited for as long as it may.
fn is_late(error: &io::Error) -> bool {
    matches!(
        error.kind(),
        ErrorKind::WouldBlock | ErrorKind::TimedOut | ErrorKind::InvalidInput
    )
}

impl<R: Net + Clock + AllocGlobal + Drop> RealLink<R> {
    /// A link to the socket in this folder; `.` is the working folder. Or out of memory.
    pub fn new(rt: R, root: &str) -> Result<RealLink<R>, AllocError> {
        let alloc = rt.alloc();
        let place = format!(in alloc; "{root}{SOCKET}")?;
        Ok(RealLink {
            rt,
            place,
            stream: None,
            patience: Patience::of_seconds(PATIENCE),
            faults: Faults::new(alloc),
        })
    }

    /// What the last failure was, in a line for a person without a line feed; none where no call has failed. Or out of memory.
    pub fn last_failure(&self) -> Result<Option<String>, AllocError> {
        match self.faults.last() {
            Some(failure) if is_late(failure.error()) => {
                let text = String::from_str(self.rt.alloc(), "no answer in time")?;
                Ok(Some(text))
            }
            _ => self.faults.print_last(),
        }
    }
}

impl<R: Net + Clock + Drop> Link for RealLink<R> {
    ghost faults = { λ link. link.faults.count };

    ghost connected = { λ link. is_some link.stream };

    ghost told = { λ _. None };

    fn connect(&mut self) -> Result<(), Failed> {
        let answer = UnixStream::connect(&self.rt, self.place.as_str());
        let place = self.place.as_str();
        let name = place.strip_prefix("./").unwrap_or(place);
        let stream = self.faults.counted("connect to", On::Name(name), answer)?;
        self.stream = Some(stream);
        self.patience = Patience::of_seconds(PATIENCE);
        Ok(())
    }

    fn read(&mut self, room: &mut [u8]) -> Result<usize, Failed> {
        let Some(stream) = &mut self.stream else {
            unreachable!()
        };
        let answer = self.patience.read(&self.rt, stream, room);
        self.faults
            .counted("read", On::Name("the reply of the server"), answer)
    }

    fn write(&mut self, piece: &[u8]) -> Result<usize, Failed> {
        let Some(stream) = &mut self.stream else {
            unreachable!()
        };
        let answer = self.patience.write(&self.rt, stream, piece);
        let answer = written_of(piece, answer);
        self.faults
            .counted("write", On::Name("the question to the server"), answer)
    }
}
