//! A Unix socket in a folder, as a door.
ghost use Rattle.std.specs.Prelude.{◌≡◌, None, IfOk};
ghost use Rattle.outside.specs.Faults.{HasCause};

use crate::connections::Connections;
use crate::explaining::why_refused;
use crate::failure::On;
use crate::faults::{Faults, written_of};
use crate::places::{SOCKET, remove_file};
use crate::serving::Serving;
use crate::work::{Lock, take_lock_within, work_place};
use client_framing::Framing;
use mio::net::UnixListener;
use outside::{Door, Failed};
use std::alloc::AllocError;
use std::fs::{self, Permissions};
use std::io::{self, ErrorKind};
use std::os::unix::fs::PermissionsExt;
use std::rt::{Files, Net};
use std::time::Clock;

// How many tenths of a second the lock on the socket is waited for.
const LOOKS: u32 = 5;

/// A door over the Unix socket `api.sock` in a folder, to which its owner and its group may connect. It is never at its
/// end.
///
/// All clients are watched at once, and an accept hands on the next one that can be heard, as its framing says. One that
/// sends nothing, sends slowly or takes nothing of its answer costs only itself: it has ten seconds for its whole request, and ten
/// for each next piece of its answer, and is then closed. At most 256 clients are there; where one more comes, the oldest goes whose
/// request isn't whole.
///
/// A client that vanishes before its request is whole is never handed on; after that it is a fault of the calls of its own
/// connection, and of no accept. Each other error of the system is a fault.
///
/// `finish` lets the client take the rest of its answer while others are served, and then closes the connection: at once where its whole request
/// was received and it has sent nothing more. Else writing is shut down, and up to 4 MB of what it still sends are read for a second at most,
/// so that it reads its whole answer and the end of it.
///
/// One door at a time is open in a folder: where another program's door is bound there, binding is a fault and changes
/// nothing.
#[derive(Drop)]
pub struct RealDoor<R: Files + Net + Clock + AllocGlobal + Drop, F: Framing + Drop> {
    rt: R,
    framing: F,
    root: String,
    // The lock on the socket, once it is taken.
    lock: Option<R::File>,
    connections: Option<Connections>,
    clients: Clients,
    faults: Faults,
}

/// The clients of a door. They are seen by clauses alone.
#[derive(Drop)]
pub struct Clients {
    /// The last one, until it is finished.
    last: Option<Serving>,
    /// How many there were.
    accepted: u32,
    /// Whether an accept failed.
    broken: bool,
}

// A socket at its place, whose lock this program holds. It is bound in the folder that its owner alone may enter, gets
// its mode there, and is then renamed: so nobody connects before it has the mode, and it takes the place of a socket
// file that was left.
fn bind<R: Files + Net + AllocGlobal>(rt: &R, root: &str) -> io::Result<UnixListener> {
    let new = work_place(rt, root, "socket")?;
    let place = format!(in rt.alloc(); "{root}{SOCKET}")?;
    remove_file(rt, new.as_str())?;
    let listener = UnixListener::bind(rt, new.as_str())?;
    fs::set_permissions(rt, new.as_str(), Permissions::from_mode(0o660))?;
    fs::rename(rt, new.as_str(), place.as_str())?;
    Ok(listener)
}

// The connections of the socket at its place. Its lock is taken first, where it isn't.
fn open<R: Files + Net + Clock + AllocGlobal>(
    rt: &R,
    root: &str,
    lock: &mut Option<R::File>,
) -> io::Result<Connections>
where
    R::File: Lock,
{
    if lock.is_none() {
        // (a command that looks whether a server is there shares it for a moment)
        *lock = Some(take_lock_within(rt, root, "socket-lock", LOOKS)?);
    }
    Connections::new(rt, rt.alloc(), bind(rt, root)?)
}

impl<R: Files + Net + Clock + AllocGlobal + Drop, F: Framing + Drop> RealDoor<R, F>
where
    R::File: Lock,
{
    ghost use Rattle.outside_real.specs.Door.{state_of, unused};

    /// A door at the socket in this folder; `.` is the working folder. Or out of memory.
    pub fn new(rt: R, root: &str, framing: F) -> Result<RealDoor<R, F>, AllocError>
        ensures { IfOk result (λ door. state_of door.clients ≡ unused) }
    {
        let alloc = rt.alloc();
        let root = String::from_str(alloc, root)?;
        Ok(RealDoor {
            rt,
            framing,
            root,
            lock: None,
            connections: None,
            clients: Clients {
                last: None,
                accepted: 0,
                broken: false,
            },
            faults: Faults::new(alloc),
        })
    }

    /// Takes the lock on the socket now, where that is wanted and no other program has it, so that others see at once that a server is at work. Where it
    /// can't, nothing happens: the first accept says why.
    pub fn claim(&mut self, is_wanted: bool)
        ensures same { state_of self.new.clients ≡ state_of self.old.clients }
        ensures faults { self.new.faults ≡ self.old.faults }
    {
        if is_wanted && self.lock.is_none() {
            self.lock = take_lock_within(&self.rt, self.root.as_str(), "socket-lock", LOOKS).ok();
        }
    }

    // The next client that can be heard. The socket is bound first, where it wasn't.
    fn client(&mut self) -> io::Result<Serving>
        ensures same { state_of self.new.clients ≡ state_of self.old.clients }
        ensures faults { self.new.faults ≡ self.old.faults }
    {
        let mut connections = match self.connections.take() {
            Some(connections) => connections,
            None => open(&self.rt, self.root.as_str(), &mut self.lock)?,
        };
        let client = connections.next(&self.rt, self.rt.alloc(), &self.framing);
        self.connections = Some(connections);
        client
    }

    /// What the last failure was, in a line for a person without a line feed; none where no call has failed. Or out of memory.
    pub fn last_failure(&self) -> Result<Option<String>, AllocError> {
        let Some(failure) = self.faults.last() else {
            return Ok(None);
        };
        match (failure.error().raw_os_error(), failure.error().kind()) {
            (None, ErrorKind::PermissionDenied) => {
                Ok(Some(why_refused(&self.rt, self.root.as_str())?))
            }
            (None, ErrorKind::WouldBlock) => {
                let text = String::from_str(self.rt.alloc(), "another server has the socket")?;
                Ok(Some(text))
            }
            _ => self.faults.print_last(),
        }
    }

    /// Waits until each client has taken its answer or has used up its time: for the end of a program.
    pub fn drain(&mut self) {
        if let Some(connections) = &mut self.connections {
            let _ = connections.drain_all(&self.rt);
        }
    }

    /// Binds the socket, in place of a socket file that was left. Clients may connect from then on.
    ///
    /// `Failed` where the system refuses it, or another program's door is bound in the folder.
    pub fn listen(&mut self) -> Result<(), Failed>
        ensures cause { HasCause self.old.faults.count self.new.faults.count result }
        ensures same { state_of self.new.clients ≡ state_of self.old.clients }
    {
        let answer = open(&self.rt, self.root.as_str(), &mut self.lock);
        match self
            .faults
            .counted("listen at", On::Name("api.sock"), answer)
        {
            Ok(connections) => {
                self.connections = Some(connections);
                Ok(())
            }
            Err(e) => Err(e),
        }
    }
}

impl<R: Files + Net + Clock + AllocGlobal + Drop, F: Framing + Drop> Door for RealDoor<R, F>
where
    R::File: Lock,
{
    ghost use Rattle.outside_real.specs.Door.{state_of};

    ghost faults = { λ door. door.faults.count };

    ghost state = { λ door. state_of door.clients };

    ghost told = { λ _. None };

    fn is_awaited(&mut self) -> bool {
        match &mut self.connections {
            Some(connections) => connections.has_servable(&self.rt, self.rt.alloc(), &self.framing),
            None => true,
        }
    }

    fn accept(&mut self) -> Result<bool, Failed> {
        let answer = self.client();
        match self
            .faults
            .counted("accept at", On::Name("api.sock"), answer)
        {
            Ok(client) => {
                self.clients.last = Some(client);
                self.clients.accepted += 1;
                Ok(true)
            }
            Err(e) => {
                self.clients.broken = true;
                Err(e)
            }
        }
    }

    fn read(&mut self, room: &mut [u8]) -> Result<usize, Failed> {
        let Some(client) = &mut self.clients.last else {
            unreachable!()
        };
        let answer = client.read(room);
        self.faults.counted("read", On::Name("a client"), answer)
    }

    fn write(&mut self, piece: &[u8]) -> Result<usize, Failed> {
        let Some(client) = &mut self.clients.last else {
            unreachable!()
        };
        let answer = written_of(piece, client.write(piece));
        self.faults.counted("write", On::Name("a client"), answer)
    }

    fn finish(&mut self) {
        if let (Some(client), Some(connections)) = (
            self.clients.last.take(),
            &mut self.connections,
        ) {
            connections.drain_client(client);
        }
    }
}
