//! All connections of a listener at once.
use crate::draining::Draining;
use crate::reading::Reading;
use crate::serving::Serving;
use crate::watched::Watched;
use client_framing::Framing;
use mio::net::{UnixListener, UnixStream};
use mio::{Events, Interest, Poll, Token};
use std::alloc::Global;
use std::io::{self, ErrorKind};
use std::rt::Net;
use std::time::{Clock, Duration, Instant};

/// How many clients there are at most, besides the one that is served.
const MOST_CLIENTS: usize = 256;

/// How many fewer there may be once the system had no descriptor for one more, so that the rest of the program has some.
const RESERVE: usize = 16;

/// How many received bytes are kept before no more are read but those of the first client.
const MOST_RECEIVED: usize = 16_777_216;

/// How many bytes of answers are kept before clients that take nothing are dropped.
const MOST_UNSENT: usize = 67_108_864;

/// For how many seconds the poll waits while a client is there and nothing happens.
const TICK: u64 = 1;

/// How many clients are served between two polls at most.
const BATCH: u32 = 16;

/// The token of the listener.
const LISTENER: Token = Token(0);

/// The clients of a listener: those whose requests are read, and those that take their answers, each in the order in which
/// they came there.
#[derive(Drop)]
pub struct Connections {
    poll: Poll,
    events: Events,
    listener: UnixListener,
    /// Whether an accept may find a client.
    acceptable: bool,
    /// Whether the last one had no room for it.
    is_full: bool,
    reading: Vec<Reading>,
    draining: Vec<Draining>,
    /// How many clients there may be.
    most: usize,
    /// The last token.
    last: usize,
    /// How many clients may be served before the next poll.
    batch: u32,
    /// When the time was last read.
    seen: Instant,
}

// Whether it was a client that vanished before it was accepted, or a signal.
fn is_passing(e: &io::Error) -> bool {
    matches!(
        e.kind(),
        ErrorKind::ConnectionAborted | ErrorKind::ConnectionReset | ErrorKind::Interrupted
    )
}

// The errors by which Linux says that it has no room for one more: ENOMEM, ENFILE, EMFILE and ENOBUFS.
const NO_ROOM: [i32; 4] = [12, 23, 24, 105];

// Whether the system has no room for one more.
fn is_no_room(e: &io::Error) -> bool {
    match e.raw_os_error() {
        Some(code) => NO_ROOM.contains(&code),
        None => false,
    }
}

// Wakes what has this token.
fn wake(reading: &mut [Reading], draining: &mut [Draining], token: Token) {
    if let Some(client) = reading.iter_mut().find(|client| client.has(token)) {
        client.wake();
    }
    if let Some(client) = draining.iter_mut().find(|client| client.has(token)) {
        client.wake();
    }
}

impl Connections {
    /// None so far, of a listener that doesn't block. The system's error where it has no room for a poll.
    pub fn new<R: Net + Clock>(
        rt: &R,
        alloc: Global,
        mut listener: UnixListener,
    ) -> io::Result<Connections> {
        let poll = Poll::new(rt)?;
        poll.registry()
            .register(&mut listener, LISTENER, Interest::READABLE)?;
        Ok(Connections {
            poll,
            events: Events::with_capacity(alloc, MOST_CLIENTS)?,
            listener,
            acceptable: true,
            is_full: false,
            reading: Vec::new(alloc),
            draining: Vec::new(alloc),
            most: MOST_CLIENTS,
            last: 0,
            batch: 0,
            seen: Instant::now(rt)?,
        })
    }

    // Whether something can be done at once for one that is there.
    fn is_pressing(&self) -> bool {
        self.reading.iter().any(|client| client.is_pressing())
            || self.draining.iter().any(|client| client.is_pressing())
    }

    // How long the poll may wait: not at all where something can be done at once, a tick while a client is there, and else as long as it takes.
    fn timeout(&self) -> Option<Duration> {
        if self.is_pressing() || (self.acceptable && !self.is_full) {
            Some(Duration::ZERO)
        } else if self.acceptable || !self.reading.is_empty() || !self.draining.is_empty() {
            Some(Duration::from_secs(TICK))
        } else {
            None
        }
    }

    // How much time has passed since the last call, a tick at most: no client is charged with the time that the program takes.
    fn elapsed(&mut self, clock: &impl Clock) -> io::Result<Duration> {
        let now = Instant::now(clock)?;
        let elapsed = now.duration_since(self.seen).min(Duration::from_secs(TICK));
        self.seen = now;
        Ok(elapsed)
    }

    // Waits so long until something happens, without a limit for as long as it takes, and marks the clients to whom it happened.
    fn poll_events(&mut self, timeout: Option<Duration>) -> io::Result<()> {
        self.poll.poll(&mut self.events, timeout)?;
        for event in self.events.iter() {
            if event.token() == LISTENER {
                self.acceptable = true;
            } else {
                wake(&mut self.reading, &mut self.draining, event.token());
            }
        }
        Ok(())
    }

    // How many received bytes are kept.
    fn received_bytes(&self) -> usize {
        let mut sum = 0usize;
        for client in self.reading.iter() {
            sum = sum.saturating_add(client.size());
        }
        sum
    }

    // How many bytes of answers are kept.
    fn unsent_bytes(&self) -> usize {
        let mut sum = 0usize;
        for client in self.draining.iter() {
            sum = sum.saturating_add(client.size());
        }
        sum
    }

    // Reads and writes what can be, and drops the clients that are done or have used up their time. The first one is always read.
    fn progress_all(&mut self, framing: &impl Framing, elapsed: Duration) {
        self.draining.retain_mut(|client| client.progress(elapsed));
        let mut room = true;
        let more = self.received_bytes() < MOST_RECEIVED;
        self.reading.retain_mut(|client| {
            let stays = client.progress(framing, room, elapsed);
            room = more;
            stays
        });
    }

    // Drops the client that has been there longest, of those of which more is wanted, or else of those that were answered. False where
    // there is none.
    fn evict(&mut self) -> bool {
        if let Some(at) = self.reading.iter().position(|client| !client.is_servable()) {
            self.reading.remove(at);
            return true;
        }
        if self.draining.is_empty() {
            return false;
        }
        self.draining.remove(0);
        true
    }

    // How many clients there are.
    fn count(&self) -> usize {
        self.reading.len().saturating_add(self.draining.len())
    }

    // Whether there is room for one more client, if need be after dropping others.
    fn make_room(&mut self) -> bool {
        for _ in 0..MOST_CLIENTS {
            if self.count() < self.most {
                return true;
            }
            if !self.evict() {
                return false;
            }
        }
        false
    }

    // The system has no descriptor for one more: some are left to the rest of the program while there are clients, and else one is waited for.
    fn leave_reserve(&mut self) {
        self.is_full = self.count() == 0;
        self.most = self.count().saturating_sub(RESERVE).max(1);
    }

    // Reads what a client has sent, and adds it where it stays; whether it can be served. The poll watches it only where more of it is wanted.
    fn admit(
        &mut self,
        alloc: Global,
        framing: &impl Framing,
        stream: UnixStream,
    ) -> io::Result<bool> {
        self.last = self.last.wrapping_add(1).max(1);
        let mut client = Reading::new(alloc, Watched::new(stream, Token(self.last)));
        if !client.progress(framing, true, Duration::ZERO) {
            return Ok(false);
        }
        let is_servable = client.is_servable();
        if !is_servable {
            client.watch(self.poll.registry())?;
        }
        self.reading.push(client)?;
        Ok(is_servable)
    }

    // Accepts clients until one can be served or no other is there. Where there is no room for one more they stay in the backlog.
    fn accept_some(&mut self, alloc: Global, framing: &impl Framing) -> io::Result<()> {
        if self.count() == 0 {
            self.most = MOST_CLIENTS;
        }
        self.is_full = false;
        for _ in 0..MOST_CLIENTS {
            if !self.acceptable {
                return Ok(());
            }
            self.is_full = self.is_full || !self.make_room();
            if self.is_full {
                return Ok(());
            }
            match self.listener.accept() {
                Ok((stream, _)) => {
                    if self.admit(alloc, framing, stream).unwrap_or(false) {
                        return Ok(());
                    }
                }
                Err(e) if e.kind() == ErrorKind::WouldBlock => self.acceptable = false,
                Err(e) if is_passing(&e) => {}
                Err(e) if is_no_room(&e) => self.leave_reserve(),
                Err(e) => return Err(e),
            }
        }
        Ok(())
    }

    // Waits so long until something happens, and does what can be done at once for the clients that are there.
    fn round(
        &mut self,
        clock: &impl Clock,
        framing: &impl Framing,
        timeout: Option<Duration>,
    ) -> io::Result<()> {
        self.poll_events(timeout)?;
        let elapsed = self.elapsed(clock)?;
        self.progress_all(framing, elapsed);
        self.batch = BATCH;
        Ok(())
    }

    // Accepts clients where none of those that are there can be served.
    fn look_for_servable(&mut self, alloc: Global, framing: &impl Framing) -> io::Result<()> {
        if self.reading.iter().any(|client| client.is_servable()) {
            return Ok(());
        }
        self.accept_some(alloc, framing)
    }

    // The first client that can be served, if there is one and no poll is due.
    fn take_servable(
        &mut self,
        alloc: Global,
        framing: &impl Framing,
    ) -> io::Result<Option<Serving>> {
        if self.batch == 0 {
            return Ok(None);
        }
        self.look_for_servable(alloc, framing)?;
        let Some(at) = self.reading.iter().position(|client| client.is_servable()) else {
            return Ok(None);
        };
        self.batch = self.batch.saturating_sub(1);
        Ok(Some(self.reading.remove(at).into_serving(alloc)))
    }

    /// The next client that can be served, which is waited for. The system's error where polling or accepting failed.
    pub fn next(
        &mut self,
        clock: &impl Clock,
        alloc: Global,
        framing: &impl Framing,
    ) -> io::Result<Serving> {
        for _ in 0..u64::MAX {
            if let Some(client) = self.take_servable(alloc, framing)? {
                return Ok(client);
            }
            let timeout = self.timeout();
            self.round(clock, framing, timeout)?;
        }
        Err(io::Error::from(ErrorKind::Other))
    }

    /// Whether a client can be served, after a look at all of them that waits for none. Also where that look failed, so that the
    /// next call of `next` finds out.
    pub fn has_servable(
        &mut self,
        clock: &impl Clock,
        alloc: Global,
        framing: &impl Framing,
    ) -> bool {
        if self.round(clock, framing, Some(Duration::ZERO)).is_err() {
            return true;
        }
        match self.look_for_servable(alloc, framing) {
            Ok(()) => self.reading.iter().any(|client| client.is_servable()),
            Err(_) => true,
        }
    }

    // Drops those that have taken nothing for longest, while too much is kept of answers.
    fn evict_unsent(&mut self) {
        for _ in 0..MOST_CLIENTS {
            if self.draining.len() < 2 || self.unsent_bytes() <= MOST_UNSENT {
                return;
            }
            self.draining.remove(0);
        }
    }

    /// Lets a client take the rest of its answer in the polls that follow.
    pub fn drain_client(&mut self, client: Serving) {
        let mut draining = client.into_draining();
        if !draining.progress(Duration::ZERO) {
            return;
        }
        let _ = draining.watch(self.poll.registry());
        let _ = self.draining.push(draining);
        self.evict_unsent();
    }

    /// Waits until each client has taken its answer or has used up its time. Those whose requests are read are dropped.
    pub fn drain_all(&mut self, clock: &impl Clock) -> io::Result<()> {
        self.reading.clear();
        for _ in 0..u64::MAX {
            if !self.draining.iter().any(|client| client.has_unsent()) {
                return Ok(());
            }
            let timeout = if self.is_pressing() { 0 } else { TICK };
            self.poll_events(Some(Duration::from_secs(timeout)))?;
            let elapsed = self.elapsed(clock)?;
            self.draining.retain_mut(|client| client.progress(elapsed));
        }
        Ok(())
    }
}
