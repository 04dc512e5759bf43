//! A link in memory.
ghost use Rattle.std.specs.Prelude.{◌≡◌, ◌<◌, ◌≤◌, true, length, IfOk, OnOk, OnErr};
ghost use Rattle.outside.specs.Exchange.{Hears, Says};
ghost use Rattle.outside.specs.Told.{Moves};
ghost use Rattle.outside.specs.Faults.{HasCause};

use crate::Input;
use crate::connection::Connection;
use outside::{Failed, Link};
use std::alloc::Global;

/// A link in memory, over one connection.
///
/// It keeps what was written. What finds no memory to be kept is a fault of its call.
#[derive(Drop)]
pub struct MemoryLink {
    connection: Connection,
    connected: bool,
    connects: u64,
    connect_fails: Option<u64>,
    faults: u64,
}

impl MemoryLink {
    ghost use Rattle.outside.specs.Exchange.{fresh};
    ghost use Rattle.disk_memory.specs.Pieces.{joined};
    ghost use Rattle.disk_memory.specs.Connection.{IsPlanned};
    ghost use Rattle.disk_memory.specs.Link.{exchange_of_link, connection_of, failing_at, IsUnused};

    /// A link whose server answers this. No connect fails.
    pub fn of_input(alloc: Global, input: Input) -> MemoryLink
        ensures exchange { exchange_of_link result ≡ fresh (joined input.pieces.items) }
        ensures unused { IsUnused result }
        ensures planned { IsPlanned input (connection_of result) }
    {
        MemoryLink {
            connection: Connection::new(alloc, input),
            connected: false,
            connects: 0,
            connect_fails: None,
            faults: 0,
        }
    }

    /// Makes the connect with this number fail, in place of one named before. Connects are counted from 1.
    pub fn fail_connect(&mut self, number: u64)
        ensures { self.new ≡ failing_at number self.old }
    {
        self.connect_fails = Some(number);
    }

    /// The bytes that were written.
    pub fn output(&self) -> &[u8]
        ensures { result.now ≡ (exchange_of_link self.now).written }
    {
        self.connection.written()
    }
}

impl Link for MemoryLink {
    ghost use Rattle.disk_memory.specs.Connection.{GivesNext, TakesAll, CountsRead, CountsWrite};
    ghost use Rattle.disk_memory.specs.Link.{told, is_connected, link_faults, connection_of, CountsConnect, KeepsConnects};

    ghost faults = { link_faults };

    ghost connected = { is_connected };

    ghost told = { told };

    fn connect(&mut self) -> Result<(), Failed>
        ensures connected { OnOk result (is_connected self.new ≡ true) }
        ensures refused { OnErr result (is_connected self.new ≡ is_connected self.old) }
        ensures same { told self.new ≡ told self.old }
        ensures cause { HasCause (link_faults self.old) (link_faults self.new) result }
        ensures counted { CountsConnect self.old self.new result }
    {
        self.connects = self.connects.saturating_add(1);
        if self.connect_fails == Some(self.connects) {
            self.faults = self.faults.saturating_add(1);
            return Err(Failed);
        }
        self.connected = true;
        Ok(())
    }

    fn read(&mut self, room: &mut [u8]) -> Result<usize, Failed>
        requires connected { is_connected self.old ≡ true }
        requires room { 0 < length room.old }
        ensures same { is_connected self.new ≡ is_connected self.old }
        ensures bound { IfOk result (λ count. count ≤ length room.new) }
        ensures heard { Moves (told self.old) (told self.new) (Hears room.new result) }
        ensures cause { HasCause (link_faults self.old) (link_faults self.new) result }
        ensures next { GivesNext room.new (connection_of self.old) result }
        ensures counted { CountsRead (connection_of self.old) (connection_of self.new) }
        ensures connects { KeepsConnects self.old self.new }
    {
        let answer = self.connection.read(room);
        if answer.is_err() {
            self.faults = self.faults.saturating_add(1);
        }
        answer
    }

    fn write(&mut self, piece: &[u8]) -> Result<usize, Failed>
        requires { is_connected self.old ≡ true }
        ensures same { is_connected self.new ≡ is_connected self.old }
        ensures bound { IfOk result (λ count. count ≤ length piece.now) }
        ensures goes_on { IfOk result (λ count. 0 < length piece.now → 0 < count) }
        ensures said { Moves (told self.old) (told self.new) (Says piece.now result) }
        ensures cause { HasCause (link_faults self.old) (link_faults self.new) result }
        ensures all { TakesAll piece.now (connection_of self.old) result }
        ensures counted { CountsWrite (connection_of self.old) (connection_of self.new) }
        ensures connects { KeepsConnects self.old self.new }
    {
        let answer = self.connection.write(piece);
        if answer.is_err() {
            self.faults = self.faults.saturating_add(1);
        }
        answer
    }
}
