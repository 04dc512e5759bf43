//! A door in memory.
ghost use Rattle.std.specs.Prelude.{◌≡◌, ◌<◌, ◌≤◌, ◌-◌, ◌^◌, true, false, None, Some, IsTrue, IsSome, length, map, reverse, IfOk, OnOk, OnErr};
ghost use Rattle.disk_memory.specs.Connection.{exchange_of, after_last};
ghost use Rattle.outside.specs.Exchange.{Hears, Says};
ghost use Rattle.outside.specs.Door.{DoorState, Accepts, Opens, LastBy, finished};
ghost use Rattle.outside.specs.Told.{Moves};
ghost use Rattle.outside.specs.Faults.{HasCause};

use crate::Input;
use crate::connection::Connection;
use outside::{Door, Failed};
use std::alloc::{AllocError, Global};

/// A door in memory, to which connections come one after another.
///
/// It keeps what was written to each connection. What finds no memory to be kept is a fault of its call.
#[derive(Drop)]
pub struct MemoryDoor {
    waiting: Vec<Input>,
    before: Vec<Connection>,
    last: Option<Connection>,
    accepts: u64,
    accept_fails: Option<u64>,
    // How many looks before each accept find nobody, and how many there were since the last one.
    absent: u64,
    looks: u64,
    ended: bool,
    broken: bool,
    busy: bool,
    faults: u64,
    ghost open: { IsTrue busy → IsSome last },
}

// Adds the last connection, if there is one, to those before it.
#[tactic(auto, using(crate::proofs::Doors::exchange_added))]
fn add_last(before: &mut Vec<Connection>, last: &mut Option<Connection>) -> Result<(), AllocError>
    ensures ok { OnOk result (reverse (map exchange_of before.new.items) ≡ after_last last.old (reverse (map exchange_of before.old.items))) }
    ensures none { OnOk result (last.new ≡ None) }
    ensures err { OnErr result (before.new.items ≡ before.old.items) }
    ensures same { OnErr result (last.new ≡ last.old) }
{
    before.reserve(1)?;
    match last.take() {
        Some(connection) => {
            before.push(connection).unwrap();
            Ok(())
        }
        None => Ok(()),
    }
}

impl MemoryDoor {
    ghost use Rattle.disk_memory.specs.Plan.{one_more};
    ghost use Rattle.std.specs.Prelude.{slice_get, option_map};
    ghost use Rattle.disk_memory.specs.Door.{inputs_of, exchanges_of, failing_at, IsUnused};

    /// A door to which these connections come, the first one first. No accept fails.
    pub fn of_inputs(alloc: Global, mut inputs: Vec<Input>) -> MemoryDoor
        ensures inputs { inputs_of result ≡ inputs.items }
        ensures unused { IsUnused result }
    {
        inputs.reverse();
        MemoryDoor {
            waiting: inputs,
            before: Vec::new(alloc),
            last: None,
            accepts: 0,
            accept_fails: None,
            absent: 0,
            looks: 0,
            ended: false,
            broken: false,
            busy: false,
            faults: 0,
        }
    }

    /// Makes the accept with this number fail, in place of one named before. Accepts are counted from 1.
    pub fn fail_accept(&mut self, number: u64)
        ensures { self.new ≡ failing_at number self.old }
    {
        self.accept_fails = Some(number);
    }

    /// Makes so many looks before each accept find nobody. Without this an accept always answers at once.
    pub fn keep_away(&mut self, looks: u64)
        ensures { self.new ≡ record self.old { absent = looks } }
    {
        self.absent = looks;
    }

    /// The bytes written to the connection with this number, or None exactly where it wasn't accepted. Connections are
    /// counted from 0.
    pub fn output(&self, connection: usize) -> Option<&[u8]>
        ensures { option_map (λ bytes. bytes.now) result ≡ option_map (λ e. e.written) (slice_get (reverse (exchanges_of self.now)) connection) }
    {
        if connection < self.before.len() {
            Some(self.before[connection].written())
        } else if connection == self.before.len() {
            Some(self.last.as_ref()?.written())
        } else {
            None
        }
    }

    // The accept has failed.
    fn refuse(&mut self) -> Failed
        ensures refused { self.new ≡ record self.old { broken = true; faults = one_more self.old.faults } }
        ensures later { self.old.faults ≤ self.new.faults }
    {
        self.broken = true;
        self.faults = self.faults.saturating_add(1);
        Failed
    }
}

#[tactic(auto, using(crate::proofs::Doors::last_goes_on))]
impl Door for MemoryDoor {
    ghost use Rattle.disk_memory.specs.Plan.{one_more};
    ghost use Rattle.disk_memory.specs.Door.{told, state, door_faults, KeepsWaiting, TakesInput, ReadsLast, WritesLast};

    ghost faults = { door_faults };

    ghost state = { state };

    ghost told = { told };

    fn is_awaited(&mut self) -> bool
        ensures same { state self.new ≡ state self.old }
        ensures told { told self.new ≡ told self.old }
        ensures faults { door_faults self.new ≡ door_faults self.old }
        ensures waiting { KeepsWaiting self.old self.new }
        ensures last { self.new.last ≡ self.old.last }
        ensures counted { self.new.looks ≡ one_more self.old.looks }
        ensures present { result ≡ true → self.old.absent < self.new.looks }
    {
        self.looks = self.looks.saturating_add(1);
        self.absent < self.looks
    }

    fn accept(&mut self) -> Result<bool, Failed>
        requires idle { (state self.old).busy ≡ false }
        requires room { (state self.old).accepted < 2 ^ 32 - 1 }
        ensures accepted { Accepts result (state self.old) (state self.new) }
        ensures opened { Moves (told self.old) (told self.new) (Opens result) }
        ensures cause { HasCause (door_faults self.old) (door_faults self.new) result }
        ensures taken { TakesInput self.old self.new result }
    {
        self.looks = 0;
        self.accepts = self.accepts.saturating_add(1);
        if self.accept_fails == Some(self.accepts) {
            return Err(self.refuse());
        }
        match add_last(&mut self.before, &mut self.last) {
            Ok(()) => {}
            Err(_) => return Err(self.refuse()),
        }
        let Some(input) = self.waiting.pop() else {
            self.ended = true;
            return Ok(false);
        };
        self.last = Some(Connection::new(*self.waiting.allocator(), input));
        self.busy = true;
        Ok(true)
    }

    fn read(&mut self, room: &mut [u8]) -> Result<usize, Failed>
        requires busy { (state self.old).busy ≡ true }
        requires room { 0 < length room.old }
        ensures same { state self.new ≡ state self.old }
        ensures bound { IfOk result (λ count. count ≤ length room.new) }
        ensures heard { Moves (told self.old) (told self.new) (LastBy (Hears room.new result)) }
        ensures cause { HasCause (door_faults self.old) (door_faults self.new) result }
        ensures last { ReadsLast room.new self.old self.new result }
        ensures waiting { KeepsWaiting self.old self.new }
    {
        let Some(last) = &mut self.last else {
            unreachable!()
        };
        let answer = last.read(room);
        if answer.is_err() {
            self.faults = self.faults.saturating_add(1);
        }
        answer
    }

    fn write(&mut self, piece: &[u8]) -> Result<usize, Failed>
        requires { (state self.old).busy ≡ true }
        ensures same { state self.new ≡ state self.old }
        ensures bound { IfOk result (λ count. count ≤ length piece.now) }
        ensures goes_on { IfOk result (λ count. 0 < length piece.now → 0 < count) }
        ensures said { Moves (told self.old) (told self.new) (LastBy (Says piece.now result)) }
        ensures cause { HasCause (door_faults self.old) (door_faults self.new) result }
        ensures last { WritesLast piece.now self.old self.new result }
        ensures waiting { KeepsWaiting self.old self.new }
    {
        let Some(last) = &mut self.last else {
            unreachable!()
        };
        let answer = last.write(piece);
        if answer.is_err() {
            self.faults = self.faults.saturating_add(1);
        }
        answer
    }

    fn finish(&mut self)
        requires { (state self.old).busy ≡ true }
        ensures done { state self.new ≡ finished (state self.old) }
        ensures same { told self.new ≡ told self.old }
        ensures faults { door_faults self.new ≡ door_faults self.old }
        ensures waiting { KeepsWaiting self.old self.new }
        ensures last { self.new.last ≡ self.old.last }
    {
        self.busy = false;
    }
}
