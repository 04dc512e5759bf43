//! A sink in memory.
ghost use Rattle.std.specs.Prelude.{◌≡◌, ◌<◌, ◌≤◌, ◌+◌, ◌-◌, ◌^◌, [], length, IfOk, OnErr, IsErr};
ghost use Rattle.outside.specs.Sink.{Takes};
ghost use Rattle.outside.specs.Told.{Moves};
ghost use Rattle.outside.specs.Faults.{HasCause};

use outside::{Failed, Sink};
use std::alloc::Global;

/// A sink in memory, which takes a number of bytes and then fails.
#[derive(Drop)]
pub struct MemorySink {
    written: Vec<u8>,
    limit: u64,
    faults: u64,
}

impl MemorySink {
    ghost use Rattle.disk_memory.specs.Sink.{written_of, limit_of, sink_faults};

    /// A sink that takes all that is written.
    pub fn new(alloc: Global) -> MemorySink
        ensures written { written_of result ≡ [] }
        ensures limit { limit_of result ≡ 2 ^ 64 - 1 }
        ensures faults { sink_faults result ≡ 0 }
    {
        MemorySink::fail_from(alloc, u64::MAX)
    }

    /// A sink that takes so many bytes and then fails at every call.
    pub fn fail_from(alloc: Global, byte: u64) -> MemorySink
        ensures written { written_of result ≡ [] }
        ensures limit { limit_of result ≡ byte }
        ensures faults { sink_faults result ≡ 0 }
    {
        MemorySink {
            written: Vec::new(alloc),
            limit: byte,
            faults: 0,
        }
    }

    /// The bytes that it took, in order.
    pub fn written(&self) -> &[u8]
        ensures { result.now ≡ written_of self.now }
    {
        &self.written
    }
}

impl Sink for MemorySink {
    ghost use Rattle.std.specs.Prelude.{Some};
    ghost use Rattle.disk_memory.specs.Sink.{written_of, limit_of, sink_faults, room_for};

    ghost faults = { sink_faults };

    ghost told = { λ s. Some (written_of s) };

    fn write(&mut self, piece: &[u8]) -> Result<usize, Failed>
        ensures taken { Moves (Some (written_of self.old)) (Some (written_of self.new)) (Takes piece.now result) }
        ensures bound { IfOk result (λ count. count ≤ length piece.now) }
        ensures goes_on { IfOk result (λ count. 0 < length piece.now → 0 < count) }
        ensures cause { HasCause (sink_faults self.old) (sink_faults self.new) result }
        ensures limit { limit_of self.new ≡ limit_of self.old }

        // It takes all that it has room for, and fails at every call once it has taken its bytes.
        ensures most { IfOk result (λ count. count ≡ room_for self.old piece.now) }
        ensures full { limit_of self.old ≤ length (written_of self.old) → IsErr result }
    {
        let room = self.limit.saturating_sub(self.written.len() as u64);
        let count = room.min(piece.len() as u64) as usize;
        if room == 0 || self.written.extend_from_slice(&piece[..count]).is_err() {
            self.faults = self.faults.saturating_add(1);
            return Err(Failed);
        }
        Ok(count)
    }
}
