//! The report of how a command ended.
ghost use Rattle.std.specs.Prelude.{◌≡◌, ◌≢◌, ◌⊎◌, Err, IsErrOf, codes};
ghost use Rattle.outside.specs.Told.{Moves};
ghost use Rattle.outside.specs.Faults.{Rose};
ghost use Rattle.outside.specs.Said.{IsSaid};
ghost use Rattle.command_outcome.specs.Ends.{Ends, Tells, TellsMemory};

use crate::Refusal;
use key_names::Bytes;
use outside::{Sink, say};
use std::alloc::Global;

/// The status where the output could not be written.
const CUT_SHORT: u8 = 12;

/// The status where it ran out of memory.
const OUT_OF_MEMORY: u8 = 1;

// Writes the text, and answers the status; 12 where it can't be written.
fn tell_text<O: Sink>(out: &mut O, status: u8, text: &[u8]) -> u8
    ensures told { Tells status text.now result (O.told out.old) (O.told out.new) }
    ensures fault { result ≢ status → Rose (O.faults out.old) (O.faults out.new) }
    ensures kept { result ≢ 12 → O.faults out.new ≡ O.faults out.old }
{
    match say(out, text) {
        Ok(()) => status,
        Err(_) => CUT_SHORT,
    }
}

// Writes that it ran out of memory.
fn tell_memory<O: Sink>(out: &mut O) -> u8
    ensures told { TellsMemory result (O.told out.old) (O.told out.new) }
    ensures line { Moves (O.told out.old) (O.told out.new) (IsSaid (codes "settings: memory\n")) ⊎ Rose (O.faults out.old) (O.faults out.new) }
{
    match say(out, b"settings: memory\n") {
        Ok(()) | Err(_) => OUT_OF_MEMORY,
    }
}

// Writes the line of a refusal other than out of memory.
fn tell_refusal<O: Sink>(alloc: Global, out: &mut O, refusal: &Refusal) -> u8
    requires other { refusal.now ≢ Refusal.Memory }
    ensures ends { Ends (Err refusal.now) result (O.told out.old) (O.told out.new) }
    ensures sink_fault { result ≡ 12 → Rose (O.faults out.old) (O.faults out.new) }
    ensures sink_faults { result ≢ 1 → result ≢ 12 → O.faults out.new ≡ O.faults out.old }
    ensures memory_line { result ≡ 1 → Moves (O.told out.old) (O.told out.new) (IsSaid (codes "settings: memory\n"))
        ⊎ Rose (O.faults out.old) (O.faults out.new) }
{
    match refusal.line(alloc) {
        Ok(line) => tell_text(out, refusal.status(), &line),
        Err(_) => tell_memory(out),
    }
}

/// Writes what a command printed, or the line of its refusal, and answers its status: 0 for what it printed, else that of the
/// refusal. It is 12 in place of any but 1 where the output fails, some of the text being written then, from the first on; and 1
/// where it ran out of memory for the line. Out of memory is 1 whatever the output does.
pub fn tell<O: Sink>(alloc: Global, out: &mut O, outcome: &Result<Bytes, Refusal>) -> u8
    ensures ends { Ends outcome.now result (O.told out.old) (O.told out.new) }
    ensures memory { IsErrOf outcome.now Refusal.Memory → result ≡ 1 }
    ensures sink_fault { result ≡ 12 → Rose (O.faults out.old) (O.faults out.new) }
    ensures sink_faults { result ≢ 1 → result ≢ 12 → O.faults out.new ≡ O.faults out.old }
    ensures memory_line { result ≡ 1 → Moves (O.told out.old) (O.told out.new) (IsSaid (codes "settings: memory\n"))
        ⊎ Rose (O.faults out.old) (O.faults out.new) }
{
    match outcome {
        Ok(text) => tell_text(out, 0, text.as_slice()),
        Err(Refusal::Memory) => tell_memory(out),
        Err(refusal) => tell_refusal(alloc, out, refusal),
    }
}
