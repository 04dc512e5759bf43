//! Runs over devices in memory.
use crate::RunWords;
use crate::coming::Coming;
use crate::requests::inputs;
use crate::shown::{tell_programs, tell_replies};
use disk_memory::{MemoryDisk, MemoryDoor, MemorySink, MemorySpawner};
use row_files::{Given, text_of, words_of};
use settings_run::run;
use std::io::{self, Write};
use std::mem;

// Makes the run over these devices, and tells what is printed and the replies. The exit status.
fn over(
    out: &mut Vec<u8>,
    disk: &mut MemoryDisk,
    spawner: &mut MemorySpawner,
    log: &mut MemorySink,
    coming: &Coming,
    given: Given<'_>,
) -> io::Result<u8> {
    let alloc = *out.allocator();
    let words = words_of(alloc, given.words()?, ' ')?;
    let inputs = inputs(alloc, coming, text_of(given.below())?)?;
    let came = inputs.len();
    let mut door = MemoryDoor::of_inputs(alloc, inputs);
    door.fail_accept(coming.accept);
    door.keep_away(coming.absent);
    let mut sink = MemorySink::fail_from(alloc, coming.output);
    let status = run(alloc, &words, disk, spawner, &mut door, &mut sink, log);
    out.extend_from_slice(sink.written())?;
    tell_replies(out, &door, came)?;
    Ok(status)
}

impl RunWords {
    /// Tells what the run of the words comes to, with the requests of the lines below them.
    pub(crate) fn run(
        &mut self,
        out: &mut Vec<u8>,
        disk: &mut MemoryDisk,
        given: Given<'_>,
    ) -> io::Result<()> {
        let alloc = *out.allocator();
        let mut coming = mem::replace(&mut self.coming, Coming::nothing(alloc));
        let mut spawner = coming.spawner(alloc)?;
        let mut log = MemorySink::fail_from(alloc, coming.log);
        let status = over(out, disk, &mut spawner, &mut log, &coming, given)?;
        self.log = log.written().to_vec(alloc)?;
        self.given = tell_programs(out, &spawner)?;
        if status != 0 {
            writeln!(out, "[{status}]")?;
        }
        Ok(())
    }
}
