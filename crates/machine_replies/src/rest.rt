//! Copies of a machine.
ghost use Rattle.std.specs.Prelude.{◌≡◌, IfOk};

use key_names::Bytes;
use outside::Path;
use plain_machine::PlainMachine;
use settings_machine::Job;
use std::alloc::{AllocError, Global};
use std::collections::BTreeMap;

fn copy_of_files(
    alloc: Global,
    files: &BTreeMap<Path, Bytes>,
) -> Result<BTreeMap<Path, Bytes>, AllocError> {
    let mut copy = BTreeMap::new(alloc);
    for (path, bytes) in files.iter() {
        copy.insert(path.copy()?, bytes.copy()?)?;
    }
    Ok(copy)
}

/// A machine with the same store and files, which runs no job and has run no program.
pub(crate) fn at_rest(alloc: Global, machine: &PlainMachine) -> Result<PlainMachine, AllocError>
    ensures { IfOk result (λ copy. copy.held ≡ machine.now.held) }
{
    let etc = copy_of_files(alloc, &machine.etc)?;
    let held = machine.held.copy()?;
    Ok(PlainMachine {
        version: machine.version,
        held,
        job: Job::Idle,
        etc,
        runs: Vec::new(alloc),
    })
}
