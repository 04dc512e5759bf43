//! Texts are written to a sink.
ghost use Rattle.std.specs.Prelude.{OnOk};
ghost use Rattle.outside.specs.Told.{Moves};
ghost use Rattle.outside.specs.Faults.{HasCause};
ghost use Rattle.outside.specs.Said.{IsSaid, IsSaidInPart};

use crate::{Failed, Sink};

/// Writes the bytes. `Failed` where the sink fails; some of them are then written, from the first on. It takes no memory.
#[tactic(auto, using(crate::proofs::Sayings::sayings))]
pub fn say<O: Sink>(out: &mut O, bytes: &[u8]) -> Result<(), Failed>
    ensures said { OnOk result (Moves (O.told out.old) (O.told out.new) (IsSaid bytes.now)) }
    ensures in_part { Moves (O.told out.old) (O.told out.new) (IsSaidInPart bytes.now) }
    ensures cause { HasCause (O.faults out.old) (O.faults out.new) result }
{
    let mut rest = bytes;
    while !rest.is_empty() {
        let taken = out.write(rest)?;
        rest = &rest[taken..];
    }
    Ok(())
}
