//! How a part of a document is refused.
ghost use Rattle.toml_values.specs.Refused.{IsAt};

use key_names::Text;
use std::alloc::{AllocError, AllocFailed, Global};

/// A fault and where it is, or out of memory. The kinds of faults are those of the document that is read.
#[derive(Debug, Drop)]
pub enum LocatedFault<K> {
    /// The fault of this kind, at this place: a name, or a path of names.
    Fault(K, Text),
    /// Out of memory.
    Memory,
}

impl<K> From<AllocError> for LocatedFault<K> {
    ghost use Rattle.std.specs.Prelude.{◌≡◌};
    ghost use Rattle.toml_values.specs.declared.located_fault.LocatedFault.TheVariants.{Memory};

    ghost from_gives = { λ _ e. e ≡ Memory };

    fn from(_: AllocError) -> Self {
        LocatedFault::Memory
    }
}

impl<K, T: Drop> From<AllocFailed<T>> for LocatedFault<K> {
    ghost use Rattle.std.specs.Prelude.{◌≡◌};
    ghost use Rattle.toml_values.specs.declared.located_fault.LocatedFault.TheVariants.{Memory};

    ghost from_gives = { λ _ e. e ≡ Memory };

    fn from(_: AllocFailed<T>) -> Self {
        LocatedFault::Memory
    }
}

/// The refusal of this kind at this place, or `Memory` where it runs out of memory. It takes time linear in the place.
pub fn refused<K: Drop>(alloc: Global, kind: K, at: &str) -> LocatedFault<K>
    ensures { IsAt kind at.now result }
{
    match Text::from_str(alloc, at) {
        Ok(at) => LocatedFault::Fault(kind, at),
        Err(AllocError) => LocatedFault::Memory,
    }
}
