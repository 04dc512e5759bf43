//! The names of data directories, as they are read.
ghost use Rattle.std.specs.Prelude.{◌≡◌, ◌≢◌, IfSome, MatchOption};
ghost use Rattle.version_links.specs.Names.{Target, IsTarget, numbers, name_of};

use crate::Version;
use crate::number::first_number;

/// The version and the id of the data directory with this name in the folder `store`, or None exactly where no data
/// directory has it. It takes no memory.
pub fn directory_of(name: &[u8]) -> Option<(Version, u64)>
    ensures exact { MatchOption result ((target : Target) → IsTarget target → name.now ≢ name_of (numbers target))
        (λ found. name.now ≡ name_of (numbers (record { version = found.0; id = found.1 }))) }
    ensures fits { IfSome result (λ found. IsTarget (record { version = found.0; id = found.1 })) }
{
    let (major, rest) = first_number(name, b'v')?;
    let (minor, rest) = first_number(rest, b'.')?;
    let (patch, rest) = first_number(rest, b'.')?;
    let (id, rest) = first_number(rest, b'_')?;
    if !rest.is_empty() {
        return None;
    }
    Some((
        Version {
            major,
            minor,
            patch,
        },
        id,
    ))
}
