//! Where the links of the store lead.
ghost use Rattle.std.specs.Prelude.{◌≡◌, ◌<◌, ◌^◌, [], length, codes, Some, option_map, IfOk, IfSome, IsErrOf, IsTrue};
ghost use Rattle.outside.specs.Names.{Names, is_name};
ghost use Rattle.outside.specs.History.{tree_of};
ghost use Rattle.outside.specs.Told.{WhereTold};
ghost use Rattle.outside.specs.Faults.{HasCauseOf};
ghost use Rattle.version_links.specs.Names.{store};
ghost use Rattle.version_links.specs.Chain.{link_at, bad, found, Resolves};
ghost use Rattle.version_links.specs.Steps.{extended, IsStuck, outcome_of};

use crate::number::number_behind;
use crate::store_path::store_path;
use crate::{LinkError, Version};
use outside::{Disk, Path};
use std::alloc::Global;

/// A data directory of the store.
#[derive(Debug, Drop)]
pub struct Place {
    /// The version that its name tells.
    pub version: Version,
    /// Its path.
    pub directory: Path,
}

// The text of the link with this name, and the number that it has after the name and the mark.
fn follow<D: Disk>(
    alloc: Global,
    disk: &mut D,
    name: &[u8],
    mark: u8,
) -> Result<(Vec<u8>, u64), LinkError>
    requires { IsTrue (is_name name.now) }
    ensures link { IfOk result (λ step. WhereTold (D.told disk.old) (λ h. link_at (tree_of h) name.now ≡ Some step.0.items)) }
    ensures text { IfOk result (λ step. step.0.items ≡ extended name.now mark step.1) }
    ensures fits { IfOk result (λ step. step.1 < 2 ^ 64) }
    ensures bad_link { (path : Names) → IsErrOf result (LinkError.BadLink path) → (path ≡ store name.now) × WhereTold (D.told disk.old)
        (λ h. IsStuck (tree_of h) name.now mark) }
    ensures same { D.told disk.new ≡ D.told disk.old }
    ensures cause { HasCauseOf LinkError.Failed (D.faults disk.old) (D.faults disk.new) result }
    ensures bad_without_fault { (path : Names) → IsErrOf result (LinkError.BadLink path) → D.faults disk.new ≡ D.faults disk.old }
{
    let path = store_path(alloc, name)?;
    let Some(text) = disk.read_link(alloc, &path)? else {
        return Err(LinkError::BadLink { path });
    };
    match number_behind(&text, name, mark) {
        Some(n) => Ok((text, n)),
        None => Err(LinkError::BadLink { path }),
    }
}

// The text of `current`, and the number that it has after the `v`. None exactly where `current` is no link.
fn first_step<D: Disk>(alloc: Global, disk: &mut D) -> Result<Option<(Vec<u8>, u64)>, LinkError>
    ensures link { IfOk result (λ found. WhereTold (D.told disk.old) (λ h. link_at (tree_of h) (codes "current") ≡ option_map (λ step. step.0.items) found)) }
    ensures text { IfOk result (λ found. IfSome found (λ step. step.0.items ≡ extended [] 118 step.1)) }
    ensures fits { IfOk result (λ found. IfSome found (λ step. step.1 < 2 ^ 64)) }
    ensures bad_link { (path : Names) → IsErrOf result (LinkError.BadLink path) → WhereTold (D.told disk.old) (λ h. Resolves (tree_of h) (bad path)) }
    ensures same { D.told disk.new ≡ D.told disk.old }
    ensures cause { HasCauseOf LinkError.Failed (D.faults disk.old) (D.faults disk.new) result }
    ensures bad_without_fault { (path : Names) → IsErrOf result (LinkError.BadLink path) → D.faults disk.new ≡ D.faults disk.old }
{
    let path = store_path(alloc, b"current")?;
    let Some(text) = disk.read_link(alloc, &path)? else {
        return Ok(None);
    };
    match number_behind(&text, b"", b'v') {
        Some(major) => Ok(Some((text, major))),
        None => Err(LinkError::BadLink { path }),
    }
}

// The data directory to which the links lead after `current`, whose text is that of this major version.
fn place_behind<D: Disk>(
    alloc: Global,
    disk: &mut D,
    text: &[u8],
    major: u64,
) -> Result<Place, LinkError>
    requires text { text.now ≡ extended [] 118 major }
    requires link { WhereTold (D.told disk.old) (λ h. link_at (tree_of h) (codes "current") ≡ Some text.now) }
    ensures ok { IfOk result (λ place. WhereTold (D.told disk.old) (λ h. Resolves (tree_of h) (found place.version place.directory))) }
    ensures two_names { IfOk result (λ place. length place.directory ≡ 2) }
    ensures bad_link { (path : Names) → IsErrOf result (LinkError.BadLink path) → WhereTold (D.told disk.old) (λ h. Resolves (tree_of h) (bad path)) }
    ensures same { D.told disk.new ≡ D.told disk.old }
    ensures cause { HasCauseOf LinkError.Failed (D.faults disk.old) (D.faults disk.new) result }
    ensures bad_without_fault { (path : Names) → IsErrOf result (LinkError.BadLink path) → D.faults disk.new ≡ D.faults disk.old }
{
    let (text, minor) = follow(alloc, disk, text, b'.')?;
    let (text, patch) = follow(alloc, disk, &text, b'.')?;
    let (text, _) = follow(alloc, disk, &text, b'_')?;
    Ok(Place {
        version: Version {
            major,
            minor,
            patch,
        },
        directory: store_path(alloc, &text)?,
    })
}

/// The data directory to which the links lead from `store/current`, with its version. It changes nothing.
///
/// None exactly where `store/current` is no link. `BadLink` exactly where a link of the chain is missing or its text
/// doesn't go on as it should, with the first such path; `Failed` where the disk failed; `Memory` where it ran
/// out of memory.
pub fn resolve<D: Disk>(alloc: Global, disk: &mut D) -> Result<Option<Place>, LinkError>
    ensures ok { IfOk result (λ found. WhereTold (D.told disk.old) (λ h. Resolves (tree_of h) (outcome_of found))) }
    ensures two_names { IfOk result (λ found. IfSome found (λ place. length place.directory ≡ 2)) }
    ensures bad_link { (path : Names) → IsErrOf result (LinkError.BadLink path) → WhereTold (D.told disk.old) (λ h. Resolves (tree_of h) (bad path)) }
    ensures same { D.told disk.new ≡ D.told disk.old }
    ensures cause { HasCauseOf LinkError.Failed (D.faults disk.old) (D.faults disk.new) result }
    ensures bad_without_fault { (path : Names) → IsErrOf result (LinkError.BadLink path) → D.faults disk.new ≡ D.faults disk.old }
{
    match first_step(alloc, disk)? {
        Some((text, major)) => Ok(Some(place_behind(alloc, disk, &text, major)?)),
        None => Ok(None),
    }
}
