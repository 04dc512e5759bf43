//! Configuration files by their paths.
ghost use Rattle.std.specs.Prelude.{◌≡◌, OnOk, OnErr};
ghost use Rattle.settings_machine.specs.Step.{with_file};
ghost use Rattle.plain_machine.specs.Worlds.{files_by_path};

use key_names::Bytes;
use outside::Path;
use std::alloc::AllocError;
use std::collections::BTreeMap;

/// The path has these bytes from then on, or no file. The only error is out of memory, which changes nothing. It is
/// logarithmic.
#[tactic(auto, using(crate::proofs::PathMaps::path_maps))]
pub(crate) fn set_file(
    files: &mut BTreeMap<Path, Bytes>,
    path: Path,
    left: Option<Bytes>,
) -> Result<(), AllocError>
    ensures ok { OnOk result (files_by_path files.new ≡ with_file (files_by_path files.old) path left) }
    ensures err { OnErr result (files_by_path files.new ≡ files_by_path files.old) }
{
    match left {
        Some(bytes) => {
            files.insert(path, bytes)?;
        }
        None => {
            files.remove(&path);
        }
    }
    Ok(())
}
