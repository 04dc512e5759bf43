//! Paths of the store.
ghost use Rattle.std.specs.Prelude.{◌≡◌, IfOk, IsTrue};
ghost use Rattle.outside.specs.Names.{is_name};
ghost use Rattle.version_links.specs.Names.{store};

use outside::{Name, Path};
use std::alloc::{AllocError, Global};

/// The path of this name in the folder `store`, or out of memory.
pub fn store_path(alloc: Global, name: &[u8]) -> Result<Path, AllocError>
    requires { IsTrue (is_name name.now) }
    ensures { IfOk result (λ path. path ≡ store name.now) }
{
    let mut path = Path::root(alloc);
    path.push_name(Name::of(b"store".to_vec(alloc)?))?;
    path.push_name(Name::of(name.to_vec(alloc)?))?;
    Ok(path)
}
