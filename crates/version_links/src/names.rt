//! The names of a data directory and of the links that lead to it.
ghost use Rattle.std.specs.Prelude.{◌≡◌, IfOk};
ghost use Rattle.version_links.specs.Names.{IsTarget, directory};

use crate::Version;
use crate::link::{Link, link_of, numbered_link};
use crate::printing::with_number;
use crate::store_path::store_path;
use outside::Path;
use std::alloc::{AllocError, Global};
use std::marker::Model;

/// A data directory with the four links that lead to it, their paths and their texts. Only
/// [`fresh_dir`](crate::fresh_dir) makes one.
///
/// Contracts see it as the version and the id of the directory.
#[derive(Debug, Drop)]
pub struct Names {
    version: Version,
    id: u64,
    directory: Path,
    pub(crate) patch: Link,
    pub(crate) minor: Link,
    pub(crate) major: Link,
    pub(crate) current: Link,
}

impl Model for Names {
    ghost use Rattle.version_links.specs.Names.{Target};
    ghost use Rattle.version_links.specs.Links.{AreNames};

    ghost Value = { Target };

    ghost view = { λ n. record { version = n.version; id = n.id } };

    ghost invariant = { λ n. AreNames (record { version = n.version; id = n.id }) n.directory n.patch n.minor n.major n.current };
}

impl Names {
    /// The names of the data directory with this version and id.
    pub(crate) fn of(alloc: Global, version: &Version, id: u64) -> Result<Names, AllocError>
        ensures { IfOk result (λ names. names ≡ record { version = version.now; id = id }) }
    {
        let (a, b, c) = (version.major, version.minor, version.patch);
        let first = with_number(alloc, b"", b'v', a)?;
        let current = link_of(alloc, b"current", first)?;
        let major = numbered_link(alloc, &current.text, b'.', b)?;
        let minor = numbered_link(alloc, &major.text, b'.', c)?;
        let patch = numbered_link(alloc, &minor.text, b'_', id)?;
        Ok(Names {
            version: *version,
            id,
            directory: store_path(alloc, &patch.text)?,
            patch,
            minor,
            major,
            current,
        })
    }

    /// The path of the data directory. It takes no memory.
    pub fn directory(&self) -> &Path
        ensures path { result.now ≡ directory self.now }
        ensures valid { IsTarget self.now }
    {
        &self.directory
    }
}
