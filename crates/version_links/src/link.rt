//! Links of the store.
ghost use Rattle.std.specs.Prelude.{IfOk, IsTrue};
ghost use Rattle.outside.specs.Names.{is_name};
ghost use Rattle.version_links.specs.Links.{IsLink};
ghost use Rattle.version_links.specs.Steps.{extended};

use crate::printing::with_number;
use crate::store_path::store_path;
use outside::Path;
use std::alloc::{AllocError, Global};

/// A link of the store: where it is, and its text.
#[derive(Debug, Drop)]
pub struct Link {
    /// Where it is.
    pub path: Path,
    /// Its text.
    pub text: Vec<u8>,
}

/// The link with this name and text.
pub fn link_of(alloc: Global, name: &[u8], text: Vec<u8>) -> Result<Link, AllocError>
    requires { IsTrue (is_name name.now) }
    ensures { IfOk result (λ link. IsLink link name.now text.items) }
{
    let path = store_path(alloc, name)?;
    Ok(Link { path, text })
}

/// The link with this name, whose text is the name with the mark and the number after it.
pub fn numbered_link(alloc: Global, name: &[u8], mark: u8, n: u64) -> Result<Link, AllocError>
    requires { IsTrue (is_name name.now) }
    ensures { IfOk result (λ link. IsLink link name.now (extended name.now mark n)) }
{
    let text = with_number(alloc, name, mark, n)?;
    link_of(alloc, name, text)
}
