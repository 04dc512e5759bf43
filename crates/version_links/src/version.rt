//! Versions of three numbers.
ghost use Rattle.std.specs.Prelude.{◌≡◌, IfOk};
ghost use Rattle.version_links.specs.Versions.{version_of};

use std::alloc::{AllocError, Global};
use std::fmt;

/// A version of three numbers, ordered by its numbers: the major one first. It is shown as in `1.5.2`.
#[derive(Clone, Copy, Debug, Drop, PartialEq, Eq, PartialOrd, Ord)]
pub struct Version {
    /// The first number.
    pub major: u64,
    /// The second number.
    pub minor: u64,
    /// The third number.
    pub patch: u64,
}

impl Version {
    /// The version that the text is by Semantic Versioning 2.0.0, as the crate `semver` reads it.
    ///
    /// None exactly where `semver` doesn't read the text, or a pre-release or build part is there. A text of three
    /// numbers takes no memory, and none of the others matters, so it never runs out of memory.
    pub fn read(alloc: Global, text: &str) -> Result<Option<Version>, AllocError>
        ensures { IfOk result (λ found. found ≡ version_of text.now) }
    {
        match semver::Version::parse(alloc, text) {
            Ok(read) if read.pre.is_empty() && read.build.is_empty() => Ok(Some(Version {
                major: read.major,
                minor: read.minor,
                patch: read.patch,
            })),
            Ok(_) | Err(_) => Ok(None),
        }
    }
}

impl fmt::Display for Version {
    ghost use Rattle.std.specs.Prelude.{Some};
    ghost use Rattle.version_links.specs.Versions.{version_text};

    ghost output = { λ v. Some (version_text v) };

    fn fmt<W: fmt::Write>(&self, f: &mut fmt::Formatter<W>) -> fmt::Result {
        let (major, minor, patch) = (self.major, self.minor, self.patch);
        write!(f, "{major}.{minor}.{patch}")
    }
}
