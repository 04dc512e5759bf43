//! The order of versions.
ghost use Rattle.std.specs.Prelude.{◌≡◌, ◌↔◌, IsTrue};
ghost use Rattle.release_file.specs.Order.{is_before, is_upto};

use version_links::Version;

/// Whether the first version is below the second.
pub fn is_before(one: &Version, other: &Version) -> bool
    ensures { result ≡ is_before one.now other.now }
{
    one < other
}

/// Whether the first version is not beyond the second.
pub fn is_upto(one: &Version, other: &Version) -> bool
    ensures { result ≡ is_upto one.now other.now }
{
    one <= other
}

/// Whether the two are one.
pub fn is_same(one: &Version, other: &Version) -> bool
    ensures { IsTrue result ↔ (one.now ≡ other.now) }
{
    one == other
}
