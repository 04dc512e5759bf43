//! What holds of the links of every tree, and of all versions.
ghost use Rattle.std.specs.Prelude.{◌≡◌};
ghost use Rattle.version_links.specs.Laws.{ResolvesToOne, AlwaysResolves};
ghost use Rattle.version_links.specs.Versions.{version_cmp};
ghost use Rattle.version_links.specs.declared.version.Version.{Version};

use crate::Version;

/// The laws that make the outcome of a tree's links a function of the tree: there is one for each tree, and no other.
/// And versions are ordered by their numbers, the major one first. It does nothing.
pub fn laws()
    ensures one { ResolvesToOne }
    ensures always { AlwaysResolves }
    ensures ordered { (one other : Version) → ⟦<Version as Ord>⟧.cmp one other ≡ version_cmp one other }
{}
