//! The children of a key that are still to come.
ghost use Rattle.std.specs.Prelude.{◌≡◌, IsTrue, false};
ghost use Rattle.key_names.specs.Key.{is_prefix};
ghost use Rattle.template_eval.specs.Node.{os_path};

use key_names::Key;
use settings_tree::Scalar;
use std::collections::btree_map::Range;

/// The children of a key that the values past another give: the other is the parent itself, or
/// begins with it. The parent doesn't begin with `os`, below which no values are seen.
#[derive(Drop)]
pub struct Children<'a> {
    pub parent: &'a Key,
    pub after: &'a Key,
    /// The entries past `after`, where nothing is laid over the live values: a child is one step of
    /// them.
    pub ahead: Option<Range<'a, Key, Scalar>>,
    ghost begins: { IsTrue (is_prefix parent.now after.now) },
    ghost outside: { is_prefix os_path parent.now ≡ false },
}
