//! Owed keys are compared.
ghost use Rattle.std.specs.Prelude.{◌≡◌, ◌↔◌, IsTrue};

use key_names::Key;
use settings_tree::Owed;

fn are_same(keys: &[Key], others: &[Key]) -> bool
    ensures { IsTrue result ↔ (keys.now ≡ others.now) }
{
    keys == others
}

/// Whether the same keys are owed. It takes a step for each of them and no memory.
pub(crate) fn is_same(owed: &Owed, other: &Owed) -> bool
    ensures { IsTrue result ↔ (owed.now ≡ other.now) }
{
    match (owed, other) {
        (Owed::All, Owed::All) => true,
        (Owed::Keys(keys), Owed::Keys(others)) => are_same(keys.as_slice(), others.as_slice()),
        _ => false,
    }
}
