//! Which keys the image says, and which the store.
ghost use Rattle.std.specs.Prelude.{◌≡◌, [], ◌∷◌};
ghost use Rattle.key_names.specs.Key.{is_prefix};
ghost use Rattle.settings_machine.specs.Typed.{is_of_image};
ghost use Rattle.settings_machine.specs.Opening.{is_of_store};

use key_names::Key;

// Whether the key begins with this segment.
fn begins(key: &Key, segment: &[u8]) -> bool
    ensures { result ≡ is_prefix (segment.now ∷ []) key.now }
{
    key.len() > 0 && key.segment(0) == segment
}

/// Whether the key is that of a service or of a configuration file.
pub fn is_of_image(key: &Key) -> bool
    ensures { result ≡ is_of_image key.now }
{
    begins(key, b"services") || begins(key, b"configuration-files")
}

/// Whether it is another key: the store says what is there.
pub fn is_of_store(key: &Key) -> bool
    ensures { result ≡ is_of_store key.now }
{
    !is_of_image(key)
}
