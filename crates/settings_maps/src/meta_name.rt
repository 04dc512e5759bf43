//! Names of metadata.
ghost use Rattle.std.specs.Prelude.{◌≡◌};
ghost use Rattle.settings_maps.specs.TxName.{is_meta_name};

use key_names::are_bare;

/// Whether the bytes are a metadata name: 1 to 127 bare characters. It takes no memory.
pub fn is_meta_name(bytes: &[u8]) -> bool
    ensures { result ≡ is_meta_name bytes.now }
{
    !bytes.is_empty() && bytes.len() <= 127 && are_bare(bytes)
}
