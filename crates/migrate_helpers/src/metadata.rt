//! The metadata of a content as a migration leaves it.
ghost use Rattle.std.specs.Prelude.{◌≡◌, OnOk};
ghost use Rattle.migrate_helpers.specs.Mapped.{without_names, name_replaced};

use json_trees::Scalar;
use key_names::{Key, Text};
use settings_tree::Content;
use std::alloc::AllocError;

/// Takes the metadata of these names at the key. It takes no memory.
pub(crate) fn remove_names(content: &mut Content, key: &Key, names: &[Text])
    ensures { content.new ≡ record content.old { metadata = without_names content.old.metadata key.now names.now } }
{
    for name in names {
        content.take_meta(key, name.as_str().as_bytes());
    }
}

/// Puts the new metadata at the key and the name, where the old is there. The only error is out
/// of memory.
pub(crate) fn replace_name(
    content: &mut Content,
    key: &Key,
    name: &Text,
    old: &Scalar,
    new: &Scalar,
) -> Result<(), AllocError>
    ensures { OnOk result (content.new ≡ record content.old { metadata = name_replaced content.old.metadata key.now name.now old.now new.now }) }
{
    match content.metadata().value(key, name.as_str().as_bytes()) {
        Some(value) if value == old => content.put_meta(key.copy()?, name.copy()?, new.copy()?),
        _ => Ok(()),
    }
}
