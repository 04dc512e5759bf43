//! The table that a text is.
ghost use Rattle.std.specs.Prelude.{◌≡◌, IfOk, option_map};
ghost use Rattle.toml.specs.View.{table_view};
ghost use Rattle.toml_values.specs.Document.{table_of};

use std::alloc::{AllocError, Global};
use toml::Table;

/// The table that the bytes are, None exactly where they aren't TOML in UTF-8. The only error is out of memory. It takes
/// time linear in the bytes, and for each entry a logarithmic step in the number of those next to it.
pub fn table_of(alloc: Global, text: &[u8]) -> Result<Option<Table>, AllocError>
    ensures { IfOk result (λ table. option_map (λ t. table_view t) table ≡ table_of text.now) }
{
    match toml::table_from_slice(alloc, text) {
        Ok(table) => Ok(Some(table)),
        Err(error) => {
            if error.is_memory() {
                Err(AllocError)
            } else {
                Ok(None)
            }
        }
    }
}
