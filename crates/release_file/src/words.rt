//! The words of a field.
ghost use Rattle.std.specs.Prelude.{ℕ, List, IfOk, MatchOption, map, string_bytes};
ghost use Rattle.toml.specs.View.{table_view};
ghost use Rattle.release_file.specs.Fields.{HasWords};

use crate::field::text_field;
use std::alloc::{AllocError, Global};
use toml::Table;
use toml_values::words_in;

/// The words of a field, None exactly where the field is no text with a word between its spaces. The only error is out
/// of memory.
pub fn words_field(
    alloc: Global,
    table: &Table,
    name: &str,
) -> Result<Option<Vec<String>>, AllocError>
    ensures { IfOk result (λ found. MatchOption found ((words : List (List ℕ)) → HasWords name.now (table_view table.now) words → ⊥)
        (λ words. HasWords name.now (table_view table.now) (map string_bytes words.items))) }
{
    let Some(text) = text_field(table, name)? else {
        return Ok(None);
    };
    let words = words_in(alloc, text.as_str())?;
    if words.is_empty() {
        Ok(None)
    } else {
        Ok(Some(words))
    }
}
