//! The rows that are given as texts.
ghost use Rattle.std.specs.Prelude.{◌≡◌, ◌≢◌, IfOk, Err};
ghost use Rattle.typed_settings.specs.Faults.{HasFault};
ghost use Rattle.typed_settings.specs.Row.{AreSpelled};
ghost use Rattle.typed_settings.specs.declared.rows_error.RowsError.{RowsError};

use crate::reading::row_of;
use crate::row::Row;
use crate::rows_error::RowsError;
use key_names::Text;
use std::alloc::Global;

/// The rows that the texts spell, one each. The errors are `BadRow` at the first texts that spell none,
/// and out of memory.
pub fn rows_of(alloc: Global, texts: &[(Text, Text)]) -> Result<Vec<Row>, RowsError>
    ensures rows { IfOk result (λ rows. AreSpelled texts.now rows.items) }
    ensures fault { (fault : RowsError) → result ≡ Err fault → fault ≢ RowsError.Memory
        → HasFault texts.now fault }
{
    let mut rows = Vec::new(alloc);
    for (index, texts) in texts.iter().enumerate() {
        match row_of(alloc, &texts.0, &texts.1)? {
            Some(row) => rows.push(row)?,
            None => return Err(RowsError::BadRow { index }),
        }
    }
    Ok(rows)
}
