//! Why rows are no type table.

use std::alloc::{AllocError, AllocFailed};
use thiserror::Error;

/// Why rows are no type table. A bad row comes before rows that meet.
#[derive(Debug, Drop, Error)]
pub enum RowsError {
    /// The row at this index, counted from 0, isn't of the forms that rows have; no earlier one is so.
    #[error("row {index} is no row")]
    BadRow {
        /// The index of the row.
        index: usize,
    },
    /// The rows at these indices meet. Of all pairs that do, it has the least second row, and of these
    /// the least first one.
    #[error("rows {first} and {second} meet")]
    Meet {
        /// The index of the earlier row.
        first: usize,
        /// The index of the later row.
        second: usize,
    },
    /// Out of memory. It says nothing of the rows.
    #[error("memory was wanting")]
    Memory,
}

impl From<AllocError> for RowsError {
    ghost use Rattle.std.specs.Prelude.{◌≡◌};
    ghost use Rattle.typed_settings.specs.declared.rows_error.RowsError.TheVariants.{Memory};

    ghost from_gives = { λ _ e. e ≡ Memory };

    fn from(_: AllocError) -> Self {
        RowsError::Memory
    }
}

impl<T: Drop> From<AllocFailed<T>> for RowsError {
    ghost use Rattle.std.specs.Prelude.{◌≡◌};
    ghost use Rattle.typed_settings.specs.declared.rows_error.RowsError.TheVariants.{Memory};

    ghost from_gives = { λ _ e. e ≡ Memory };

    fn from(_: AllocFailed<T>) -> Self {
        RowsError::Memory
    }
}
