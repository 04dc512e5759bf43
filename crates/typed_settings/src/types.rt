//! The type table.
ghost use Rattle.std.specs.Prelude.{◌≡◌, ◌≢◌, ◌↔◌, ◌++◌, List, length, All, IfOk, OnOk, IsTrue, Err, IsPermutation};
ghost use Rattle.typed_settings.specs.Order.{IsTable};
ghost use Rattle.typed_settings.specs.Faults.{HasFault, IsIllTyped, IsFault, IsNoFault};
ghost use Rattle.typed_settings.specs.Row.{IsTableOf, IsOfSettings, AreApart, built_in, IsKnown, IsTyped, IsReached, HasOneRow, IsPrefixFree};
ghost use Rattle.typed_settings.specs.declared.row.Row.{Row};
ghost use Rattle.typed_settings.specs.declared.rows_error.RowsError.{RowsError};
ghost use Rattle.typed_settings.specs.declared.type_error.TypeError.{TypeError};

use crate::built_in::built_in;
use crate::given::rows_of;
use crate::look_up::row_for;
use crate::meeting::least_meeting;
use crate::row::Row;
use crate::rows_error::RowsError;
use crate::type_error::TypeError;
use json_trees::Scalar;
use key_names::{Key, Text};
use std::alloc::{AllocError, Global};
use std::marker::Model;

/// A type table: rows of which no two meet, four of them built in, in an order that the look-up of a
/// key needs. It keeps its allocator.
#[derive(Debug, Drop)]
pub struct Types {
    rows: Vec<Row>,
}

impl Model for Types {
    ghost use Rattle.std.specs.Prelude.{List};
    ghost use Rattle.typed_settings.specs.Order.{IsTable};
    ghost use Rattle.typed_settings.specs.declared.row.Row.{Row};

    ghost Value = { List Row };

    ghost view = { λ t. t.rows.items };

    ghost invariant = { λ t. IsTable t.rows.items };
}

impl Types {
    /// The table of the built-in rows and of these, each a pattern of keys and a type word.
    ///
    /// `BadRow` is answered exactly where some row's texts don't spell a pattern, that begins with
    /// `settings` and has at least two places, and a word: for the first such row. `Meet` is answered
    /// exactly where all rows do and some two meet: for the least two, by the second and then the first.
    /// `Memory` alone may come at any place. It takes the time of a sort where no row has a `*` at the
    /// place at which another row that begins alike has a segment, and else time quadratic in the number
    /// of rows.
    pub fn of_rows(alloc: Global, rows: &[(Text, Text)]) -> Result<Types, RowsError>
        ensures table { IfOk result (IsTableOf rows.now) }
        ensures fault { (fault : RowsError) → result ≡ Err fault → fault ≢ RowsError.Memory
            → HasFault rows.now fault }
        ensures exact { (fault : RowsError) → HasFault rows.now fault
            → IsFault RowsError.Memory result fault }
        ensures no_fault { (table : List Row) → IsTableOf rows.now table
            → IsNoFault RowsError.Memory result }
    {
        let given = rows_of(alloc, rows)?;
        if let Some((first, second)) = least_meeting(alloc, &given)? {
            return Err(RowsError::Meet { first, second });
        }
        Ok(table_of(alloc, given)?)
    }

    /// How many rows the table has, the four that are built in among them. It takes no memory.
    pub fn len(&self) -> usize
        ensures len { result ≡ length self.now }

        // What holds of each table: no two rows meet, and no known key is a proper prefix of another.
        ensures table { IsTable self.now }
        ensures prefix_free { IsPrefixFree self.now }
    {
        self.rows.len()
    }

    /// Checks that the value may be at the key: `Unknown` is answered exactly where no row matches
    /// the key, `Wrong` exactly where the word of the row that does refuses the value. `Memory` alone
    /// may come at any place. The row is found as by `matches`; the rest takes time linear in the value.
    pub fn check(&self, key: &Key, value: &Scalar) -> Result<(), TypeError>
        ensures typed { OnOk result (IsTyped self.now key.now value.now) }
        ensures fault { (fault : TypeError) → result ≡ Err fault → fault ≢ TypeError.Memory
            → IsIllTyped self.now key.now value.now fault }
        ensures exact { (fault : TypeError) → IsIllTyped self.now key.now value.now fault
            → IsFault TypeError.Memory result fault }
        ensures no_fault { IsTyped self.now key.now value.now → IsNoFault TypeError.Memory result }
    {
        let Some(row) = row_for(&self.rows, key) else {
            let key = key.copy()?;
            return Err(TypeError::Unknown { key });
        };
        if row.word.takes(*self.rows.allocator(), value)? {
            return Ok(());
        }
        let key = key.copy()?;
        let wanted = row.text.copy()?;
        Err(TypeError::Wrong { key, wanted })
    }

    /// Whether some row matches the key. It takes no memory, and for each shape of the rows, which is
    /// where their stars are, time logarithmic in the number of rows.
    pub fn matches(&self, key: &Key) -> bool
        ensures known { IsTrue result ↔ IsKnown self.now key.now }

        // As no two rows meet, the row is the only one, and no known key is a proper prefix of another.
        ensures one_row { HasOneRow self.now key.now }
        ensures table { IsTable self.now }
        ensures prefix_free { IsPrefixFree self.now }
    {
        row_for(&self.rows, key).is_some()
    }

    /// Whether some row is at least as long as the path and matches its segments from the first. It
    /// takes no memory. It looks at the rows one by one, and at each compares the path's segments up to
    /// the first that doesn't fit: its time is linear in the number of rows and in the path.
    pub fn reaches(&self, path: &Key) -> bool
        ensures reached { IsTrue result ↔ IsReached self.now path.now }
        ensures prefix_free { IsPrefixFree self.now }
    {
        self.rows.iter().any(|row| row.pattern.reaches(path))
    }
}

// The table of the built-in rows and of these.
fn table_of(alloc: Global, given: Vec<Row>) -> Result<Types, AllocError>
    requires of_settings { All (λ row. IsOfSettings row.pattern) given.items }
    requires apart { AreApart given.items }
    ensures { IfOk result (λ table. IsPermutation (built_in ++ given.items) table) }
{
    let mut given = given;
    let mut rows = built_in(alloc)?;
    rows.append(&mut given)?;
    rows.sort_by(|one, other| one.pattern.order(&other.pattern))?;
    Ok(Types { rows })
}
