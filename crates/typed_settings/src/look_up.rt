//! The row for a key, in rows that ascend by their patterns.
ghost use Rattle.std.specs.Prelude.{◌≡◌, ◌<◌, ◌≤◌, length, take, IfSome, None};
ghost use Rattle.typed_settings.specs.Order.{AreAlike, AreOrdered};
ghost use Rattle.typed_settings.specs.Row.{HasRow, IsKnown};

use crate::row::Row;
use key_names::Key;

// How many of the rows have the shape of the first.
fn alike_len(rows: &[Row]) -> usize
    requires { AreOrdered rows.now }
    ensures within { result ≤ length rows.now }
    ensures some { 0 < length rows.now → 0 < result }
    ensures alike { AreAlike (take result rows.now) }
{
    match rows.first() {
        Some(first) => rows.partition_point(|row| row.pattern.is_like(&first.pattern)),
        None => 0,
    }
}

// The row that matches the key, among rows of one shape.
fn row_among<'a>(rows: &'a [Row], key: &Key) -> Option<&'a Row>
    requires alike { AreAlike rows.now }
    requires ordered { AreOrdered rows.now }
    ensures some { IfSome result (λ row. HasRow rows.now key.now row.now) }
    ensures none { result ≡ None → ¬ IsKnown rows.now key.now }
{
    let Ok(i) = rows.binary_search_by(|row| row.pattern.order_to(key)) else {
        return None;
    };
    let row = &rows[i];
    if !row.pattern.matches(key) {
        return None;
    }
    Some(row)
}

/// The row that matches the key, or `None` where none does. It takes no memory, and for each shape of
/// the rows, which is where their stars are, time logarithmic in the number of rows.
pub fn row_for<'a>(rows: &'a [Row], key: &Key) -> Option<&'a Row>
    requires { AreOrdered rows.now }
    ensures some { IfSome result (λ row. HasRow rows.now key.now row.now) }
    ensures none { result ≡ None → ¬ IsKnown rows.now key.now }
{
    let mut rest = rows;
    while !rest.is_empty() {
        let (alike, others) = rest.split_at(alike_len(rest));
        if let Some(row) = row_among(alike, key) {
            return Some(row);
        }
        rest = others;
    }
    None
}
