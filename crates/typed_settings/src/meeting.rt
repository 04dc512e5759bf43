//! Rows that meet.
ghost use Rattle.std.specs.Prelude.{◌≡◌, ◌<◌, ◌↔◌, ℕ, length, slice_index_or, IsTrue, IfOk, IfSome, Ok, None};
ghost use Rattle.std.specs.List.{AllAdjacentBelow};
ghost use Rattle.typed_settings.specs.Order.{is_plainly_before};
ghost use Rattle.typed_settings.specs.Pattern.{Meet};
ghost use Rattle.typed_settings.specs.Row.{AreApart, IsFirstMeeting, IsLeastPair};
ghost use Rattle.typed_settings.specs.declared.row.Row.{Row};

use crate::pattern::Pattern;
use crate::row::Row;
use std::alloc::{AllocError, Global};

// The index of the first row that meets the pattern.
fn first_meeting(rows: &[Row], pattern: &Pattern) -> Option<usize>
    ensures some { IfSome result (IsFirstMeeting rows.now pattern.now) }
    ensures none { result ≡ None → (i : ℕ) (d : Row) → i < length rows.now
        → ¬ Meet (slice_index_or rows.now i d).pattern pattern.now }
{
    for (i, row) in rows.iter().enumerate() {
        if row.pattern.meets(pattern) {
            return Some(i);
        }
    }
    None
}

// Whether, in the order of their segments, each row is plainly before the next. No two rows meet then.
fn are_plainly_apart(alloc: Global, rows: &[Row]) -> Result<bool, AllocError>
    ensures { IfOk result (λ told. IsTrue told → AreApart rows.now) }
{
    let mut sorted: Vec<&Row> = rows.iter().collect(alloc)?;
    sorted.sort_by(|one, other| one.pattern.cells_cmp(&other.pattern))?;
    Ok(ascend_plainly(&sorted))
}

// Whether each row is plainly before the next.
fn ascend_plainly(rows: &[&Row]) -> bool
    ensures { IsTrue result ↔ AllAdjacentBelow
        (λ a b. IsTrue (is_plainly_before a.now.pattern b.now.pattern)) rows.now (length rows.now) }
{
    for i in 1..rows.len() {
        if !rows[i - 1].pattern.is_plainly_before(&rows[i].pattern) {
            return false;
        }
    }
    true
}

// The least two rows that meet, found by looking at each two.
fn least_of_all(rows: &[Row]) -> Option<(usize, usize)>
    ensures some { IfSome result (λ pair. IsLeastPair rows.now pair.0 pair.1) }
    ensures none { result ≡ None → AreApart rows.now }
{
    for (second, row) in rows.iter().enumerate() {
        let (before, _) = rows.split_at(second);
        if let Some(first) = first_meeting(before, &row.pattern) {
            return Some((first, second));
        }
    }
    None
}

/// The indices of the least two rows that meet, by the second and then by the first, or `None` where
/// no two do. The only error is out of memory. It takes the time of a sort where the first place at
/// which neighbours in that order differ has no `*`, and time quadratic in the number of rows else.
pub fn least_meeting(alloc: Global, rows: &[Row]) -> Result<Option<(usize, usize)>, AllocError>
    ensures some { IfOk result (λ o. IfSome o (λ pair. IsLeastPair rows.now pair.0 pair.1)) }
    ensures none { result ≡ Ok None → AreApart rows.now }
{
    if are_plainly_apart(alloc, rows)? {
        return Ok(None);
    }
    Ok(least_of_all(rows))
}
