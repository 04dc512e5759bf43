//! Patterns and rows, read from texts.
ghost use Rattle.std.specs.Prelude.{◌≡◌, ◌≤◌, ◌↔◌, List, length, IfOk, IfSome, IsTrue, Ok, None};
ghost use Rattle.typed_settings.specs.Pattern.{SpellsPattern, IsWithinLimits, printed_pattern};
ghost use Rattle.typed_settings.specs.Row.{SpellsRow, IsOfSettings};
ghost use Rattle.typed_settings.specs.declared.place.Place.{Place};
ghost use Rattle.typed_settings.specs.declared.row.Row.{Row};

use crate::pattern::Pattern;
use crate::place::Place;
use crate::place_texts::places_of;
use crate::row::Row;
use crate::word_texts::word_of;
use key_names::Text;
use std::alloc::{AllocError, Global};

// Whether the printed places have at most 1,024 bytes. The sum has a dot after each place.
fn is_short(places: &[Place]) -> bool
    ensures { IsTrue result ↔ (length (printed_pattern places.now) ≤ 1024) }
{
    let mut len = 0usize;
    for place in places {
        len = len.saturating_add(place.printed_len()).saturating_add(1);
        if len > 1025 {
            return false;
        }
    }
    true
}

// Whether the pattern is within the limits of keys.
fn is_within_limits(places: &[Place]) -> bool
    ensures { IsTrue result ↔ IsWithinLimits places.now }
{
    places.len() <= 32 && is_short(places)
}

// Whether the places begin with `settings` and are two or more.
fn is_of_settings(places: &[Place]) -> bool
    ensures { IsTrue result ↔ IsOfSettings places.now }
{
    match places.first() {
        Some(Place::Plain(first)) => first.as_slice() == b"settings".as_slice()
            && places.len() >= 2,
        _ => false,
    }
}

/// The pattern that the text spells, or `None` where it spells none. It is spelled as a key is, but
/// for a bare `*`, which is any segment; a `*` in quotes is a segment of one byte. The limits are those
/// of a key whose printed text has the `*`. The only error is out of memory.
pub fn pattern_of(alloc: Global, text: &[u8]) -> Result<Option<Pattern>, AllocError>
    ensures some { IfOk result (λ o. IfSome o (SpellsPattern text.now)) }
    ensures none { result ≡ Ok None → (pattern : List Place) → ¬ SpellsPattern text.now pattern }
{
    let Some(places) = places_of(alloc, text)? else {
        return Ok(None);
    };
    if !is_within_limits(&places) {
        return Ok(None);
    }
    Ok(Some(Pattern::of(places)))
}

/// The row that the texts of its pattern and its word spell, or `None` where they spell none. The only
/// error is out of memory.
pub fn row_of(alloc: Global, pattern: &Text, word: &Text) -> Result<Option<Row>, AllocError>
    ensures some { IfOk result (λ o. IfSome o (SpellsRow (pattern.now, word.now))) }
    ensures none { result ≡ Ok None → (row : Row) → ¬ SpellsRow (pattern.now, word.now) row }
{
    let Some(read_pattern) = pattern_of(alloc, pattern.as_str().as_bytes())? else {
        return Ok(None);
    };
    if !is_of_settings(read_pattern.as_slice()) {
        return Ok(None);
    }
    let Some(read_word) = word_of(alloc, word.as_str())? else {
        return Ok(None);
    };
    Ok(Some(Row {
        pattern: read_pattern,
        word: read_word,
        text: word.copy()?,
    }))
}
