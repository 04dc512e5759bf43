//! The rows that are built in.
ghost use Rattle.std.specs.Prelude.{◌≡◌, ◌++◌, [], ◌∷◌, IfOk, OnOk};
ghost use Rattle.typed_settings.specs.Row.{built_in, row_with};

use crate::item_word::ItemWord;
use crate::pattern::Pattern;
use crate::place::Place;
use crate::row::Row;
use crate::word::Word;
use key_names::{Bytes, Text};
use std::alloc::{AllocError, Global};

fn plain(alloc: Global, segment: &str) -> Result<Place, AllocError>
    ensures { IfOk result (λ place. place ≡ Place.Plain segment.now) }
{
    let bytes = segment.as_bytes().to_vec(alloc)?;
    Ok(Place::Plain(Bytes::of(bytes)))
}

// The pattern `FIRST.*.LAST`.
fn pattern(alloc: Global, first: &str, last: &str) -> Result<Pattern, AllocError>
    ensures { IfOk result (λ pattern. pattern
        ≡ Place.Plain first.now ∷ Place.Any ∷ Place.Plain last.now ∷ []) }
{
    let first = plain(alloc, first)?;
    let last = plain(alloc, last)?;
    let mut places = Vec::new(alloc);
    places.push(first)?;
    places.push(Place::Any)?;
    places.push(last)?;
    Ok(Pattern::of(places))
}

// Adds the row of the pattern `FIRST.*.LAST` with this word, which the text says.
fn push_row(
    alloc: Global,
    rows: &mut Vec<Row>,
    first: &str,
    last: &str,
    word: Word,
    text: &str,
) -> Result<(), AllocError>
    ensures { OnOk result (rows.new.items ≡ rows.old.items
        ++ row_with (Place.Plain first.now ∷ Place.Any ∷ Place.Plain last.now ∷ []) word text.now ∷ []) }
{
    let pattern = pattern(alloc, first, last)?;
    let text = Text::from_str(alloc, text)?;
    rows.push(Row {
        pattern,
        word,
        text,
    })?;
    Ok(())
}

/// The built-in rows. The only error is out of memory.
pub fn built_in(alloc: Global) -> Result<Vec<Row>, AllocError>
    ensures { IfOk result (λ rows. rows.items ≡ built_in) }
{
    let mut rows = Vec::new(alloc);
    push_row(
        alloc,
        &mut rows,
        "services",
        "configuration-files",
        Word::List(ItemWord::Identifier),
        "list identifier",
    )?;
    push_row(
        alloc,
        &mut rows,
        "services",
        "restart-commands",
        Word::List(ItemWord::Text),
        "list text",
    )?;
    push_row(
        alloc,
        &mut rows,
        "configuration-files",
        "path",
        Word::One(ItemWord::Text),
        "text",
    )?;
    push_row(
        alloc,
        &mut rows,
        "configuration-files",
        "template-path",
        Word::One(ItemWord::Text),
        "text",
    )?;
    Ok(rows)
}
