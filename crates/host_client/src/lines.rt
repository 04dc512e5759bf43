//! Lines of words.
ghost use Rattle.std.specs.Prelude.{◌≡◌, ◌++◌, OnOk, codes, map, option_map};
ghost use Rattle.std.specs.List.{flat_map};
ghost use Rattle.serde_json.specs.View.{view};
ghost use Rattle.host_client.specs.Members.{text_of, items_in};
ghost use Rattle.host_client.specs.Lines.{spaced, spaced_if, word_line, row_line, text_lines, row_lines};

use crate::members::{items_in, listed, text_of};
use serde_json::Value;
use std::alloc::AllocError;

/// Adds a space and the text.
pub(crate) fn push_spaced(lines: &mut Vec<u8>, text: &str) -> Result<(), AllocError>
    ensures { OnOk result (lines.new.items ≡ lines.old.items ++ spaced text.now) }
{
    lines.extend_from_slice(b" ")?;
    lines.extend_from_slice(text.as_bytes())
}

/// Adds a space and the text, where there is one.
pub(crate) fn push_spaced_if(lines: &mut Vec<u8>, text: Option<&str>) -> Result<(), AllocError>
    ensures { OnOk result
        (lines.new.items ≡ lines.old.items ++ spaced_if (option_map (λ s. s.now) text.entry)) }
{
    match text {
        Some(text) => push_spaced(lines, text),
        None => Ok(()),
    }
}

/// Ends a line.
pub(crate) fn push_end(lines: &mut Vec<u8>) -> Result<(), AllocError>
    ensures { OnOk result (lines.new.items ≡ lines.old.items ++ codes "\n") }
{
    lines.extend_from_slice(b"\n")
}

/// Adds the word and the text as a line.
pub(crate) fn push_word(lines: &mut Vec<u8>, word: &str, text: &str) -> Result<(), AllocError>
    ensures { OnOk result (lines.new.items ≡ lines.old.items ++ word_line word.now text.now) }
{
    lines.extend_from_slice(word.as_bytes())?;
    push_spaced(lines, text)?;
    push_end(lines)
}

// Adds each of the texts after a space.
fn push_texts(lines: &mut Vec<u8>, texts: &[Value]) -> Result<(), AllocError>
    ensures { OnOk result (lines.new.items
        ≡ lines.old.items ++ flat_map (λ text. spaced (text_of text)) (map view texts.now)) }
{
    for text in texts {
        push_spaced(lines, text_of(text))?;
    }
    Ok(())
}

// Adds the word and the texts of the row as a line.
fn push_row(lines: &mut Vec<u8>, word: &str, row: &Value) -> Result<(), AllocError>
    ensures { OnOk result (lines.new.items ≡ lines.old.items ++ row_line word.now (view row.now)) }
{
    lines.extend_from_slice(word.as_bytes())?;
    push_texts(lines, items_in(row))?;
    push_end(lines)
}

// A line for each text.
fn push_words(lines: &mut Vec<u8>, word: &str, texts: &[Value]) -> Result<(), AllocError>
    ensures { OnOk result (lines.new.items ≡ lines.old.items
        ++ flat_map (λ text. word_line word.now (text_of text)) (map view texts.now)) }
{
    for text in texts {
        push_word(lines, word, text_of(text))?;
    }
    Ok(())
}

// A line for each row.
fn push_rows(lines: &mut Vec<u8>, word: &str, rows: &[Value]) -> Result<(), AllocError>
    ensures { OnOk result
        (lines.new.items ≡ lines.old.items ++ flat_map (row_line word.now) (map view rows.now)) }
{
    for row in rows {
        push_row(lines, word, row)?;
    }
    Ok(())
}

/// A line for each text of the list that is a member: the word and the text.
pub(crate) fn push_text_lines(
    lines: &mut Vec<u8>,
    word: &str,
    value: &Value,
    name: &str,
) -> Result<(), AllocError>
    ensures { OnOk result
        (lines.new.items ≡ lines.old.items ++ text_lines word.now name.now (view value.now)) }
{
    push_words(lines, word, listed(value, name))
}

/// A line for each row of the list that is a member: the word and the texts of the row.
pub(crate) fn push_row_lines(
    lines: &mut Vec<u8>,
    word: &str,
    value: &Value,
    name: &str,
) -> Result<(), AllocError>
    ensures { OnOk result
        (lines.new.items ≡ lines.old.items ++ row_lines word.now name.now (view value.now)) }
{
    push_rows(lines, word, listed(value, name))
}
