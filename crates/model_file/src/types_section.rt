//! The section `types`: the rows of the type table.
ghost use Rattle.std.specs.Prelude.{◌≡◌, ◌<◌, ◌∷◌, [], ℕ, List, IfOk, IfErr, OnOk, map, length, slice_index_or, codes, unwrap_or};
ghost use Rattle.toml.specs.View.{view, table_view};
ghost use Rattle.typed_settings.specs.Row.{IsTableOf};
ghost use Rattle.toml_values.specs.Values.{text_of};
ghost use Rattle.model_file.specs.Rows.{RowTexts, row_of, row_texts};
ghost use Rattle.toml_values.specs.Document.{named};
ghost use Rattle.model_file.specs.Checks.{table_check, types_checks, row_path};
ghost use Rattle.model_file.specs.Refused.{Passes, Refuses, IsAt};

use crate::ModelKind;
use crate::document::section;
use crate::located_fault::refused;
use key_names::Text;
use std::alloc::{AllocError, Global};
use toml::{Table, Value};
use toml_values::{LocatedFault, text_of};
use typed_settings::{RowsError, Types};

/// The table of the rows.
pub fn types_of(alloc: Global, document: &Table) -> Result<Types, LocatedFault<ModelKind>>
    ensures passes { (rows : RowTexts) → OnOk result (Passes rows (types_checks (table_view document.now))) }
    ensures table { IfOk result (IsTableOf (row_texts (table_view document.now))) }
    ensures refused { (rows : RowTexts)
        → IfErr result (Refuses rows (types_checks (table_view document.now))) }
{
    let texts = texts_of(alloc, document)?;
    match Types::of_rows(alloc, &texts) {
        Ok(types) => Ok(types),
        Err(RowsError::BadRow { index }) => Err(at_row(alloc, ModelKind::BadRow, &texts, index)),
        Err(RowsError::Meet { second, .. }) => Err(at_row(
            alloc,
            ModelKind::RowsMeet,
            &texts,
            second,
        )),
        Err(RowsError::Memory) => Err(LocatedFault::Memory),
    }
}

// The refusal of the row at this index.
fn at_row(
    alloc: Global,
    kind: ModelKind,
    texts: &[(Text, Text)],
    index: usize,
) -> LocatedFault<ModelKind>
    requires { index < length texts.now }
    ensures { IsAt kind (row_path (slice_index_or texts.now index ([], []))) result }
{
    match texts[index].0.copy() {
        Ok(name) => refused(alloc, kind, "types", &[name]),
        Err(AllocError) => LocatedFault::Memory,
    }
}

// The texts of the rows.
fn texts_of(alloc: Global, document: &Table) -> Result<Vec<(Text, Text)>, LocatedFault<ModelKind>>
    ensures passes { (rows : RowTexts)
        → OnOk result (Passes rows (table_check (codes "types") (table_view document.now) ∷ [])) }
    ensures texts { IfOk result (λ texts. texts.items ≡ row_texts (table_view document.now)) }
    ensures refused { (rows : RowTexts)
        → IfErr result (Refuses rows (table_check (codes "types") (table_view document.now) ∷ [])) }
{
    match section(alloc, document, "types")? {
        Some(table) => Ok(rows_in(alloc, table)?),
        None => Ok(Vec::new(alloc)),
    }
}

fn rows_in(alloc: Global, table: &Table) -> Result<Vec<(Text, Text)>, AllocError>
    ensures { IfOk result (λ texts. texts.items ≡ map row_of (named (table_view table.now))) }
{
    let mut texts = Vec::new(alloc);
    for (name, value) in table.iter() {
        let pattern = Text::of(name.clone()?);
        texts.push((pattern, word_of(alloc, value)?))?;
    }
    Ok(texts)
}

// The text of a row's word. No word is the empty text, which represents a value that is no text.
fn word_of(alloc: Global, value: &Value) -> Result<Text, AllocError>
    ensures { IfOk result (λ text. text ≡ unwrap_or (text_of (view value.now)) []) }
{
    match text_of(value)? {
        Some(text) => Ok(text),
        None => Ok(Text::of(String::new(alloc))),
    }
}
