//! The migration that a value is.
ghost use Rattle.std.specs.Prelude.{◌≡◌, ◌≢◌, Some, IfOk, MatchOption, codes, map};
ghost use Rattle.toml.specs.View.{view, table_view};
ghost use Rattle.release_file.specs.Fields.{has_only, text_at};
ghost use Rattle.release_file.specs.Works.{IsTableOf, SpellsWork, field_names, word_of};
ghost use Rattle.release_file.specs.declared.kind.Kind.{Kind as Which};
ghost use Rattle.release_file.specs.declared.work.Work.{Work as Done};

use crate::field::text_field;
use crate::kind::{Kind, kind_of};
use crate::kinds::work_of;
use crate::work::Work;
use std::alloc::{AllocError, Global};
use toml::{Table, Value};
use toml_values::other_name;

// The kind that the field `kind` tells, None exactly where it tells none.
fn kind_field(table: &Table) -> Result<Option<Kind>, AllocError>
    ensures { IfOk result (λ found. MatchOption found ((kind : Which) → text_at (codes "kind") (table_view table.now) ≢ Some (word_of kind))
        (λ kind. text_at (codes "kind") (table_view table.now) ≡ Some (word_of kind))) }
{
    match text_field(table, "kind")? {
        Some(word) => Ok(kind_of(word.as_str())),
        None => Ok(None),
    }
}

// The names of the fields of a kind.
fn field_names(kind: Kind) -> &'static [&'static str]
    ensures { map (λ name. name.now) result.now ≡ field_names kind }
{
    match kind {
        Kind::AddSettings | Kind::RemoveSettings => &["kind", "settings"],
        Kind::AddPrefixes => &["kind", "prefixes"],
        Kind::ReplaceString => &["kind", "setting", "old", "new"],
        Kind::RenameSettings => &["kind", "old", "new"],
        Kind::AddMetadata | Kind::RemoveMetadata => &["kind", "key", "names"],
        Kind::ReplaceMetadata => &["kind", "key", "name", "old", "new"],
        Kind::RemoveWeak | Kind::NoOp => &["kind"],
        Kind::Program => &["kind", "words"],
    }
}

// Whether each name of the table is one of these.
fn has_only(table: &Table, names: &[&str]) -> bool
    ensures { result ≡ has_only (map (λ n. n.now) names.now) (table_view table.now) }
{
    other_name(table, names).is_none()
}

// The work of which this is the table, None exactly where it is that of none.
fn work_in(alloc: Global, table: &Table) -> Result<Option<Work>, AllocError>
    ensures { IfOk result (λ found. MatchOption found ((work : Done) → IsTableOf (table_view table.now) work → ⊥) (IsTableOf (table_view table.now))) }
{
    let Some(kind) = kind_field(table)? else {
        return Ok(None);
    };
    if !has_only(table, field_names(kind)) {
        return Ok(None);
    }
    work_of(alloc, kind, table)
}

/// The work that the value spells, None exactly where it spells none. The only error is out of memory. It takes time
/// linear in the value, up to a logarithm.
pub fn migration_of(alloc: Global, value: &Value) -> Result<Option<Work>, AllocError>
    ensures { IfOk result (λ found. MatchOption found ((work : Done) → SpellsWork (view value.now) work → ⊥) (SpellsWork (view value.now))) }
{
    match value {
        Value::Table(table) => work_in(alloc, table),
        _ => Ok(None),
    }
}
