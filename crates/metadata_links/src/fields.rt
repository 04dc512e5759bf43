//! The values at keys of three segments, two fields to a name.
ghost use Rattle.std.specs.Prelude.{◌≡◌, ◌≢◌, [], ◌∷◌, fold, IfOk, OnOk};
ghost use Rattle.std.specs.FinMap as map;
ghost use Rattle.std.specs.FinMap.{from_entries};
ghost use Rattle.key_names.specs.Order.{bytes_cmp};
ghost use Rattle.settings_tree.specs.Walks.{entries_below};
ghost use Rattle.metadata_links.specs.Fields.{fields_below};
ghost use Rattle.metadata_links.specs.Gathered.{fields_of, with_field, with_named, with_value};

use crate::keys::key_of;
use crate::texts::segment_text;
use json_trees::Scalar;
use key_names::{Key, Text};
use settings_tree::Content;
use std::alloc::{AllocError, Global};
use std::collections::BTreeMap;

/// What is at two fields of a name.
#[derive(Debug, Drop)]
pub struct Fields {
    /// The value of the first field.
    pub one: Option<Scalar>,
    /// The value of the second field.
    pub other: Option<Scalar>,
}

// The fields with this value in the one that is named, if either is.
fn with_field(fields: Fields, one: &str, other: &str, field: &[u8], value: Scalar) -> Fields
    ensures { result ≡ with_field one.now other.now field.now value fields }
{
    let mut fields = fields;
    if field == one.as_bytes() {
        fields.one = Some(value);
    } else if field == other.as_bytes() {
        fields.other = Some(value);
    }
    fields
}

// Takes the fields of the name, which are none where it isn't there.
fn take(found: &mut BTreeMap<Text, Fields>, name: &Text) -> Fields
    ensures fields { result ≡ fields_of (from_entries {R = bytes_cmp} found.old.entries) name.now }
    ensures gone { from_entries {R = bytes_cmp} found.new.entries ≡ map.remove (from_entries found.old.entries) name.now }
{
    match found.remove(name) {
        Some(fields) => fields,
        None => Fields {
            one: None,
            other: None,
        },
    }
}

fn put_named(
    found: &mut BTreeMap<Text, Fields>,
    one: &str,
    other: &str,
    name: Text,
    field: &[u8],
    value: Scalar,
) -> Result<(), AllocError>
    ensures { OnOk result (from_entries found.new.entries
        ≡ with_named one.now other.now name field.now value (from_entries {R = bytes_cmp} found.old.entries)) }
{
    let fields = take(found, &name);
    found.insert(name, with_field(fields, one, other, field, value))?;
    Ok(())
}

// Puts the value into its name's fields, where the key has three segments.
fn put(
    alloc: Global,
    found: &mut BTreeMap<Text, Fields>,
    one: &str,
    other: &str,
    key: &Key,
    value: Scalar,
) -> Result<(), AllocError>
    ensures { OnOk result (from_entries found.new.entries
        ≡ with_value one.now other.now (from_entries {R = bytes_cmp} found.old.entries) (key.now, value)) }
{
    if key.len() != 3 {
        return Ok(());
    }
    let name = segment_text(alloc, key.segment(1))?;
    put_named(found, one, other, name, key.segment(2), value)
}

// Puts all values below the prefix into their names' fields.
fn gather(
    alloc: Global,
    content: &Content,
    prefix: &Key,
    one: &str,
    other: &str,
) -> Result<BTreeMap<Text, Fields>, AllocError>
    ensures { IfOk result (λ found. from_entries {R = bytes_cmp} found.entries
        ≡ fold (with_value one.now other.now) map.empty (entries_below content.now.values prefix.now)) }
{
    let mut found = BTreeMap::new(alloc);
    for (key, value) in content.below(prefix)? {
        put(alloc, &mut found, one, other, &key, value)?;
    }
    Ok(found)
}

/// The fields of each name, by name: what is at `FIRST.NAME.ONE` and at `FIRST.NAME.OTHER`. It
/// takes a logarithmic step for each value below `FIRST`. The only error is out of memory.
pub(crate) fn fields_below(
    alloc: Global,
    content: &Content,
    first: &str,
    one: &str,
    other: &str,
) -> Result<BTreeMap<Text, Fields>, AllocError>
    requires apart { one.now ≢ other.now }
    ensures { IfOk result (λ found. map.entries (from_entries {R = bytes_cmp} found.entries)
        ≡ fields_below content.now.values first.now one.now other.now) }
{
    let prefix = key_of(alloc, first)?;
    gather(alloc, content, &prefix, one, other)
}
