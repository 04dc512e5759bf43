//! Members of a JSON object in a reply.
ghost use Rattle.std.specs.Prelude.{◌≡◌, map, option_map};
ghost use Rattle.serde_json.specs.View.{view, items_view};
ghost use Rattle.host_client.specs.Jobs.{text_in, list_in};
ghost use Rattle.host_client.specs.Members.{items_in, listed, items_at, has_list, has_text, text_of, member_text, text_at};

use serde_json::Value;

/// The text of a member.
pub(crate) fn text_in<'a>(value: &'a Value, name: &str) -> Option<&'a str>
    ensures { option_map (λ s. s.now) result ≡ text_in name.now (view value.now) }
{
    value.get(name).and_then(Value::as_str)
}

/// The list of a member.
pub(crate) fn list_in<'a>(value: &'a Value, name: &str) -> Option<&'a Vec<Value>>
    ensures { option_map (λ v. items_view v.now.items) result ≡ list_in name.now (view value.now) }
{
    value.get(name).and_then(Value::as_array)
}

/// The items of a list; none of any other value.
pub(crate) fn items_in(value: &Value) -> &[Value]
    ensures { map view result.now ≡ items_in (view value.now) }
{
    match value.as_array() {
        Some(items) => items.as_slice(),
        None => &[],
    }
}

/// The items of the list that is a member.
pub(crate) fn listed<'a>(value: &'a Value, name: &str) -> &'a [Value]
    ensures { map view result.now ≡ listed name.now (view value.now) }
{
    match value.get(name) {
        Some(list) => items_in(list),
        None => &[],
    }
}

/// The items of the list at a place of a list.
pub(crate) fn items_at(value: &Value, place: usize) -> &[Value]
    ensures { map view result.now ≡ items_at place (view value.now) }
{
    match value.get(place) {
        Some(list) => items_in(list),
        None => &[],
    }
}

/// Whether the member is a list.
pub(crate) fn has_list(value: &Value, name: &str) -> bool
    ensures { result ≡ has_list name.now (view value.now) }
{
    list_in(value, name).is_some()
}

/// Whether the member is a text.
pub(crate) fn has_text(value: &Value, name: &str) -> bool
    ensures { result ≡ has_text name.now (view value.now) }
{
    text_in(value, name).is_some()
}

/// The text, or an empty one.
pub(crate) fn text_of(value: &Value) -> &str
    ensures { result.now ≡ text_of (view value.now) }
{
    value.as_str().unwrap_or("")
}

/// The text that is a member, or an empty one.
pub(crate) fn member_text<'a>(value: &'a Value, name: &str) -> &'a str
    ensures { result.now ≡ member_text name.now (view value.now) }
{
    text_in(value, name).unwrap_or("")
}

/// The text at a place of a list, or an empty one.
pub(crate) fn text_at(value: &Value, place: usize) -> &str
    ensures { result.now ≡ text_at place (view value.now) }
{
    value.get(place).and_then(Value::as_str).unwrap_or("")
}
