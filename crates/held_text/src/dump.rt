//! Dumps: the held text of a store and its version, printed as one line of JSON and read back.
ghost use Rattle.std.specs.Prelude.{◌≡◌, ◌≢◌, ◌≤◌, ℕ, List, IfOk, IfErr, OnOk, Some, Option, MatchOption, MatchResult, codes, option_map, string_bytes};
ghost use Rattle.std.specs.Str.{IsUtf8};
ghost use Rattle.serde_json.specs.Data.{Data, Members, depth, member, string};
ghost use Rattle.serde_json.specs.Read.{max_depth};
ghost use Rattle.serde_json.specs.View.{view, members_view};
ghost use Rattle.version_links.specs.Versions.{Fits, version_text};
ghost use Rattle.version_links.specs.declared.version.Version.{Version as Three};
ghost use Rattle.settings_tree.specs.declared.held.Held.{Held as World};
ghost use Rattle.held_text.specs.HeldText.{held_data, held_text};
ghost use Rattle.held_text.specs.HeldRules.{IsHeld, IsRead, Wrote, WroteMembers};
ghost use Rattle.held_text.specs.Dump.{version_data, version_members, parts_data, dump_members, dump_data, dump_text};
ghost use Rattle.held_text.specs.Dump.{SpellsDump, IsNoDump, IsDumpRead};
ghost use Rattle.held_text.specs.declared.dump_error.DumpError.TheVariants.{BadHeld, BadVersion, Memory};
ghost use Rattle.held_text.specs.declared.held_error.HeldError.TheVariants as held_error;

use crate::dump_error::DumpError;
use crate::held_error::HeldError;
use crate::reading::held_of;
use crate::text::{expect_text, write_held};
use json::Writer;
use json_trees::{json_of, text_of};
use key_names::Text;
use serde_json::Value;
use settings_tree::Held;
use std::alloc::{AllocError, Global};
use std::collections::btree_map::IntoIter;
use version_links::Version;

/// What a dump tells.
#[derive(Drop)]
pub struct Dump {
    /// The version of the store.
    pub version: Version,
    /// What the store holds.
    pub held: Held,
}

/// The text of a version, as in `1.5.2`. The only error is out of memory.
pub fn version_text(alloc: Global, version: Version) -> Result<Text, AllocError>
    ensures { IfOk result (λ text. text ≡ version_text version) }
{
    let text = format!(in alloc; "{version}")?;
    Ok(Text::of(text))
}

// Writes the members, and ends the object.
fn write_members(
    writer: &mut Writer,
    alloc: Global,
    version: Version,
    held: &Held,
) -> Result<(), AllocError>
    ensures wrote { OnOk result
        (WroteMembers (dump_members version held.now) writer.old writer.new) }
    ensures valid { OnOk result (IsUtf8 (held_text held.now) → IsHeld held.now) }
{
    let version = version_text(alloc, version)?;
    writer.key("held")?;
    write_held(writer, alloc, held)?;
    writer.key("version")?;
    writer.string(version.as_str())?;
    writer.end_object()
}

fn write_dump(
    writer: &mut Writer,
    alloc: Global,
    version: Version,
    held: &Held,
) -> Result<(), AllocError>
    ensures wrote { OnOk result (Wrote (dump_data version held.now) writer.old writer.new) }
    ensures valid { OnOk result (IsUtf8 (held_text held.now) → IsHeld held.now) }
{
    writer.begin_object()?;
    write_members(writer, alloc, version, held)
}

/// The text of a dump: an object of compact JSON (RFC 8259) with these members, in this order.
///
/// - `held`: the held text
/// - `version`: the version of the store, as `1.5.2`
///
/// The only error is out of memory. It takes the time of printing the held text.
pub fn dump_text(alloc: Global, version: Version, held: &Held) -> Result<Text, AllocError>
    ensures text { IfOk result (λ text. text ≡ dump_text version held.now) }
    ensures spells { IfOk result (λ text. SpellsDump text version held.now) }
{
    let mut writer = Writer::new(Vec::new(alloc));
    write_dump(&mut writer, alloc, version, held)?;
    Ok(text_of(writer))
}

// The value of the next member, which has to be `held`.
fn held_member(members: &mut IntoIter<String, Value>) -> Result<Value, DumpError>
    ensures ok { IfOk result (λ held. members_view members.old ≡ member (codes "held") (view held) (members_view members.new)) }
    ensures err { IfErr result (λ e. (e ≡ BadHeld) × ((held : Data) (rest : Members) → members_view members.old ≢ member (codes "held") held rest)) }
{
    match members.next() {
        Some((name, held)) if name.as_str() == "held" => Ok(held),
        _ => Err(DumpError::BadHeld),
    }
}

// The value of the last member, which has to be `version`, or None where no more are there.
fn version_member(members: &mut IntoIter<String, Value>) -> Result<Option<Value>, DumpError>
    ensures ok { IfOk result (λ version. members_view members.old ≡ version_members (option_map view version)) }
    ensures err { IfErr result (λ e. (e ≡ BadHeld) × ((version : Option Data) → members_view members.old ≢ version_members version)) }
{
    match members.next() {
        None => Ok(None),
        Some((name, version)) if name.as_str() == "version" && members.next().is_none() => {
            Ok(Some(version))
        }
        Some(_) => Err(DumpError::BadHeld),
    }
}

// The values of the members `held` and `version` of an object that has the first, and at most the second. An object has
// its members in the byte order of their names, whatever their order in the text was.
fn parts_of(dump: Value) -> Result<(Value, Option<Value>), DumpError>
    ensures ok { IfOk result (λ parts. view dump ≡ parts_data (view parts.0) (option_map view parts.1)) }
    ensures err { IfErr result (λ e. (e ≡ BadHeld) × ((held : Data) (version : Option Data) → view dump ≢ parts_data held version)) }
{
    let Value::Object(members) = dump else {
        return Err(DumpError::BadHeld);
    };
    let mut members = members.into_iter();
    let held = held_member(&mut members)?;
    let version = version_member(&mut members)?;
    Ok((held, version))
}

// What is held, of the JSON value of a held text.
fn held_part(alloc: Global, value: Value) -> Result<Held, HeldError>
    ensures ok { IfOk result (λ held. depth (view value) ≤ max_depth → view value ≡ held_data held) }
    ensures valid { IfOk result IsHeld }
    ensures err { IfErr result (λ e. e ≡ held_error.BadHeld → (held : World) → IsHeld held → view value ≢ held_data held) }
    ensures exact { (held : World) → IsHeld held → view value ≡ held_data held → IsRead result held }
{
    let text = value.to_string(alloc)?;
    let held = held_of(alloc, value)?;
    expect_text(&held, text.as_str().as_bytes())?;
    Ok(held)
}

// The text that the JSON value is, where there is one.
fn text_in(value: Option<Value>) -> Option<String>
    ensures { MatchOption result ((text : List ℕ) → option_map view value ≢ Some (string text))
        (λ text. option_map view value ≡ Some (string (string_bytes text))) }
{
    match value {
        Some(Value::String(text)) => Some(text),
        _ => None,
    }
}

// The version, of the JSON value of its text.
fn version_part(alloc: Global, value: Option<Value>) -> Result<Version, DumpError>
    ensures ok { IfOk result (λ version. option_map view value ≡ Some (version_data version)) }
    ensures fits { IfOk result Fits }
    ensures err { IfErr result (λ e. e ≢ Memory → (e ≡ BadVersion)
        × ((version : Three) → Fits version → Some (version_data version) ≢ option_map view value)) }
    ensures exact { (version : Three) → Fits version → option_map view value ≡ Some (version_data version)
        → MatchResult result (λ found. found ≡ version) (λ e. e ≡ Memory) }
{
    let Some(text) = text_in(value) else {
        return Err(DumpError::BadVersion);
    };
    match Version::read(alloc, text.as_str())? {
        Some(version) => Ok(version),
        None => Err(DumpError::BadVersion),
    }
}

// The dump that the text spells.
fn read_spelled(alloc: Global, text: &[u8]) -> Result<Dump, DumpError>
    ensures ok { IfOk result (λ dump. SpellsDump text.now dump.version dump.held) }
    ensures err { IfErr result (λ e. IsNoDump e text.now) }
    ensures exact { (version : Three) (held : World) → SpellsDump text.now version held → IsDumpRead result version held }
{
    let Some(dump) = json_of(alloc, text)? else {
        return Err(DumpError::NotJson);
    };
    let (held, version) = parts_of(dump)?;
    let held = held_part(alloc, held)?;
    let version = version_part(alloc, version)?;
    Ok(Dump { version, held })
}

/// The dump that the text spells: it is JSON (RFC 8259), in whatever spelling, of an object with the two members that
/// [`dump_text`] writes, in any order, and no others. Of two members of one name the last one counts.
///
/// - `NotJson`: the text is no JSON text.
/// - `BadHeld`: it is one, but no object; or it has another member than `held` and `version`, or no member `held` that
///   is the value of a held text.
/// - `BadVersion`: it has such a member `held`, but no member `version` that is the text of a version.
/// - `Memory`: out of memory. It says nothing of the text.
///
/// Each comes exactly then, but for `Memory`, which may come in the place of any answer. It takes the time of reading
/// the text, and of reading and printing what is held.
pub fn read_dump(alloc: Global, text: &[u8]) -> Result<Dump, DumpError>
    ensures ok { IfOk result (λ dump. SpellsDump text.now dump.version dump.held) }
    ensures err { IfErr result (λ e. IsNoDump e text.now) }
    ensures exact { (version : Three) (held : World) → SpellsDump text.now version held → IsDumpRead result version held }
    ensures back { (version : Three) (held : World) → Fits version → IsHeld held → text.now ≡ dump_text version held
        → IsDumpRead result version held }
{
    read_spelled(alloc, text)
}
