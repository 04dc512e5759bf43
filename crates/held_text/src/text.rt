//! The held text.
ghost use Rattle.std.specs.Prelude.{◌≡◌, ◌≢◌, IfOk, IfErr, OnOk};
ghost use Rattle.std.specs.FinMap.{entries};
ghost use Rattle.std.specs.List.{AllByRecursion};
ghost use Rattle.std.specs.Str.{IsUtf8};
ghost use Rattle.base64.specs.GeneralPurpose.{IsBytes};
ghost use Rattle.json_trees.specs.Nested.{IsSound};
ghost use Rattle.json_trees.specs.Scalar.{scalar_data};
ghost use Rattle.json_trees.specs.Tree.{scalar_leaf};
ghost use Rattle.settings_tree.specs.Content.{IsContent};
ghost use Rattle.held_text.specs.HeldText.{rows, held_data, held_text};
ghost use Rattle.held_text.specs.HeldRules.{IsHeld, IsRow, ArePending, IsRead, Wrote, WroteFirst, first_members, last_members};
ghost use Rattle.settings_tree.specs.Owed.{IsKeyList, IsOwed};
ghost use Rattle.settings_tree.specs.declared.held.Held.{Held};
ghost use Rattle.held_text.specs.declared.held_error.HeldError.TheVariants.{BadHeld, Memory};

use crate::held_error::HeldError;
use crate::reading::held_of;
use crate::writing::{
    write_image, write_keys, write_map, write_metadata, write_owed, write_pending,
};
use json::Writer;
use json_trees::{json_of, text_of};
use key_names::Text;
use settings_tree::Held;
use std::alloc::{AllocError, Global};

// Writes the members `image`, `live` and `meta`.
fn write_first(writer: &mut Writer, alloc: Global, held: &Held) -> Result<(), AllocError>
    ensures wrote { OnOk result (WroteFirst (first_members held.now) writer.old writer.new) }
    ensures image { OnOk result (IsBytes held.now.image) }
    ensures values { OnOk result
        (AllByRecursion (IsSound scalar_leaf scalar_data) (entries held.now.live.values)) }
    ensures metadata { OnOk result (AllByRecursion IsRow (rows held.now.live.metadata)) }
{
    writer.key("image")?;
    write_image(writer, alloc, &held.image)?;
    writer.key("live")?;
    write_map(writer, held.live.values())?;
    writer.key("meta")?;
    write_metadata(writer, held.live.metadata())
}

// Writes the members `owed`, `pending` and `weak`.
fn write_last(writer: &mut Writer, held: &Held) -> Result<(), AllocError>
    ensures wrote { OnOk result (WroteFirst (last_members held.now) writer.old writer.new) }
    ensures owed { OnOk result (IsOwed held.now.owed) }
    ensures pending { OnOk result (ArePending held.now.pending) }
    ensures rules { OnOk result (IsContent held.now.live) }
    ensures weak { OnOk result (IsKeyList held.now.live.weak) }
{
    writer.key("owed")?;
    write_owed(writer, &held.owed)?;
    writer.key("pending")?;
    write_pending(writer, &held.pending)?;
    writer.key("weak")?;
    write_keys(writer, held.live.weak())
}

/// Writes the held text. The only error is out of memory, after which a part of it may have been written. It takes a constant
/// step for each entry.
pub(crate) fn write_held(writer: &mut Writer, alloc: Global, held: &Held) -> Result<(), AllocError>
    ensures wrote { OnOk result (Wrote (held_data held.now) writer.old writer.new) }
    ensures valid { OnOk result (IsUtf8 (held_text held.now) → IsHeld held.now) }
{
    writer.begin_object()?;
    write_first(writer, alloc, held)?;
    write_last(writer, held)?;
    writer.end_object()
}

/// Refuses what is printed as another text.
pub(crate) fn expect_text(held: &Held, text: &[u8]) -> Result<(), HeldError>
    ensures ok { OnOk result (held_text held.now ≡ text.now) }
    ensures valid { OnOk result (IsHeld held.now) }
    ensures err { IfErr result (λ e. e ≢ Memory → held_text held.now ≢ text.now) }
{
    if held.print()?.as_str().as_bytes() == text {
        Ok(())
    } else {
        Err(HeldError::BadHeld)
    }
}

// What the text is the print of, or `BadHeld`.
fn read_exactly(alloc: Global, text: &[u8]) -> Result<Held, HeldError>
    ensures ok { IfOk result (λ held. held_text held ≡ text.now) }
    ensures valid { IfOk result IsHeld }
    ensures exact { (held : Held) → IsHeld held → held_text held ≡ text.now → IsRead result held }
{
    let Some(value) = json_of(alloc, text)? else {
        return Err(HeldError::BadHeld);
    };
    let held = held_of(alloc, value)?;
    expect_text(&held, text)?;
    Ok(held)
}

/// What a store holds, printed as one line of JSON and read back.
pub trait HeldText: Sized {
    /// The held text: an object of compact JSON (RFC 8259) with these members, in this order.
    ///
    /// - `image`: the stored image text in standard base64 (RFC 4648), padded
    /// - `live`: a list of pairs of a key and its value
    /// - `meta`: a list of triples of a key, a name and the value of this metadata
    /// - `owed`: `"all"` or a list of keys
    /// - `pending`: a list of pairs of a transaction's name and a list of pairs of a key and its value,
    ///   which is `null` for a removal
    /// - `weak`: a list of keys
    ///
    /// Keys are printed, and every list rises. It takes a constant step for each entry. The only
    /// error is out of memory.
    fn print(&self) -> Result<Text, AllocError>;

    /// What the text is the print of. It answers `BadHeld` exactly where the text is the print of
    /// nothing that a store may hold, so every other spelling and order is refused too, and `Memory`
    /// where it runs out of memory. It takes a logarithmic step for each entry.
    fn read(alloc: Global, text: &[u8]) -> Result<Self, HeldError>;
}

impl HeldText for Held {
    fn print(&self) -> Result<Text, AllocError>
        ensures text { IfOk result (λ text. text ≡ held_text self.now) }
        ensures valid { IfOk result (λ _. IsHeld self.now) }
    {
        let alloc = self.live.weak().allocator();
        let mut writer = Writer::new(Vec::new(alloc));
        write_held(&mut writer, alloc, self)?;
        Ok(text_of(writer))
    }

    fn read(alloc: Global, text: &[u8]) -> Result<Self, HeldError>
        ensures ok { IfOk result (λ held. held_text held ≡ text.now) }
        ensures valid { IfOk result IsHeld }
        ensures bad { IfErr result
            (λ e. e ≡ BadHeld → (held : Held) → IsHeld held → held_text held ≢ text.now) }
        ensures exact { (held : Held) → IsHeld held → held_text held ≡ text.now → IsRead result held }
    {
        read_exactly(alloc, text)
    }
}
