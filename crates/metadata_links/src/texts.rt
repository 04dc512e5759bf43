//! Lists of texts, and the values that hold them.
ghost use Rattle.std.specs.Prelude.{◌≡◌, ◌++◌, [], ◌∷◌, IfOk, OnOk, IsTrue};
ghost use Rattle.std.specs.List.{filter_map, list_all};
ghost use Rattle.std.specs.Option.{option_copied};
ghost use Rattle.key_names.specs.Segment.{is_segment};
ghost use Rattle.metadata_links.specs.Texts.{is_text, text_of, texts_in, text_in};

use json_trees::{Item, Scalar};
use key_names::Text;
use std::alloc::{AllocError, Global};
use std::marker::Model;

/// A list of texts. It keeps the allocator of the `Vec` that it was made of.
#[derive(Debug, Drop)]
pub struct Texts {
    texts: Vec<Text>,
}

impl Model for Texts {
    ghost use Rattle.std.specs.Prelude.{List, ℕ};

    ghost Value = { List (List ℕ) };

    ghost view = { λ t. t.texts.items };
}

impl Texts {
    /// The list of these texts. It takes no memory.
    pub fn of(texts: Vec<Text>) -> Texts
        ensures { result ≡ texts.items }
    {
        Texts { texts }
    }

    /// The texts, borrowed.
    pub fn as_slice(&self) -> &[Text]
        ensures { result.now ≡ self.now }
    {
        &self.texts
    }
}

/// The text with the bytes of a segment.
pub(crate) fn segment_text(alloc: Global, segment: &[u8]) -> Result<Text, AllocError>
    requires { IsTrue (is_segment segment.now) }
    ensures { IfOk result (λ text. text ≡ segment.now) }
{
    let text = std::str::from_utf8(segment).unwrap();
    Text::from_str(alloc, text)
}

fn is_text(item: &Item) -> bool
    ensures { result ≡ is_text item.now }
{
    matches!(item, Item::Text(_))
}

fn are_texts(items: &[Item]) -> bool
    ensures { result ≡ list_all is_text items.now }
{
    items.iter().all(|item| is_text(item))
}

fn push_text(texts: &mut Vec<Text>, item: &Item) -> Result<(), AllocError>
    ensures { OnOk result (texts.new.items ≡ texts.old.items ++ filter_map text_of (item.now ∷ [])) }
{
    if let Item::Text(text) = item {
        texts.push(text.copy()?)?;
    }
    Ok(())
}

// The texts among the items.
fn copy_texts(alloc: Global, items: &[Item]) -> Result<Vec<Text>, AllocError>
    ensures { IfOk result (λ texts. texts.items ≡ filter_map text_of items.now) }
{
    let mut texts = Vec::new(alloc);
    for item in items {
        push_text(&mut texts, item)?;
    }
    Ok(texts)
}

/// A copy of the list of texts that the value is, None exactly where it is none.
pub(crate) fn texts_in(alloc: Global, value: &Scalar) -> Result<Option<Texts>, AllocError>
    ensures { IfOk result (λ texts. texts ≡ texts_in value.now) }
{
    let Scalar::List(items) = value else {
        return Ok(None);
    };
    let items = items.as_slice();
    if are_texts(items) {
        Ok(Some(Texts::of(copy_texts(alloc, items)?)))
    } else {
        Ok(None)
    }
}

/// The text that the value is, None exactly where it is none.
pub(crate) fn text_in(value: &Scalar) -> Option<&Text>
    ensures { option_copied result ≡ text_in value.now }
{
    match value {
        Scalar::Text(text) => Some(text),
        _ => None,
    }
}
