//! Type words.
ghost use Rattle.std.specs.Prelude.{◌≡◌, IfOk};
ghost use Rattle.std.specs.List.{list_all};
ghost use Rattle.typed_settings.specs.Takes.{takes, takes_item};

use crate::item_word::ItemWord;
use json_trees::{Item, Scalar};
use std::alloc::{AllocError, Global};

/// What the value of a setting is to be.
#[derive(Debug, Drop)]
pub enum Word {
    /// A single value.
    One(ItemWord),
    /// `list W`: a list, each item of which the word `W` takes.
    List(ItemWord),
}

fn takes_item(alloc: Global, word: &ItemWord, item: &Item) -> Result<bool, AllocError>
    ensures { IfOk result (λ answer. answer ≡ takes_item word.now item.now) }
{
    match item {
        Item::Bool(_) => Ok(word.takes_bool()),
        Item::Int(n) => Ok(word.takes_int(*n)),
        Item::Text(text) => word.takes_text(alloc, text.as_str()),
    }
}

fn takes_items(alloc: Global, word: &ItemWord, items: &[Item]) -> Result<bool, AllocError>
    ensures { IfOk result (λ answer. answer ≡ list_all (takes_item word.now) items.now) }
{
    for item in items {
        if !takes_item(alloc, word, item)? {
            return Ok(false);
        }
    }
    Ok(true)
}

fn takes_single(alloc: Global, word: &ItemWord, value: &Scalar) -> Result<bool, AllocError>
    ensures { IfOk result (λ answer. answer ≡ takes (Word.One word.now) value.now) }
{
    match value {
        Scalar::Bool(_) => Ok(word.takes_bool()),
        Scalar::Int(n) => Ok(word.takes_int(*n)),
        Scalar::Text(text) => word.takes_text(alloc, text.as_str()),
        Scalar::List(_) => Ok(false),
    }
}

fn takes_list(alloc: Global, word: &ItemWord, value: &Scalar) -> Result<bool, AllocError>
    ensures { IfOk result (λ answer. answer ≡ takes (Word.List word.now) value.now) }
{
    match value {
        Scalar::List(items) => takes_items(alloc, word, items.as_slice()),
        _ => Ok(false),
    }
}

impl Word {
    /// Whether the word takes this value: a list word takes lists alone, and each other word single
    /// values alone. The only error is out of memory. It takes time linear in the value, and at
    /// `choice` in the number of names too.
    pub(crate) fn takes(&self, alloc: Global, value: &Scalar) -> Result<bool, AllocError>
        ensures { IfOk result (λ answer. answer ≡ takes self.now value.now) }
    {
        match self {
            Word::One(word) => takes_single(alloc, word, value),
            Word::List(word) => takes_list(alloc, word, value),
        }
    }
}
