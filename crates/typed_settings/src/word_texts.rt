//! The words that texts spell.
ghost use Rattle.std.specs.Prelude.{◌≡◌, ◌≢◌, ◌↔◌, ◌++◌, [], ℕ, ℤ, List, codes, false, IsTrue, IfOk, IfSome, MatchOption, Ok, None};
ghost use Rattle.typed_settings.specs.Word.{SpellsItemWord, SpellsWord, has_parts, bounds_text, SpellsBounds, SpellsChoices};
ghost use Rattle.typed_settings.specs.declared.item_word.ItemWord.{ItemWord};
ghost use Rattle.typed_settings.specs.declared.word.Word.{Word};

use crate::choices::Choices;
use crate::item_word::ItemWord;
use crate::texts::is_identifier;
use crate::word::Word;
use std::alloc::{AllocError, Global};

// What follows the name where the text begins with it.
fn after<'a>(text: &'a str, name: &str) -> Option<&'a str>
    ensures { MatchOption result ((rest : List ℕ) → text.now ≢ name.now ++ rest)
        (λ rest. text.now ≡ name.now ++ rest.now) }
{
    text.strip_prefix(name)
}

// The word that has this name and no parts.
fn named(name: &str) -> Option<ItemWord>
    ensures some { IfSome result (SpellsItemWord name.now) }
    ensures none { result ≡ None → (word : ItemWord) → has_parts word ≡ false
        → ¬ SpellsItemWord name.now word }
{
    if name == "bool" {
        Some(ItemWord::Bool)
    } else if name == "text" {
        Some(ItemWord::Text)
    } else if name == "line" {
        Some(ItemWord::Line)
    } else if name == "identifier" {
        Some(ItemWord::Identifier)
    } else if name == "base64" {
        Some(ItemWord::Base64)
    } else if name == "version" {
        Some(ItemWord::Version)
    } else {
        None
    }
}

// Whether the text is that of the bounds. A bound has one spelling: that in which it is printed.
fn is_bounds_text(alloc: Global, low: i64, high: i64, text: &str) -> Result<bool, AllocError>
    ensures { IfOk result (λ same. IsTrue same ↔ (text.now ≡ bounds_text low high)) }
{
    let printed = format!(in alloc; "{low} {high}")?;
    Ok(printed.as_str() == text)
}

// The two bounds that the text spells.
fn bounds(alloc: Global, text: &str) -> Result<Option<(i64, i64)>, AllocError>
    ensures some { IfOk result (λ o. IfSome o (λ b. SpellsBounds text.now b.0 b.1)) }
    ensures none { result ≡ Ok None → (low high : ℤ) → ¬ SpellsBounds text.now low high }
{
    let Some((first, second)) = text.split_once(' ') else {
        return Ok(None);
    };
    let Ok(low) = first.parse::<i64>() else {
        return Ok(None);
    };
    let Ok(high) = second.parse::<i64>() else {
        return Ok(None);
    };
    if low > high {
        return Ok(None);
    }
    if !is_bounds_text(alloc, low, high, text)? {
        return Ok(None);
    }
    Ok(Some((low, high)))
}

// Appends the names that the text spells, with bars between them, and tells whether it spells some.
fn push_names(names: &mut Choices, text: &str) -> Result<bool, AllocError>
    requires { names.old ≡ [] }
    ensures spelled { IfOk result (λ told. IsTrue told → SpellsChoices text.now names.new) }
    ensures refused { IfOk result
        (λ told. told ≡ false → (others : List (List ℕ)) → ¬ SpellsChoices text.now others) }
{
    for name in text.split('|') {
        if !is_identifier(name.as_bytes()) {
            return Ok(false);
        }
        if names.contains(name) {
            return Ok(false);
        }
        names.push(name)?;
    }
    Ok(true)
}

// The names that the text spells, with bars between them.
fn choices(alloc: Global, text: &str) -> Result<Option<Choices>, AllocError>
    ensures some { IfOk result (λ o. IfSome o (SpellsChoices text.now)) }
    ensures none { result ≡ Ok None → (names : List (List ℕ)) → ¬ SpellsChoices text.now names }
{
    let mut names = Choices::new(alloc);
    if push_names(&mut names, text)? {
        Ok(Some(names))
    } else {
        Ok(None)
    }
}

// The word `int` with these parts.
fn int_of(alloc: Global, parts: &str) -> Result<Option<ItemWord>, AllocError>
    ensures some { IfOk result (λ o. IfSome o (SpellsItemWord (codes "int " ++ parts.now))) }
    ensures none { result ≡ Ok None → (word : ItemWord)
        → ¬ SpellsItemWord (codes "int " ++ parts.now) word }
{
    match bounds(alloc, parts)? {
        Some((low, high)) => Ok(Some(ItemWord::Int(low, high))),
        None => Ok(None),
    }
}

// The word `choice` with these parts.
fn choice_of(alloc: Global, parts: &str) -> Result<Option<ItemWord>, AllocError>
    ensures some { IfOk result (λ o. IfSome o (SpellsItemWord (codes "choice " ++ parts.now))) }
    ensures none { result ≡ Ok None → (word : ItemWord)
        → ¬ SpellsItemWord (codes "choice " ++ parts.now) word }
{
    match choices(alloc, parts)? {
        Some(names) => Ok(Some(ItemWord::Choice(names))),
        None => Ok(None),
    }
}

// The word, which is no list, that the text spells.
fn item_word_of(alloc: Global, text: &str) -> Result<Option<ItemWord>, AllocError>
    ensures some { IfOk result (λ o. IfSome o (SpellsItemWord text.now)) }
    ensures none { result ≡ Ok None → (word : ItemWord) → ¬ SpellsItemWord text.now word }
{
    if let Some(parts) = after(text, "int ") {
        return int_of(alloc, parts);
    }
    if let Some(parts) = after(text, "choice ") {
        return choice_of(alloc, parts);
    }
    Ok(named(text))
}

// The list whose items' word is spelled after `list`.
fn list_of(alloc: Global, rest: &str) -> Result<Option<Word>, AllocError>
    ensures some { IfOk result (λ o. IfSome o (SpellsWord (codes "list " ++ rest.now))) }
    ensures none { result ≡ Ok None → (word : Word) → ¬ SpellsWord (codes "list " ++ rest.now) word }
{
    match item_word_of(alloc, rest)? {
        Some(word) => Ok(Some(Word::List(word))),
        None => Ok(None),
    }
}

// The word of a single value that the text spells.
fn single_of(alloc: Global, text: &str) -> Result<Option<Word>, AllocError>
    ensures some { IfOk result (λ o. IfSome o (SpellsWord text.now)) }
    ensures none { result ≡ Ok None → (word : ItemWord) → ¬ SpellsWord text.now (Word.One word) }
{
    match item_word_of(alloc, text)? {
        Some(word) => Ok(Some(Word::One(word))),
        None => Ok(None),
    }
}

/// The word that the text spells, or `None` where it spells none. The only error is out of memory.
/// It takes time linear in the text, and quadratic in the names of a `choice`.
pub fn word_of(alloc: Global, text: &str) -> Result<Option<Word>, AllocError>
    ensures some { IfOk result (λ o. IfSome o (SpellsWord text.now)) }
    ensures none { result ≡ Ok None → (word : Word) → ¬ SpellsWord text.now word }
{
    match after(text, "list ") {
        Some(rest) => list_of(alloc, rest),
        None => single_of(alloc, text),
    }
}
