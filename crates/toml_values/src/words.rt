//! The words of a text.
ghost use Rattle.std.specs.Prelude.{◌≡◌, ◌++◌, ◌∷◌, [], IfOk, OnOk, map, string_bytes};
ghost use Rattle.toml_values.specs.Words.{parts_of, words_among, words_in};

use std::alloc::{AllocError, Global};

// What is between the spaces.
fn parts_of(alloc: Global, text: &str) -> Result<Vec<&str>, AllocError>
    ensures { IfOk result (λ parts. map (λ p. p.now) parts.items ≡ parts_of text.now) }
{
    text.split(' ').collect(alloc)
}

// Pushes the part, unless it is empty.
fn push_word(alloc: Global, words: &mut Vec<String>, part: &str) -> Result<(), AllocError>
    ensures { OnOk result (map string_bytes words.new.items ≡ map string_bytes words.old.items ++ words_among (part.now ∷ [])) }
{
    if !part.is_empty() {
        words.push(String::from_str(alloc, part)?)?;
    }
    Ok(())
}

// The parts that are not empty.
fn words_among(alloc: Global, parts: &[&str]) -> Result<Vec<String>, AllocError>
    ensures { IfOk result (λ words. map string_bytes words.items ≡ words_among (map (λ p. p.now) parts.now)) }
{
    let mut words = Vec::new(alloc);
    for part in parts {
        push_word(alloc, &mut words, *part)?;
    }
    Ok(words)
}

/// The words of the text, which are between its spaces. The only error is out of memory.
pub fn words_in(alloc: Global, text: &str) -> Result<Vec<String>, AllocError>
    ensures { IfOk result (λ words. map string_bytes words.items ≡ words_in text.now) }
{
    words_among(alloc, &parts_of(alloc, text)?)
}
