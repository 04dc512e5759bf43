//! Restart commands, split into words.
ghost use Rattle.std.specs.Prelude.{◌≡◌, ◌<◌, ◌++◌, ◌==◌, [], ◌∷◌, nat_lt, length, filter, map, string_bytes, IfOk, IfSome, OnOk, MatchOption};
ghost use Rattle.std.specs.List.{slice_split};
ghost use Rattle.metadata_links.specs.Words.{words_in, has_word};

use key_names::Text;
use std::alloc::{AllocError, Global};

/// A restart command.
#[derive(Debug, Drop)]
pub struct Command {
    /// The service that it restarts.
    pub service: Text,
    /// Its place in the service's list, counted from 0.
    pub index: usize,
    /// Its words, none of them empty.
    pub words: Vec<String>,
}

/// Whether the text has a word: a byte that is no space. It takes no memory.
pub(crate) fn has_word(text: &Text) -> bool
    ensures { result ≡ has_word text.now }
{
    text.as_str().as_bytes().iter().any(|b| *b != b' ')
}

fn push_word(words: &mut Vec<String>, alloc: Global, word: &str) -> Result<(), AllocError>
    ensures { OnOk result (map (λ w. string_bytes w) words.new.items ≡ map (λ w. string_bytes w) words.old.items
        ++ filter (λ word. nat_lt 0 (length word)) (word.now ∷ [])) }
{
    if !word.is_empty() {
        words.push(String::from_str(alloc, word)?)?;
    }
    Ok(())
}

// The part before the first space, and what is after it.
fn cut(text: &str) -> Option<(&str, &str)>
    ensures parts { MatchOption result (slice_split (λ b. b == 32) text.now ≡ text.now ∷ [])
        (λ p. slice_split (λ b. b == 32) text.now ≡ p.0.now ∷ slice_split (λ b. b == 32) p.1.now) }
    ensures shorter { IfSome result (λ p. length p.1.now < length text.now) }
{
    text.split_once(' ')
}

/// The words between runs of spaces. It takes one pass. The only error is out of memory.
#[tactic(auto, using(crate::proofs::Spaces::words))]
pub(crate) fn words_in(alloc: Global, text: &str) -> Result<Vec<String>, AllocError>
    ensures { IfOk result (λ words. map (λ w. string_bytes w) words.items ≡ words_in text.now) }
{
    let mut words = Vec::new(alloc);
    let mut rest = text;
    while let Some((front, back)) = cut(rest) {
        push_word(&mut words, alloc, front)?;
        rest = back;
    }
    push_word(&mut words, alloc, rest)?;
    Ok(words)
}
