//! Expressions, read from words.
ghost use Rattle.std.specs.Prelude.{◌≡◌, ◌∷◌, [], map, IfOk};
ghost use Rattle.std.specs.Option.{option_map};
ghost use Rattle.template_reader.specs.Says.{path_of, expr_of, default_of, join_array_of, join_map_of};
ghost use Rattle.template_reader.specs.declared.expr.Expr.TheVariants.{Decode, Json};

use crate::Expr;
use crate::literals::{read_fails, read_literal, read_text};
use crate::paths::read_path;
use crate::words::is_same;
use std::alloc::{AllocError, Global};

// A path alone.
#[tactic(auto, unfolding(crate::specs::Says::expr_of))]
fn read_plain(alloc: Global, word: &[u8]) -> Result<Option<Expr>, AllocError>
    ensures { IfOk result (λ o. o ≡ expr_of (word.now ∷ [])) }
{
    match read_path(alloc, word)? {
        Some(path) => Ok(Some(Expr::Plain { path })),
        None => Ok(None),
    }
}

// What follows the word `base64_decode`.
fn read_decode(alloc: Global, word: &[u8]) -> Result<Option<Expr>, AllocError>
    ensures { IfOk result (λ o. o ≡ option_map Decode (path_of word.now)) }
{
    match read_path(alloc, word)? {
        Some(path) => Ok(Some(Expr::Decode { path })),
        None => Ok(None),
    }
}

// What follows the word `json`.
fn read_json(alloc: Global, word: &[u8]) -> Result<Option<Expr>, AllocError>
    ensures { IfOk result (λ o. o ≡ option_map Json (path_of word.now)) }
{
    match read_path(alloc, word)? {
        Some(path) => Ok(Some(Expr::Json { path })),
        None => Ok(None),
    }
}

// Two words: a helper and a path.
#[tactic(auto, unfolding(crate::specs::Says::expr_of))]
fn read_pair(alloc: Global, name: &[u8], word: &[u8]) -> Result<Option<Expr>, AllocError>
    ensures { IfOk result (λ o. o ≡ expr_of (name.now ∷ word.now ∷ [])) }
{
    if is_same(name, b"base64_decode") {
        read_decode(alloc, word)
    } else if is_same(name, b"json") {
        read_json(alloc, word)
    } else {
        Ok(None)
    }
}

// What follows the word `default`.
fn read_default(alloc: Global, literal: &[u8], word: &[u8]) -> Result<Option<Expr>, AllocError>
    ensures { IfOk result (λ o. o ≡ default_of literal.now word.now) }
{
    let Some(literal) = read_literal(alloc, literal)? else {
        return Ok(None);
    };
    match read_path(alloc, word)? {
        Some(path) => Ok(Some(Expr::Default { literal, path })),
        None => Ok(None),
    }
}

// What follows the word `join_array`.
fn read_join_array(alloc: Global, joiner: &[u8], word: &[u8]) -> Result<Option<Expr>, AllocError>
    ensures { IfOk result (λ o. o ≡ join_array_of joiner.now word.now) }
{
    let Some(joiner) = read_text(alloc, joiner)? else {
        return Ok(None);
    };
    match read_path(alloc, word)? {
        Some(path) => Ok(Some(Expr::JoinArray { joiner, path })),
        None => Ok(None),
    }
}

// Three words: a helper, a literal or text, and a path.
#[tactic(auto, unfolding(crate::specs::Says::expr_of))]
fn read_triple(
    alloc: Global,
    name: &[u8],
    given: &[u8],
    word: &[u8],
) -> Result<Option<Expr>, AllocError>
    ensures { IfOk result (λ o. o ≡ expr_of (name.now ∷ given.now ∷ word.now ∷ [])) }
{
    if is_same(name, b"default") {
        read_default(alloc, given, word)
    } else if is_same(name, b"join_array") {
        read_join_array(alloc, given, word)
    } else {
        Ok(None)
    }
}

// What follows the word `join_map`, whose third text is `fail`.
fn read_join_map(
    alloc: Global,
    joiner: &[u8],
    separator: &[u8],
    fail: bool,
    word: &[u8],
) -> Result<Option<Expr>, AllocError>
    ensures { IfOk result (λ o. o ≡ join_map_of joiner.now separator.now fail word.now) }
{
    let Some(joiner) = read_text(alloc, joiner)? else {
        return Ok(None);
    };
    let Some(separator) = read_text(alloc, separator)? else {
        return Ok(None);
    };
    match read_path(alloc, word)? {
        Some(path) => Ok(Some(Expr::JoinMap {
            joiner,
            separator,
            fail,
            path,
        })),
        None => Ok(None),
    }
}

// Five words: a helper, three texts and a path.
#[tactic(auto, unfolding(crate::specs::Says::expr_of))]
fn read_five(
    alloc: Global,
    name: &[u8],
    joiner: &[u8],
    separator: &[u8],
    fails: &[u8],
    word: &[u8],
) -> Result<Option<Expr>, AllocError>
    ensures { IfOk result (λ o. o ≡ expr_of (name.now ∷ joiner.now ∷ separator.now ∷ fails.now ∷ word.now ∷ [])) }
{
    if !is_same(name, b"join_map") {
        return Ok(None);
    }
    match read_fails(fails) {
        Some(fail) => read_join_map(alloc, joiner, separator, fail, word),
        None => Ok(None),
    }
}

/// The expression that the words are, if they are one. The only error is out of memory.
#[tactic(auto, unfolding(crate::specs::Says::expr_of))]
pub fn read_expr(alloc: Global, words: &[&[u8]]) -> Result<Option<Expr>, AllocError>
    ensures { IfOk result (λ o. o ≡ expr_of (map (λ word. word.now) words.now)) }
{
    match words {
        [] => Ok(None),
        [path] => read_plain(alloc, path),
        [name, path] => read_pair(alloc, name, path),
        [name, given, path] => read_triple(alloc, name, given, path),
        [_, _, _, _] => Ok(None),
        [name, joiner, separator, fails, path] => {
            read_five(alloc, name, joiner, separator, fails, path)
        }
        [_, _, _, _, _, _, ..] => Ok(None),
    }
}
