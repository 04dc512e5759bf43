//! Texts of paths, taken apart and put together.
ghost use Rattle.std.specs.Prelude.{◌≡◌, ◌≢◌, ◌==◌, ◌<◌, ◌∷◌, [], ◌++◌, length, IfOk, IfErr, OnOk, IfSome, MatchOption};
ghost use Rattle.std.specs.List.{position, slice_split};
ghost use Rattle.outside.specs.PathText.{behind_slashes, joined, without_slash, with_parts};

use crate::{Name, Path, PathError};
use std::alloc::{AllocError, Global};

/// The text without a slash at its front.
pub fn without_slash(text: &[u8]) -> &[u8]
    ensures { result.now ≡ without_slash text.now }
{
    match text {
        [b'/', rest @ ..] => rest,
        _ => text,
    }
}

// The place of the first slash.
fn slash_in(text: &[u8]) -> Option<usize>
    ensures value { result ≡ position (λ c. c == 47) text.now }
    ensures bound { IfSome result (λ at. at < length text.now) }
{
    text.iter().position(|b| *b == b'/')
}

// The part before the first slash, and what is after it.
fn cut(text: &[u8]) -> Option<(&[u8], &[u8])>
    ensures parts { MatchOption result (slice_split (λ c. c == 47) text.now ≡ text.now ∷ [])
        (λ p. slice_split (λ c. c == 47) text.now ≡ p.0.now ∷ slice_split (λ c. c == 47) p.1.now) }
    ensures shorter { IfSome result (λ p. length p.1.now < length text.now) }
{
    let at = slash_in(text)?;
    Some((&text[..at], &text[at + 1..]))
}

/// Adds the parts between slashes one by one, up to the first that can't be.
pub fn push_parts(path: &mut Path, text: &[u8]) -> Result<(), PathError>
    ensures ok { OnOk result (with_parts path.old (slice_split (λ c. c == 47) text.now) ≡ Ok path.new) }
    ensures err { IfErr result (λ e. e ≢ PathError.Memory → with_parts path.old (slice_split (λ c. c == 47) text.now) ≡ Err e) }
{
    let mut rest = text;
    while let Some((front, back)) = cut(rest) {
        if let Err(e) = path.push(front) {
            return Err(e);
        }
        rest = back;
    }
    path.push(rest)
}

fn push_names(text: &mut Vec<u8>, names: &[Name]) -> Result<(), AllocError>
    ensures { OnOk result (text.new.items ≡ text.old.items ++ behind_slashes names.now) }
{
    for name in names {
        text.push(b'/')?;
        text.extend_from_slice(name.as_slice())?;
    }
    Ok(())
}

/// The names joined by slashes.
pub fn print_names(alloc: Global, names: &[Name]) -> Result<Vec<u8>, AllocError>
    ensures { IfOk result (λ text. text.items ≡ joined names.now) }
{
    let Some((first, others)) = names.split_first() else {
        return Ok(Vec::new(alloc));
    };
    let mut text = first.as_slice().to_vec(alloc)?;
    push_names(&mut text, others)?;
    Ok(text)
}
