//! The pair of versions that names an entry of `migrations`.
ghost use Rattle.std.specs.Prelude.{◌≡◌, ◌≢◌, ◌↔◌, ◌∷◌, [], ℕ, List, IsTrue, MatchOption};
ghost use Rattle.release_file.specs.Order.{is_before};
ghost use Rattle.version_links.specs.declared.version.Version.{Version as Three};
ghost use Rattle.release_file.specs.Pair.{IsPair, HasVersion};

use crate::order::is_before;
use version_links::{Version, first_number};

// The version after the mark at the front of the text, and what follows it.
fn first_version(text: &[u8], mark: u8) -> Option<(Version, &[u8])>
    requires { mark ≢ 95 }
    ensures { MatchOption result ((version : Three) (rest : List ℕ) → HasVersion mark text.now version rest → ⊥)
        (λ p. HasVersion mark text.now p.0 p.1.now) }
{
    let (major, rest) = first_number(text, mark)?;
    let (minor, rest) = first_number(rest, b'.')?;
    let (patch, rest) = first_number(rest, b'.')?;
    Some((
        Version {
            major,
            minor,
            patch,
        },
        rest,
    ))
}

// What follows the comma at the front of the text.
fn past_comma(text: &[u8]) -> Option<&[u8]>
    ensures { MatchOption result ((rest : List ℕ) → text.now ≢ 44 ∷ rest) (λ rest. text.now ≡ 44 ∷ rest.now) }
{
    match text {
        [first, rest @ ..] if *first == b',' => Some(rest),
        _ => None,
    }
}

// Whether nothing but the closing bracket is left, and the first version is below the second.
fn closes(rest: &[u8], from: &Version, to: &Version) -> bool
    ensures { IsTrue result ↔ ((rest.now ≡ 41 ∷ []) × IsTrue (is_before from.now to.now)) }
{
    rest == b")".as_slice() && is_before(from, to)
}

/// The pair that the text is, as in `(1.5.2, 1.5.3)`: a version and a later one. None exactly where it is none. It takes
/// no memory.
pub fn pair_of(text: &[u8]) -> Option<(Version, Version)>
    ensures { MatchOption result ((from to : Three) → IsPair text.now from to → ⊥) (λ p. IsPair text.now p.0 p.1) }
{
    let (from, rest) = first_version(text, b'(')?;
    let (to, rest) = first_version(past_comma(rest)?, b' ')?;
    if closes(rest, &from, &to) {
        Some((from, to))
    } else {
        None
    }
}
