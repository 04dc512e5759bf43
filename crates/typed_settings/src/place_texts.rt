//! The places that a text spells.
ghost use Rattle.std.specs.Prelude.{◌≡◌, ◌≢◌, ◌<◌, ◌≤◌, ◌==◌, not, ℕ, List, [], ◌∷◌, length, take, IfOk, IfSome, Ok, None};
ghost use Rattle.std.specs.List.{prefix_len};
ghost use Rattle.key_names.specs.Joined.{Joins};
ghost use Rattle.typed_settings.specs.Pattern.{IsPlaceText, IsHeadLen, IsPlaceOf};
ghost use Rattle.typed_settings.specs.declared.place.Place.{Place};

use crate::place::Place;
use key_names::{Bytes, Key, KeyFault};
use std::alloc::{AllocError, Global};

// How many bytes come before the first such byte.
fn len_before(text: &[u8], byte: u8) -> usize
    ensures len { result ≡ prefix_len (λ b. not (b == byte)) text.now }
    ensures within { result ≤ length text.now }
{
    text.iter().take_while(|b| **b != byte).count()
}

// The length of the place at the head of a text: up to the quote that closes it, or else to the
// first dot.
fn head_len(text: &[u8]) -> usize
    ensures { IsHeadLen text.now result }
{
    match text.split_first() {
        Some((first, inside)) if *first == b'"' => {
            let len = len_before(inside, b'"');
            if len < inside.len() {
                len + 2
            } else {
                text.len()
            }
        }
        _ => len_before(text, b'.'),
    }
}

// The place of a key of one segment.
fn plain_place(alloc: Global, key: &Key) -> Result<Option<Place>, AllocError>
    ensures some { IfOk result (λ o. IfSome o (IsPlaceOf key.now)) }
    ensures none { result ≡ Ok None → (place : Place) → ¬ IsPlaceOf key.now place }
{
    if key.len() != 1 {
        return Ok(None);
    }
    let segment = key.segment(0).to_vec(alloc)?;
    Ok(Some(Place::Plain(Bytes::of(segment))))
}

// The place that the text spells.
fn place_of(alloc: Global, text: &[u8]) -> Result<Option<Place>, AllocError>
    ensures some { IfOk result (λ o. IfSome o (IsPlaceText text.now)) }
    ensures none { result ≡ Ok None → (place : Place) → ¬ IsPlaceText text.now place }
{
    if text == b"*".as_slice() {
        return Ok(Some(Place::Any));
    }
    match Key::read(alloc, text) {
        Ok(key) => plain_place(alloc, &key),
        Err(e) => match e.kind {
            KeyFault::Memory => Err(AllocError),
            _ => Ok(None),
        },
    }
}

/// The places that the text spells, joined by dots, or `None` where it spells none. The only error is
/// out of memory. It takes time linear in the text.
pub fn places_of(alloc: Global, text: &[u8]) -> Result<Option<Vec<Place>>, AllocError>
    ensures some { IfOk result
        (λ o. IfSome o (λ places. Joins IsPlaceText 46 text.now places.items)) }
    ensures none { result ≡ Ok None → (places : List Place) → ¬ Joins IsPlaceText 46 text.now places }
{
    let mut places = Vec::new(alloc);
    let mut rest = text;
    loop {
        let (head, behind) = rest.split_at(head_len(rest));
        match place_of(alloc, head)? {
            Some(place) => places.push(place)?,
            None => return Ok(None),
        }
        match behind.split_first() {
            None => return Ok(Some(places)),
            Some((dot, more)) if *dot == b'.' => rest = more,
            Some(_) => return Ok(None),
        }
    }
}
