//! Lists of keys.
ghost use Rattle.std.specs.Prelude.{◌≡◌, ◌≢◌, ◌≤◌, ℕ, List, length, take, IfOk, IfErr, MatchResult};
ghost use Rattle.key_names.specs.declared.key_error.KeyFault.{KeyFault};
ghost use Rattle.key_names.specs.declared.key_error.KeyFault.TheVariants.{Memory};
ghost use Rattle.key_names.specs.Faults.{IsRefused};
ghost use Rattle.key_names.specs.Listing.{Lists, IsPiece, RefusesList};

use crate::{Key, KeyError};
use std::alloc::Global;

// The length of the piece at the head of a text: up to the first comma outside quotes.
fn piece_len(text: &[u8]) -> usize
    ensures piece { IsPiece text.now (take result text.now) }
    ensures bound { result ≤ length text.now }
{
    let mut closed = true;
    for (i, b) in text.iter().enumerate() {
        if *b == b'"' {
            closed = !closed;
        } else if closed && *b == b',' {
            return i;
        }
    }
    text.len()
}

// The keys, or the first fault.
fn keys_of(alloc: Global, text: &[u8]) -> Result<Vec<Key>, KeyError>
    ensures ok { IfOk result (λ keys. Lists text.now keys.items) }
    ensures refused { IfErr result (λ e. e.kind ≢ Memory → RefusesList text.now e.kind e.place) }
    ensures place { IfErr result (λ e. e.place ≤ length text.now) }
{
    let mut keys = Vec::new(alloc);
    let mut start = 0;
    loop {
        let (_, rest) = text.split_at(start);
        let len = piece_len(rest);
        let (piece, _) = rest.split_at(len);
        let key = match Key::read(alloc, piece) {
            Ok(key) => key,
            Err(fault) => {
                return Err(KeyError {
                    kind: fault.kind,
                    place: start + fault.place,
                });
            }
        };
        keys.push(key)?;
        start += len;
        if start == text.len() {
            return Ok(keys);
        }
        // after the comma
        start += 1;
    }
}

/// The keys that the text lists, separated by commas outside quotes.
///
/// Refused is the first piece between such commas that is no key, with the fault of `Key::read` there.
/// Its place counts in the whole text. A quote that is never closed takes all that follows into its
/// piece. An empty text is `Empty` at 0. It takes two passes over the text.
pub fn read_list(alloc: Global, text: &[u8]) -> Result<Vec<Key>, KeyError>
    ensures ok { IfOk result (λ keys. Lists text.now keys.items) }
    ensures refused { IfErr result (λ e. e.kind ≢ Memory → RefusesList text.now e.kind e.place) }
    ensures place { IfErr result (λ e. e.place ≤ length text.now) }

    // So exactly the keys that the text lists are read, and exactly the text's fault is answered.
    ensures exact_keys { (keys : List (List (List ℕ))) → Lists text.now keys
        → MatchResult result (λ read. read.items ≡ keys) (λ e. e.kind ≡ Memory) }
    ensures exact_fault { (kind : KeyFault) (place : ℕ) → RefusesList text.now kind place
        → IsRefused result kind place }
{
    keys_of(alloc, text)
}
