//! Which bodies are one tree.
ghost use Rattle.std.specs.Prelude.{◌≡◌, true, length, nat_le};
ghost use Rattle.std.specs.List.{list_any};
ghost use Rattle.machine_answers.specs.Replies.{MayNest, MayPrint};
ghost use Rattle.api_core.specs.Prints.{CanNest, CanPrint};

use key_names::Key;
use machine_answers::{Answer, Body};
use settings_tree::{Pending, Scalar};

// Whether the key has no more than so many segments.
fn is_short(key: &Key, skip: usize) -> bool
    ensures { result ≡ nat_le (length key.now) skip }
{
    key.len() <= skip
}

fn has_short_value(pairs: &[(Key, Scalar)], skip: usize) -> bool
    ensures { result ≡ list_any (λ e. nat_le (length e.0) skip) pairs.now }
{
    pairs.iter().any(|(key, _)| is_short(key, skip))
}

fn has_short_pending(pairs: &[(Key, Pending)], skip: usize) -> bool
    ensures { result ≡ list_any (λ e. nat_le (length e.0) skip) pairs.now }
{
    pairs.iter().any(|(key, _)| is_short(key, skip))
}

// Whether there is no value at the root of the tree.
fn may_nest(body: &Body) -> bool
    ensures { result ≡ true → CanNest body.now → MayNest body.now }
{
    match body {
        Body::Values { skip, pairs } => !has_short_value(pairs.as_slice(), *skip),
        Body::Pairs(pairs) => !has_short_pending(pairs.as_slice(), 1),
        _ => true,
    }
}

/// Whether there is no value at the root of a tree of the answer.
pub(crate) fn may_print(answer: &Answer) -> bool
    ensures { result ≡ true → CanPrint answer.now → MayPrint answer.now }
{
    match answer {
        Answer::Said(body) => may_nest(body),
        Answer::Empty | Answer::File(_) | Answer::Refused(_) => true,
    }
}
