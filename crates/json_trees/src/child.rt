//! The keys of the entries of a tree.
ghost use Rattle.std.specs.Prelude.{◌≡◌, ◌≢◌, [], ◌∷◌, ◌++◌, false, IfOk, IfErr, IsTrue};
ghost use Rattle.key_names.specs.Key.{is_key};
ghost use Rattle.key_names.specs.Faults.{RefusesChild};
ghost use Rattle.key_names.specs.declared.key_error.KeyFault.TheVariants as key_fault;
ghost use Rattle.json_trees.specs.Tree.{path_of, refusal_of};
ghost use Rattle.json_trees.specs.declared.tree_error.TreeError.TheVariants.{BadKey, Memory};

use crate::TreeError;
use key_names::{Key, KeyError, KeyFault};
use std::alloc::Global;

/// The key of the entry with this name below a key, or below none.
pub fn child_of(alloc: Global, under: Option<&Key>, name: &str) -> Result<Key, TreeError>
    ensures ok { IfOk result (λ key. key ≡ path_of under.entry ++ name.now ∷ []) }
    ensures valid { IfOk result (λ key. IsTrue (is_key key)) }
    ensures err { IfErr result
        (λ e. e ≢ Memory → (e ≡ BadKey) × (is_key (path_of under.entry ++ name.now ∷ []) ≡ false)) }
{
    match with_segment(alloc, under, name.as_bytes()) {
        Ok(key) => Ok(key),
        Err(e) => Err(refusal_of(e)),
    }
}

// The key with one segment more, or the key of this one.
fn with_segment(alloc: Global, under: Option<&Key>, segment: &[u8]) -> Result<Key, KeyError>
    ensures ok { IfOk result (λ key. key ≡ path_of under.entry ++ segment.now ∷ []) }
    ensures valid { IfOk result (λ key. IsTrue (is_key key)) }
    ensures refused { IfErr result
        (λ e. e.kind ≢ key_fault.Memory → RefusesChild (path_of under.entry) segment.now e.kind e.place) }
{
    match under {
        Some(key) => key.child(segment),
        None => Key::of_segment(alloc, segment),
    }
}

fn refusal_of(error: KeyError) -> TreeError
    ensures { result ≡ refusal_of error.kind }
{
    match error.kind {
        KeyFault::Memory => TreeError::Memory,
        _ => TreeError::BadKey,
    }
}
