//! Scalars and trees of their JSON texts: what each is, or why it is none.
use crate::lines;
use json_trees::{Scalar, ScalarError, TreeError, flatten, flatten_patch, nest, nest_pending};
use key_names::Text;
use row_files::{key_of, line, parts};
use std::alloc::Global;
use std::fmt::Debug;
use std::io::{self, Write};

// A copy of the scalar, printed.
fn scalar(alloc: Global, json: &str) -> Result<Text, ScalarError> {
    let scalar = Scalar::of_json(alloc, json.as_bytes())?.copy()?;
    Ok(scalar.print(alloc)?)
}

// The pairs that the text is, nested again.
fn tree(alloc: Global, json: &str) -> Result<Text, TreeError> {
    let pairs = flatten(alloc, None, json.as_bytes())?;
    Ok(nest(alloc, pairs.as_slice(), 0)?)
}

fn told<E: Debug + Drop>(out: &mut Vec<u8>, text: Result<Text, E>) -> io::Result<()> {
    match text {
        Ok(text) => line(out, &[text.as_str()]),
        Err(error) => writeln!(out, "{error:?}"),
    }
}

/// Tells what the row of this word comes to: of a patch its pairs, nested again without the key, and of `pairs` those of the tree below the key.
pub fn tell(out: &mut Vec<u8>, word: &str, text: &str) -> io::Result<()> {
    let alloc = *out.allocator();
    let (key, json) = match word {
        "scalar" => return told(out, scalar(alloc, text)),
        "tree" => return told(out, tree(alloc, text)),
        "patch-tree" => ("settings", text),
        _ => parts(text),
    };
    let under = key_of(alloc, key)?;
    if word == "patch-tree" {
        return match flatten_patch(alloc, &under, json.as_bytes()) {
            Ok(pairs) => line(out, &[nest_pending(alloc, &pairs, under.len())?.as_str()]),
            Err(error) => writeln!(out, "{error:?}"),
        };
    }
    match flatten(alloc, Some(&under), json.as_bytes()) {
        Ok(pairs) => lines::pairs(out, &pairs),
        Err(error) => writeln!(out, "{error:?}"),
    }
}
