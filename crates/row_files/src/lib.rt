//! Files of rows: tests that are texts, which programs read and judge.
//!
//! A file is made of steps. A step is a line that begins with a word; the lines below it that begin with `> ` are what is given to it, and those that
//! begin with two spaces are what it comes to. Empty lines and lines that begin with `#` say nothing. As in cram, a line that ends with ` (esc)` has
//! escapes, and ` (no-eol)` at the end of the last one says that no line feed ends it. `each` begins a loop over the steps down to its `end`
//! (`loops.rt`), and the last line, `rows N`, says how many comparisons the file makes.
#![tactic(auto)]

mod conditions;
mod escapes;
mod going;
mod judging;
mod loops;
mod reading;
mod subject;
mod telling;
mod words;

pub use going::all_go;
pub use subject::{Fault, Given, Subject};
pub use words::{
    at, bad, good, halves, key_of, keys_of, line, number_of, parts, path_of, text_of, words_of,
};
