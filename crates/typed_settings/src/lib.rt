//! The types of settings: words that say which values are taken, patterns of keys, and the table of
//! rows by which a setting's key and value are checked.
#![tactic(auto)]

mod built_in;
mod choices;
mod given;
mod item_word;
mod law;
mod look_up;
mod meeting;
mod pattern;
mod place;
mod place_texts;
mod reading;
mod row;
mod rows_error;
mod texts;
mod type_error;
mod types;
mod word;
mod word_texts;

pub use choices::Choices;
pub use item_word::ItemWord;
pub use law::laws;
pub use pattern::Pattern;
pub use place::Place;
pub use row::Row;
pub use rows_error::RowsError;
pub use type_error::TypeError;
pub use types::Types;
pub use word::Word;
