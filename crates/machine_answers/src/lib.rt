//! What the map machine answers, as values, and the texts of what they tell.
#![tactic(auto)]

mod answer;
mod job_body;
mod lists;
mod objects;
mod plan_body;
mod refusal_body;
mod render_words;
mod state_lines;
mod states_body;

pub use answer::{Answer, Body};
pub use job_body::{cause_words, job_text};
pub use objects::object_text;
pub use plan_body::path_text;
pub use refusal_body::refusal_text;
pub use render_words::{render_path, render_word};
pub use state_lines::states_text;
