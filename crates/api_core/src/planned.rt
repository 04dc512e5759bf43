//! What a request makes of a core.

use crate::next_job::NextJob;
use machine_answers::Answer;
use settings_tree::Change;

/// What a request comes to, before anything is written: what the machine answers, and what the request does to the core.
#[derive(Drop)]
pub struct Planned {
    /// What the machine answers.
    pub answer: Answer,
    /// What the request does to the core.
    pub effect: Effect,
}

/// What a request does to a core: a change of what is held, and what becomes of the job.
#[derive(Drop)]
pub struct Effect {
    pub(crate) change: Change,
    pub(crate) next: NextJob,
}
