//! What the machine answers, as values.
ghost use Rattle.std.specs.Prelude.{IfOk};
ghost use Rattle.machine_answers.specs.Bodies.{IsTextOf};
ghost use Rattle.machine_answers.specs.Replies.{body_of, MayNest};

use crate::job_body::job_text;
use crate::lists::{keys_text, names_text};
use crate::objects::{lists_text, texts_text};
use crate::plan_body::plan_text;
use crate::states_body::states_body;
use held_text::dump_text;
use json_trees::{nest, nest_pending};
use key_names::{Bytes, Key, Text};
use settings_machine::{JobStatus, Plan, Refusal, VerifiedFile};
use settings_tree::{Held, KeyList, Owed, Pending, Scalar, TxName};
use std::alloc::{AllocError, Global};
use version_links::Version;

/// What an answer tells.
#[derive(Drop)]
pub enum Body {
    /// The tree of these values, without so many first segments of their keys.
    Values {
        /// How many segments.
        skip: usize,
        /// The values, rising by key.
        pairs: Vec<(Key, Scalar)>,
    },
    /// The tree of what is pending, without the first segment of the keys.
    Pairs(Vec<(Key, Pending)>),
    /// These texts by name.
    Texts(Vec<(Text, Text)>),
    /// These lists of names by key.
    Lists(Vec<(Key, Vec<Text>)>),
    /// These keys.
    Keys(KeyList),
    /// These names of transactions.
    Names(Vec<TxName>),
    /// The status of the job, and what is owed.
    Job {
        /// Its status.
        status: JobStatus,
        /// What is owed.
        owed: Owed,
    },
    /// A plan.
    Plan(Plan),
    /// The version of the store, and what it holds.
    Store {
        /// The version.
        version: Version,
        /// What is held.
        held: Held,
    },
    /// The state of each configuration file, by name.
    States(Vec<VerifiedFile>),
}

/// What the machine answers to a request, where memory and the disk serve.
#[derive(Drop)]
pub enum Answer {
    /// It tells this.
    Said(Body),
    /// It is a file with these bytes.
    File(Bytes),
    /// It was done; there is nothing to tell.
    Empty,
    /// It was refused, and nothing changes.
    Refused(Refusal),
}

impl Body {
    /// Its text: compact JSON (RFC 8259). The keys of `Values` and `Pairs` rise, none is a prefix of another, each is longer than
    /// what is skipped, and all share what is skipped. The only error is out of memory. It takes the time of printing each key and
    /// value.
    pub fn text(&self, alloc: Global) -> Result<Text, AllocError>
        requires { MayNest self.now }
        ensures { IfOk result (IsTextOf (body_of self.now)) }
    {
        match self {
            Body::Values { skip, pairs } => nest(alloc, pairs.as_slice(), *skip),
            Body::Pairs(pairs) => nest_pending(alloc, pairs.as_slice(), 1),
            Body::Texts(texts) => texts_text(alloc, texts.as_slice()),
            Body::Lists(lists) => lists_text(alloc, lists.as_slice()),
            Body::Keys(keys) => keys_text(alloc, keys),
            Body::Names(names) => names_text(alloc, names.as_slice()),
            Body::Job { status, owed } => job_text(alloc, status, owed),
            Body::Plan(plan) => plan_text(alloc, plan),
            Body::Store { version, held } => dump_text(alloc, *version, held),
            Body::States(files) => states_body(alloc, files.as_slice()),
        }
    }
}
