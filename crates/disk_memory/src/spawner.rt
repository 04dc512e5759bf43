//! Child programs in memory.
ghost use Rattle.std.specs.Prelude.{◌≡◌, ◌≢◌, ◌+◌, ◌<◌, ◌≤◌, [], ◌∷◌, ◌++◌, length, map, option_map, None, IfOk, OnOk, OnErr};
ghost use Rattle.outside.specs.Spawner.{Runs, Asks, texts};
ghost use Rattle.outside.specs.Told.{Moves};
ghost use Rattle.disk_memory.specs.Asked.{run_of, question_of, answer_in};
ghost use Rattle.outside.specs.Faults.{HasCause, HasCauseOf};

use outside::{Answer, AskErr, Asker, Failed, Spawner};
use std::alloc::{AllocError, Global};

/// A program that was run.
#[derive(Debug, Drop)]
pub struct Run {
    /// Its words.
    pub words: Vec<String>,
    /// What it was set to answer.
    pub status: u16,
}

/// A program that was asked.
#[derive(Debug, Drop)]
pub struct Question {
    /// Its words.
    pub words: Vec<String>,
    /// What it was given to read.
    pub input: Vec<u8>,
    /// What it answered.
    pub answer: Answer,
}

/// Child programs in memory, which answer what they were set to. A status above 256, which no program has, is 256.
///
/// It keeps what was run and asked. What finds no memory to be kept is a fault of its call.
#[derive(Drop)]
pub struct MemorySpawner {
    statuses: Vec<Option<u16>>,
    answers: Vec<Option<Answer>>,
    runs: Vec<Run>,
    asked: Vec<Question>,
    run_calls: usize,
    ask_calls: usize,
    faults: u64,
}

// The words once more.
fn copy_of_words(alloc: Global, words: &[String]) -> Result<Vec<String>, AllocError>
    ensures { IfOk result (λ copies. texts copies.items ≡ texts words.now) }
{
    let mut copies = Vec::new(alloc);
    for word in words {
        copies.push(String::from_str(alloc, word.as_str())?)?;
    }
    Ok(copies)
}

// Keeps the run, or finds no memory.
#[tactic(auto, using(crate::proofs::Spawners::kept_run))]
fn keep_run(runs: &mut Vec<Run>, words: &[String], status: u16) -> Result<(), AllocError>
    ensures ok { OnOk result (map run_of runs.new.items ≡ map run_of runs.old.items ++ record { words = texts words.now; status = status } ∷ []) }
    ensures err { OnErr result (runs.new.items ≡ runs.old.items) }
{
    let words = copy_of_words(*runs.allocator(), words)?;
    runs.push(Run { words, status })?;
    Ok(())
}

// The answer once more.
fn copy_of_answer(alloc: Global, answer: &Answer) -> Result<Answer, AllocError>
    ensures { IfOk result (λ copy. answer_in copy ≡ answer_in answer.now) }
{
    Ok(Answer {
        status: answer.status,
        output: answer.output.to_vec(alloc)?,
    })
}

// Keeps the question, or finds no memory.
#[tactic(auto, using(crate::proofs::Spawners::kept_question))]
fn keep_question(
    asked: &mut Vec<Question>,
    words: &[String],
    input: &[u8],
    answer: &Answer,
) -> Result<(), AllocError>
    ensures ok { OnOk result (map question_of asked.new.items ≡ map question_of asked.old.items
        ++ record { words = texts words.now; input = input.now; status = answer.now.status; output = answer.now.output.items } ∷ []) }
    ensures err { OnErr result (asked.new.items ≡ asked.old.items) }
{
    let alloc = *asked.allocator();
    let question = Question {
        words: copy_of_words(alloc, words)?,
        input: input.to_vec(alloc)?,
        answer: copy_of_answer(alloc, answer)?,
    };
    asked.push(question)?;
    Ok(())
}

impl MemorySpawner {
    ghost use Rattle.disk_memory.specs.Plan.{one_more};
    ghost use Rattle.disk_memory.specs.Spawner.{statuses_of, answers_of, runs_of, asked_of, spawner_faults, planned_status, planned_answer};

    fn planned(
        alloc: Global,
        statuses: Vec<Option<u16>>,
        answers: Vec<Option<Answer>>,
    ) -> MemorySpawner
        ensures statuses { statuses_of result ≡ statuses.items }
        ensures answers { answers_of result ≡ answers.items }
        ensures runs { runs_of result ≡ [] }
        ensures asked { asked_of result ≡ [] }
        ensures faults { spawner_faults result ≡ 0 }
    {
        MemorySpawner {
            statuses,
            answers,
            runs: Vec::new(alloc),
            asked: Vec::new(alloc),
            run_calls: 0,
            ask_calls: 0,
            faults: 0,
        }
    }

    /// The k-th run answers the k-th of these, None being a failure, and past them 0. Each ask answers exit status 0 and no
    /// output.
    pub fn of_statuses(alloc: Global, answers: Vec<Option<u16>>) -> MemorySpawner
        ensures statuses { statuses_of result ≡ answers.items }
        ensures answers { answers_of result ≡ [] }
        ensures runs { runs_of result ≡ [] }
        ensures asked { asked_of result ≡ [] }
        ensures faults { spawner_faults result ≡ 0 }
    {
        MemorySpawner::planned(alloc, answers, Vec::new(alloc))
    }

    /// The k-th ask answers the k-th of these, None being a failure, and past them exit status 0 and no output. Output beyond
    /// `most + 1` bytes is cut. Each run answers 0.
    pub fn of_answers(alloc: Global, answers: Vec<Option<Answer>>) -> MemorySpawner
        ensures statuses { statuses_of result ≡ [] }
        ensures answers { answers_of result ≡ answers.items }
        ensures runs { runs_of result ≡ [] }
        ensures asked { asked_of result ≡ [] }
        ensures faults { spawner_faults result ≡ 0 }
    {
        MemorySpawner::planned(alloc, Vec::new(alloc), answers)
    }

    /// What was run, the first one first. A failed run is none.
    pub fn runs(&self) -> &[Run]
        ensures { result.now ≡ runs_of self.now }
    {
        &self.runs
    }

    /// What was asked, the first one first. A failed ask is none.
    pub fn asked(&self) -> &[Question]
        ensures { result.now ≡ asked_of self.now }
    {
        &self.asked
    }

    // What the next run is to answer.
    fn planned_status(&self) -> Option<u16>
        ensures { result ≡ planned_status self.now }
    {
        match self.statuses.get(self.run_calls) {
            Some(Some(status)) => Some((*status).min(256)),
            Some(None) => None,
            None => Some(0),
        }
    }

    // What the next ask is to answer.
    fn planned_answer(&self, alloc: Global, most: usize) -> Result<Option<Answer>, AllocError>
        requires { most < usize.MAX }
        ensures answer { IfOk result (λ answer. option_map answer_in answer ≡ planned_answer self.now most) }
        ensures some { OnErr result (planned_answer self.now most ≢ None) }
    {
        match self.answers.get(self.ask_calls) {
            Some(Some(answer)) => {
                let count = answer.output.len().min(most + 1);
                Ok(Some(Answer {
                    status: answer.status.min(256),
                    output: answer.output[..count].to_vec(alloc)?,
                }))
            }
            Some(None) => Ok(None),
            None => Ok(Some(Answer {
                status: 0,
                output: Vec::new(alloc),
            })),
        }
    }

    // Counts a failure.
    fn fault(&mut self)
        ensures counted { self.new ≡ record self.old { faults = one_more self.old.faults } }
        ensures later { self.old.faults ≤ self.new.faults }
    {
        self.faults = self.faults.saturating_add(1);
    }
}

impl Spawner for MemorySpawner {
    ghost use Rattle.disk_memory.specs.Spawner.{spawner_faults, told_runs, told_asked, RunsAsPlanned};

    ghost faults = { spawner_faults };

    ghost runs = { told_runs };

    ghost asked = { told_asked };

    fn run(&mut self, words: &[String]) -> Result<u16, Failed>
        requires { 0 < length words.now }
        ensures ran { Moves (told_runs self.old) (told_runs self.new) (Runs (texts words.now) result) }
        ensures asked { told_asked self.new ≡ told_asked self.old }
        ensures status { IfOk result (λ status. status ≤ 256) }
        ensures cause { HasCause (spawner_faults self.old) (spawner_faults self.new) result }
        ensures planned { RunsAsPlanned self.old self.new result }
    {
        let planned = self.planned_status();
        self.run_calls = self.run_calls.saturating_add(1);
        let Some(status) = planned else {
            self.fault();
            return Err(Failed);
        };
        match keep_run(&mut self.runs, words, status) {
            Ok(()) => Ok(status),
            Err(_) => {
                self.fault();
                Err(Failed)
            }
        }
    }
}

impl Asker for MemorySpawner {
    ghost use Rattle.disk_memory.specs.Spawner.{spawner_faults, told_runs, told_asked, AsksAsPlanned};

    fn ask(
        &mut self,
        alloc: Global,
        words: &[String],
        input: &[u8],
        most: usize,
    ) -> Result<Answer, AskErr>
        requires words { 0 < length words.now }
        requires most { most < usize.MAX }
        ensures asked { Moves (told_asked self.old) (told_asked self.new) (Asks (texts words.now) input.now result) }
        ensures ran { told_runs self.new ≡ told_runs self.old }
        ensures cut { IfOk result (λ answer. length answer.output.items ≤ most + 1) }
        ensures status { IfOk result (λ answer. answer.status ≤ 256) }
        ensures cause { HasCauseOf AskErr.Failed (spawner_faults self.old) (spawner_faults self.new) result }
        ensures planned { AsksAsPlanned most self.old self.new result }
    {
        let planned = self.planned_answer(alloc, most);
        self.ask_calls = self.ask_calls.saturating_add(1);
        match planned {
            Ok(Some(answer)) => match keep_question(&mut self.asked, words, input, &answer) {
                Ok(()) => Ok(answer),
                Err(_) => {
                    self.fault();
                    Err(AskErr::Failed)
                }
            },
            Ok(None) => {
                self.fault();
                Err(AskErr::Failed)
            }
            Err(_) => Err(AskErr::Memory),
        }
    }
}
