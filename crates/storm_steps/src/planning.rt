//! Changes that are planned.
use crate::dice::Dice;
use crate::requests::{TXS, commit, patch};
use crate::step::Sent;
use std::alloc::{AllocError, Global};

/// The configuration files.
pub const FILES: &[&str] = &["chrony", "motd", "sysctl"];

/// How often the job is asked for after its change: it has ended at the last, as each of its turns comes after one of these, if not before.
pub const LOOKS: usize = 8;

fn add(alloc: Global, all: &mut Vec<Sent>, line: &str) -> Result<(), AllocError> {
    all.push(Sent::whole(alloc, line)?)?;
    Ok(())
}

// Adds patches and commits, which begin no job.
fn add_changes(alloc: Global, dice: &mut Dice, all: &mut Vec<Sent>) -> Result<(), AllocError> {
    for _ in 0..dice.below(6) {
        let tx = dice.pick(TXS);
        let line = if dice.chance(25) {
            commit(alloc, dice, "/tx/commit", tx)?
        } else {
            patch(alloc, dice, tx)?
        };
        add(alloc, all, line.as_str())?;
    }
    Ok(())
}

// What the queries of a planned change have: that of the plan, and what follows the name of a file.
#[derive(Clone, Copy)]
struct Queries<'a> {
    plan: &'a str,
    file: &'a str,
}

// Adds the plan, and what each file would be.
fn add_plan(alloc: Global, all: &mut Vec<Sent>, queries: Queries) -> Result<(), AllocError> {
    let Queries { plan, file } = queries;
    add(alloc, all, format!(in alloc; "GET /plan{plan}")?.as_str())?;
    for name in FILES {
        let line = format!(in alloc; "GET /plan/file?name={name}{file}")?;
        add(alloc, all, line.as_str())?;
    }
    Ok(())
}

// Adds the settings, the plan of the change, each file, the change, the settings again, and the job until it has ended.
fn add_planned(
    alloc: Global,
    all: &mut Vec<Sent>,
    queries: Queries,
    change: &str,
) -> Result<(), AllocError> {
    add(alloc, all, "GET /settings")?;
    add_plan(alloc, all, queries)?;
    add(alloc, all, change)?;
    add(alloc, all, "GET /settings")?;
    for _ in 0..LOOKS {
        add(alloc, all, "GET /job")?;
    }
    Ok(())
}

// Adds the same of what is owed already.
fn add_apply(alloc: Global, all: &mut Vec<Sent>) -> Result<(), AllocError> {
    let queries = Queries { plan: "", file: "" };
    add_planned(alloc, all, queries, "POST /tx/apply")
}

// Adds the same of a transaction.
fn add_commit(alloc: Global, dice: &mut Dice, all: &mut Vec<Sent>) -> Result<(), AllocError> {
    let tx = dice.pick(TXS);
    let plan = format!(in alloc; "?tx={tx}")?;
    let file = format!(in alloc; "&tx={tx}")?;
    let queries = Queries {
        plan: plan.as_str(),
        file: file.as_str(),
    };
    let change = commit(alloc, dice, "/tx/commit_and_apply", tx)?;
    add_planned(alloc, all, queries, change.as_str())
}

/// What clients send who change something and then plan a change and make it. The last requests are `GET /settings`, `GET /plan`, `GET
/// /plan/file` for each of the files, the change, which is a `commit_and_apply` or an `apply`, `GET /settings`, and `GET /job` so often
/// that the job has ended then.
pub fn planned(alloc: Global, dice: &mut Dice) -> Result<Vec<Sent>, AllocError> {
    let mut all = Vec::new(alloc);
    add_changes(alloc, dice, &mut all)?;
    if dice.chance(20) {
        add_apply(alloc, &mut all)?;
    } else {
        add_commit(alloc, dice, &mut all)?;
    }
    Ok(all)
}
