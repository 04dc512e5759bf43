//! Moves between versions.
use crate::trouble::{Trouble, differs};
use key_names::Text;
use migrate_helpers::Mapping;
use plain_machine::PlainMachine;
use release_file::{Release, Step, Transition, Work, plan};
use settings_tree::{Held, Owed};
use std::alloc::Global;
use version_links::Version;

// What the migration of this name makes of what is held, forward or back.
fn mapped(
    alloc: Global,
    release: &Release,
    name: &Text,
    back: bool,
    held: &Held,
) -> Result<Held, Trouble> {
    let named = release.migrations.iter().find(|named| named.name == *name);
    let Some(Work::Plain(migration)) = named.map(|named| &named.work) else {
        return Err(differs(alloc, "no migration"));
    };
    let made = if back {
        migration.backward(held)
    } else {
        migration.forward(held)
    };
    made.map_err(|_| differs(alloc, "a migration refuses"))
}

// Whether the step goes along the transition.
fn is_of(transition: &Transition, step: &Step) -> bool {
    let (low, high) = if step.back {
        (step.to, step.from)
    } else {
        (step.from, step.to)
    };
    transition.from == low && transition.to == high
}

// The migrations of a step change what is held, in their order or, back, from the last.
fn go_step(alloc: Global, release: &Release, step: &Step, held: &mut Held) -> Result<(), Trouble> {
    let Some(transition) = release.transitions.iter().find(|one| is_of(one, step)) else {
        return Err(differs(alloc, "no transition"));
    };
    let count = transition.names.len();
    for index in 0..count {
        let place = if step.back { count - 1 - index } else { index };
        let name = &transition.names[place];
        *held = mapped(alloc, release, name, step.back, held)?;
    }
    Ok(())
}

/// What the store of the machine holds once it is moved to the version along the release.
pub fn moved(
    alloc: Global,
    release: &Release,
    machine: &PlainMachine,
    to: &Version,
) -> Result<Held, Trouble> {
    let Ok(steps) = plan(alloc, &machine.version, to, release) else {
        return Err(differs(alloc, "no way"));
    };
    let mut held = machine.held.copy()?;
    for step in &steps {
        go_step(alloc, release, step, &mut held)?;
    }
    held.owed = Owed::All;
    Ok(held)
}
