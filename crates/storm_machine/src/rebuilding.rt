//! The machine of a store that was moved.
use crate::trouble::{Trouble, differs};
use key_names::Key;
use machine_replies::{Host, Told};
use pending_tx::{list, pending};
use plain_machine::{OpeningAnswer, are_settings};
use settings_machine::{Guard, Request};
use settings_tree::{Content, Held, Pending, TxName};
use std::alloc::{AllocError, Global};
use version_links::Version;

// The pairs that make the settings of the second content of those of the first.
fn changes(alloc: Global, from: &Content, to: &Content) -> Result<Vec<(Key, Pending)>, AllocError> {
    let Ok(settings) = Key::of_segment(alloc, b"settings") else {
        return Err(AllocError);
    };
    let mut pairs = Vec::new(alloc);
    for (key, value) in to.below(&settings)? {
        pairs.push((key, Pending::Put(value)))?;
    }
    add_removals(&mut pairs, &settings, from, to)?;
    Ok(pairs)
}

// Adds the removal of each live setting of the first content that the second lacks.
fn add_removals(
    pairs: &mut Vec<(Key, Pending)>,
    settings: &Key,
    from: &Content,
    to: &Content,
) -> Result<(), AllocError> {
    for (key, _) in from.below(settings)? {
        if to.value(&key).is_none() {
            pairs.push((key, Pending::Gone))?;
        }
    }
    Ok(())
}

// The machine makes the pairs pending, which are settings.
fn pend(
    alloc: Global,
    host: &mut Host,
    tx: TxName,
    pairs: Vec<(Key, Pending)>,
) -> Result<(), Trouble> {
    if !are_settings(&pairs) {
        return Err(differs(alloc, "a key beside the settings"));
    }
    match host.ask(alloc, &Request::Patch { tx, pairs })? {
        Told::Refused(_) => Err(differs(alloc, "a value that no type takes")),
        _ => Ok(()),
    }
}

// The machine gets these live settings. A commit of nothing is refused.
fn set_live(alloc: Global, host: &mut Host, live: &Content) -> Result<(), Trouble> {
    let Some(tx) = TxName::read(alloc, b"moved")? else {
        return Err(differs(alloc, "no name of a transaction"));
    };
    let pairs = changes(alloc, &host.machine.held.live, live)?;
    pend(alloc, host, tx.copy()?, pairs)?;
    let guard = Guard::Off;
    host.ask(alloc, &Request::Commit { tx, guard })?;
    Ok(())
}

// The machine gets these weak keys.
fn set_weak(alloc: Global, host: &mut Host, live: &Content) -> Result<(), Trouble> {
    if !host.machine.held.live.may_be_weak(live.weak().as_slice()) {
        return Err(differs(alloc, "a weak key without a value"));
    }
    host.machine.held.live.set_weak(live.weak().copy()?);
    Ok(())
}

// The machine gets the transactions too.
fn set_pending(alloc: Global, host: &mut Host, held: &Held) -> Result<(), Trouble> {
    for tx in list(alloc, held)? {
        let pairs = pending(alloc, held, &tx)?;
        pend(alloc, host, tx, pairs)?;
    }
    Ok(())
}

// The machine owes the same, with the same image.
fn set_owed(host: &mut Host, held: &Held) -> Result<(), AllocError> {
    host.machine.held.owed = held.owed.copy()?;
    host.machine.held.image = held.image.copy()?;
    Ok(())
}

/// The machine becomes that of a store that was moved: of this version, and holding this, but for what an opening lays anyway. It gets
/// there by patches and commits, so that each value is tried by the types.
pub fn go_over(
    alloc: Global,
    host: &mut Host,
    version: Version,
    held: &Held,
) -> Result<(), Trouble> {
    host.begin(alloc, version);
    host.open(alloc, false, OpeningAnswer::Succeeded)?;
    set_live(alloc, host, &held.live)?;
    set_weak(alloc, host, &held.live)?;
    set_pending(alloc, host, held)?;
    Ok(set_owed(host, held)?)
}
