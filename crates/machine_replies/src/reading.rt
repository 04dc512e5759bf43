//! Requests that change nothing.
ghost use Rattle.machine_answers.specs.Replies.{MayNest};

use crate::entries::{live_below, pending_in};
use crate::told::Told;
use crate::tree::{Entry, tree_text};
use key_names::{Key, Text, copy_texts};
use machine_answers::{Body, job_text};
use metadata_links::{Manifest, Steps};
use plain_machine::{PlainImage, PlainMachine};
use settings_machine::{Plan, Refusal, Request};
use settings_tree::KeyList;
use std::alloc::{AllocError, Global};

// The tree of the entries, without the first segment of their keys.
fn tree(alloc: Global, entries: &[Entry]) -> Result<Told, AllocError> {
    Ok(Told::Said(tree_text(alloc, entries, 1)?))
}

// What the server's own code prints.
fn said(alloc: Global, body: &Body) -> Result<Told, AllocError>
    requires { MayNest body.now }
{
    Ok(Told::Said(body.text(alloc)?))
}

/// The list of the keys.
pub(crate) fn keys_told(alloc: Global, keys: KeyList) -> Result<Told, AllocError> {
    said(alloc, &Body::Keys(keys))
}

/// The plan.
pub(crate) fn plan_told(alloc: Global, plan: Plan) -> Result<Told, AllocError> {
    said(alloc, &Body::Plan(plan))
}

// The version of the store, and what it holds.
fn store(alloc: Global, machine: &PlainMachine) -> Result<Told, AllocError> {
    let version = machine.version;
    let held = machine.held.copy()?;
    said(alloc, &Body::Store { version, held })
}

// The state of each configuration file.
fn states(alloc: Global, image: &PlainImage, machine: &PlainMachine) -> Result<Told, AllocError> {
    said(alloc, &Body::States(machine.verify(alloc, image)?))
}

// All live values, without what isn't a service, a file or a setting.
fn root(alloc: Global, machine: &PlainMachine) -> Result<Told, AllocError> {
    let mut entries = live_below(alloc, machine, b"configuration-files")?;
    entries.extend(live_below(alloc, machine, b"services")?)?;
    entries.extend(live_below(alloc, machine, b"settings")?)?;
    Ok(Told::Said(tree_text(alloc, &entries, 0)?))
}

// The names of the operating system.
fn os_names(alloc: Global, image: &PlainImage) -> Result<Told, AllocError> {
    let mut texts = Vec::new(alloc);
    for name in image.os.names() {
        texts.push((name.name.copy()?, name.text.copy()?))?;
    }
    said(alloc, &Body::Texts(texts))
}

// The live settings.
fn settings(alloc: Global, machine: &PlainMachine) -> Result<Vec<Entry>, AllocError> {
    live_below(alloc, machine, b"settings")
}

/// The tree of all live settings, from the root. The only error is out of memory.
pub fn settings_text(alloc: Global, machine: &PlainMachine) -> Result<Text, AllocError> {
    tree_text(alloc, &settings(alloc, machine)?, 0)
}

fn has_key(entries: &[Entry], key: &Key) -> bool {
    entries.iter().any(|(other, _)| other == key)
}

// The live settings at the keys. The first of the keys that has none is refused.
fn settings_at(alloc: Global, machine: &PlainMachine, keys: &[Key]) -> Result<Told, AllocError> {
    let mut entries = settings(alloc, machine)?;
    if let Some(key) = keys.iter().find(|key| !has_key(&entries, key)) {
        let key = key.copy()?;
        return Ok(Told::Refused(Refusal::NoKey { key }));
    }
    entries.retain(|(key, _)| keys.contains(key));
    tree(alloc, &entries)
}

// The live settings whose keys are this one or begin with it.
fn settings_below(alloc: Global, machine: &PlainMachine, prefix: &Key) -> Result<Told, AllocError> {
    let mut entries = settings(alloc, machine)?;
    entries.retain(|(key, _)| prefix.is_prefix(key));
    tree(alloc, &entries)
}

// Whether the second segment of the key is the name.
fn is_of(key: &Key, name: &Text) -> bool {
    key.len() > 1 && name.as_str().as_bytes() == key.segment(1)
}

// Whether an entry is below the name.
fn has_name(entries: &[Entry], name: &Text) -> bool {
    entries.iter().any(|(key, _)| is_of(key, name))
}

fn is_named(key: &Key, names: &[Text]) -> bool {
    names.iter().any(|name| is_of(key, name))
}

// What is below the first segment: all, or that of these names. The first of the names that isn't there is refused.
fn named(
    alloc: Global,
    machine: &PlainMachine,
    first: &[u8],
    names: &Option<Vec<Text>>,
) -> Result<Told, AllocError> {
    let mut entries = live_below(alloc, machine, first)?;
    let Some(names) = names else {
        return tree(alloc, &entries);
    };
    if let Some(name) = names.iter().find(|name| !has_name(&entries, name)) {
        let name = name.copy()?;
        return Ok(Told::Refused(Refusal::NoName { name }));
    }
    entries.retain(|(key, _)| is_named(key, names));
    tree(alloc, &entries)
}

// The list of the longest prefix of the key that has one.
fn nearest<'a>(manifest: &'a Manifest, key: &Key) -> Option<&'a [Text]> {
    let mut probes = Steps::new();
    let mut len = key.len();
    while len > 0 {
        match manifest.index().at(key, len, &mut probes) {
            Some(list) => return Some(list),
            None => len -= 1,
        }
    }
    None
}

// The keys, each once and rising.
fn rising(alloc: Global, keys: &[Key]) -> Result<KeyList, AllocError> {
    let mut all = KeyList::new(alloc);
    for key in keys {
        let one = KeyList::of(vec![in alloc; key.copy()?]?);
        all = all.joined(&one)?;
    }
    Ok(all)
}

// The services that each of the keys affects, by the longest prefix of the key that has some.
fn affected(alloc: Global, image: &PlainImage, keys: &[Key]) -> Result<Told, AllocError> {
    let mut lists = Vec::new(alloc);
    for key in rising(alloc, keys)?.as_slice() {
        if let Some(list) = nearest(&image.manifest, key) {
            lists.push((key.copy()?, copy_texts(alloc, list)?))?;
        }
    }
    said(alloc, &Body::Lists(lists))
}

// The status of the job, and what is owed.
fn job(alloc: Global, machine: &PlainMachine) -> Result<Told, AllocError> {
    let status = machine.job.status()?;
    Ok(Told::Said(job_text(alloc, &status, &machine.held.owed)?))
}

/// The reply to a request that changes nothing; any other one gets `Empty`.
pub(crate) fn read(
    alloc: Global,
    image: &PlainImage,
    machine: &PlainMachine,
    request: &Request,
) -> Result<Told, AllocError> {
    match request {
        Request::Root => root(alloc, machine),
        Request::OsNames => os_names(alloc, image),
        Request::Settings => tree(alloc, &settings(alloc, machine)?),
        Request::SettingsAt { keys } => settings_at(alloc, machine, keys),
        Request::SettingsBelow { key } => settings_below(alloc, machine, key),
        Request::Services { names } => named(alloc, machine, b"services", names),
        Request::ConfigurationFiles { names } => {
            named(alloc, machine, b"configuration-files", names)
        }
        Request::Affected { keys } => affected(alloc, image, keys),
        Request::Pends { tx } => tree(alloc, &pending_in(alloc, machine, tx)?),
        Request::TxList => said(alloc, &Body::Names(pending_tx::list(alloc, &machine.held)?)),
        Request::JobNow => job(alloc, machine),
        Request::Store => store(alloc, machine),
        Request::Verify => states(alloc, image, machine),
        _ => Ok(Told::Empty),
    }
}
