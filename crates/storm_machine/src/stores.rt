//! Keys that are forgotten, dumps, and stores that are restored by them.
use crate::commands::prints;
use crate::found::take_files;
use crate::outcomes::{Outcome, check_end, line};
use crate::replay::Replay;
use crate::run::Seen;
use crate::trouble::{Trouble, differs};
use command_outcome::Refusal;
use disk_memory::MemoryDisk;
use held_text::dump_text;
use key_names::{Bytes, Key};
use machine_answers::Body;
use machine_replies::Host;
use pending_tx::key_set;
use std::alloc::{AllocError, Global};
use version_links::resolve;

// The keys that the words after the first spell.
fn keys_of(alloc: Global, words: &[String]) -> Result<Vec<Key>, Trouble> {
    let mut keys = Vec::new(alloc);
    for word in words.iter().skip(1) {
        let Ok(key) = Key::read(alloc, word.as_bytes()) else {
            return Err(differs(alloc, "no key"));
        };
        keys.push(key)?;
    }
    Ok(keys)
}

// The line that lists the keys, each once and rising.
fn keys_line(alloc: Global, keys: &[Key]) -> Result<Bytes, AllocError> {
    let text = Body::Keys(key_set(alloc, keys)?).text(alloc)?;
    line(alloc, text.as_str())
}

// The machine forgets the keys. It answers what the command comes to.
fn forget(alloc: Global, host: &mut Host, keys: &[Key]) -> Result<Outcome, AllocError> {
    match host.machine.forget(alloc, keys)? {
        Some(key) => Ok(Err(Refusal::Refused(settings_machine::Refusal::NoKey { key }))),
        None => Ok(Ok(keys_line(alloc, keys)?)),
    }
}

/// What `forget` with these words comes to.
pub fn forgets(alloc: Global, replay: &mut Replay, words: &[String]) -> Result<Outcome, Trouble> {
    let keys = keys_of(alloc, words)?;
    let fails = replay.faults.strikes();
    if fails && !replay.faults.is_taken() {
        return Ok(Err(Refusal::Disk));
    }
    let outcome = forget(alloc, &mut replay.host, &keys)?;
    if fails {
        return Ok(Err(Refusal::Disk));
    }
    Ok(outcome)
}

/// What `dump` comes to.
pub fn dumps(alloc: Global, replay: &mut Replay) -> Result<Outcome, AllocError> {
    let machine = &replay.host.machine;
    let text = dump_text(alloc, machine.version, &machine.held)?;
    let printed = line(alloc, text.as_str())?;
    prints(alloc, replay, printed.as_slice())
}

// The machine becomes that of a store that is restored by its own dump.
fn restore(host: &mut Host) -> Result<(), AllocError> {
    let version = host.machine.version;
    let held = host.machine.held.copy()?;
    host.machine.migrate(version, held);
    Ok(())
}

/// What `restore` comes to, by a dump of the machine's store, where there is a store after it.
pub fn restores(alloc: Global, replay: &mut Replay) -> Result<Outcome, AllocError> {
    restore(&mut replay.host)?;
    if replay.faults.strikes() {
        return Ok(Err(Refusal::Disk));
    }
    let version = replay.host.machine.version;
    let version = format!(in alloc; "{version}")?;
    Ok(Ok(line(alloc, version.as_str())?))
}

/// Whether no store is on the disk after a restore that was seen so. Then a call of the disk has to have failed, and the restore to have
/// ended for that.
pub fn left_no_store(alloc: Global, seen: &Seen, disk: &MemoryDisk) -> Result<bool, Trouble> {
    let mut copy = disk.crash(&[])?;
    match resolve(alloc, &mut copy) {
        Ok(Some(_)) => return Ok(false),
        Ok(None) if seen.struck => check_end(alloc, seen, &Err(Refusal::Disk))?,
        _ => return Err(differs(alloc, "no store is restored")),
    }
    Ok(true)
}

/// The machine goes over to the host of this disk, whose configuration files it takes for its own. The host is kept.
pub fn move_to(alloc: Global, replay: &mut Replay, disk: &MemoryDisk) -> Result<(), AllocError> {
    take_files(alloc, &mut replay.host, disk)?;
    replay.host.keep(alloc)
}
