//! Random requests.
use crate::dice::Dice;
use crate::step::Sent;
use std::alloc::{AllocError, Global};

/// The names of transactions.
pub const TXS: &[&str] = &["default", "a", "B-2"];

const MOTDS: &[&str] = &[
    "\"one\"",
    "\"two\"",
    "\"Welcome\"",
    "\"Hello\"",
    "\"\"",
    "\"\\u2603\"",
];

const SERVERS: &[&str] = &[
    "[]",
    "[\"a.example\",\"b.example\"]",
    "[\"c\"]",
    "[\"c\",\"d\",\"c\"]",
];

const NAMES: &[&str] = &["vm", "a.b", "net.ipv4.ip_forward", "0"];

// What no type takes.
const ODD: &[&str] = &["7", "true", "[1]", "\"two\\nlines\""];

// A value of these, or now and then a removal, or one that no type takes.
fn value(dice: &mut Dice, values: &'static [&'static str], gone: bool) -> &'static str {
    if dice.chance(3) {
        return dice.pick(ODD);
    }
    if gone && dice.chance(12) {
        return "null";
    }
    dice.pick(values)
}

/// A change of settings, as two texts.
#[derive(Drop)]
pub struct Change {
    /// The words of `set` that make it, each with a space before it.
    pub words: String,
    /// The members of the body of a patch that makes it.
    pub body: String,
}

// Adds a setting: its key in words, and as JSON with what opens and ends the objects around it.
fn add_value(
    change: &mut Change,
    word: &str,
    body: &str,
    end: &str,
    value: &str,
) -> Result<(), AllocError> {
    if !change.body.is_empty() {
        change.body.push(',')?;
    }
    change.words.push(' ')?;
    for part in [word, "=", value] {
        change.words.push_str(part)?;
    }
    for part in [body, ":", value, end] {
        change.body.push_str(part)?;
    }
    Ok(())
}

fn add_sysctl(
    alloc: Global,
    change: &mut Change,
    name: &str,
    value: &str,
) -> Result<(), AllocError> {
    let word = format!(in alloc; "settings.kernel.sysctl.\"{name}\"")?;
    let body = format!(in alloc; "\"kernel\":{{\"sysctl\":{{\"{name}\"")?;
    add_value(change, word.as_str(), body.as_str(), "}}", value)
}

/// A change of one to three settings; some are removed where this may be.
pub fn random_change(alloc: Global, dice: &mut Dice, gone: bool) -> Result<Change, AllocError> {
    let mut change = Change {
        words: String::new(alloc),
        body: String::new(alloc),
    };
    let kinds = dice.below(7).saturating_add(1);
    if kinds & 1 != 0 {
        let value = value(dice, MOTDS, gone);
        add_value(&mut change, "settings.motd", "\"motd\"", "", value)?;
    }
    if kinds & 2 != 0 {
        let value = value(dice, SERVERS, gone);
        let body = "\"ntp\":{\"time-servers\"";
        add_value(&mut change, "settings.ntp.time-servers", body, "}", value)?;
    }
    if kinds & 4 != 0 {
        let name = dice.pick(NAMES);
        let value = value(dice, MOTDS, gone);
        add_sysctl(alloc, &mut change, name, value)?;
    }
    Ok(change)
}

// What is forgotten: settings that mostly have a value, a key of a service, which an opening lays again, and one that never has a value.
const KEYS: &[&str] = &[
    "settings.motd",
    "settings.motd",
    "settings.ntp.time-servers",
    "settings.ntp.time-servers",
    "settings.kernel.sysctl.vm",
    "settings.kernel.sysctl.0",
    "services.motd.restart-commands",
    "settings.none",
];

/// One to three keys, each with a space before it.
pub fn random_keys(alloc: Global, dice: &mut Dice) -> Result<String, AllocError> {
    let mut words = String::new(alloc);
    for _ in 0..dice.below(3).saturating_add(1) {
        words.push(' ')?;
        words.push_str(dice.pick(KEYS))?;
    }
    Ok(words)
}

/// The line of a patch of the transaction.
pub fn patch(alloc: Global, dice: &mut Dice, tx: &str) -> Result<String, AllocError> {
    let change = random_change(alloc, dice, true)?;
    let body = change.body.as_str();
    format!(in alloc; "PATCH /settings?tx={tx} {{{body}}}")
}

// The line of a change at once.
fn set(alloc: Global, dice: &mut Dice) -> Result<String, AllocError> {
    let change = random_change(alloc, dice, true)?;
    let body = change.body.as_str();
    let target = dice.pick(&["/set", "/set?check=render"]);
    format!(in alloc; "POST {target} {{{body}}}")
}

const READINGS: &[&str] = &[
    "GET /",
    "GET /os",
    "GET /settings",
    "GET /settings?prefix=settings.kernel",
    "GET /settings?keys=settings.motd",
    "GET /settings?keys=settings.ntp.time-servers,settings.motd",
    "GET /services",
    "GET /services?names=motd,none",
    "GET /configuration-files?names=chrony,motd",
    "GET /metadata/affected-services?keys=settings.ntp.x,settings.motd,settings.other",
    "GET /tx/list",
    "GET /store",
    "GET /verify",
    "GET /plan",
    "GET /plan/file?name=sysctl",
    "GET /plan/file?name=none",
    "PUT /settings",
    "GET /none",
    "GET /tx?x=1",
    "PATCH /settings [1]",
];

// What follows the target of a commit: a guard, or nothing.
const GUARDS: &[&str] = &["", "", "&check=render"];

/// The line of a commit of the transaction.
pub fn commit(
    alloc: Global,
    dice: &mut Dice,
    target: &str,
    tx: &str,
) -> Result<String, AllocError> {
    let guard = dice.pick(GUARDS);
    format!(in alloc; "POST {target}?tx={tx}{guard}")
}

// The line of a request.
fn line(alloc: Global, dice: &mut Dice) -> Result<String, AllocError> {
    let tx = dice.pick(TXS);
    match dice.below(20) {
        0..=3 => patch(alloc, dice, tx),
        4 | 5 => commit(alloc, dice, "/tx/commit", tx),
        6 | 7 => commit(alloc, dice, "/tx/commit_and_apply", tx),
        8 => format!(in alloc; "DELETE /tx?tx={tx}"),
        9 => format!(in alloc; "GET /tx?tx={tx}"),
        10 | 11 => String::from_str(alloc, dice.pick(&["POST /tx/apply", "POST /tx/apply?all"])),
        12 | 13 => String::from_str(alloc, "GET /job"),
        14 => set(alloc, dice),
        15 => format!(in alloc; "GET /plan?tx={tx}"),
        16 => format!(in alloc; "GET /plan/file?name=motd&tx={tx}"),
        _ => String::from_str(alloc, dice.pick(READINGS)),
    }
}

// Now and then a connection fails, or ends too soon.
fn spoil(dice: &mut Dice, sent: &mut Sent) {
    match dice.below(40) {
        0 => sent.read_fails = true,
        1 => sent.write_fails = true,
        2 => {
            let size = sent.bytes.len().saturating_sub(1);
            sent.bytes.truncate(size);
        }
        _ => {}
    }
}

/// What up to eight clients send.
pub fn clients(alloc: Global, dice: &mut Dice) -> Result<Vec<Sent>, AllocError> {
    let mut all = Vec::new(alloc);
    for _ in 0..dice.below(9) {
        let line = line(alloc, dice)?;
        let mut one = Sent::whole(alloc, line.as_str())?;
        one.cut = dice.below(60) as usize;
        spoil(dice, &mut one);
        all.push(one)?;
    }
    Ok(all)
}
