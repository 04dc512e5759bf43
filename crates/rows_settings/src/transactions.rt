//! Transactions: what is pending, and what calls change, an entry on a line.
use crate::lines::{change, keys, pair, scalar_of};
use key_names::Key;
use pending_tx::{CommitError, commit, drop_tx, list, patch, pending};
use row_files::{bad, key_of, line, parts};
use settings_tree::{Change, Entry, Held, Owed, PendMaps, Pending, TxName};
use std::alloc::Global;
use std::io::{self, Write};

// Tells the word and what is owed.
fn owed(out: &mut Vec<u8>, word: &str, owed: &Owed) -> io::Result<()> {
    match owed {
        Owed::All => line(out, &[word, "all"]),
        Owed::Keys(owed) => keys(out, word, owed.as_slice()),
    }
}

// Tells the entry in words; one that no call of transactions makes is `other`.
fn entry(out: &mut Vec<u8>, entry: &Entry) -> io::Result<()> {
    match entry {
        Entry::LiveSet { key, value } => {
            pair(out, "live ", key, value)?;
            line(out, &[])
        }
        Entry::LiveGone { key } => writeln!(out, "live {}=gone", key.print()?.as_str()),
        Entry::PendSet { tx, key, value } => {
            write!(out, "{} ", tx.as_str())?;
            change(out, "", key, value)
        }
        Entry::PendGone { tx, key } => {
            writeln!(out, "{} {}=gone", tx.as_str(), key.print()?.as_str())
        }
        Entry::OwedSet { owed: set } => owed(out, "owed", set),
        Entry::WeakIs { weak } => keys(out, "weak", weak.as_slice()),
        _ => line(out, &["other"]),
    }
}

// Tells the entries.
fn entries(out: &mut Vec<u8>, change: &Change) -> io::Result<()> {
    for one in change.as_slice() {
        entry(out, one)?;
    }
    Ok(())
}

fn tx_of(alloc: Global, name: &str) -> io::Result<TxName> {
    TxName::read(alloc, name.as_bytes())?.ok_or(bad())
}

// Tells the names of the transactions.
fn names(out: &mut Vec<u8>, held: &Held) -> io::Result<()> {
    for name in &list(*out.allocator(), held)? {
        line(out, &[name.as_str()])?;
    }
    Ok(())
}

// Tells what is pending.
fn listed(out: &mut Vec<u8>, held: &Held, tx: &TxName) -> io::Result<()> {
    for (key, value) in &pending(*out.allocator(), held, tx)? {
        change(out, "", key, value)?;
    }
    Ok(())
}

// The value, or the removal that `null` is.
fn pending_of(alloc: Global, json: &str) -> io::Result<Pending> {
    match json {
        "null" => Ok(Pending::Gone),
        _ => Ok(Pending::Put(scalar_of(alloc, json)?)),
    }
}

// The pairs of the text, with spaces between them, each of a key, a `=` and a value.
fn pairs_of(alloc: Global, text: &str) -> io::Result<Vec<(Key, Pending)>> {
    let mut pairs = Vec::new(alloc);
    for pair in text.split(' ') {
        if !text.is_empty() {
            let (key, json) = pair.split_once('=').ok_or(bad())?;
            pairs.push((key_of(alloc, key)?, pending_of(alloc, json)?))?;
        }
    }
    Ok(pairs)
}

// Tells the keys of the commit, the changed ones, the entries, and what is owed then.
fn committed(out: &mut Vec<u8>, held: &Held, tx: &TxName) -> io::Result<()> {
    let commit = match commit(*out.allocator(), held, tx) {
        Ok(commit) => commit,
        Err(CommitError::NoPending) => return line(out, &["no such transaction"]),
        Err(CommitError::Memory) => return line(out, &["memory"]),
    };
    keys(out, "keys", commit.keys.as_slice())?;
    keys(out, "changed", commit.changed.as_slice())?;
    entries(out, &commit.change)?;
    owed(out, "then owed", held.owed_after(&commit.change))
}

/// Tells what the row of this word comes to.
pub fn tell(out: &mut Vec<u8>, held: &Held, word: &str, text: &str) -> io::Result<()> {
    let alloc = *out.allocator();
    if word == "transactions" {
        return names(out, held);
    }
    let (name, rest) = parts(text);
    let tx = tx_of(alloc, name)?;
    match word {
        "pending" => listed(out, held, &tx),
        "patch" => entries(out, &patch(alloc, held, &tx, &pairs_of(alloc, rest)?)?),
        "commit" => committed(out, held, &tx),
        "drop" => {
            let dropped = drop_tx(alloc, held, &tx)?;
            keys(out, "keys", dropped.keys.as_slice())?;
            entries(out, &dropped.change)
        }
        _ => Err(bad()),
    }
}

/// Changes what is pending, where it may be changed so, and tells what was taken, `null` for a removal.
pub fn change_pending(
    out: &mut Vec<u8>,
    pending: &mut PendMaps,
    word: &str,
    text: &str,
) -> io::Result<()> {
    let alloc = *out.allocator();
    let (name, rest) = parts(text);
    let (key, json) = parts(rest);
    let (tx, key) = (tx_of(alloc, name)?, key_of(alloc, key)?);
    if word != "take-pending" {
        if !pending.fits(&tx, &key) {
            return line(out, &["no fit"]);
        }
        return Ok(pending.put(tx, key, pending_of(alloc, json)?)?);
    }
    match pending.take(&tx, &key) {
        Some(Pending::Put(value)) => line(out, &[value.print(alloc)?.as_str()]),
        Some(Pending::Gone) => line(out, &["null"]),
        None => line(out, &["none"]),
    }
}
