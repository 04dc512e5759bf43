//! The real spawner.
use outside::{Asker, Spawner};
use outside_real::RealSpawner;
use std::alloc::{AllocError, Global};
use std::test::Fail;
use test_support::{new_folder, remove_folder};

fn words_of(alloc: Global, words: &[&str]) -> Result<Vec<String>, AllocError> {
    let mut copies = Vec::new(alloc);
    for word in words {
        copies.push(String::from_str(alloc, word)?)?;
    }
    Ok(copies)
}

// The status of a program that this spawner runs, or None where it can't be run.
fn status_by<S: Spawner>(
    alloc: Global,
    spawner: &mut S,
    words: &[&str],
) -> Result<Option<u16>, Fail> {
    let words = words_of(alloc, words)?;
    if words.is_empty() {
        return Err("no words")?;
    }
    Ok(spawner.run(&words).ok())
}

// The same by a real spawner.
fn status_of(rt: &HostRuntime, words: &[&str]) -> Result<Option<u16>, Fail> {
    let mut spawner = RealSpawner::new(rt.clone()?, ".")?;
    status_by(rt.alloc(), &mut spawner, words)
}

#[test]
fn a_spawner_runs_programs(rt: HostRuntime) -> Result<(), Fail> {
    assert!(rt; status_of(&rt, &["true"])? == Some(0));
    assert!(rt; status_of(&rt, &["sh", "-c", "exit 7"])? == Some(7));
    assert!(rt; status_of(&rt, &["sh", "-c", "kill -9 $$"])? == Some(256));
    assert!(rt; status_of(&rt, &["/no/such/program"])? == None);
    Ok(())
}

// What a program that this spawner asks writes for this input, up to `most` bytes and one more.
fn output_by<S: Asker>(
    alloc: Global,
    spawner: &mut S,
    words: &[&str],
    input: &[u8],
    most: u8,
) -> Result<Vec<u8>, Fail> {
    let words = words_of(alloc, words)?;
    if words.is_empty() {
        return Err("no words")?;
    }
    Ok(spawner.ask(alloc, &words, input, usize::from(most))?.output)
}

// Whether a program that a real spawner asks in this folder writes this for the input.
fn writes(
    rt: &HostRuntime,
    root: &str,
    words: &[&str],
    input: &[u8],
    most: u8,
    wanted: &[u8],
) -> Result<bool, Fail> {
    let mut spawner = RealSpawner::new(rt.clone()?, root)?;
    let output = output_by(rt.alloc(), &mut spawner, words, input, most)?;
    Ok(output.as_slice() == wanted)
}

#[test]
fn a_spawner_asks_programs(rt: HostRuntime) -> Result<(), Fail> {
    let folder = new_folder(&rt, "spawner")?;
    let root = folder.as_str();
    assert!(rt; writes(&rt, root, &["cat"], b"one two", 99, b"one two")?);
    assert!(rt; writes(&rt, root, &["cat"], b"one two", 2, b"one")?);
    assert!(rt; writes(&rt, root, &["seq", "1", "100000"], b"", 1, b"1\n")?);
    remove_folder(&rt, root)
}
