//! Programs that were run, as lines: the words of each, and the status with which it ended.
use disk_memory::MemorySpawner;
use key_names::Text;
use plain_machine::PlainMachine;
use std::alloc::{AllocError, Global};

fn add_words(lines: &mut String, words: &[String]) -> Result<(), AllocError> {
    for word in words {
        write!(lines, "{} ", word.as_str())?;
    }
    Ok(())
}

/// The programs that the spawner ran.
pub fn spawned_lines(alloc: Global, spawner: &MemorySpawner) -> Result<String, AllocError> {
    let mut lines = String::new(alloc);
    for run in spawner.runs() {
        add_words(&mut lines, &run.words)?;
        writeln!(lines, "{}", run.status)?;
    }
    Ok(lines)
}

fn add_texts(lines: &mut String, words: &[Text]) -> Result<(), AllocError> {
    for word in words {
        write!(lines, "{} ", word.as_str())?;
    }
    Ok(())
}

/// The programs that the machine ran.
pub fn machine_lines(alloc: Global, machine: &PlainMachine) -> Result<String, AllocError> {
    let mut lines = String::new(alloc);
    for ran in &machine.runs {
        add_texts(&mut lines, &ran.words)?;
        writeln!(lines, "{}", ran.status)?;
    }
    Ok(lines)
}
