//! The lines of a load run.
ghost use Rattle.std.specs.Prelude.{◌≡◌, ◌++◌, IfOk, OnOk};
ghost use Rattle.load_input.specs.Lines.{line, lines_of};
ghost use Rattle.load_input.specs.Loads.{live_settings, files_in};

use crate::counts::Counts;
use api_core::Core;
use itoa::Buffer;
use key_names::{Bytes, Key};
use std::alloc::{AllocError, Global};

// Adds a name, a space and a number, as a line.
#[tactic(auto, unfolding(crate::specs::Lines::line))]
fn line_of(alloc: Global, name: &[u8], n: u64) -> Result<Vec<u8>, AllocError>
    ensures { IfOk result (λ text. text.items ≡ line name.now n) }
{
    let mut buffer = Buffer::new();
    let mut text = Vec::from_slice(alloc, name)?;
    text.extend_from_slice(b" ")?;
    text.extend_from_slice(buffer.format(n).as_bytes())?;
    text.extend_from_slice(b"\n")?;
    Ok(text)
}

// Adds a line.
fn push_line(out: &mut Vec<u8>, name: &[u8], n: u64) -> Result<(), AllocError>
    ensures { OnOk result (out.new.items ≡ out.old.items ++ line name.now n) }
{
    let text = line_of(*out.allocator(), name, n)?;
    out.extend_from_slice(text.as_slice())
}

// The seven lines of these numbers.
fn lines_of(alloc: Global, counts: &Counts, keys: u64, files: u64) -> Result<Vec<u8>, AllocError>
    ensures { IfOk result (λ text. text.items ≡ lines_of counts.now keys files) }
{
    let requests = counts.ok.checked_add(counts.refused).ok_or(AllocError)?;
    let mut lines = line_of(alloc, b"requests", requests)?;
    push_line(&mut lines, b"ok", counts.ok)?;
    push_line(&mut lines, b"refused", counts.refused)?;
    push_line(&mut lines, b"keys", keys)?;
    push_line(&mut lines, b"files", files)?;
    push_line(&mut lines, b"written", counts.written)?;
    push_line(&mut lines, b"runs", counts.runs)?;
    Ok(lines)
}

// How many settings are live.
fn live_settings(alloc: Global, core: &Core) -> Result<u64, AllocError>
    ensures { IfOk result (λ n. n ≡ live_settings core.now) }
{
    let Ok(settings) = Key::of_segment(alloc, b"settings") else {
        return Err(AllocError);
    };
    let values = core.held().live.below(&settings)?;
    Ok(values.len() as u64)
}

// How many configuration files there are.
fn files_in(core: &Core) -> Result<u64, AllocError>
    ensures { IfOk result (λ n. n ≡ files_in core.now) }
{
    let names = core.image().manifest.file_names()?;
    Ok(names.len() as u64)
}

/// The lines of what was counted, and of what the core holds. The only error is out of memory.
pub(crate) fn lines(alloc: Global, counts: &Counts, core: &Core) -> Result<Bytes, AllocError>
    ensures { IfOk result (λ text. text ≡ lines_of counts.now (live_settings core.now) (files_in core.now)) }
{
    let keys = live_settings(alloc, core)?;
    let files = files_in(core)?;
    let text = lines_of(alloc, counts, keys, files)?;
    Ok(Bytes::of(text))
}
