//! The lines of a report. The only error of each function is out of memory.
ghost use Rattle.std.specs.Prelude.{◌≡◌, ◌++◌, IfOk, OnOk, option_map};
ghost use Rattle.std.specs.List.{flat_map};
ghost use Rattle.store_report.specs.Lines.{tx_word, ill_typed_line, render_line};

use crate::ill_typed::IllTyped;
use key_names::{Bytes, Text};
use machine_answers::{render_path, render_word};
use settings_tree::TxName;
use std::alloc::{AllocError, Global};
use template_eval::RenderError;

fn push_tx(text: &mut Vec<u8>, tx: &Option<TxName>) -> Result<(), AllocError>
    ensures { OnOk result (text.new.items ≡ text.old.items ++ tx_word tx.now) }
{
    if let Some(tx) = tx {
        text.extend_from_slice(tx.as_str().as_bytes())?;
        text.push(b' ')?;
    }
    Ok(())
}

fn push_ill_typed(text: &mut Vec<u8>, value: &IllTyped) -> Result<(), AllocError>
    ensures { OnOk result (text.new.items ≡ text.old.items ++ ill_typed_line value.now) }
{
    text.extend_from_slice(b"ill typed ")?;
    push_tx(text, &value.tx)?;
    text.extend_from_slice(value.key.print()?.as_str().as_bytes())?;
    text.push(b' ')?;
    text.extend_from_slice(value.wanted.as_str().as_bytes())?;
    text.push(b'\n')?;
    Ok(())
}

fn push_all_ill_typed(text: &mut Vec<u8>, values: &[IllTyped]) -> Result<(), AllocError>
    ensures { OnOk result (text.new.items ≡ text.old.items ++ flat_map ill_typed_line values.now) }
{
    for value in values {
        push_ill_typed(text, value)?;
    }
    Ok(())
}

fn push_refused(text: &mut Vec<u8>, file: &Text, error: &RenderError) -> Result<(), AllocError>
    ensures { OnOk result (text.new.items ≡ text.old.items ++ render_line (file.now, error.now)) }
{
    text.extend_from_slice(b"render ")?;
    text.extend_from_slice(file.as_str().as_bytes())?;
    text.push(b' ')?;
    text.extend_from_slice(render_word(error).as_bytes())?;
    text.push(b' ')?;
    text.extend_from_slice(render_path(error).as_bytes())?;
    text.push(b'\n')?;
    Ok(())
}

fn push_all_refused(text: &mut Vec<u8>, files: &[(Text, RenderError)]) -> Result<(), AllocError>
    ensures { OnOk result (text.new.items ≡ text.old.items ++ flat_map render_line files.now) }
{
    for (file, error) in files {
        push_refused(text, file, error)?;
    }
    Ok(())
}

/// The lines of the values that the types refuse, and of the files whose templates refuse, each with a line feed.
pub fn report_lines(
    alloc: Global,
    values: &[IllTyped],
    files: &[(Text, RenderError)],
) -> Result<Bytes, AllocError>
    ensures { IfOk result (λ lines. lines ≡ flat_map ill_typed_line values.now ++ flat_map render_line files.now) }
{
    let mut text = Vec::new(alloc);
    push_all_ill_typed(&mut text, values)?;
    push_all_refused(&mut text, files)?;
    Ok(Bytes::of(text))
}
