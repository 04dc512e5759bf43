//! The text of the states of configuration files.
ghost use Rattle.std.specs.Prelude.{IfOk, OnOk, map};
ghost use Rattle.serde_json.specs.Data.{object};
ghost use Rattle.held_text.specs.HeldRules.{Wrote, WroteMembers};
ghost use Rattle.settings_machine.specs.Requests.{StatesAre};
ghost use Rattle.machine_answers.specs.Bodies.{placed, refused_entries, state_entries, verified_entry, states_entries};
ghost use Rattle.machine_answers.specs.Bodies.{members_of, IsTextOf, WroteEntry};

use crate::plan_body::path_text;
use crate::render_words::{render_path, render_word};
use crate::state_lines::state_word;
use json::Writer;
use json_trees::text_of;
use key_names::Text;
use outside::Path;
use settings_machine::{FileState, VerifiedFile};
use std::alloc::{AllocError, Global};
use template_eval::RenderError;

// Writes the members `path` and `state`, and ends the object.
fn write_placed(
    writer: &mut Writer,
    alloc: Global,
    path: &Path,
    word: &str,
) -> Result<(), AllocError>
    ensures { OnOk result (WroteMembers (members_of (placed path.now word.now)) writer.old writer.new) }
{
    let path = path_text(alloc, path)?;
    writer.key("path")?;
    writer.string(path.as_str())?;
    writer.key("state")?;
    writer.string(word)?;
    writer.end_object()
}

// Writes the members `at`, `kind`, `path` and `state`, and ends the object.
fn write_refused(
    writer: &mut Writer,
    alloc: Global,
    path: &Path,
    error: &RenderError,
) -> Result<(), AllocError>
    ensures { OnOk result (WroteMembers (members_of (refused_entries path.now error.now)) writer.old writer.new) }
{
    writer.key("at")?;
    writer.string(render_path(error))?;
    writer.key("kind")?;
    writer.string(render_word(error))?;
    write_placed(writer, alloc, path, "refused")
}

fn write_members(
    writer: &mut Writer,
    alloc: Global,
    path: &Path,
    state: &FileState,
) -> Result<(), AllocError>
    ensures { OnOk result (WroteMembers (members_of (state_entries path.now state.now)) writer.old writer.new) }
{
    match state {
        FileState::Refused { error } => write_refused(writer, alloc, path, error),
        _ => write_placed(writer, alloc, path, state_word(state)),
    }
}

fn write_file(writer: &mut Writer, alloc: Global, file: &VerifiedFile) -> Result<(), AllocError>
    ensures { OnOk result (WroteEntry (verified_entry file.now) writer.old writer.new) }
{
    writer.key(file.name.as_str())?;
    writer.begin_object()?;
    write_members(writer, alloc, &file.path, &file.state)
}

fn write_files(writer: &mut Writer, alloc: Global, files: &[VerifiedFile]) -> Result<(), AllocError>
    ensures { OnOk result (Wrote (object (members_of (map verified_entry files.now))) writer.old writer.new) }
{
    writer.begin_object()?;
    for file in files {
        write_file(writer, alloc, file)?;
    }
    writer.end_object()
}

fn write_states(
    writer: &mut Writer,
    alloc: Global,
    files: &[VerifiedFile],
) -> Result<(), AllocError>
    ensures { OnOk result (Wrote (object (members_of (states_entries files.now))) writer.old writer.new) }
{
    writer.begin_object()?;
    writer.key("files")?;
    write_files(writer, alloc, files)?;
    writer.end_object()
}

/// The body that tells the states of files: an object of compact JSON (RFC 8259) with the member `files`, an object with a member for each
/// file. That is an object with these members, in this order.
///
/// - `at`, where its template refuses alone: the path in the template
/// - `kind`, there alone: the word for why
/// - `path`: the path at which it is written, which begins with a slash
/// - `state`: `current`, `owed`, `refused`, `differs` or `absent`
///
/// The only error is out of memory. It takes the time of printing each.
pub(crate) fn states_body(alloc: Global, files: &[VerifiedFile]) -> Result<Text, AllocError>
    ensures { IfOk result (IsTextOf (StatesAre files.now)) }
{
    let mut writer = Writer::new(Vec::new(alloc));
    write_states(&mut writer, alloc, files)?;
    Ok(text_of(writer))
}
