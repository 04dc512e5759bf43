//! The text of a plan.
ghost use Rattle.std.specs.Prelude.{◌≡◌, ◌∷◌, IfOk, OnOk, map, string_bytes};
ghost use Rattle.serde_json.specs.Data.{object, string};
ghost use Rattle.outside.specs.PathText.{joined};
ghost use Rattle.metadata_links.specs.Commands.{seen};
ghost use Rattle.held_text.specs.HeldText.{list_data};
ghost use Rattle.held_text.specs.HeldRules.{Wrote, WroteEach, WroteMembers};
ghost use Rattle.settings_machine.specs.Requests.{PlanIs};
ghost use Rattle.settings_machine.specs.PlanSeen.{planned_of};
ghost use Rattle.machine_answers.specs.Bodies.{command_data, file_data, refused_data, plan_entries, members_of, IsTextOf};

use crate::render_words::{render_path, render_word};
use held_text::{write_keys, write_owed};
use json::Writer;
use json_trees::text_of;
use key_names::Text;
use metadata_links::Command;
use outside::Path;
use settings_machine::Plan;
use std::alloc::{AllocError, Global};
use template_eval::RenderError;

/// The text of a path, with a slash at its front. The names of a path are ASCII, so they are text. The only error is out of memory.
pub fn path_text(alloc: Global, path: &Path) -> Result<Text, AllocError>
    ensures { IfOk result (λ text. text ≡ 47 ∷ joined path.now) }
{
    let Ok(names) = String::from_utf8(path.print()?) else {
        return Err(AllocError);
    };
    let text = format!(in alloc; "/{names}")?;
    Ok(Text::of(text))
}

// Writes words, one after another.
fn write_words(writer: &mut Writer, words: &[String]) -> Result<(), AllocError>
    ensures { OnOk result
        (WroteEach string (map (λ w. string_bytes w) words.now) writer.old writer.new) }
{
    for word in words {
        writer.string(word.as_str())?;
    }
    Ok(())
}

fn write_command(writer: &mut Writer, command: &Command) -> Result<(), AllocError>
    ensures { OnOk result (Wrote (command_data (seen command.now)) writer.old writer.new) }
{
    writer.begin_array()?;
    writer.string(command.service.as_str())?;
    write_words(writer, &command.words)?;
    writer.end_array()
}

fn write_commands(writer: &mut Writer, commands: &[Command]) -> Result<(), AllocError>
    ensures { OnOk result
        (Wrote (list_data (map command_data (map seen commands.now))) writer.old writer.new) }
{
    writer.begin_array()?;
    for command in commands {
        write_command(writer, command)?;
    }
    writer.end_array()
}

fn write_file(
    writer: &mut Writer,
    alloc: Global,
    file: &Text,
    path: &Path,
) -> Result<(), AllocError>
    ensures { OnOk result (Wrote (file_data (file.now, path.now)) writer.old writer.new) }
{
    let path = path_text(alloc, path)?;
    writer.begin_array()?;
    writer.string(file.as_str())?;
    writer.string(path.as_str())?;
    writer.end_array()
}

fn write_files(writer: &mut Writer, alloc: Global, files: &[(Text, Path)]) -> Result<(), AllocError>
    ensures { OnOk result (Wrote (list_data (map file_data files.now)) writer.old writer.new) }
{
    writer.begin_array()?;
    for (file, path) in files {
        write_file(writer, alloc, file, path)?;
    }
    writer.end_array()
}

fn write_refused(writer: &mut Writer, file: &Text, error: &RenderError) -> Result<(), AllocError>
    ensures { OnOk result (Wrote (refused_data (file.now, error.now)) writer.old writer.new) }
{
    writer.begin_array()?;
    writer.string(file.as_str())?;
    writer.string(render_word(error))?;
    writer.string(render_path(error))?;
    writer.end_array()
}

fn write_all_refused(writer: &mut Writer, refused: &[(Text, RenderError)]) -> Result<(), AllocError>
    ensures { OnOk result (Wrote (list_data (map refused_data refused.now)) writer.old writer.new) }
{
    writer.begin_array()?;
    for (file, error) in refused {
        write_refused(writer, file, error)?;
    }
    writer.end_array()
}

// Writes the members, and ends the object.
fn write_members(writer: &mut Writer, alloc: Global, plan: &Plan) -> Result<(), AllocError>
    ensures { OnOk result
        (WroteMembers (members_of (plan_entries (planned_of plan.now))) writer.old writer.new) }
{
    writer.key("changed")?;
    write_keys(writer, &plan.changed)?;
    writer.key("commands")?;
    write_commands(writer, &plan.commands)?;
    writer.key("files")?;
    write_files(writer, alloc, &plan.files)?;
    writer.key("owed")?;
    write_owed(writer, &plan.owed)?;
    writer.key("refused")?;
    write_all_refused(writer, &plan.refused)?;
    writer.end_object()
}

fn write_plan(writer: &mut Writer, alloc: Global, plan: &Plan) -> Result<(), AllocError>
    ensures { OnOk result
        (Wrote (object (members_of (plan_entries (planned_of plan.now)))) writer.old writer.new) }
{
    writer.begin_object()?;
    write_members(writer, alloc, plan)
}

/// The body that tells a plan: an object of compact JSON (RFC 8259) with these members, in this order.
///
/// - `changed`: the list of the keys whose live values are changed before, printed and rising
/// - `commands`: a list of the commands, each a list of the service and its words
/// - `files`: a list of the files, each a list of its name and the path at which it is written, which begins with a slash
/// - `owed`: `"all"` or a list of keys, printed and rising
/// - `refused`: a list of the files whose templates refuse, each a list of its name, the word for why and the path in the template
///
/// The only error is out of memory. It takes the time of printing each.
pub(crate) fn plan_text(alloc: Global, plan: &Plan) -> Result<Text, AllocError>
    ensures { IfOk result (IsTextOf (PlanIs (planned_of plan.now))) }
{
    let mut writer = Writer::new(Vec::new(alloc));
    write_plan(&mut writer, alloc, plan)?;
    Ok(text_of(writer))
}
