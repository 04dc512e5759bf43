//! Plans: what a job would do, and which of its files could not be rendered.
ghost use Rattle.std.specs.Prelude.{◌≡◌, ◌≢◌, ◌++◌, IfOk, IfErr, OnOk, Ok, Err, map, take};
ghost use Rattle.metadata_links.specs.Links.{files_of};
ghost use Rattle.settings_machine.specs.World.{Image};
ghost use Rattle.settings_machine.specs.PlanSeen.{IsPlanOf, AreRefusing, IsFirstRefusing, AddsRefusal, path_seen};

use crate::file::file_bytes;
use key_names::Text;
use metadata_links::{Command, Manifest};
use outside::Path;
use settings_tree::{KeyList, LiveView, Os, Owed};
use std::alloc::{AllocError, Global};
use template_eval::RenderError;
use template_reader::Templates;

/// What a job would do.
#[derive(Debug, Drop)]
pub struct Plan {
    /// The keys whose live values are changed before, rising.
    pub changed: KeyList,
    /// What is owed then.
    pub owed: Owed,
    /// The files that it writes, in its order: the name of each, and where it is written.
    pub files: Vec<(Text, Path)>,
    /// The commands that it runs, in order.
    pub commands: Vec<Command>,
    /// Those of the files whose templates refuse, with why.
    pub refused: Vec<(Text, RenderError)>,
}

// Why the template of the file refuses, if it does. The bytes that it renders to are dropped.
fn refusal_of(
    alloc: Global,
    templates: &Templates,
    os: &Os,
    live: &LiveView<'_>,
    file: &Text,
) -> Result<Option<RenderError>, AllocError>
    ensures { IfOk result (AddsRefusal templates.now os.now live.now file.now) }
{
    match file_bytes(alloc, templates, os, live, file) {
        Ok(_) => Ok(None),
        Err(RenderError::Memory) => Err(AllocError),
        Err(error) => Ok(Some(error)),
    }
}

/// The first of the files whose template refuses on these live values, with why. It takes the time of `render` for each file up to
/// that one, and the memory of one file at a time. The only error is out of memory.
pub fn first_refusing(
    alloc: Global,
    templates: &Templates,
    os: &Os,
    live: &LiveView<'_>,
    files: &[Text],
) -> Result<Option<(Text, RenderError)>, AllocError>
    ensures { IfOk result (IsFirstRefusing templates.now os.now live.now files.now) }
{
    for file in files {
        if let Some(error) = refusal_of(alloc, templates, os, live, file)? {
            return Ok(Some((file.copy()?, error)));
        }
    }
    Ok(None)
}

/// Those of the files whose templates refuse on these live values, with why, in their order. It takes the time of `render` for each
/// file, and the memory of one file at a time. The only error is out of memory.
pub fn refusing(
    alloc: Global,
    templates: &Templates,
    os: &Os,
    live: &LiveView<'_>,
    files: &[Text],
) -> Result<Vec<(Text, RenderError)>, AllocError>
    ensures { IfOk result (λ refused. AreRefusing templates.now os.now live.now files.now refused.items) }
{
    let mut refused = Vec::new(alloc);
    for file in files {
        if let Some(error) = refusal_of(alloc, templates, os, live, file)? {
            refused.push((file.copy()?, error))?;
        }
    }
    Ok(refused)
}

/// Where the file is written: the path of its row, and no name where the manifest has no such file. The only error is out of memory.
pub fn path_of(alloc: Global, manifest: &Manifest, file: &Text) -> Result<Path, AllocError>
    ensures { IfOk result (λ path. path ≡ path_seen manifest.now file.now) }
{
    match manifest.file(file.as_str().as_bytes()) {
        Some(row) => row.path.copy(),
        None => Ok(Path::root(alloc)),
    }
}

// The files, each with where it is written.
fn with_paths(
    alloc: Global,
    manifest: &Manifest,
    files: Vec<Text>,
) -> Result<Vec<(Text, Path)>, AllocError>
    ensures { IfOk result (λ pairs. pairs.items ≡ map (λ file. (file, path_seen manifest.now file)) files.items) }
{
    let mut pairs = Vec::new(alloc);
    for file in files {
        let path = path_of(alloc, manifest, &file)?;
        pairs.push((file, path))?;
    }
    Ok(pairs)
}

/// The plan of a job that pays what is owed, over these live values, where the live values of some keys are changed before. It takes
/// the time of `files_of`, `commands_of` and of rendering each file, and the memory of one file at a time. The only error is out of
/// memory.
pub fn job_plan(
    alloc: Global,
    manifest: &Manifest,
    templates: &Templates,
    os: &Os,
    live: &LiveView<'_>,
    owed: Owed,
    changed: KeyList,
) -> Result<Plan, AllocError>
    ensures { IfOk result (IsPlanOf manifest.now templates.now os.now live.now owed changed) }
{
    let files = manifest.files_of(&owed)?;
    let commands = manifest.commands_of(&owed)?;
    let refused = refusing(alloc, templates, os, live, &files)?;
    let files = with_paths(alloc, manifest, files)?;
    Ok(Plan {
        changed,
        owed,
        files,
        commands,
        refused,
    })
}
