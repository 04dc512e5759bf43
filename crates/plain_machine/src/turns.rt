//! Turns of the job.
ghost use Rattle.std.specs.Prelude.{◌≡◌, ◌≢◌, List, Ok, IfOk, OnOk, OnErr};
ghost use Rattle.template_eval.specs.declared.render_error.RenderError.TheVariants.{Memory as NoMemory};
ghost use Rattle.settings_machine.specs.declared.cause.Cause.TheVariants as cause;
ghost use Rattle.settings_machine.specs.World.{Image, Failed, KeepsAllButOwed};
ghost use Rattle.settings_machine.specs.Step.{with_job};
ghost use Rattle.settings_machine.specs.JobSeen.{job_seen};
ghost use Rattle.settings_machine.specs.Typed.{IsTypedHeld};
ghost use Rattle.typed_settings.specs.declared.row.Row.{Row};
ghost use Rattle.plain_machine.specs.Steps.{IsTurned};
ghost use Rattle.plain_machine.specs.Turns.{IsWritten, IsFileTurn, IsCommandRun, IsCommandTurn, IsLastTurn, fault_of, resting_job, unrested};
ghost use Rattle.plain_machine.specs.Worlds.{world_of};

use crate::files::set_file;
use crate::image::PlainImage;
use crate::job_steps::{pass_command, pass_file};
use crate::machine::PlainMachine;
use crate::ran::Ran;
use crate::todo::{Todo, next_todo};
use crate::turn_answer::TurnAnswer;
use key_names::{Bytes, Text};
use metadata_links::Manifest;
use settings_machine::{Cause, Job, begun, file_bytes, owes_none, path_of};
use settings_tree::{KeyList, LiveView, Owed};
use std::alloc::{AllocError, Global};
use template_eval::RenderError;

// The job that follows one that owes this from now on.
fn resting(alloc: Global, manifest: &Manifest, owed: &Owed, again: bool) -> Result<Job, AllocError>
    ensures { IfOk result (λ job. (I : Image) → I.manifest ≡ manifest.now → resting_job I owed.now again ≡ job_seen job) }
{
    if again && !owes_none(owed) {
        return begun(alloc, manifest, owed);
    }
    Ok(Job::Idle)
}

// Why a turn that came to this fails the job, where it says no more.
fn fault_of(answer: &TurnAnswer) -> Cause
    ensures { result ≡ fault_of answer.now }
{
    match answer {
        TurnAnswer::NoRoom => Cause::Memory,
        _ => Cause::Disk,
    }
}

impl PlainMachine {
    // The first file is written.
    fn put_file(
        &mut self,
        alloc: Global,
        image: &PlainImage,
        file: &Text,
        bytes: Vec<u8>,
    ) -> Result<(), AllocError>
        ensures written { OnOk result (IsWritten image.now self.old file.now (Ok bytes.items) self.new) }
        ensures kept { KeepsAllButOwed self.old.held self.new.held }
        ensures unchanged { OnErr result (world_of self.new ≡ world_of self.old) }
    {
        let path = path_of(alloc, &image.manifest, file)?;
        set_file(&mut self.etc, path, Some(Bytes::of(bytes)))?;
        pass_file(&mut self.job);
        Ok(())
    }

    // The template of the file refused.
    fn refuse(&mut self, file: Text, error: RenderError) -> Result<(), AllocError>
        ensures refused { OnOk result (world_of self.new ≡ with_job (world_of self.old) (Failed (cause.Render file error))) }
        ensures known { OnOk result (error ≢ NoMemory) }
        ensures kept { KeepsAllButOwed self.old.held self.new.held }
        ensures unchanged { OnErr result (world_of self.new ≡ world_of self.old) }
    {
        match error {
            RenderError::Memory => Err(AllocError),
            error => {
                self.job = Job::Failed(Cause::Render { file, error });
                Ok(())
            }
        }
    }

    // The first file is written as its template renders, or the template refuses.
    fn write(&mut self, alloc: Global, image: &PlainImage, file: Text) -> Result<(), AllocError>
        ensures turned { OnOk result (IsFileTurn image.now self.old file (TurnAnswer.Fine 0) self.new) }
        ensures kept { KeepsAllButOwed self.old.held self.new.held }
        ensures unchanged { OnErr result (world_of self.new ≡ world_of self.old) }
    {
        let live = LiveView::of(&self.held.live);
        let rendered: Result<_, _> = file_bytes(alloc, &image.templates, &image.os, &live, &file);
        match rendered {
            Ok(bytes) => self.put_file(alloc, image, &file, bytes),
            Err(error) => self.refuse(file, error),
        }
    }

    // The write of the file failed, and this is left at its path.
    fn leave(
        &mut self,
        alloc: Global,
        image: &PlainImage,
        file: &Text,
        left: Option<Bytes>,
    ) -> Result<(), AllocError>
        ensures turned { OnOk result (IsFileTurn image.now self.old file.now (TurnAnswer.FileFault left) self.new) }
        ensures kept { KeepsAllButOwed self.old.held self.new.held }
        ensures unchanged { OnErr result (world_of self.new ≡ world_of self.old) }
    {
        let path = path_of(alloc, &image.manifest, file)?;
        set_file(&mut self.etc, path, left)?;
        self.job = Job::Failed(Cause::Disk);
        Ok(())
    }

    fn file_turn(
        &mut self,
        alloc: Global,
        image: &PlainImage,
        file: Text,
        answer: TurnAnswer,
    ) -> Result<(), AllocError>
        ensures turned { OnOk result (IsFileTurn image.now self.old file answer self.new) }
        ensures kept { KeepsAllButOwed self.old.held self.new.held }
        ensures unchanged { OnErr result (world_of self.new ≡ world_of self.old) }
    {
        match answer {
            TurnAnswer::Fine { .. } => self.write(alloc, image, file),
            TurnAnswer::FileFault { left } => self.leave(alloc, image, &file, left),
            fault => {
                self.job = Job::Failed(fault_of(&fault));
                Ok(())
            }
        }
    }

    // The first command ran, and ended with this status.
    fn run(&mut self, service: Text, words: Vec<Text>, status: u16) -> Result<(), AllocError>
        ensures run { OnOk result (IsCommandRun self.old service words.items status self.new) }
        ensures kept { KeepsAllButOwed self.old.held self.new.held }
        ensures unchanged { OnErr result (world_of self.new ≡ world_of self.old) }
    {
        self.runs.push(Ran { words, status })?;
        if status == 0 {
            pass_command(&mut self.job);
            return Ok(());
        }
        self.job = Job::Failed(Cause::Status {
            service,
            number: status,
        });
        Ok(())
    }

    fn command_turn(
        &mut self,
        service: Text,
        words: Vec<Text>,
        answer: TurnAnswer,
    ) -> Result<(), AllocError>
        ensures turned { OnOk result (IsCommandTurn self.old service words.items answer self.new) }
        ensures kept { KeepsAllButOwed self.old.held self.new.held }
        ensures unchanged { OnErr result (world_of self.new ≡ world_of self.old) }
    {
        match answer {
            TurnAnswer::Fine { status } => self.run(service, words, status),
            TurnAnswer::NoSpawn => {
                self.job = Job::Failed(Cause::Spawn { service });
                Ok(())
            }
            fault => {
                self.job = Job::Failed(fault_of(&fault));
                Ok(())
            }
        }
    }

    // What was noted is owed, and the job rests or begins again.
    fn rest(
        &mut self,
        alloc: Global,
        image: &PlainImage,
        since: KeyList,
        again: bool,
    ) -> Result<(), AllocError>
        ensures turned { OnOk result (IsLastTurn image.now self.old since again (TurnAnswer.Fine 0) self.new) }
        ensures kept { KeepsAllButOwed self.old.held self.new.held }
        ensures unchanged { OnErr result (world_of self.new ≡ world_of self.old) }
    {
        let owed = Owed::Keys(since);
        let job = resting(alloc, &image.manifest, &owed, again)?;
        self.held.owed = owed;
        self.job = job;
        Ok(())
    }

    // What was noted could not be stored as what is owed, or was stored all the same.
    fn fail_to_rest(&mut self, since: KeyList, stored: bool)
        ensures failed { world_of self.new ≡ unrested (world_of self.old) since stored }
        ensures kept { KeepsAllButOwed self.old.held self.new.held }
    {
        if stored {
            self.held.owed = Owed::Keys(since);
        }
        self.job = Job::Failed(Cause::Disk);
    }

    fn last_turn(
        &mut self,
        alloc: Global,
        image: &PlainImage,
        since: KeyList,
        again: bool,
        answer: TurnAnswer,
    ) -> Result<(), AllocError>
        ensures turned { OnOk result (IsLastTurn image.now self.old since again answer self.new) }
        ensures kept { KeepsAllButOwed self.old.held self.new.held }
        ensures unchanged { OnErr result (world_of self.new ≡ world_of self.old) }
    {
        match answer {
            TurnAnswer::Fine { .. } => self.rest(alloc, image, since, again),
            TurnAnswer::OwedFault { stored } => {
                self.fail_to_rest(since, stored);
                Ok(())
            }
            fault => {
                self.job = Job::Failed(fault_of(&fault));
                Ok(())
            }
        }
    }

    /// Makes one turn of the job with what the outside lets it come to; where none runs, nothing. The only error is out
    /// of memory, which leaves the machine as it was. It takes the time of rendering a file, or of `begun`.
    pub fn turn(
        &mut self,
        alloc: Global,
        image: &PlainImage,
        answer: TurnAnswer,
    ) -> Result<(), AllocError>
        ensures turned { OnOk result (IsTurned image.now self.old answer self.new) }
        ensures typed { (types : List Row) → IsTypedHeld types self.old.held → IsTypedHeld types self.new.held }
        ensures unchanged { OnErr result (world_of self.new ≡ world_of self.old) }
    {
        let Job::Running(work) = &self.job else {
            return Ok(());
        };
        match next_todo(alloc, work)? {
            Todo::File { file } => self.file_turn(alloc, image, file, answer),
            Todo::Command { service, words } => self.command_turn(service, words, answer),
            Todo::End { since, again } => self.last_turn(alloc, image, since, again, answer),
        }
    }
}
