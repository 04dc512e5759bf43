//! Jobs.
ghost use Rattle.std.specs.Prelude.{◌≡◌, ◌≤◌, ◌<◌, ℕ, List, [], ◌∷◌, true, length, map, reverse, All, IfOk, OnOk, OnErr, MatchOption};
ghost use Rattle.std.specs.Vec.{vec_len, vec_capacity};
ghost use Rattle.settings_maps.specs.KeyList.{joined};
ghost use Rattle.outside.specs.Told.{Moves};
ghost use Rattle.outside.specs.Faults.{HasCause};
ghost use Rattle.settings_machine.specs.World.{Image};
ghost use Rattle.affected_apply.specs.Sees.{Sees, HasRow};
ghost use Rattle.affected_apply.specs.Work.{work_of, HasWord};
ghost use Rattle.affected_apply.specs.Parts.{FilesAdvance, FilesByImage, FilesWrite, CommandsAdvance, CommandsRun, IsEnd, EndSyncs};
ghost use Rattle.affected_apply.specs.Machine.{IsMachineTurn};
ghost use Rattle.affected_apply.specs.Turning.{Advances, ByImage, TurnWrites, TurnRuns, disk_answer_of, spawner_answer_of};
ghost use Rattle.metadata_links.specs.Commands.{seen};

use crate::commands::run_command;
use crate::files::write_file;
use crate::noting::merged;
use crate::{Turn, View};
use key_names::{Key, Text};
use metadata_links::{Command, Manifest};
use outside::{Disk, Spawner};
use settings_machine::Cause;
use settings_tree::{KeyList, Owed};
use std::alloc::AllocError;
use std::marker::Model;
use std::mem;

/// A job: the files and the commands that are still to do, the keys that were noted since it began,
/// and whether it was asked for again.
#[derive(Drop)]
pub struct Job {
    // The next one is the last.
    files: Vec<Text>,
    // The next one is the last.
    commands: Vec<Command>,
    since: KeyList,
    // Empty, with room for the noted keys and more.
    room: Vec<Key>,
    again: bool,
}

impl Model for Job {
    ghost use Rattle.std.specs.Prelude.{◌≡◌, ◌-◌, [], All, map, length, reverse};
    ghost use Rattle.std.specs.Vec.{vec_capacity};
    ghost use Rattle.metadata_links.specs.Commands.{seen};
    ghost use Rattle.affected_apply.specs.Work.{JobAt, HasWord};

    ghost Value = { JobAt };

    ghost view = { λ j. record {
      work = record { files = reverse j.files.items; commands = map seen (reverse j.commands.items); since = j.since; again = j.again };
      spare = vec_capacity j.room - length j.since;
    } };

    ghost invariant = { λ j. (j.room.items ≡ []) × All (λ c. HasWord (seen c)) j.commands.items };
}

// Writes the file that is next. Where it is written it is done.
fn file_turn<D: Disk>(files: &mut Vec<Text>, view: &View<'_>, disk: &mut D) -> Turn
    requires some { 0 < vec_len files.old }
    requires known { All (HasRow view.now.manifest.now) (reverse files.old.items) }
    ensures files { FilesAdvance (reverse files.old.items) result (reverse files.new.items) }
    ensures image { (I : Image) → Sees I view.now → FilesByImage I view.now.live.now (reverse files.old.items) result }
    ensures disk { Moves (D.told disk.old) (D.told disk.new)
        (λ old new. (I : Image) → Sees I view.now → FilesWrite I view.now.live.now (reverse files.old.items) result old new) }
    ensures faults { HasCause (D.faults disk.old) (D.faults disk.new) (disk_answer_of result) }
{
    let alloc = *files.allocator();
    match write_file(alloc, view, &files[files.len() - 1], disk) {
        Ok(()) => match files.pop() {
            Some(file) => Turn::Wrote { file },
            None => unreachable!(),
        },
        Err(cause) => Turn::Failed { cause },
    }
}

// Runs the command that is next. Where it ended with exit status 0 it is done.
fn command_turn<S: Spawner>(commands: &mut Vec<Command>, spawner: &mut S) -> Turn
    requires some { 0 < vec_len commands.old }
    requires words { All (λ c. HasWord (seen c)) commands.old.items }
    ensures commands { CommandsAdvance (map seen (reverse commands.old.items)) result (map seen (reverse commands.new.items)) }
    ensures runs { Moves (S.runs spawner.old) (S.runs spawner.new) (CommandsRun (map seen (reverse commands.old.items)) result) }
    ensures asked { S.asked spawner.new ≡ S.asked spawner.old }
    ensures faults { HasCause (S.faults spawner.old) (S.faults spawner.new) (spawner_answer_of result) }
    ensures words { All (λ c. HasWord (seen c)) commands.new.items }
{
    match run_command(&commands[commands.len() - 1], spawner) {
        Ok(()) => match commands.pop() {
            Some(command) => Turn::Ran {
                service: command.service,
                index: command.index,
            },
            None => unreachable!(),
        },
        Err(cause) => Turn::Failed { cause },
    }
}

// Syncs the disk.
fn last_turn<D: Disk>(disk: &mut D) -> Turn
    ensures ended { IsEnd result }
    ensures disk { Moves (D.told disk.old) (D.told disk.new) (EndSyncs result) }
    ensures faults { HasCause (D.faults disk.old) (D.faults disk.new) (disk_answer_of result) }
{
    match disk.sync() {
        Ok(()) => Turn::Done,
        Err(_) => Turn::Failed { cause: Cause::Disk },
    }
}

impl Job {
    /// A job of the owed keys: the files and the commands that they affect are to do. The only error is out of memory.
    /// It takes the time of `Manifest::files_of` and `Manifest::commands_of`.
    pub fn begin(manifest: &Manifest, owed: &Owed) -> Result<Job, AllocError>
        ensures work { IfOk result (λ job. job.work ≡ work_of manifest.now owed.now) }
        ensures known { IfOk result (λ job. All (HasRow manifest.now) job.work.files) }
    {
        let mut files = manifest.files_of(owed)?;
        let mut commands = manifest.commands_of(owed)?;
        files.reverse();
        commands.reverse();
        let alloc = *files.allocator();
        Ok(Job {
            files,
            commands,
            since: KeyList::new(alloc),
            room: Vec::new(alloc),
            again: false,
        })
    }

    /// Makes room, so that so many keys can be noted without memory. After the only error, out of memory, it has the room
    /// that it had.
    pub fn reserve(&mut self, count: usize) -> Result<(), AllocError>
        ensures work { self.new.work ≡ self.old.work }
        ensures ok { OnOk result (count ≤ self.new.spare) }
        ensures err { OnErr result (self.new.spare ≡ self.old.spare) }
    {
        let total = self
            .since
            .as_slice()
            .len()
            .checked_add(count)
            .ok_or(AllocError)?;
        self.room.reserve(total)
    }

    /// Notes the keys, for which there is room. It takes a step for each key of both lists, and no memory.
    pub fn note(&mut self, keys: KeyList)
        requires { length keys ≤ self.old.spare }
        ensures { self.new.work ≡ record self.old.work { since = joined self.old.work.since keys } }
    {
        if keys.as_slice().is_empty() {
            return;
        }
        let alloc = *self.room.allocator();
        let since = mem::replace(&mut self.since, KeyList::new(alloc));
        let room = mem::replace(&mut self.room, Vec::new(alloc));
        self.since = KeyList::of(merged(since.into_keys(), keys.into_keys(), room));
    }

    /// The job is to begin again after its end.
    pub fn ask_again(&mut self)
        ensures work { self.new.work ≡ record self.old.work { again = true } }
        ensures room { self.new.spare ≡ self.old.spare }
    {
        self.again = true;
    }

    /// Whether it is to begin again after its end.
    pub fn again(&self) -> bool
        ensures { result ≡ self.now.work.again }
    {
        self.again
    }

    /// How many files are left to write. It takes no memory.
    pub fn files_left(&self) -> usize
        ensures { result ≡ length self.now.work.files }
    {
        self.files.len()
    }

    /// How many commands are left to run. It takes no memory.
    pub fn commands_left(&self) -> usize
        ensures { result ≡ length self.now.work.commands }
    {
        self.commands.len()
    }

    /// The next file to write, if one is left. It takes no memory.
    pub fn next_file(&self) -> Option<&Text>
        ensures { MatchOption result (self.now.work.files ≡ [])
            (λ file. (rest : List (List ℕ)) × (self.now.work.files ≡ file.now ∷ rest)) }
    {
        self.files.last()
    }

    /// The next command to run where no file is left, if there is one. It takes no memory.
    pub fn next_command(&self) -> Option<&Command>
        ensures { MatchOption result (self.now.work.commands ≡ [])
            (λ command. (rest : List (List ℕ × (ℕ × List (List ℕ)))) × (self.now.work.commands ≡ seen command.now ∷ rest)) }
    {
        self.commands.last()
    }

    /// The keys that were noted. It takes no memory.
    pub fn since(&self) -> &KeyList
        ensures { result.now ≡ self.now.work.since }
    {
        &self.since
    }

    // Does what is next.
    fn step<D: Disk, S: Spawner>(&mut self, view: &View<'_>, disk: &mut D, spawner: &mut S) -> Turn
        requires { All (HasRow view.now.manifest.now) self.old.work.files }
        ensures work { Advances self.old.work result self.new.work }
        ensures room { self.new.spare ≡ self.old.spare }
        ensures image { (I : Image) → Sees I view.now → ByImage I view.now.live.now self.old.work result }
        ensures disk { Moves (D.told disk.old) (D.told disk.new)
            (λ old new. (I : Image) → Sees I view.now → TurnWrites I view.now.live.now self.old.work result old new) }
        ensures runs { Moves (S.runs spawner.old) (S.runs spawner.new) (TurnRuns self.old.work result) }
        ensures asked { S.asked spawner.new ≡ S.asked spawner.old }
        ensures disk_faults { HasCause (D.faults disk.old) (D.faults disk.new) (disk_answer_of result) }
        ensures spawner_faults { HasCause (S.faults spawner.old) (S.faults spawner.new) (spawner_answer_of result) }
    {
        if !self.files.is_empty() {
            file_turn(&mut self.files, view, disk)
        } else if !self.commands.is_empty() {
            command_turn(&mut self.commands, spawner)
        } else {
            last_turn(disk)
        }
    }

    /// One turn, over a view of the image that the job began with and of the live settings of now. `Wrote`: the next file
    /// was written, by one write of the disk, with what it renders to. `Ran`: no file was left, and the next command was run
    /// and ended with exit status 0. `Done`: nothing was left, and the disk was synced.
    ///
    /// `Failed` leaves what it was to do still to do. Its causes are `Render` exactly where the template of the next file
    /// refuses, `Status` exactly where the next command ended with another status, `Disk` and `Spawn` only where the device's
    /// count of faults rose in this call, and `Memory`, after which nothing has changed.
    ///
    /// It takes the time of `file_bytes` and of one write, or of one run, or of one sync.
    pub fn turn<D: Disk, S: Spawner>(
        &mut self,
        view: &View<'_>,
        disk: &mut D,
        spawner: &mut S,
    ) -> Turn
        requires { All (HasRow view.now.manifest.now) self.old.work.files }

        // It is one turn of the machine, on the disk and with the programs that were run.
        ensures machine { Moves (D.told disk.old) (D.told disk.new)
            (IsMachineTurn view.now self.old.work result self.new.work (S.runs spawner.old) (S.runs spawner.new)) }
        ensures work { Advances self.old.work result self.new.work }
        ensures known { All (HasRow view.now.manifest.now) self.new.work.files }
        ensures room { self.new.spare ≡ self.old.spare }

        // What it does, by the image that the view is of.
        ensures image { (I : Image) → Sees I view.now → ByImage I view.now.live.now self.old.work result }
        ensures disk { Moves (D.told disk.old) (D.told disk.new)
            (λ old new. (I : Image) → Sees I view.now → TurnWrites I view.now.live.now self.old.work result old new) }
        ensures runs { Moves (S.runs spawner.old) (S.runs spawner.new) (TurnRuns self.old.work result) }
        ensures asked { S.asked spawner.new ≡ S.asked spawner.old }

        // It fails with Disk only where the disk's count rose, and with Spawn only where the spawner's did.
        ensures disk_faults { HasCause (D.faults disk.old) (D.faults disk.new) (disk_answer_of result) }
        ensures spawner_faults { HasCause (S.faults spawner.old) (S.faults spawner.new) (spawner_answer_of result) }
    {
        self.step(view, disk, spawner)
    }
}
