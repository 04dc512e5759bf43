//! A host in memory.
ghost use Rattle.std.specs.Prelude.{◌≡◌, All, IfOk, true};
ghost use Rattle.api_http.specs.Requests.{IfWhole};
ghost use Rattle.key_names.specs.Key.{is_prefix};
ghost use Rattle.model_file.specs.Model.{AreTyped};
ghost use Rattle.opening_step.specs.Step.{AreSettings};
ghost use Rattle.settings_machine.specs.Asked.{request_of};
ghost use Rattle.settings_machine.specs.Requests.{IsProper};
ghost use Rattle.settings_tree.specs.Content.{settings_key};
ghost use Rattle.typed_settings.specs.Order.{IsTable};

use crate::reading::{keys_told, plan_told, read};
use crate::rest::at_rest;
use crate::told::Told;
use api_http::{Reading, Reply, print_refusal, read_request};
use key_names::{Key, Text};
use outside::Disk;
use pending_tx::CommitError;
use plain_machine::{OpeningAnswer, PlainImage, PlainMachine, TurnAnswer};
use settings_machine::{Guard, Refusal, Request};
use settings_tree::{KeyList, Pending, TxName};
use std::alloc::{AllocError, Global};
use std::marker::Model;
use store_image::{ImageError, read_image};
use version_links::Version;

/// A host in memory: an image, and the machine that goes by it, which can be kept as it is and gone back to. What it holds is
/// typed by the image.
#[derive(Drop)]
pub struct Host {
    /// The image.
    pub image: PlainImage,
    /// The machine.
    pub machine: PlainMachine,
    kept: PlainMachine,
}

impl Model for Host {
    ghost use Rattle.machine_replies.specs.Stands.{Stands};

    ghost Value = { Unit {0} };

    ghost view = { λ _. tt };

    ghost invariant = { λ h. Stands h.image h.machine.held h.kept.held };
}

// Reads the image of the disk.
fn read_plain<D: Disk>(alloc: Global, disk: &mut D) -> Result<PlainImage, ImageError>
    ensures table { IfOk result (λ image. IsTable image.types) }
    ensures typed { IfOk result (λ image. AreTyped image.types image.defaults.values) }
    ensures settings { IfOk result (λ image. AreSettings image.defaults.values) }
{
    let image = read_image(alloc, disk)?;
    // The check knows from this call that the types are a table.
    let _ = image.model.types.len();
    Ok(PlainImage {
        types: image.model.types,
        os: image.model.os,
        defaults: image.model.content,
        manifest: image.manifest,
        templates: image.templates,
        text: image.text,
    })
}

// The answer to a patch.
fn patched(refusal: Option<Refusal>) -> Told {
    match refusal {
        Some(refusal) => Told::Refused(refusal),
        None => Told::Empty,
    }
}

// The answer to a commit of the transaction.
fn committed(
    alloc: Global,
    tx: &TxName,
    keys: Result<KeyList, CommitError>,
) -> Result<Told, AllocError> {
    match keys {
        Ok(keys) => keys_told(alloc, keys),
        Err(CommitError::NoPending) => {
            let tx = tx.copy()?;
            Ok(Told::Refused(Refusal::NoPending { tx }))
        }
        Err(CommitError::Memory) => Err(AllocError),
    }
}

// The answer to a change that comes to its keys, or is refused.
fn changed(alloc: Global, keys: Result<KeyList, Refusal>) -> Result<Told, AllocError> {
    match keys {
        Ok(keys) => keys_told(alloc, keys),
        Err(refusal) => Ok(Told::Refused(refusal)),
    }
}

// What the bytes are, read as a request. Of what `read_request` tells of it this alone is needed here.
fn reading_of(alloc: Global, bytes: &[u8]) -> Result<Reading, AllocError>
    ensures { IfOk result (λ reading. IfWhole reading (λ q _. IsProper q)) }
{
    read_request(alloc, bytes)
}

/// Whether the request may change what is held. Another one needs no disk.
pub fn changes(request: &Request) -> bool {
    match request {
        Request::Patch { .. }
        | Request::DropTx { .. }
        | Request::Commit { .. }
        | Request::CommitAndApply { .. }
        | Request::Set { .. }
        | Request::ApplyAll => true,
        _ => false,
    }
}

impl Host {
    /// The host of the image on the disk, whose store has begun at this version. The errors are those of `read_image`.
    pub fn read<D: Disk>(
        alloc: Global,
        disk: &mut D,
        version: Version,
    ) -> Result<Host, ImageError> {
        let image = read_plain(alloc, disk)?;
        Ok(Host {
            image,
            machine: PlainMachine::new(alloc, version),
            kept: PlainMachine::new(alloc, version),
        })
    }

    /// The store begins again, at this version.
    pub fn begin(&mut self, alloc: Global, version: Version) {
        self.machine = PlainMachine::new(alloc, version);
    }

    /// The store and the files are kept. The only error is out of memory.
    pub fn keep(&mut self, alloc: Global) -> Result<(), AllocError> {
        self.kept = at_rest(alloc, &self.machine)?;
        Ok(())
    }

    /// The machine becomes one with the store and the files that were kept, which runs no job and has run no program. The only
    /// error is out of memory.
    pub fn go_back(&mut self, alloc: Global) -> Result<(), AllocError> {
        self.machine = at_rest(alloc, &self.kept)?;
        Ok(())
    }

    /// The store is opened. The only error is out of memory.
    pub fn open(
        &mut self,
        alloc: Global,
        boot: bool,
        answer: OpeningAnswer,
    ) -> Result<(), AllocError> {
        self.machine.open_store(alloc, &self.image, boot, answer)
    }

    /// A turn is made. The only error is out of memory.
    pub fn turn(&mut self, alloc: Global, answer: TurnAnswer) -> Result<(), AllocError> {
        self.machine.turn(alloc, &self.image, answer)
    }

    // The transaction is committed.
    fn commit(&mut self, alloc: Global, tx: &TxName, guard: Guard) -> Result<Told, AllocError> {
        match guard {
            Guard::Off => committed(alloc, tx, self.machine.commit(alloc, &self.image, tx)),
            Guard::Render => {
                let keys = self.machine.guarded_commit(alloc, &self.image, tx)?;
                changed(alloc, keys)
            }
        }
    }

    // The transaction is committed and applied.
    fn commit_and_apply(
        &mut self,
        alloc: Global,
        tx: &TxName,
        guard: Guard,
    ) -> Result<Told, AllocError> {
        match guard {
            Guard::Off => {
                let keys = self.machine.commit_and_apply(alloc, &self.image, tx);
                committed(alloc, tx, keys)
            }
            Guard::Render => {
                let keys = self
                    .machine
                    .guarded_commit_and_apply(alloc, &self.image, tx)?;
                changed(alloc, keys)
            }
        }
    }

    // The pairs are set at once.
    fn set(
        &mut self,
        alloc: Global,
        pairs: &[(Key, Pending)],
        guard: Guard,
    ) -> Result<Told, AllocError>
        requires { All (λ e. is_prefix settings_key e.0 ≡ true) pairs.now }
    {
        let keys = match guard {
            Guard::Off => self.machine.set(alloc, &self.image, pairs)?,
            Guard::Render => self.machine.guarded_set(alloc, &self.image, pairs)?,
        };
        changed(alloc, keys)
    }

    // What a job would do.
    fn plan(&self, alloc: Global, tx: &Option<TxName>) -> Result<Told, AllocError> {
        match self.machine.plan(alloc, &self.image, tx)? {
            Ok(plan) => plan_told(alloc, plan),
            Err(refusal) => Ok(Told::Refused(refusal)),
        }
    }

    // What a configuration file would be.
    fn planned_file(
        &self,
        alloc: Global,
        file: &Text,
        tx: &Option<TxName>,
    ) -> Result<Told, AllocError> {
        match self.machine.planned_file(alloc, &self.image, file, tx)? {
            Ok(bytes) => Ok(Told::File(bytes)),
            Err(refusal) => Ok(Told::Refused(refusal)),
        }
    }

    /// The machine makes the request: what is replied where the disk serves. The only error is out of memory.
    pub fn ask(&mut self, alloc: Global, request: &Request) -> Result<Told, AllocError>
        requires { IsProper (request_of request.now) }
    {
        match request {
            Request::Patch { tx, pairs } => {
                let refusal = self
                    .machine
                    .patch(alloc, &self.image, tx, pairs.as_slice())?;
                Ok(patched(refusal))
            }
            Request::DropTx { tx } => {
                keys_told(alloc, self.machine.drop_tx(alloc, &self.image, tx)?)
            }
            Request::Commit { tx, guard } => self.commit(alloc, tx, *guard),
            Request::CommitAndApply { tx, guard } => self.commit_and_apply(alloc, tx, *guard),
            Request::Set { pairs, guard } => self.set(alloc, pairs.as_slice(), *guard),
            Request::Apply => {
                self.machine.apply(alloc, &self.image)?;
                Ok(Told::Empty)
            }
            Request::ApplyAll => {
                self.machine.apply_all(alloc, &self.image)?;
                Ok(Told::Empty)
            }
            Request::Plan { tx } => self.plan(alloc, tx),
            Request::PlanFile { file, tx } => self.planned_file(alloc, file, tx),
            _ => read(alloc, &self.image, &self.machine, request),
        }
    }

    /// What these bytes are replied where the disk serves; None where they are no whole request yet. The only error is out of memory.
    pub fn reply_to(&mut self, alloc: Global, bytes: &[u8]) -> Result<Option<Reply>, AllocError> {
        match reading_of(alloc, bytes)? {
            Reading::NotYet => Ok(None),
            Reading::Refused { refusal } => Ok(Some(print_refusal(alloc, &refusal)?)),
            Reading::Whole { request, .. } => Ok(Some(self.ask(alloc, &request)?.reply(alloc)?)),
        }
    }
}
