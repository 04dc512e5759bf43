//! The requests that begin a job. What each tells is what the machine replies.
ghost use Rattle.std.specs.Prelude.{◌≡◌, List, IfOk, OnOk, OnErr, None, Err};
ghost use Rattle.std.specs.FinMap.{get};
ghost use Rattle.plain_machine.specs.Plain.{keys_reply, missing_reply};
ghost use Rattle.settings_machine.specs.Requests.{Apply, ApplyAll, CommitAndApply, Empty};
ghost use Rattle.settings_machine.specs.Typed.{IsTypedHeld};
ghost use Rattle.pending_tx.specs.declared.answers.CommitError.TheVariants.{NoPending as Missing};
ghost use Rattle.typed_settings.specs.Order.{IsTable};
ghost use Rattle.typed_settings.specs.declared.row.Row.{Row};
ghost use Rattle.plain_machine.specs.Steps.{IsAsked};
ghost use Rattle.plain_machine.specs.Worlds.{world_of};

use crate::image::PlainImage;
use crate::job_steps::{next_job, note, noted, take_up};
use crate::machine::PlainMachine;
use crate::pending::keep_rule;
use pending_tx::CommitError;
use settings_machine::apply;
use settings_tree::{KeyList, Owed, TxName};
use std::alloc::{AllocError, Global};

impl PlainMachine {
    /// What is owed is to be paid: a job begins where none runs, and a running one is asked for again; where nothing is
    /// owed the job is idle. The only error is out of memory, which leaves the machine as it was. It takes the time of
    /// `settings_machine::apply`.
    pub fn apply(&mut self, alloc: Global, image: &PlainImage) -> Result<(), AllocError>
        ensures asked { OnOk result (IsAsked image.now self.old Apply self.new Empty) }
        ensures held { self.new.held ≡ self.old.held }
        ensures unchanged { OnErr result (world_of self.new ≡ world_of self.old) }
    {
        apply(alloc, &image.manifest, &self.held.owed, &mut self.job)
    }

    /// All is owed from then on and is to be paid: a job begins where none runs, and a running one is asked for again. The only
    /// error is out of memory, which leaves the machine as it was. It takes the time of `settings_machine::apply`.
    pub fn apply_all(&mut self, alloc: Global, image: &PlainImage) -> Result<(), AllocError>
        ensures asked { OnOk result (IsAsked image.now self.old ApplyAll self.new Empty) }
        ensures typed { (types : List Row) → IsTypedHeld types self.old.held → IsTypedHeld types self.new.held }
        ensures unchanged { OnErr result (world_of self.new ≡ world_of self.old) }
    {
        apply(alloc, &image.manifest, &Owed::All, &mut self.job)?;
        self.held.owed = Owed::All;
        Ok(())
    }

    /// Commits the transaction and then applies, as one request, and tells the transaction's keys. `NoPending` comes
    /// exactly where there is no such transaction. After an error the machine is as it was. It takes the time of both.
    pub fn commit_and_apply(
        &mut self,
        alloc: Global,
        image: &PlainImage,
        tx: &TxName,
    ) -> Result<KeyList, CommitError>
        requires table { IsTable image.now.types }
        requires typed { IsTypedHeld image.now.types self.old.held }
        ensures asked { IfOk result (λ keys. IsAsked image.now self.old (CommitAndApply tx.now) self.new (keys_reply keys)) }
        ensures refused { get self.old.held.pending tx.now ≡ None → result ≡ Err Missing }
        ensures exact { result ≡ Err Missing → get self.old.held.pending tx.now ≡ None }
        ensures missing { result ≡ Err Missing → IsAsked image.now self.old (CommitAndApply tx.now) self.new (missing_reply tx.now) }
        ensures typed { IsTypedHeld image.now.types self.new.held }
        ensures unchanged { OnErr result (world_of self.new ≡ world_of self.old) }
    {
        let commit = pending_tx::commit(alloc, &self.held, tx)?;
        let since = noted(alloc, &self.job, &commit.changed)?;
        let owed = self.held.owed_after(&commit.change);
        let next = next_job(alloc, &image.manifest, owed, &self.job)?;
        keep_rule(&self.held);
        self.held.lay(commit.change)?;
        note(&mut self.job, since);
        take_up(&mut self.job, next);
        Ok(commit.keys)
    }
}
