//! What a job would do, and what a configuration file would be.
ghost use Rattle.std.specs.Prelude.{◌≡◌, IfOk, IsSome};
ghost use Rattle.std.specs.FinMap.{get};
ghost use Rattle.settings_machine.specs.Requests as machine;
ghost use Rattle.api_core.specs.Plans.{IsReading};
ghost use Rattle.api_core.specs.Planning.{PlansOver, RendersOver};
ghost use Rattle.api_core.specs.Prints.{CanPrint};

use crate::Core;
use key_names::{Bytes, Text};
use machine_answers::{Answer, Body};
use pending_tx::{changed_in, owed_with};
use settings_machine::{Refusal, file_bytes, job_plan};
use settings_tree::{KeyList, LiveView, Owed, TxName};
use std::alloc::{AllocError, Global};
use template_eval::RenderError;

// The transaction isn't there.
fn no_pending(tx: &TxName) -> Result<Answer, AllocError>
    ensures { IfOk result (λ answer. answer ≡ Answer.Refused (Refusal.NoPending tx.now)) }
{
    Ok(Answer::Refused(Refusal::NoPending { tx: tx.copy()? }))
}

impl Core {
    // The plan of a job over these live values, where this is owed and these keys are changed before.
    fn plan_over(
        &self,
        alloc: Global,
        live: &LiveView<'_>,
        owed: Owed,
        changed: KeyList,
    ) -> Result<Answer, AllocError>
        ensures plans { IfOk result (PlansOver self.now live.now owed changed) }
        ensures prints { IfOk result CanPrint }
    {
        let image = &self.image;
        let plan = job_plan(
            alloc,
            &image.manifest,
            &image.templates,
            &image.model.os,
            live,
            owed,
            changed,
        )?;
        Ok(Answer::Said(Body::Plan(plan)))
    }

    // The plan after the commit of the transaction, or that it isn't there.
    fn committed_plan(&self, alloc: Global, tx: &TxName) -> Result<Answer, AllocError>
        ensures reads { IfOk result (IsReading self.now (machine.Plan (Some tx.now))) }
        ensures prints { IfOk result CanPrint }
    {
        let Some(keys) = self.held.pending.keys(tx) else {
            return no_pending(tx);
        };
        let changed = changed_in(alloc, &self.held, keys)?;
        let owed = owed_with(&self.held.owed, &changed)?;
        let live = LiveView::over(&self.held.live, keys);
        self.plan_over(alloc, &live, owed, changed)
    }

    /// The plan of a job, now or after the commit of a transaction.
    pub(crate) fn job_plan(&self, alloc: Global, tx: &Option<TxName>) -> Result<Answer, AllocError>
        ensures reads { IfOk result (IsReading self.now (machine.Plan tx.now)) }
        ensures prints { IfOk result CanPrint }
    {
        match tx {
            Some(tx) => self.committed_plan(alloc, tx),
            None => {
                let owed = self.held.owed.copy()?;
                let live = LiveView::of(&self.held.live);
                self.plan_over(alloc, &live, owed, KeyList::new(alloc))
            }
        }
    }

    // The file as it renders over these live values, or why its template refuses.
    fn rendered(
        &self,
        alloc: Global,
        live: &LiveView<'_>,
        file: &Text,
    ) -> Result<Answer, AllocError>
        ensures renders { IfOk result (RendersOver self.now live.now file.now) }
        ensures prints { IfOk result CanPrint }
    {
        match file_bytes(
            alloc,
            &self.image.templates,
            &self.image.model.os,
            live,
            file,
        ) {
            Ok(bytes) => Ok(Answer::File(Bytes::of(bytes))),
            Err(RenderError::Memory) => Err(AllocError),
            Err(error) => Ok(Answer::Refused(Refusal::NotRendered {
                file: file.copy()?,
                error,
            })),
        }
    }

    // The file after the commit of the transaction, or that this isn't there.
    fn committed_file(&self, alloc: Global, file: &Text, tx: &TxName) -> Result<Answer, AllocError>
        requires { IsSome (get self.now.image.manifest.files file.now) }
        ensures reads { IfOk result (IsReading self.now (machine.PlanFile file.now (Some tx.now))) }
        ensures prints { IfOk result CanPrint }
    {
        match self.held.pending.keys(tx) {
            Some(keys) => self.rendered(alloc, &LiveView::over(&self.held.live, keys), file),
            None => no_pending(tx),
        }
    }

    /// A configuration file, now or after the commit of a transaction.
    pub(crate) fn planned_file(
        &self,
        alloc: Global,
        file: &Text,
        tx: &Option<TxName>,
    ) -> Result<Answer, AllocError>
        ensures reads { IfOk result (IsReading self.now (machine.PlanFile file.now tx.now)) }
        ensures prints { IfOk result CanPrint }
    {
        if self.image.manifest.file(file.as_str().as_bytes()).is_none() {
            return Ok(Answer::Refused(Refusal::NoName { name: file.copy()? }));
        }
        match tx {
            Some(tx) => self.committed_file(alloc, file, tx),
            None => self.rendered(alloc, &LiveView::of(&self.held.live), file),
        }
    }

    /// The version of the store, and a copy of all that it holds.
    pub(crate) fn store(&self) -> Result<Answer, AllocError>
        ensures reads { IfOk result (IsReading self.now machine.Store) }
        ensures prints { IfOk result CanPrint }
    {
        let held = self.held.copy()?;
        Ok(Answer::Said(Body::Store {
            version: self.place.version,
            held,
        }))
    }
}
