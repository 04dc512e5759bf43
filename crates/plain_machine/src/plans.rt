//! What a job would do, and what a configuration file would be. What they tell is what the machine replies.
ghost use Rattle.std.specs.Prelude.{◌≡◌, IfOk, Ok, Err};
ghost use Rattle.typed_settings.specs.Order.{IsTable};
ghost use Rattle.settings_machine.specs.PlanSeen.{planned_of};
ghost use Rattle.settings_machine.specs.Requests.{Plan as AskPlan, PlanFile, PlanIs, FileIs};
ghost use Rattle.settings_machine.specs.Typed.{IsTypedHeld};
ghost use Rattle.plain_machine.specs.Changes.{after_of, IsFileOver};
ghost use Rattle.plain_machine.specs.Plain.{reply_by};
ghost use Rattle.plain_machine.specs.Steps.{IsAsked};

use crate::after::{After, after_commit};
use crate::image::PlainImage;
use crate::machine::PlainMachine;
use key_names::{Bytes, Text};
use settings_machine::{Plan, Refusal, file_bytes, job_plan};
use settings_tree::{KeyList, LiveView, TxName};
use std::alloc::{AllocError, Global};
use template_eval::RenderError;

// The bytes of the file over these live values, or why its template refuses.
fn file_over(
    alloc: Global,
    image: &PlainImage,
    live: &LiveView<'_>,
    file: &Text,
) -> Result<Result<Bytes, Refusal>, AllocError>
    ensures { IfOk result (IsFileOver image.now live.now file.now) }
{
    match file_bytes(alloc, &image.templates, &image.os, live, file) {
        Ok(bytes) => Ok(Ok(Bytes::of(bytes))),
        Err(RenderError::Memory) => Err(AllocError),
        Err(error) => Ok(Err(Refusal::NotRendered {
            file: file.copy()?,
            error,
        })),
    }
}

impl PlainMachine {
    // What is held, or would be after the commit of the transaction, unless this isn't there.
    fn after(
        &self,
        alloc: Global,
        image: &PlainImage,
        tx: &Option<TxName>,
    ) -> Result<Result<After, Refusal>, AllocError>
        requires table { IsTable image.now.types }
        requires typed { IsTypedHeld image.now.types self.now.held }
        ensures { IfOk result (λ after. after ≡ after_of self.now.held tx.now) }
    {
        let Some(tx) = tx else {
            return Ok(Ok(After {
                held: self.held.copy()?,
                keys: KeyList::new(alloc),
                changed: KeyList::new(alloc),
            }));
        };
        match after_commit(alloc, &image.types, &self.held, tx)? {
            Some(after) => Ok(Ok(after)),
            None => Ok(Err(Refusal::NoPending { tx: tx.copy()? })),
        }
    }

    /// The plan of a job, now or after the commit of the transaction, which is refused with `NoPending` where it isn't there. The
    /// only error is out of memory. It copies all that is held, and takes the time of `pending_tx::commit` and of `job_plan`.
    pub fn plan(
        &self,
        alloc: Global,
        image: &PlainImage,
        tx: &Option<TxName>,
    ) -> Result<Result<Plan, Refusal>, AllocError>
        requires table { IsTable image.now.types }
        requires typed { IsTypedHeld image.now.types self.now.held }
        ensures { IfOk result (λ plan. IsAsked image.now self.now (AskPlan tx.now) self.now (reply_by (λ p. PlanIs (planned_of p)) plan)) }
    {
        match self.after(alloc, image, tx)? {
            Ok(After { held, changed, .. }) => {
                let plan = job_plan(
                    alloc,
                    &image.manifest,
                    &image.templates,
                    &image.os,
                    &LiveView::of(&held.live),
                    held.owed.copy()?,
                    changed,
                )?;
                Ok(Ok(plan))
            }
            Err(refusal) => Ok(Err(refusal)),
        }
    }

    /// The bytes of the configuration file, now or after the commit of the transaction. It is refused with `NoName` where the
    /// image has no such file, else with `NoPending` where the transaction isn't there, and else where its template refuses. The
    /// only error is out of memory. It copies all that is held, and takes the time of `pending_tx::commit` and of `file_bytes`.
    pub fn planned_file(
        &self,
        alloc: Global,
        image: &PlainImage,
        file: &Text,
        tx: &Option<TxName>,
    ) -> Result<Result<Bytes, Refusal>, AllocError>
        requires table { IsTable image.now.types }
        requires typed { IsTypedHeld image.now.types self.now.held }
        ensures { IfOk result (λ bytes. IsAsked image.now self.now (PlanFile file.now tx.now) self.now (reply_by FileIs bytes)) }
    {
        if image.manifest.file(file.as_str().as_bytes()).is_none() {
            return Ok(Err(Refusal::NoName { name: file.copy()? }));
        }
        match self.after(alloc, image, tx)? {
            Ok(after) => file_over(alloc, image, &LiveView::of(&after.held.live), file),
            Err(refusal) => Ok(Err(refusal)),
        }
    }
}
