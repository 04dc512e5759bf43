//! What a request comes to.
ghost use Rattle.std.specs.Prelude.{◌≡◌, [], true, false, IfOk};
ghost use Rattle.settings_machine.specs.Asked.{request_of};
ghost use Rattle.settings_machine.specs.Requests.{IsProper, is_reading, reads_files};
ghost use Rattle.settings_tree.specs.Laid.{KeepsPrefixRule};
ghost use Rattle.typed_settings.specs.Row.{IsPrefixFree};
ghost use Rattle.machine_answers.specs.Replies.{MayPrint};
ghost use Rattle.api_core.specs.Cores.{IsSound};
ghost use Rattle.api_core.specs.Plans.{MayMake, KnowsFiles, Makes, IsQuietIfRefused, MayCommit, Plans, Replies};
ghost use Rattle.api_core.specs.Prints.{CanPrint};

use crate::Core;
use crate::planned::Planned;
use crate::printable::may_print;
use opening_step::keep_rule;
use settings_machine::{Guard, Request};
use settings_tree::Held;
use std::alloc::{AllocError, Global};
use typed_settings::Types;

// What is held keeps the prefix rule, and no known key begins with another. It does nothing.
fn keep_rules(types: &Types, held: &Held)
    ensures held { KeepsPrefixRule held.now }
    ensures types { IsPrefixFree types.now }
{
    types.len();
    keep_rule(held);
}

impl Core {
    // The same as `plan`, but for a value at the root of a tree.
    fn make(&self, alloc: Global, request: &Request) -> Result<Planned, AllocError>
        requires sound { IsSound self.now }
        requires proper { IsProper (request_of request.now) }
        requires plannable { reads_files (request_of request.now) ≡ false }
        ensures may { IfOk result (MayMake self.now) }
        ensures planned { IfOk result (Makes self.now (request_of request.now)) }
        ensures files { IfOk result (KnowsFiles self.now) }
        ensures prints { IfOk result (λ planned. CanPrint planned.answer) }
        ensures quiet { IfOk result IsQuietIfRefused }
        ensures reading { is_reading (request_of request.now) ≡ true → IfOk result (λ planned. planned.effect.change ≡ []) }
    {
        keep_rules(&self.image.model.types, &self.held);
        match request {
            Request::Root => Ok(self.plan_reading(alloc, self.root(alloc)?)),
            Request::OsNames => Ok(self.plan_reading(alloc, self.os_names(alloc)?)),
            Request::Settings => Ok(self.plan_reading(alloc, self.settings(alloc)?)),
            Request::SettingsAt { keys } => {
                Ok(self.plan_reading(alloc, self.settings_at(alloc, keys)?))
            }
            Request::SettingsBelow { key } => {
                Ok(self.plan_reading(alloc, self.settings_below(alloc, key)?))
            }
            Request::Patch { tx, pairs } => self.plan_patch(alloc, tx, pairs.as_slice()),
            Request::Services { names } => {
                Ok(self.plan_reading(alloc, self.services(alloc, names)?))
            }
            Request::ConfigurationFiles { names } => {
                Ok(self.plan_reading(alloc, self.files(alloc, names)?))
            }
            Request::Affected { keys } => {
                Ok(self.plan_reading(alloc, self.affected(alloc, keys)?))
            }
            Request::Pends { tx } => Ok(self.plan_reading(alloc, self.pending(alloc, tx)?)),
            Request::DropTx { tx } => self.plan_drop(alloc, tx),
            Request::TxList => Ok(self.plan_reading(alloc, self.tx_list(alloc)?)),
            Request::Commit { tx, guard } => match guard {
                Guard::Off => self.plan_commit(alloc, tx),
                Guard::Render => self.plan_guarded_commit(alloc, tx),
            },
            Request::Apply => self.plan_apply(alloc),
            Request::CommitAndApply { tx, guard } => match guard {
                Guard::Off => self.plan_commit_and_apply(alloc, tx),
                Guard::Render => self.plan_guarded_commit_and_apply(alloc, tx),
            },
            Request::JobNow => Ok(self.plan_reading(alloc, self.job_now(alloc)?)),
            Request::Set { pairs, guard } => match guard {
                Guard::Off => self.plan_set(alloc, pairs.as_slice()),
                Guard::Render => self.plan_guarded_set(alloc, pairs.as_slice()),
            },
            Request::ApplyAll => self.plan_apply_all(alloc),
            Request::Plan { tx } => Ok(self.plan_reading(alloc, self.job_plan(alloc, tx)?)),
            Request::PlanFile { file, tx } => {
                Ok(self.plan_reading(alloc, self.planned_file(alloc, file, tx)?))
            }
            Request::Store => Ok(self.plan_reading(alloc, self.store()?)),
            Request::Verify => unreachable!(),
        }
    }

    /// What the machine makes of a request: what it answers, and what the request does to the core once it is committed. Nothing
    /// changes. No call of the disk has failed since the last opening, each key of a `Patch` or a `Set` begins with
    /// `settings`, and the request is none that reads the configuration files: that is `verify`.
    ///
    /// The only error is out of memory. It takes a logarithmic step or two for each value, key and name that is answered or changed.
    pub fn plan(&self, alloc: Global, request: &Request) -> Result<Planned, AllocError>
        requires sound { IsSound self.now }
        requires proper { IsProper (request_of request.now) }
        requires plannable { reads_files (request_of request.now) ≡ false }
        ensures planned { IfOk result (λ planned. Plans self.now (request_of request.now) planned.answer planned.effect) }
        ensures replies { IfOk result (λ planned. Replies self.now (request_of request.now) planned.answer) }
        ensures may { IfOk result (λ planned. MayCommit self.now planned.effect) }
        ensures prints { IfOk result (λ planned. MayPrint planned.answer) }

        // A refused request and a reading change nothing that is held, so nothing is written for them.
        ensures quiet { IfOk result IsQuietIfRefused }
        ensures reading { is_reading (request_of request.now) ≡ true → IfOk result (λ planned. planned.effect.change ≡ []) }
    {
        let planned = self.make(alloc, request)?;
        if !may_print(&planned.answer) {
            // No store has a value at the root of such a tree.
            return Err(AllocError);
        }
        Ok(planned)
    }
}
