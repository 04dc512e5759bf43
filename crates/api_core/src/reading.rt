//! What the requests that change nothing are answered.
ghost use Rattle.std.specs.Prelude.{◌≡◌, [], IfOk};
ghost use Rattle.std.specs.Option.{option_map};
ghost use Rattle.settings_machine.specs.Requests as machine;
ghost use Rattle.settings_machine.specs.Requests.{Request};
ghost use Rattle.settings_machine.specs.Answers.{below_names};
ghost use Rattle.machine_answers.specs.Replies.{reply_of};
ghost use Rattle.api_core.specs.Plans.{MayMake, IsSoundCore, IsReading, KnowsFiles, Makes, IsQuietIfRefused};
ghost use Rattle.api_core.specs.Prints.{CanPrint};

use crate::Core;
use crate::live_values::{settings_below, texts_of, values_of};
use crate::named_values::{missing_name, named_values};
use crate::nearest::nearest_lists;
use crate::planned::Planned;
use crate::planning::without_effect;
use crate::settings_at::{missing_key, pairs_of, settings_at};
use key_names::{Key, Text};
use machine_answers::{Answer, Body};
use settings_machine::Refusal;
use settings_tree::{Scalar, TxName};
use std::alloc::{AllocError, Global};

// The tree of these values, without so many first segments.
fn tree(skip: usize, pairs: Vec<(Key, Scalar)>) -> Answer
    ensures { result ≡ Answer.Said (Body.Values skip pairs) }
{
    Answer::Said(Body::Values { skip, pairs })
}

impl Core {
    /// A request that changes nothing and is answered so.
    pub(crate) fn plan_reading(&self, alloc: Global, answer: Answer) -> Planned
        requires sound { IsSoundCore self.now }
        requires prints { CanPrint answer }
        ensures may { MayMake self.now result }
        ensures planned { (q : Request) → IsReading self.now q answer → Makes self.now q result }
        ensures files { KnowsFiles self.now result }
        ensures prints { CanPrint result.answer }
        ensures change { result.effect.change ≡ [] }
        ensures quiet { IsQuietIfRefused result }
    {
        without_effect(alloc, answer)
    }

    /// All live values.
    pub(crate) fn root(&self, alloc: Global) -> Result<Answer, AllocError>
        requires sound { IsSoundCore self.now }
        ensures reads { IfOk result (IsReading self.now machine.Root) }
        ensures prints { IfOk result CanPrint }
    {
        let pairs = pairs_of(alloc, self.held.live.values())?;
        Ok(tree(0, pairs))
    }

    /// The names of the operating system.
    pub(crate) fn os_names(&self, alloc: Global) -> Result<Answer, AllocError>
        requires sound { IsSoundCore self.now }
        ensures reads { IfOk result (IsReading self.now machine.OsNames) }
        ensures prints { IfOk result CanPrint }
    {
        Ok(Answer::Said(Body::Texts(texts_of(alloc, self.image.model.os.names())?)))
    }

    /// All live settings.
    pub(crate) fn settings(&self, alloc: Global) -> Result<Answer, AllocError>
        requires sound { IsSoundCore self.now }
        ensures reads { IfOk result (IsReading self.now machine.Settings) }
        ensures prints { IfOk result CanPrint }
    {
        let pairs = values_of(alloc, &self.held.live, b"settings")?;
        Ok(tree(1, pairs))
    }

    /// The live settings that begin with the key.
    pub(crate) fn settings_below(&self, alloc: Global, prefix: &Key) -> Result<Answer, AllocError>
        requires sound { IsSoundCore self.now }
        ensures reads { IfOk result (IsReading self.now (machine.SettingsBelow prefix.now)) }
        ensures prints { IfOk result CanPrint }
    {
        let pairs = settings_below(alloc, &self.held.live, prefix)?;
        Ok(tree(1, pairs))
    }

    /// The live settings at the keys, or the first key at which there is none.
    pub(crate) fn settings_at(&self, alloc: Global, keys: &[Key]) -> Result<Answer, AllocError>
        requires sound { IsSoundCore self.now }
        ensures reads { IfOk result (IsReading self.now (machine.SettingsAt keys.now)) }
        ensures prints { IfOk result CanPrint }
    {
        let live = &self.held.live;
        match missing_key(live, keys) {
            Some(key) => Ok(Answer::Refused(Refusal::NoKey { key: key.copy()? })),
            None => Ok(tree(1, settings_at(alloc, live, keys)?)),
        }
    }

    // What is below a first name, or what is below one of the names there, or the first name below which
    // there is nothing.
    fn below_names(
        &self,
        alloc: Global,
        first: &[u8],
        names: &Option<Vec<Text>>,
    ) -> Result<Answer, AllocError>
        requires sound { IsSoundCore self.now }
        ensures says { IfOk result (λ reply. reply_of reply
            ≡ below_names self.now.held.live.values first.now (option_map (λ names. names.items) names.now)) }
        ensures prints { IfOk result CanPrint }
    {
        let live = &self.held.live;
        let Some(names) = names else {
            let pairs = values_of(alloc, live, first)?;
            return Ok(tree(1, pairs));
        };
        match missing_name(alloc, live, first, names)? {
            Some(name) => Ok(Answer::Refused(Refusal::NoName { name: name.copy()? })),
            None => Ok(tree(1, named_values(alloc, live, first, names)?)),
        }
    }

    /// All services, or those of the names, or the first name that none has.
    pub(crate) fn services(
        &self,
        alloc: Global,
        names: &Option<Vec<Text>>,
    ) -> Result<Answer, AllocError>
        requires sound { IsSoundCore self.now }
        ensures reads { IfOk result (IsReading self.now (machine.Services (option_map (λ names. names.items) names.now))) }
        ensures prints { IfOk result CanPrint }
    {
        self.below_names(alloc, b"services", names)
    }

    /// All configuration files, or those of the names, or the first name that none has.
    pub(crate) fn files(
        &self,
        alloc: Global,
        names: &Option<Vec<Text>>,
    ) -> Result<Answer, AllocError>
        requires sound { IsSoundCore self.now }
        ensures reads { IfOk result (IsReading self.now
            (machine.ConfigurationFiles (option_map (λ names. names.items) names.now))) }
        ensures prints { IfOk result CanPrint }
    {
        self.below_names(alloc, b"configuration-files", names)
    }

    /// The nearest list of services of each of the keys that has one.
    pub(crate) fn affected(&self, alloc: Global, keys: &[Key]) -> Result<Answer, AllocError>
        requires sound { IsSoundCore self.now }
        ensures reads { IfOk result (IsReading self.now (machine.Affected keys.now)) }
        ensures prints { IfOk result CanPrint }
    {
        Ok(Answer::Said(Body::Lists(nearest_lists(alloc, &self.image.manifest, keys)?)))
    }

    /// What is pending in the transaction.
    pub(crate) fn pending(&self, alloc: Global, tx: &TxName) -> Result<Answer, AllocError>
        requires sound { IsSoundCore self.now }
        ensures reads { IfOk result (IsReading self.now (machine.Pends tx.now)) }
        ensures prints { IfOk result CanPrint }
    {
        let pairs = pending_tx::pending(alloc, &self.held, tx)?;
        Ok(Answer::Said(Body::Pairs(pairs)))
    }

    /// The names of the transactions.
    pub(crate) fn tx_list(&self, alloc: Global) -> Result<Answer, AllocError>
        requires sound { IsSoundCore self.now }
        ensures reads { IfOk result (IsReading self.now machine.TxList) }
        ensures prints { IfOk result CanPrint }
    {
        let names = pending_tx::list(alloc, &self.held)?;
        Ok(Answer::Said(Body::Names(names)))
    }

    /// The status of the job, and what is owed.
    pub(crate) fn job_now(&self, alloc: Global) -> Result<Answer, AllocError>
        requires sound { IsSoundCore self.now }
        ensures reads { IfOk result (IsReading self.now machine.JobNow) }
        ensures prints { IfOk result CanPrint }
    {
        let status = self.job.status()?;
        let owed = self.held.owed.copy()?;
        Ok(Answer::Said(Body::Job { status, owed }))
    }
}
