//! The opening step.
ghost use Rattle.std.specs.Prelude.{◌≡◌, OnOk, OnErr};
ghost use Rattle.model_file.specs.Model.{AreTyped};
ghost use Rattle.opening_step.specs.Step.{AreSettings};
ghost use Rattle.settings_machine.specs.Typed.{IsTypedHeld};
ghost use Rattle.typed_settings.specs.Order.{IsTable};
ghost use Rattle.plain_machine.specs.Openings.{IsOpened, IsStepped, is_taken};
ghost use Rattle.plain_machine.specs.Worlds.{world_of};

use crate::image::PlainImage;
use crate::job_steps::{note, noted};
use crate::machine::PlainMachine;
use crate::opening_answer::OpeningAnswer;
use opening_step::{added_keys, opening_change};
use std::alloc::{AllocError, Global};

// Whether the opening step is taken.
fn is_taken(answer: &OpeningAnswer) -> bool
    ensures { result ≡ is_taken answer.now }
{
    match answer {
        OpeningAnswer::Succeeded => true,
        OpeningAnswer::Failing { taken } => *taken,
    }
}

impl PlainMachine {
    // The step is taken, and a running job notes the keys that it adds.
    fn take_step(&mut self, alloc: Global, image: &PlainImage, boot: bool) -> Result<(), AllocError>
        requires table { IsTable image.now.types }
        requires defaults { AreTyped image.now.types image.now.defaults.values }
        requires settings { AreSettings image.now.defaults.values }
        requires typed { IsTypedHeld image.now.types self.old.held }
        ensures stepped { OnOk result (IsStepped image.now self.old boot self.new) }
        ensures typed { IsTypedHeld image.now.types self.new.held }
        ensures unchanged { OnErr result (world_of self.new ≡ world_of self.old) }
    {
        let added = added_keys(alloc, &image.defaults, &self.held.live)?;
        let since = noted(alloc, &self.job, &added)?;
        let change = opening_change(alloc, boot, &image.defaults, &image.text, &self.held)?;
        self.held.lay(change)?;
        note(&mut self.job, since);
        Ok(())
    }

    /// Opens the store, at a boot or later, with what the outside lets it come to: services, files and metadata become the
    /// image's, each default setting without a live value is added and weak, its key is owed, and all is owed at a boot and
    /// where another image's text was stored; the image's text is stored. A failed opening makes this step or nothing. The
    /// only error is out of memory, which leaves the machine as it was. It takes a logarithmic step for each value and each
    /// metadata of the defaults and of what is held.
    pub fn open_store(
        &mut self,
        alloc: Global,
        image: &PlainImage,
        boot: bool,
        answer: OpeningAnswer,
    ) -> Result<(), AllocError>
        requires table { IsTable image.now.types }
        requires defaults { AreTyped image.now.types image.now.defaults.values }
        requires settings { AreSettings image.now.defaults.values }
        requires typed { IsTypedHeld image.now.types self.old.held }
        ensures opened { OnOk result (IsOpened image.now self.old boot answer self.new) }
        ensures typed { IsTypedHeld image.now.types self.new.held }
        ensures unchanged { OnErr result (world_of self.new ≡ world_of self.old) }
    {
        if !is_taken(&answer) {
            return Ok(());
        }
        self.take_step(alloc, image, boot)
    }
}
