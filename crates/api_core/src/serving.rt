//! The core.
ghost use Rattle.std.specs.Prelude.{◌≡◌, false};
ghost use Rattle.settings_machine.specs.World.{Idle};
ghost use Rattle.store_open.specs.Opening.{IsSoundOpened};
ghost use Rattle.affected_apply.specs.Jobs.{job_of};
ghost use Rattle.api_core.specs.Cores.{IsSound, core_state};

use affected_apply::JobState;
use settings_tree::Held;
use store_image::Image;
use store_open::Opened;
use version_links::{Place, Version};

/// An opened store, with a job.
#[derive(Drop)]
pub struct Core {
    pub(crate) place: Place,
    pub(crate) held: Held,
    pub(crate) image: Image,
    pub(crate) job: JobState,
    // From a failed call of the disk until an opening has succeeded.
    pub(crate) faulted: bool,
}

impl Core {
    /// A core over an opened store. No job runs. It takes no memory.
    pub fn new(store: Opened) -> Core
        requires { IsSoundOpened store }
        ensures state { core_state result
            ≡ record { place = store.place; held = store.held; job = Idle; faulted = false } }
        ensures image { result.image ≡ store.image }
        ensures sound { IsSound result }
    {
        let Opened { place, held, image } = store;
        Core {
            place,
            held,
            image,
            job: JobState::Idle,
            faulted: false,
        }
    }

    /// What is held. From a failed call of the disk until an opening has succeeded it may be another than what is
    /// stored.
    pub fn held(&self) -> &Held
        ensures { result.now ≡ (core_state self.now).held }
    {
        &self.held
    }

    /// The version of the store.
    pub fn version(&self) -> Version
        ensures { result ≡ (core_state self.now).place.version }
    {
        self.place.version
    }

    /// The job.
    pub fn job(&self) -> &JobState
        ensures { job_of result.now ≡ (core_state self.now).job }
    {
        &self.job
    }

    /// The image.
    pub fn image(&self) -> &Image
        ensures { result.now ≡ self.now.image }
    {
        &self.image
    }

    /// Whether a call of the disk has failed, in a request or in a turn, and no opening has succeeded since.
    pub fn faulted(&self) -> bool
        ensures { result ≡ (core_state self.now).faulted }
    {
        self.faulted
    }
}
