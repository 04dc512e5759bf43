//! The states of the configuration files are read, and then printed.
ghost use Rattle.std.specs.Prelude.{◌≡◌, ◌≢◌, IfOk, false};
ghost use Rattle.outside.specs.Told.{Moves};
ghost use Rattle.settings_machine.specs.Requests.{Said, StatesAre, Verify};
ghost use Rattle.api_http.specs.Says.{Says};
ghost use Rattle.api_core.specs.Cores.{IsSound, core_state};
ghost use Rattle.api_server.specs.Handled.{Answers, IsNotOpened, HasDiskCause};

use crate::handled::Handled;
use api_core::Core;
use api_http::{Reply, print_answer};
use machine_answers::{Answer, Body};
use outside::{Disk, DiskErr};
use settings_machine::VerifiedFile;
use std::alloc::{AllocError, Global};

// The reply that says the states of the files. The only error is out of memory.
fn states_reply(alloc: Global, files: Vec<VerifiedFile>) -> Result<Reply, AllocError>
    ensures { IfOk result (Says (Said (StatesAre files.items))) }
{
    print_answer(alloc, &Answer::Said(Body::States(files)))
}

/// Handles the request for the states of the configuration files, where no call of the disk has failed: they are read, and then
/// printed. Nothing is written.
pub(crate) fn verify<D: Disk>(alloc: Global, core: &mut Core, disk: &mut D) -> Handled
    requires calm { (core_state core.old).faulted ≡ false }
    requires sound { IsSound core.old }
    ensures answers { Moves (D.told disk.old) (D.told disk.new) (Answers core.old Verify result core.new) }
    ensures sound { IsSound core.new }
    ensures image { core.new.image ≡ core.old.image }
    ensures calm { result ≢ Handled.DiskFault → (core_state core.new).faulted ≡ false }
    ensures opened { IsNotOpened result → ⊥ }
    ensures same { D.told disk.new ≡ D.told disk.old }
    ensures cause { HasDiskCause (D.faults disk.old) (D.faults disk.new) result }
{
    match core.verify(alloc, disk) {
        Ok(files) => match states_reply(alloc, files) {
            Ok(reply) => Handled::Answered(reply),
            Err(_) => Handled::Memory,
        },
        Err(DiskErr::Failed) => Handled::DiskFault,
        Err(DiskErr::Memory) => Handled::Memory,
    }
}
