//! The states of configuration files. What they tell is what the machine replies.
ghost use Rattle.std.specs.FinMap.{get};
ghost use Rattle.std.specs.Option.{option_copied};
ghost use Rattle.std.specs.Prelude.{◌≡◌, IfOk};
ghost use Rattle.settings_machine.specs.Requests.{Verify, StatesAre, Said};
ghost use Rattle.plain_machine.specs.Steps.{IsAsked};
ghost use Rattle.plain_machine.specs.Verified.{due_by, IsVerifiedBy};
ghost use Rattle.plain_machine.specs.Worlds.{files_by_path};

use crate::image::PlainImage;
use crate::machine::PlainMachine;
use key_names::Text;
use outside::Path;
use settings_machine::{VerifiedFile, file_state, marked_files, path_of};
use settings_tree::{LiveView, Owed};
use std::alloc::{AllocError, Global};

impl PlainMachine {
    // What is due.
    fn due(&self, image: &PlainImage) -> Result<Owed, AllocError>
        ensures { IfOk result (λ owed. owed ≡ due_by image.now.text self.now.held) }
    {
        if self.held.image.as_slice() == image.text.as_slice() {
            self.held.owed.copy()
        } else {
            Ok(Owed::All)
        }
    }

    // The bytes at the path.
    #[tactic(auto, using(crate::proofs::PathMaps::path_maps))]
    fn found(&self, path: &Path) -> Option<&[u8]>
        ensures { option_copied result ≡ get (files_by_path self.now.etc) path.now }
    {
        self.etc.get(path).map(|bytes| bytes.as_slice())
    }

    // The file with its path and its state.
    fn verified(
        &self,
        alloc: Global,
        image: &PlainImage,
        file: Text,
        is_due: bool,
    ) -> Result<VerifiedFile, AllocError>
        ensures { IfOk result (IsVerifiedBy image.now self.now (file, is_due)) }
    {
        let path = path_of(alloc, &image.manifest, &file)?;
        let state = file_state(
            alloc,
            &image.templates,
            &image.os,
            &LiveView::of(&self.held.live),
            &file,
            self.found(&path),
            is_due,
        )?;
        Ok(VerifiedFile {
            name: file,
            path,
            state,
        })
    }

    /// The state of each configuration file, by name. The only error is out of memory. It takes the time of rendering each, and the
    /// memory of one at a time.
    pub fn verify(&self, alloc: Global, image: &PlainImage) -> Result<Vec<VerifiedFile>, AllocError>
        ensures { IfOk result (λ files. IsAsked image.now self.now Verify self.now (Said (StatesAre files.items))) }
    {
        let due = self.due(image)?;
        let mut files = Vec::new(alloc);
        for (file, is_due) in marked_files(alloc, &image.manifest, &due)? {
            files.push(self.verified(alloc, image, file, is_due)?)?;
        }
        Ok(files)
    }
}
