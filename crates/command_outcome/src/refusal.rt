//! Why a command is refused.

use key_names::{Bytes, Key, Text};
use outside::{DiskErr, Failed, Path};
use std::alloc::{AllocError, AllocFailed};
use template_eval::RenderError;
use version_links::Version;

/// Why a command is refused.
#[derive(Debug, Drop)]
pub enum Refusal {
    /// 1: it ran out of memory. It says nothing of the words or the devices.
    Memory,
    /// 2: the words spell no command.
    Usage,
    /// 3: the disk failed: its count of faults rose.
    Disk,
    /// 4: no connection could be accepted: the door's count of faults rose.
    Door,
    /// 5: a program could not be asked: the spawner's count of faults rose.
    Spawn {
        /// What the program is for.
        name: Text,
    },
    /// 6: there is no store: `store/current` is no link.
    NoStore,
    /// 7: a file of the store isn't of its form.
    Damaged {
        /// The first path that is at fault.
        path: Path,
    },
    /// 7: a link of the store is missing, or its text is not of its form.
    BadLink {
        /// Where the link is, or should be.
        path: Path,
    },
    /// 7: the file `journal` is outside its grammar.
    BadJournal {
        /// Where the file is.
        path: Path,
    },
    /// 8: the files below `image` make no image.
    BadImage {
        /// The first file at fault, by its name below `image`.
        file: Text,
        /// The kind of its fault.
        kind: Text,
        /// Where the fault is.
        at: Text,
    },
    /// 8: a stored value doesn't fit the types of the image.
    IllTyped {
        /// Its key.
        key: Key,
    },
    /// 8: the store holds values that the types of the image refuse.
    HoldsIllTyped {
        /// The lines that tell of the image and the store.
        lines: Bytes,
    },
    /// 9: not each configuration file of the image is covered.
    NotCovered {
        /// The lines that tell of each file.
        lines: Bytes,
    },
    /// 10: a configuration file could not be rendered.
    Render {
        /// The name of the file.
        file: Text,
        /// Why its template refused.
        error: RenderError,
    },
    /// 10: configuration files could not be rendered from what the store holds.
    WouldNotRender {
        /// The lines that tell of the image and the store.
        lines: Bytes,
    },
    /// 10: a restart command ended with another status than 0.
    Status {
        /// The service that it restarts.
        service: Text,
        /// The status.
        number: u16,
    },
    /// 11: no transition of the release leads on.
    Missing {
        /// The version where the chain ends.
        at: Version,
        /// The version where it should lead.
        target: Version,
    },
    /// 11: a migration would leave a key that is a proper prefix of another.
    Conflict {
        /// The least such key.
        key: Key,
    },
    /// 13: the machine refuses what is asked for.
    Refused(settings_machine::Refusal),
    /// 14: a store is there already.
    AlreadyThere {
        /// The version that its links lead to.
        version: Version,
    },
    /// 15: the store is of format 1.
    OldFormat {
        /// Its data directory.
        directory: Path,
    },
    /// 16: the program of a generator ended with another status than 0.
    GeneratorStatus {
        /// The key of the setting that it gives.
        key: Key,
        /// The status.
        number: u16,
    },
    /// 16: the program of a generator gave no value.
    GeneratorOutput {
        /// The key of the setting that it should give.
        key: Key,
    },
    /// 17: the file of user data is missing, or has a fault.
    UserData {
        /// The kind of its fault.
        kind: Text,
        /// Where the fault is.
        at: Text,
    },
    /// 17: the file of a dump is missing, or has a fault.
    Dump {
        /// The kind of its fault.
        kind: Text,
        /// Where the fault is.
        at: Text,
    },
    /// 18: the program of a migration ended with another status than 0.
    MigrationStatus {
        /// The migration.
        name: Text,
        /// The status.
        number: u16,
    },
    /// 18: the program of a migration gave no state that may follow.
    MigrationOutput {
        /// The migration.
        name: Text,
    },
    /// 19: not each configuration file is what its template renders to, or owed.
    NotCurrent {
        /// The lines that tell of each file.
        lines: Bytes,
    },
}

impl From<AllocError> for Refusal {
    ghost use Rattle.std.specs.Prelude.{◌≡◌};
    ghost use Rattle.command_outcome.specs.declared.refusal.Refusal.TheVariants.{Memory};

    ghost from_gives = { λ _ e. e ≡ Memory };

    fn from(_: AllocError) -> Self {
        Refusal::Memory
    }
}

impl<T: Drop> From<AllocFailed<T>> for Refusal {
    ghost use Rattle.std.specs.Prelude.{◌≡◌};
    ghost use Rattle.command_outcome.specs.declared.refusal.Refusal.TheVariants.{Memory};

    ghost from_gives = { λ _ e. e ≡ Memory };

    fn from(_: AllocFailed<T>) -> Self {
        Refusal::Memory
    }
}

impl From<Failed> for Refusal {
    ghost use Rattle.std.specs.Prelude.{◌≡◌};
    ghost use Rattle.command_outcome.specs.declared.refusal.Refusal.TheVariants.{Disk};

    ghost from_gives = { λ _ e. e ≡ Disk };

    fn from(_: Failed) -> Self {
        Refusal::Disk
    }
}

impl From<DiskErr> for Refusal {
    ghost use Rattle.outside.specs.Faults.{HandsOn};
    ghost use Rattle.command_outcome.specs.declared.refusal.Refusal.TheVariants as refused;

    ghost from_gives = { HandsOn refused.Disk refused.Memory };

    fn from(error: DiskErr) -> Self {
        match error {
            DiskErr::Failed => Refusal::Disk,
            DiskErr::Memory => Refusal::Memory,
        }
    }
}
