//! Why a content makes no manifest.

use key_names::{Key, Text};
use std::alloc::{AllocError, AllocFailed};

/// Why a content makes no manifest.
#[derive(Debug, Drop)]
pub enum ManifestError {
    /// The file's path or its template's path is missing.
    Incomplete {
        /// The file.
        file: Text,
    },
    /// The file's path is no path below the folder `etc`, or its template's path isn't one of 1 to 38
    /// names.
    BadPath {
        /// The file.
        file: Text,
    },
    /// Both files have one path.
    SamePath {
        /// The lesser file, by name.
        first: Text,
        /// The greater file.
        second: Text,
    },
    /// One of the files' paths is strictly below the other's.
    NestedPath {
        /// The lesser file, by name.
        first: Text,
        /// The greater file.
        second: Text,
    },
    /// The service lists a file that isn't there.
    UnknownFile {
        /// The service.
        service: Text,
        /// The file.
        file: Text,
    },
    /// A restart command of the service has no word.
    EmptyCommand {
        /// The service.
        service: Text,
        /// The command's place in the service's list, counted from 0.
        index: usize,
    },
    /// The metadata `affected-services` of the key isn't a list of texts.
    BadMeta {
        /// The key.
        key: Key,
    },
    /// The metadata `affected-services` of the key lists a service that isn't there.
    UnknownService {
        /// The key.
        key: Key,
        /// The service.
        service: Text,
    },
    /// Out of memory. It says nothing of the content.
    Memory,
}

impl From<AllocError> for ManifestError {
    ghost use Rattle.std.specs.Prelude.{◌≡◌};
    ghost use Rattle.metadata_links.specs.declared.manifest_error.ManifestError.TheVariants.{Memory};

    ghost from_gives = { λ _ e. e ≡ Memory };

    fn from(_: AllocError) -> Self {
        ManifestError::Memory
    }
}

impl<T: Drop> From<AllocFailed<T>> for ManifestError {
    ghost use Rattle.std.specs.Prelude.{◌≡◌};
    ghost use Rattle.metadata_links.specs.declared.manifest_error.ManifestError.TheVariants.{Memory};

    ghost from_gives = { λ _ e. e ≡ Memory };

    fn from(_: AllocFailed<T>) -> Self {
        ManifestError::Memory
    }
}
