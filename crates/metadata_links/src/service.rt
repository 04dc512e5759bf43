//! Services.

use crate::texts::Texts;

/// What a service lists.
#[derive(Debug, Drop)]
pub struct Service {
    /// Its configuration files.
    pub files: Texts,
    /// Its restart commands.
    pub commands: Texts,
}

impl Service {
    ghost use Rattle.std.specs.Prelude.{◌≡◌};
    ghost use Rattle.metadata_links.specs.Faults.{has_name};

    /// Whether the service lists the file. It takes no memory.
    pub fn lists(&self, file: &[u8]) -> bool
        ensures { result ≡ has_name self.now.files file.now }
    {
        self.files
            .as_slice()
            .iter()
            .any(|name| file.cmp(name.as_str().as_bytes()).is_eq())
    }
}
