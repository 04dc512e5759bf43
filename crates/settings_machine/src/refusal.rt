//! Why the machine refuses a request.
ghost use Rattle.std.specs.Prelude.{◌≡◌};
ghost use Rattle.settings_machine.specs.Requests.{refusal_status};

use key_names::{Key, Text};
use settings_tree::TxName;
use template_eval::RenderError;

/// Why the machine refuses a request, which then changes nothing.
#[derive(Debug, Drop)]
pub enum Refusal {
    /// The types refuse the value or the removal at a key.
    BadType {
        /// The first such key.
        key: Key,
        /// The type word that is wanted there, `nothing` where no row matches the key.
        wanted: Text,
    },
    /// No live setting has the key.
    NoKey {
        /// The key.
        key: Key,
    },
    /// No service or configuration file has the name.
    NoName {
        /// The name.
        name: Text,
    },
    /// There is no such transaction.
    NoPending {
        /// The transaction.
        tx: TxName,
    },
    /// The template of a configuration file refuses.
    NotRendered {
        /// The name of the file.
        file: Text,
        /// Why it refuses, and where.
        error: RenderError,
    },
}

impl Refusal {
    /// The HTTP status by which it is reported to a client: 400, 404 or 422 (RFC 9110). It takes no memory.
    pub fn status(&self) -> u16
        ensures { result ≡ refusal_status self.now }
    {
        match self {
            Refusal::BadType { .. } => 400,
            Refusal::NoKey { .. } | Refusal::NoName { .. } => 404,
            Refusal::NoPending { .. } | Refusal::NotRendered { .. } => 422,
        }
    }
}
