//! Requests of the machine.

use key_names::{Key, Text};
use settings_tree::{Pending, TxName};

/// What a change is refused for, besides what it is always refused for.
#[derive(Clone, Copy, Debug, Drop)]
pub enum Guard {
    /// Nothing.
    Off,
    /// The template of a file would refuse that reads one of the settings which the change changes.
    Render,
}

/// What a client asks of the machine.
///
/// Lists are as they were given: a key or a name that was given twice is there twice. Calls that take a request want each key of
/// a `Patch` and of a `Set` to begin with `settings`.
#[derive(Debug, Drop)]
pub enum Request {
    /// The tree of all live values.
    Root,
    /// The names of the operating system.
    OsNames,
    /// All live settings.
    Settings,
    /// The live settings with these keys, each of which is to have a live value.
    SettingsAt {
        /// The keys.
        keys: Vec<Key>,
    },
    /// The live settings whose keys are this one or begin with it.
    SettingsBelow {
        /// The key.
        key: Key,
    },
    /// The pairs are to be pending in the transaction.
    Patch {
        /// The transaction.
        tx: TxName,
        /// The pairs, rising by key; a removal is `Pending::Gone`.
        pairs: Vec<(Key, Pending)>,
    },
    /// The services with these names, or all.
    Services {
        /// The names.
        names: Option<Vec<Text>>,
    },
    /// The configuration files with these names, or all.
    ConfigurationFiles {
        /// The names.
        names: Option<Vec<Text>>,
    },
    /// The services that these keys affect.
    Affected {
        /// The keys.
        keys: Vec<Key>,
    },
    /// What is pending in the transaction.
    Pends {
        /// The transaction.
        tx: TxName,
    },
    /// The end of the transaction, without its changes.
    DropTx {
        /// The transaction.
        tx: TxName,
    },
    /// The names of the transactions.
    TxList,
    /// The commit of the transaction.
    Commit {
        /// The transaction.
        tx: TxName,
        /// When it is refused.
        guard: Guard,
    },
    /// A job that writes the files and restarts the services that are owed.
    Apply,
    /// The commit of the transaction, and then the job.
    CommitAndApply {
        /// The transaction.
        tx: TxName,
        /// When it is refused.
        guard: Guard,
    },
    /// The status of the job, and the keys that are owed.
    JobNow,
    /// The pairs are to be live at once, and then the job.
    Set {
        /// The pairs, rising by key; a removal is `Pending::Gone`.
        pairs: Vec<(Key, Pending)>,
        /// When it is refused.
        guard: Guard,
    },
    /// All is to be owed, and then the job.
    ApplyAll,
    /// What a job would do.
    Plan {
        /// After the commit of this transaction, or now.
        tx: Option<TxName>,
    },
    /// What a configuration file would be.
    PlanFile {
        /// Its name.
        file: Text,
        /// After the commit of this transaction, or now.
        tx: Option<TxName>,
    },
    /// The version of the store, and all that it holds.
    Store,
    /// The state of each configuration file.
    Verify,
}
