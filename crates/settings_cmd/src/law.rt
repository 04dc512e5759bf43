//! What commands make of the machine's run.
ghost use Rattle.settings_cmd.specs.Laws.{GettingsOpen, PrunesOnce};

/// Where the disk is at a world of the machine without a running job, and the image's folder makes the machine's image, a `get`
/// that answers is the machine's opening without `boot`, and it answers from what the opening leaves. After a `prune` that ended
/// well the next one prints `pruned 0`. It does nothing: its clauses are the laws.
pub fn laws()
    ensures gettings { GettingsOpen }
    ensures prunes { PrunesOnce }
{}
