//! What holds where a command has ended well.
ghost use Rattle.core_commands.specs.Laws.{SetPays, ApplyPays};

/// Where `set` or `apply` ends with an idle job, after all its requests were answered with success, nothing is owed. It does nothing:
/// its clauses are the law.
pub fn laws()
    ensures set { SetPays }
    ensures apply { ApplyPays }
{}
