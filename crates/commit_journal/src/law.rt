//! What holds of every directory and every journal.
ghost use Rattle.commit_journal.specs.Laws.{StandsForOne, IsOfOneBatch, HasNoJournalPrefix};

/// The laws that the meaning of a journal rests on: a directory represents at most one choice of files, a text is
/// the journal of at most one batch, and no proper prefix of a journal is a journal. It does nothing.
pub fn laws()
    ensures one_meaning { StandsForOne }
    ensures one_batch { IsOfOneBatch }
    ensures no_prefix { HasNoJournalPrefix }
{}
