//! What holds of all places, and of the files of every directory.
ghost use Rattle.fs_datastore.specs.Laws.{NamesOne, NamesNoFormat, StandsForOne, StandAlike, StandsWithoutJournal, StandsFaultless, HasOneFault};

/// The laws that the meaning of a data directory rests on: a path is that of at most one place, and that of the
/// format is no place's; files represent at most one choice of what is held, in one format, and those that are alike
/// represent the same; files that represent something have no journal among them and no fault, and others have at most
/// one. It does nothing.
pub fn laws()
    ensures one_place { NamesOne }
    ensures no_format { NamesNoFormat }
    ensures one_meaning { StandsForOne }
    ensures alike { StandAlike }
    ensures no_journal { StandsWithoutJournal }
    ensures no_fault { StandsFaultless }
    ensures one_fault { HasOneFault }
{}
