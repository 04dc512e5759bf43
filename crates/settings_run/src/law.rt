//! The runs of commands.
ghost use Rattle.settings_run.specs.Laws.{InitsRun, ServesRun, SetsRun, GetsRun, AppliesRun, VerifiesRun, MigratesRun, GeneratesRun, ProvisionsRun};
ghost use Rattle.settings_run.specs.Touched.{TouchesWithin, OtherStoresStay};
ghost use Rattle.settings_run.specs.Life.{LivesAreRuns, NewLivesAreRuns, FilesLast, PaysAll};
ghost use Rattle.settings_run.specs.Agreeing.{CalmRunsAgree};

/// Where the disk is at one world, whose job is idle, each command that opens the store is a run of the machine: of the
/// opening, and of its requests and turns. At its end the tree is that of the last world. On the way each covered file is paid
/// that was, and after a boot each is. A crash at any moment leaves what recovers to a world on the way, with these files paid, and a
/// crash at the end what recovers to one after which nothing is acknowledged. The programs that were run are those of the events. Where
/// no call of the disk has failed, the disk is at the last world alone. A `generate` and a `user-data` are the opening and the commit of
/// what generators or a file give to the opened world, where they give it; a `generate` that answers leaves each live value. An `init`
/// and a `migrate` that answer are one event each, or none where the store is at the version.
///
/// A run touches no path but its own. What any run may touch is in the folder `store`, or is a file of the manifest. What its
/// events may touch is in no other data directory than the one to which the links lead.
///
/// Every life of a host is one list of the machine's events, by what the headline says of each run: those of its runs, one after
/// another, each cut where the run was killed or a crash came, and no cut loses an event that was acknowledged by then. It begins at
/// one world, or without a store; images may be laid between two runs. Over one image each covered file that was paid at the start, and
/// after a boot each, is paid at the end. After exit status 0 of a `set` or an `apply` nothing is owed. Two runs of the same `set`, `get`,
/// `apply` or `verify` from one world in which nothing failed came to the same. It does nothing: its clauses are the law.
pub fn laws()
    ensures init { InitsRun }
    ensures serve { ServesRun }
    ensures set { SetsRun }
    ensures get { GetsRun }
    ensures apply { AppliesRun }
    ensures verify { VerifiesRun }
    ensures migrate { MigratesRun }
    ensures generate { GeneratesRun }
    ensures user_data { ProvisionsRun }
    ensures within { TouchesWithin }
    ensures other { OtherStoresStay }
    ensures life { LivesAreRuns }
    ensures new_life { NewLivesAreRuns }
    ensures files { FilesLast }
    ensures pays { PaysAll }
    ensures calm { CalmRunsAgree }
{}
