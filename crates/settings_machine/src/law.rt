//! What holds of every run of the machine.
ghost use Rattle.settings_machine.specs.Laws.{FitStays, FilesStayPaid, NothingOwedIsCurrent, OpeningsFit};
ghost use Rattle.settings_machine.specs.Laws.{OpeningsPay, BeginningsPay, NewStoresAreKept, MigrationsPay, CrashesPay};
ghost use Rattle.settings_machine.specs.Jobs.{JobsRunInOrder};
ghost use Rattle.settings_machine.specs.Apart.{OthersLeaveIt, TransactionsAreApart};
ghost use Rattle.settings_machine.specs.Reopened.{OpeningsKeepSettings, OpeningTwiceIsOnce};
ghost use Rattle.settings_machine.specs.Settling.{IdleOwesNothing};
ghost use Rattle.settings_machine.specs.Calm.{CalmJobsEnd, CalmAppliesPay};
ghost use Rattle.settings_machine.specs.Touched.{JobsTouchTheirFiles, FilesComeFirst};
ghost use Rattle.settings_machine.specs.PlanLaws.{SetIsOneChange, GuardsHold, PlansComeTrue};
ghost use Rattle.settings_machine.specs.Forgetting.{ForgettingForgets, ForgettingMendsTypes, ForgettingPays};
ghost use Rattle.settings_machine.specs.VerifyLaws.{StatesAreExact, PaidFilesAreOurs};

/// The laws of the machine. It does nothing: its clauses are what holds of every image that can be read.
///
/// Openings, requests and turns of the job keep a world fit, and each covered file paid that was, whatever the outside lets
/// them come to; after a boot each is paid, whatever was before. So whenever nothing is owed, each of these is what its
/// template renders to from scratch. An opening makes a typed world fit and keeps what is paid; a beginning and a migration
/// lead to paid worlds, and a store that has begun is fit once it is opened; a crash that leaves what is held, and all
/// configuration files but some that are due, leaves paid what was.
///
/// Each job runs the commands of what was owed when it began, in order, up to the first that fails, and no other program is
/// run. It writes the files of what was owed then and touches no other, whatever is committed meanwhile. When it runs a
/// command, its covered files are what their templates render to, but for those that a change since affects. While nothing
/// fails a job ends, after a turn for each file, one for each command and one, in a world that the one before says; or it
/// stops at the first template that refuses. After a request for a job that was answered with success, an idle job owes
/// nothing, unless keys were committed, or added by an opening, for which no job was asked.
///
/// What a transaction has pending is changed by requests on it alone, and depends on nothing else unless a commit of it was
/// guarded. An opening changes no live setting and nothing that is pending, and one opening after another is one.
///
/// To set pairs at once is to begin a transaction with them, and to commit and apply it. A guarded change that succeeds is the
/// change by itself, and the files of the keys that it changes render then; where the first of them refuses, nothing changes.
/// A plan that is answered while no job runs comes true: its keys change, its job begins, and while nothing fails it ends with
/// its files written as they were answered and its commands run, or stops at the first template that the plan has as refusing.
///
/// The state that is answered of a file is the one that is the case with it. Where a file is paid, nobody else wrote it or took it away.
///
/// Forgetting takes away what the named keys have, live and pending, and nothing else; where each key whose value the types refuse
/// is named, the world is typed after it; and a covered file is paid after it that was.
pub fn laws()
    ensures fit { FitStays }
    ensures files { FilesStayPaid }
    ensures current { NothingOwedIsCurrent }
    ensures opened { OpeningsFit }
    ensures openings { OpeningsPay }
    ensures beginnings { BeginningsPay }
    ensures new_stores { NewStoresAreKept }
    ensures migrations { MigrationsPay }
    ensures crashes { CrashesPay }
    ensures restarts { JobsRunInOrder }
    ensures others { OthersLeaveIt }
    ensures apart { TransactionsAreApart }
    ensures settings { OpeningsKeepSettings }
    ensures twice { OpeningTwiceIsOnce }
    ensures idle { IdleOwesNothing }
    ensures calm { CalmJobsEnd }
    ensures calm_apply { CalmAppliesPay }
    ensures touched { JobsTouchTheirFiles }
    ensures first { FilesComeFirst }
    ensures one_change { SetIsOneChange }
    ensures guards { GuardsHold }
    ensures plans { PlansComeTrue }
    ensures states { StatesAreExact }
    ensures ours { PaidFilesAreOurs }
    ensures forgets { ForgettingForgets }
    ensures mends { ForgettingMendsTypes }
    ensures forgetting { ForgettingPays }
{}
