//! What holds of every run of the machine on a disk.
ghost use Rattle.machine_disk.specs.Laws.{CallsFollow, RunsAreWhole, RunsTouchOwn, CalmDisksSettle, CrashesRecover, CoresHold, HasOneStore};

/// The laws of a run on a disk. It does nothing: its clauses are what holds on every disk.
///
/// A call that goes on from where another ended makes one run with it, so what holds of each call of a run holds of the
/// whole run. After it the tree has the last world; on the way each covered file stays paid that was, and after a boot each
/// is; a crash at any moment leaves what recovers to one of the worlds, with these files paid; and a crash at the end leaves
/// one after which nothing was acknowledged. It touches only what is below the data directory to which the links lead and, where a
/// turn of a job is among its events, files of the manifest.
///
/// Where no call of the disk has failed since the last opening that succeeded, the disk is at the world alone, so that the
/// next run may begin there; a crash leaves what recovers to the world itself, and the core holds what the world holds. A
/// tree has the stored parts of one world.
pub fn laws()
    ensures calls { CallsFollow }
    ensures runs { RunsAreWhole }
    ensures touch { RunsTouchOwn }
    ensures settle { CalmDisksSettle }
    ensures crashes { CrashesRecover }
    ensures holds { CoresHold }
    ensures one { HasOneStore }
{}
