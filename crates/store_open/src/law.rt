//! What an opening makes of the machine's run.
ghost use Rattle.store_open.specs.Laws.{ImagesAreGood, IsMachineStep, OpensFromTheStart, OpeningsRun, RefusalsKeep};

/// The opening step is the machine's; on a disk that was settled, each crash state since the start of an opening has the world
/// before the step or the world after it; an opening makes a part of the machine's run, whatever happened before it; and
/// one that is refused keeps the disk at its world, whatever the image is. It does nothing: its clauses are the law.
pub fn laws()
    ensures good { ImagesAreGood }
    ensures step { IsMachineStep }
    ensures settled { OpensFromTheStart }
    ensures runs { OpeningsRun }
    ensures refusals { RefusalsKeep }
{}
