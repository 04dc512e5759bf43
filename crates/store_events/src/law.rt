//! What beginnings, moves, readings and the forgetting of keys make of the machine's run.
ghost use Rattle.store_events.specs.Laws.{BeginningsAreWhole, BeginningsBegin, MovesAreWhole, MovesMove, RefusedMovesStay, SameDisksStay, PruningsStay};
ghost use Rattle.store_events.specs.Laws.{ReadingsStay, ReadingsTell, ReadingsTouchOwn, ForgettingsAreWhole, ForgettingsForget, ForgettingsTouchOwn};

/// A beginning that is answered is the machine's event `Moved`, which is `Began` where the store holds nothing. A move that is answered
/// is `Moved`, or none where the store is at the version already; a move that is refused is none, and neither is a pruning or a reading,
/// whatever it comes to, nor a disk that is as before. What was read is what the machine holds, and a refusal tells of its store. The
/// forgetting of keys that is answered is `Forgot`, and each key had a value; one that is refused is none, unless the disk failed. A crash
/// at any moment leaves the store as it was, or as it is after the event, complete; a covered file that was what its template renders to,
/// or due, is so still, and after a beginning or a move each is. It does nothing: its clauses are the law.
pub fn laws()
    ensures beginning { BeginningsAreWhole }
    ensures begun { BeginningsBegin }
    ensures moving { MovesAreWhole }
    ensures moved { MovesMove }
    ensures refused { RefusedMovesStay }
    ensures same { SameDisksStay }
    ensures pruned { PruningsStay }
    ensures reading { ReadingsStay }
    ensures tells { ReadingsTell }
    ensures read_own { ReadingsTouchOwn }
    ensures forgetting { ForgettingsAreWhole }
    ensures forgot { ForgettingsForget }
    ensures forgot_own { ForgettingsTouchOwn }
{}
