//! What a report says of the store that it is of.
ghost use Rattle.store_report.specs.Laws.{UntoldIsTyped, TypedIsUntold, ToldMendsTypes};

/// Where no value is reported, all that is held is typed; where it is typed, none is reported; and where it isn't, all is typed but
/// the values at the keys that are reported, so that the store is typed once these are forgotten. It does nothing: its clauses are
/// the law.
pub fn laws()
    ensures untold { UntoldIsTyped }
    ensures typed { TypedIsUntold }
    ensures mends { ToldMendsTypes }
{}
