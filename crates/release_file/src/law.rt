//! What holds of all plans.
ghost use Rattle.release_file.specs.Laws.{PlansOnce, PlansOrMisses, MissesOnce};

/// The laws that make a plan a function of the transitions and the two versions: there is one plan at most, none where
/// a version is missing, and one such version at most. It does nothing.
pub fn laws()
    ensures once { PlansOnce }
    ensures or_misses { PlansOrMisses }
    ensures misses_once { MissesOnce }
{}
