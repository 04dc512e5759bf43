//! What holds of going forward and back.
ghost use Rattle.migrate_helpers.specs.RoundTrips.{RenamesBack, ReplacesBack};

/// The laws of going forward and back. A rename that is not refused is taken back whole, where no
/// second key was in any map, the second keys are all different, and each begins with `settings`. A
/// replaced string is, where no map held the new one at the key. The call does nothing.
pub fn laws()
    ensures renamed { RenamesBack }
    ensures replaced { ReplacesBack }
{}
