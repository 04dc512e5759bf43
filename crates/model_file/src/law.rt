//! What holds of texts and models.
ghost use Rattle.model_file.specs.Model.{SpellsOnce};

/// The law of model files: a text spells one model at most, of one table of types, one list of names of the operating
/// system, and one content. The call does nothing.
pub fn laws()
    ensures { SpellsOnce }
{}
