//! What holds of tables as a whole.
ghost use Rattle.typed_settings.specs.Laws.{MakeOneTable};

/// The law of tables: the same texts make one table, row for row. The call does nothing.
pub fn laws()
    ensures { MakeOneTable }
{}
