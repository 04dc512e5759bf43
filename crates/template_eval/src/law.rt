//! What the definition of `json` says.
ghost use Rattle.std.specs.Prelude.{◌≡◌, ℕ, List, Ok};
ghost use Rattle.json_trees.specs.Scalar.{scalar_read};
ghost use Rattle.json_trees.specs.declared.scalar.Scalar.{Scalar};
ghost use Rattle.json_trees.specs.declared.scalar.Scalar.TheVariants.{Text};
ghost use Rattle.template_eval.specs.Quoting.{scalar_json, IsValue, IsQuoted};

/// What `json` prints of a value reads back as this value, and what it prints of a text stays between its
/// quotes. It does nothing: its clauses are the law.
pub fn laws()
    ensures reads_back { (s : Scalar) → IsValue s → scalar_read (scalar_json s) ≡ Ok s }
    ensures quoted { (text : List ℕ) → IsQuoted (scalar_json (Text text)) }
{}
