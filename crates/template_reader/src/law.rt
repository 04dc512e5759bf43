//! What the definitions of a template and of a fault say together.
ghost use Rattle.std.specs.Prelude.{◌≡◌, ℕ, List, None, length};
ghost use Rattle.template_reader.specs.Tree.{Tree};
ghost use Rattle.template_reader.specs.Parses.{Parses, fault};
ghost use Rattle.template_reader.specs.Places.{TextsEnd, DashesEnd, CommentsEnd, TagsEnd, FrontsEnd};
ghost use Rattle.template_reader.specs.Spans.{RiseWithin, spans_of};

/// A source has one tree exactly where it has no fault, and the spans of the tree's texts lie in it in
/// order, none over another. A text ends at the least place of `{{`, a comment at the least place of
/// its mark, any other tag at the least place of its mark with an even number of quotes before it,
/// and the front is the lines before the first that is exactly `+++`. It does nothing: its clauses are
/// the law.
pub fn laws()
    ensures tree { (source : List ℕ) → fault source ≡ None → (t : Tree) × Parses source t }
    ensures one { (source : List ℕ) (t u : Tree) → Parses source t → Parses source u → t ≡ u }
    ensures faultless { (source : List ℕ) (t : Tree) → Parses source t → fault source ≡ None }
    ensures texts { TextsEnd }
    ensures dashes { DashesEnd }
    ensures comments { CommentsEnd }
    ensures tags { TagsEnd }
    ensures fronts { FrontsEnd }
    ensures spans { (source : List ℕ) (t : Tree) → Parses source t → RiseWithin 0 (spans_of t) (length source) }
{}
