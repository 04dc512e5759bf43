//! The kinds of migrations.
ghost use Rattle.std.specs.Prelude.{◌≡◌, ◌≢◌, MatchOption};
ghost use Rattle.release_file.specs.Works.{word_of};
ghost use Rattle.release_file.specs.declared.kind.Kind.{Kind as Which};

/// The kind of a migration.
#[derive(Clone, Copy, Debug, Drop, PartialEq, Eq)]
pub enum Kind {
    AddSettings,
    AddPrefixes,
    RemoveSettings,
    ReplaceString,
    RenameSettings,
    AddMetadata,
    RemoveMetadata,
    ReplaceMetadata,
    RemoveWeak,
    NoOp,
    Program,
}

/// The kind of this word.
pub fn kind_of(word: &str) -> Option<Kind>
    ensures { MatchOption result ((kind : Which) → word.now ≢ word_of kind) (λ kind. word.now ≡ word_of kind) }
{
    match word {
        "add-settings" => Some(Kind::AddSettings),
        "add-prefixes" => Some(Kind::AddPrefixes),
        "remove-settings" => Some(Kind::RemoveSettings),
        "replace-string" => Some(Kind::ReplaceString),
        "rename-settings" => Some(Kind::RenameSettings),
        "add-metadata" => Some(Kind::AddMetadata),
        "remove-metadata" => Some(Kind::RemoveMetadata),
        "replace-metadata" => Some(Kind::ReplaceMetadata),
        "remove-weak" => Some(Kind::RemoveWeak),
        "no-op" => Some(Kind::NoOp),
        "program" => Some(Kind::Program),
        _ => None,
    }
}
