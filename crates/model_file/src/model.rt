//! The model of a text.
ghost use Rattle.std.specs.Prelude.{◌≡◌, ◌≢◌, ℕ, List, IfOk, IfErr, OnOk, MatchResult};
ghost use Rattle.toml.specs.View.{table_view};
ghost use Rattle.toml_values.specs.Document.{table_of};
ghost use Rattle.model_file.specs.Model.{Spells, IsFault, IsModelOf, AreKnown, AreTyped};
ghost use Rattle.model_file.specs.Rows.{row_texts};
ghost use Rattle.model_file.specs.Checks.{checks, content_checks};
ghost use Rattle.model_file.specs.Contents.{contents_of};
ghost use Rattle.model_file.specs.Refused.{Passes, Refuses, RefusesText};
ghost use Rattle.model_file.specs.declared.model_error.ModelKind.{ModelKind};
ghost use Rattle.model_file.specs.declared.model_error.ModelKind.TheVariants.{Memory};
ghost use Rattle.typed_settings.specs.Row.{IsTableOf, IsPrefixFree};

use crate::document::check_names;
use crate::metadata_section::put_metadata;
use crate::os_section::os_of;
use crate::types_section::types_of;
use crate::value_sections::put_section;
use crate::{ModelError, ModelKind};
use key_names::Text;
use settings_tree::{Content, Os};
use std::alloc::Global;
use toml::Table;
use toml_values::{LocatedFault, table_of};
use typed_settings::Types;

/// What a model file says.
#[derive(Drop)]
pub struct Model {
    /// The types of the settings.
    pub types: Types,
    /// The names of the operating system.
    pub os: Os,
    /// The default settings, the services, the configuration files and the metadata. No key is weak.
    pub content: Content,
}

impl Model {
    /// The model that a text is. Each section may be missing, and is then empty.
    ///
    /// The first fault is answered: `NotToml` at `-` where `toml` doesn't read the text; `UnknownSection` at the least
    /// top-level name that is none; and then the faults of the sections `os`, `types`, `settings`, `services`,
    /// `configuration-files` and `metadata`, in this order. `NotTable` comes first in each. The entries of a section go in
    /// the order of TOML's table, which is that of the names' bytes, depth first, a table directly before what is in
    /// it. In `os`, a name that isn't of bare characters or represents no text is `BadOs`. In `types`, a name and text that
    /// are no row are `BadRow`; after all of these comes `RowsMeet`, at the second row. In the next three, names that
    /// are together no key are `BadKey`, a value that is no scalar is `BadValue`, and one that the types refuse is
    /// `IllTyped`, in this order for each entry. In `metadata`, a key that doesn't begin with `settings` is `BadMetadata`;
    /// then come `BadKey`, `BadValue`, and `BadMetadata` for a name that is no metadata name. `Memory` may come at any
    /// place. It takes time linear in the text, up to a logarithm in the number of its entries, but for the rows, which take
    /// that of `Types::of_rows`.
    pub fn read(alloc: Global, text: &[u8]) -> Result<Model, ModelError>
        ensures ok { IfOk result (Spells text.now) }
        ensures fault { IfErr result (λ e. e.kind ≢ Memory → IsFault text.now e.kind e.at) }
        ensures exact { (kind : ModelKind) (at : List ℕ) → IsFault text.now kind at
            → MatchResult result (λ _. ⊥) (λ e. e.kind ≢ Memory → (e.kind ≡ kind) × (e.at ≡ at)) }
        ensures no_fault { (model : Model) → Spells text.now model → IfErr result (λ e. e.kind ≡ Memory) }

        // The defaults fit the types: each is taken at its key, so no key with a default begins another.
        ensures free { IfOk result (λ model. IsPrefixFree model.types) }
        ensures known { IfOk result (λ model. AreKnown model.types model.content.values) }
        ensures typed { IfOk result (λ model. AreTyped model.types model.content.values) }
    {
        match model_of(alloc, text) {
            Ok(model) => Ok(model),
            Err(LocatedFault::Fault(kind, at)) => Err(ModelError { kind, at }),
            Err(LocatedFault::Memory) => Err(ModelError {
                kind: ModelKind::Memory,
                at: Text::of(String::new(alloc)),
            }),
        }
    }
}

fn model_of(alloc: Global, text: &[u8]) -> Result<Model, LocatedFault<ModelKind>>
    ensures ok { IfOk result (Spells text.now) }
    ensures fault { IfErr result (RefusesText text.now) }
    ensures free { IfOk result (λ model. IsPrefixFree model.types) }
    ensures typed { IfOk result (λ model. AreTyped model.types model.content.values) }
{
    let Some(document) = table_of(alloc, text)? else {
        let at = Text::from_str(alloc, "-")?;
        return Err(LocatedFault::Fault(ModelKind::NotToml, at));
    };
    sections_of(alloc, &document)
}

fn sections_of(alloc: Global, document: &Table) -> Result<Model, LocatedFault<ModelKind>>
    ensures passes { OnOk result (Passes (row_texts (table_view document.now)) (checks (table_view document.now))) }
    ensures model { IfOk result (IsModelOf (table_view document.now)) }
    ensures free { IfOk result (λ model. IsPrefixFree model.types) }
    ensures typed { IfOk result (λ model. AreTyped model.types model.content.values) }
    ensures refused { IfErr result (Refuses (row_texts (table_view document.now)) (checks (table_view document.now))) }
{
    check_names(alloc, document)?;
    let os = os_of(alloc, document)?;
    let types = types_of(alloc, document)?;
    let content = content_of(alloc, document, &types)?;
    Ok(Model { types, os, content })
}

fn content_of(
    alloc: Global,
    document: &Table,
    types: &Types,
) -> Result<Content, LocatedFault<ModelKind>>
    requires { IsTableOf (row_texts (table_view document.now)) types.now }
    ensures passes { OnOk result (Passes (row_texts (table_view document.now)) (content_checks (table_view document.now))) }
    ensures content { IfOk result (λ content. content ≡ contents_of (table_view document.now)) }
    ensures free { OnOk result (IsPrefixFree types.now) }
    ensures typed { IfOk result (λ content. AreTyped types.now content.values) }
    ensures refused { IfErr result (Refuses (row_texts (table_view document.now)) (content_checks (table_view document.now))) }
{
    let mut content = Content::new(alloc);
    put_section(alloc, document, "settings", types, &mut content)?;
    put_section(alloc, document, "services", types, &mut content)?;
    put_section(alloc, document, "configuration-files", types, &mut content)?;
    put_metadata(alloc, document, &mut content)?;
    Ok(content)
}
