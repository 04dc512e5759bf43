//! The model of a text, with its manifest.
ghost use Rattle.std.specs.Prelude.{◌≡◌, ◌≢◌, IfOk, IfErr};
ghost use Rattle.model_file.specs.Model.{Spells, AreKnown, AreTyped};
ghost use Rattle.typed_settings.specs.Row.{IsPrefixFree};
ghost use Rattle.metadata_links.specs.Manifest.{IsManifestOf};
ghost use Rattle.store_image.specs.Image.{AreSections};
ghost use Rattle.store_image.specs.Reading.{Refuses, IsBadModel, IsBadManifest, IsUnlinked};

use crate::ImageError;
use crate::bad::bad_model;
use crate::words::{manifest_at, manifest_word, model_word};
use metadata_links::{Manifest, ManifestError};
use model_file::{Model, ModelError, ModelKind};
use std::alloc::Global;

fn refused_model(alloc: Global, error: ModelError) -> ImageError
    ensures { Refuses (IsBadModel error) result }
{
    match error.kind {
        ModelKind::Memory => ImageError::Memory,
        kind => match bad_model(alloc, model_word(kind), error.at) {
            Ok(bad) => bad,
            Err(_) => ImageError::Memory,
        },
    }
}

fn bad_manifest(alloc: Global, error: &ManifestError) -> Result<ImageError, ImageError>
    requires { error.now ≢ ManifestError.Memory }
    ensures ok { IfOk result (Refuses (IsBadManifest error.now)) }
    ensures err { IfErr result (λ e. e ≡ ImageError.Memory) }
{
    let at = manifest_at(alloc, error)?;
    let bad = bad_model(alloc, manifest_word(error), at)?;
    Ok(bad)
}

fn refused_manifest(alloc: Global, error: ManifestError) -> ImageError
    ensures { Refuses (IsBadManifest error) result }
{
    match error {
        ManifestError::Memory => ImageError::Memory,
        error => match bad_manifest(alloc, &error) {
            Ok(bad) => bad,
            Err(_) => ImageError::Memory,
        },
    }
}

fn read_model(alloc: Global, text: &[u8]) -> Result<Model, ImageError>
    ensures ok { IfOk result (Spells text.now) }
    ensures free { IfOk result (λ model. IsPrefixFree model.types) }
    ensures known { IfOk result (λ model. AreKnown model.types model.content.values) }
    ensures typed { IfOk result (λ model. AreTyped model.types model.content.values) }
    ensures refused { IfErr result (Refuses (IsUnlinked text.now)) }
{
    match Model::read(alloc, text) {
        Ok(model) => Ok(model),
        Err(error) => Err(refused_model(alloc, error)),
    }
}

fn manifest_of(alloc: Global, text: &[u8], model: &Model) -> Result<Manifest, ImageError>
    requires { Spells text.now model.now }
    ensures ok { IfOk result (IsManifestOf model.now.content) }
    ensures refused { IfErr result (Refuses (IsUnlinked text.now)) }
{
    match Manifest::of(alloc, &model.content) {
        Ok(manifest) => Ok(manifest),
        Err(error) => Err(refused_manifest(alloc, error)),
    }
}

/// The model that the text spells, with its manifest; or the first fault of the text, or of its manifest.
#[tactic(auto, using(crate::proofs::Sections::sections))]
pub fn linked(alloc: Global, text: &[u8]) -> Result<(Model, Manifest), ImageError>
    ensures model { IfOk result (λ both. Spells text.now both.0) }
    ensures manifest { IfOk result (λ both. IsManifestOf both.0.content both.1) }
    ensures free { IfOk result (λ both. IsPrefixFree both.0.types) }
    ensures known { IfOk result (λ both. AreKnown both.0.types both.0.content.values) }
    ensures typed { IfOk result (λ both. AreTyped both.0.types both.0.content.values) }
    ensures sections { IfOk result (λ both. AreSections both.0.content.values) }
    ensures refused { IfErr result (Refuses (IsUnlinked text.now)) }
{
    let model = read_model(alloc, text)?;
    let manifest = manifest_of(alloc, text, &model)?;
    Ok((model, manifest))
}
