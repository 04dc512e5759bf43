//! The generators of an image are read.
ghost use Rattle.std.specs.Prelude.{◌≡◌, ◌∷◌, [], codes, IfOk, IfErr};
ghost use Rattle.outside.specs.History.{tree_of};
ghost use Rattle.outside.specs.Told.{WhereTold};
ghost use Rattle.outside.specs.Faults.{HasCauseOf};
ghost use Rattle.store_image.specs.Paths.{sources_in};
ghost use Rattle.setting_generators.specs.Reading.{Spells};
ghost use Rattle.settings_cmd.specs.Generators.{generators_path, generators_word, BeginWithSettings, AreGeneratorsIn};
ghost use Rattle.settings_cmd.specs.Generators.{TellsOfGenerators, TellsOfFault, TellsOfText, IsOfGenerators, given_of};

use command_outcome::Refusal;
use key_names::Text;
use outside::{Disk, Name, Path};
use setting_generators::{Generators, GeneratorsError, GeneratorsKind};
use std::alloc::{AllocError, Global};
use typed_settings::Types;

fn generators_path(alloc: Global) -> Result<Path, AllocError>
    ensures { IfOk result (λ path. path ≡ codes "image" ∷ generators_path) }
{
    let mut path = Path::root(alloc);
    path.push_name(Name::of(b"image".to_vec(alloc)?))?;
    path.push_name(Name::of(b"generators.toml".to_vec(alloc)?))?;
    Ok(path)
}

// The word for a fault; out of memory has none.
fn generators_word(kind: GeneratorsKind) -> &'static str
    ensures { result.now ≡ generators_word kind }
{
    match kind {
        GeneratorsKind::NotToml => "not-toml",
        GeneratorsKind::BadKey => "bad-key",
        GeneratorsKind::IllTyped => "ill-typed",
        GeneratorsKind::BadCommand => "bad-command",
        GeneratorsKind::Memory => "",
    }
}

// The refusal that tells of a fault of the generators file.
fn bad_generators(alloc: Global, kind: &str, at: Text) -> Result<Refusal, AllocError>
    ensures { IfOk result (λ refusal. refusal ≡ Refusal.BadImage (codes "generators.toml") kind.now at) }
{
    Ok(Refusal::BadImage {
        file: Text::from_str(alloc, "generators.toml")?,
        kind: Text::from_str(alloc, kind)?,
        at,
    })
}

// Why the text spells no generators.
fn refused(alloc: Global, error: GeneratorsError) -> Result<Refusal, AllocError>
    ensures { IfOk result (TellsOfFault error) }
{
    if error.kind == GeneratorsKind::Memory {
        return Ok(Refusal::Memory);
    }
    bad_generators(alloc, generators_word(error.kind), error.at)
}

// The generators that the text spells.
fn generators_of(alloc: Global, text: &[u8], types: &Types) -> Result<Generators, Refusal>
    ensures ok { IfOk result (Spells types.now text.now) }
    ensures refused { IfErr result (TellsOfText types.now text.now) }
    ensures of_generators { IfErr result IsOfGenerators }
    ensures settings { IfOk result BeginWithSettings }
{
    match Generators::read(alloc, text, types) {
        Ok(generators) => Ok(generators),
        Err(error) => Err(refused(alloc, error)?),
    }
}

/// Reads the generators of the image, `image/generators.toml`, with its types; `None` where the file is missing. It changes nothing.
///
/// `BadImage` exactly where the file spells no generators, with the first fault; `Disk` where the disk failed; `Memory` where it
/// runs out of memory.
pub(crate) fn read_generators<D: Disk>(
    alloc: Global,
    disk: &mut D,
    types: &Types,
) -> Result<Option<Generators>, Refusal>
    ensures same { D.told disk.new ≡ D.told disk.old }
    ensures ok { IfOk result (λ found. WhereTold (D.told disk.old) (λ h. AreGeneratorsIn types.now (sources_in (tree_of h) generators_path) (given_of found))) }
    ensures refused { IfErr result (λ refusal. WhereTold (D.told disk.old)
        (λ h. TellsOfGenerators types.now (sources_in (tree_of h) generators_path) refusal)) }
    ensures settings { IfOk result (λ found. BeginWithSettings (given_of found)) }
    ensures of_generators { IfErr result IsOfGenerators }
    ensures cause { HasCauseOf Refusal.Disk (D.faults disk.old) (D.faults disk.new) result }
{
    let path = generators_path(alloc)?;
    match disk.read(alloc, &path)? {
        Some(text) => Ok(Some(generators_of(alloc, &text, types)?)),
        None => Ok(None),
    }
}
