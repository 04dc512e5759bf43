//! The release of an image is read.
ghost use Rattle.std.specs.Prelude.{◌≡◌, ◌∷◌, [], Some, codes, IfOk, IfErr};
ghost use Rattle.outside.specs.History.{tree_of};
ghost use Rattle.outside.specs.Told.{WhereTold};
ghost use Rattle.outside.specs.Faults.{HasCauseOf};
ghost use Rattle.store_image.specs.Paths.{sources_in};
ghost use Rattle.settings_cmd.specs.Releases.{release_path, release_word, IsReleaseIn, TellsOfRelease, TellsOfText, Reads, IsOfRelease};

use command_outcome::Refusal;
use key_names::Text;
use outside::{Disk, Name, Path};
use release_file::{Release, ReleaseError, ReleaseKind};
use std::alloc::{AllocError, Global};

fn release_path(alloc: Global) -> Result<Path, AllocError>
    ensures { IfOk result (λ path. path ≡ codes "image" ∷ release_path) }
{
    let mut path = Path::root(alloc);
    path.push_name(Name::of(b"image".to_vec(alloc)?))?;
    path.push_name(Name::of(b"release.toml".to_vec(alloc)?))?;
    Ok(path)
}

// The word for a fault; out of memory has none.
fn release_word(kind: ReleaseKind) -> &'static str
    ensures { result.now ≡ release_word kind }
{
    match kind {
        ReleaseKind::NotToml => "not-toml",
        ReleaseKind::UnknownSection => "unknown-section",
        ReleaseKind::BadVersion => "bad-version",
        ReleaseKind::BadMigration => "bad-migration",
        ReleaseKind::BadPair => "bad-pair",
        ReleaseKind::UnknownMigration => "unknown-migration",
        ReleaseKind::Memory => "",
    }
}

// The refusal that tells of a fault of the release file.
fn bad_release(alloc: Global, kind: &str, at: Text) -> Result<Refusal, AllocError>
    ensures { IfOk result (λ refusal. refusal ≡ Refusal.BadImage (codes "release.toml") kind.now at) }
{
    Ok(Refusal::BadImage {
        file: Text::from_str(alloc, "release.toml")?,
        kind: Text::from_str(alloc, kind)?,
        at,
    })
}

fn missing_release(alloc: Global) -> Result<Refusal, AllocError>
    ensures { IfOk result (λ refusal. refusal ≡ Refusal.BadImage (codes "release.toml") (codes "missing") (codes "-")) }
{
    let at = Text::from_str(alloc, "-")?;
    bad_release(alloc, "missing", at)
}

// The text of the release file.
fn release_text<D: Disk>(alloc: Global, disk: &mut D) -> Result<Vec<u8>, Refusal>
    ensures same { D.told disk.new ≡ D.told disk.old }
    ensures there { IfOk result (λ text. WhereTold (D.told disk.old) (λ h. sources_in (tree_of h) release_path ≡ Some text.items)) }
    ensures refused { IfErr result (λ refusal. WhereTold (D.told disk.old) (λ h. TellsOfRelease (sources_in (tree_of h)) refusal)) }
    ensures of_release { IfErr result IsOfRelease }
    ensures cause { HasCauseOf Refusal.Disk (D.faults disk.old) (D.faults disk.new) result }
{
    let path = release_path(alloc)?;
    match disk.read(alloc, &path)? {
        Some(text) => Ok(text),
        None => Err(missing_release(alloc)?),
    }
}

// Why the text is no release.
fn refused(alloc: Global, error: ReleaseError) -> Result<Refusal, AllocError>
    ensures { IfOk result (TellsOfText error) }
{
    if error.kind == ReleaseKind::Memory {
        return Ok(Refusal::Memory);
    }
    bad_release(alloc, release_word(error.kind), error.at)
}

// The release that the text is.
fn release_of(alloc: Global, text: &[u8]) -> Result<Release, Refusal>
    ensures reads { Reads text.now result }
    ensures of_release { IfErr result IsOfRelease }
{
    match Release::read(alloc, text) {
        Ok(release) => Ok(release),
        Err(error) => Err(refused(alloc, error)?),
    }
}

/// Reads the release of the image, `image/release.toml`. It changes nothing.
///
/// `BadImage` exactly where the file is missing or is no release, with the first fault; `Disk` where the disk failed; `Memory`
/// where it runs out of memory.
pub(crate) fn read_release<D: Disk>(alloc: Global, disk: &mut D) -> Result<Release, Refusal>
    ensures same { D.told disk.new ≡ D.told disk.old }
    ensures ok { IfOk result (λ release. WhereTold (D.told disk.old) (λ h. IsReleaseIn (sources_in (tree_of h)) release)) }
    ensures refused { IfErr result (λ refusal. WhereTold (D.told disk.old) (λ h. TellsOfRelease (sources_in (tree_of h)) refusal)) }
    ensures of_release { IfErr result IsOfRelease }
    ensures cause { HasCauseOf Refusal.Disk (D.faults disk.old) (D.faults disk.new) result }
{
    let text = release_text(alloc, disk)?;
    release_of(alloc, &text)
}
