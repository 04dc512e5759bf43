//! The configuration files of a content, each with its two paths.
ghost use Rattle.std.specs.Prelude.{◌≡◌, ◌≢◌, ◌++◌, [], ◌∷◌, IfOk, IfErr, OnOk, IfSome, IfNone, map, option_and_then};
ghost use Rattle.std.specs.Result.{result_ok};
ghost use Rattle.std.specs.FinMap.{entries};
ghost use Rattle.std.specs.Option.{option_copied};
ghost use Rattle.metadata_links.specs.Faults.{faults_in, first_of};
ghost use Rattle.metadata_links.specs.Files.{is_etc_path, is_template_path, passing, row_with, row_of, file_of, files_from, files_in};
ghost use Rattle.metadata_links.specs.Texts.{text_in};
ghost use Rattle.metadata_links.specs.declared.manifest_error.ManifestError.TheVariants.{Memory};
ghost use Rattle.outside.specs.PathText.{path_of};

use crate::fields::{Fields, fields_below};
use crate::file_row::FileRow;
use crate::manifest_error::ManifestError;
use crate::name_map::NameMap;
use crate::texts::text_in;
use json_trees::Scalar;
use key_names::Text;
use outside::{Name, Path, PathError};
use settings_tree::Content;
use std::alloc::{AllocError, Global};

fn is_etc_path(path: &[Name]) -> bool
    ensures { result ≡ is_etc_path path.now }
{
    match path {
        [first, _, ..] => first.as_slice() == b"etc".as_slice(),
        _ => false,
    }
}

fn is_template_path(path: &[Name]) -> bool
    ensures { result ≡ is_template_path path.now }
{
    1 <= path.len() && path.len() <= 38
}

// The path that the text spells, if it spells one.
fn path_in(alloc: Global, text: &Text) -> Result<Option<Path>, AllocError>
    ensures { IfOk result (λ path. path ≡ result_ok (path_of text.now)) }
{
    match Path::read(alloc, text.as_str().as_bytes()) {
        Ok(path) => Ok(Some(path)),
        Err(PathError::Memory) => Err(AllocError),
        Err(_) => Ok(None),
    }
}

fn etc_path(alloc: Global, text: &Text) -> Result<Option<Path>, AllocError>
    ensures { IfOk result (λ path. path ≡ passing is_etc_path (path_of text.now)) }
{
    let path = path_in(alloc, text)?;
    Ok(path.filter(|path| is_etc_path(path.names())))
}

fn template_path(alloc: Global, text: &Text) -> Result<Option<Path>, AllocError>
    ensures { IfOk result (λ path. path ≡ passing is_template_path (path_of text.now)) }
{
    let path = path_in(alloc, text)?;
    Ok(path.filter(|path| is_template_path(path.names())))
}

fn row_of(
    alloc: Global,
    name: &Text,
    path: &Text,
    template: &Text,
) -> Result<FileRow, ManifestError>
    ensures ok { IfOk result (λ row. row_of name.now path.now template.now ≡ Ok row) }
    ensures err { IfErr result (λ e. e ≢ Memory → row_of name.now path.now template.now ≡ Err e) }
{
    let path = etc_path(alloc, path)?;
    let template = template_path(alloc, template)?;
    let name = name.copy()?;
    match (path, template) {
        (Some(path), Some(template)) => Ok(FileRow {
            name,
            path,
            template,
        }),
        _ => Err(ManifestError::BadPath { file: name }),
    }
}

fn text_of(value: Option<&Scalar>) -> Option<&Text>
    ensures { option_copied result ≡ option_and_then text_in (option_copied value.entry) }
{
    match value {
        Some(value) => text_in(value),
        None => None,
    }
}

fn file_of(alloc: Global, name: &Text, fields: &Fields) -> Result<Option<FileRow>, ManifestError>
    ensures some { IfOk result (λ file. IfSome file (λ row. file_of name.now fields.now ≡ Some (Ok row))) }
    ensures none { IfOk result (λ file. IfNone file (file_of name.now fields.now ≡ None)) }
    ensures err { IfErr result (λ e. e ≢ Memory → file_of name.now fields.now ≡ Some (Err e)) }
{
    match (text_of(fields.one.as_ref()), text_of(fields.other.as_ref())) {
        (Some(path), Some(template)) => Ok(Some(row_of(alloc, name, path, template)?)),
        (None, None) => Ok(None),
        _ => Err(ManifestError::Incomplete { file: name.copy()? }),
    }
}

// Puts the row of the file that the fields make, if they make one, at the end.
fn push_file(
    alloc: Global,
    files: &mut Vec<(Text, FileRow)>,
    name: &Text,
    fields: &Fields,
) -> Result<(), ManifestError>
    ensures read { OnOk result (map (λ e. (e.0, Ok e.1)) files.new.items
        ≡ map (λ e. (e.0, Ok e.1)) files.old.items ++ files_from ((name.now, fields.now) ∷ [])) }
    ensures err { IfErr result (λ e. e ≢ Memory
        → files_from ((name.now, fields.now) ∷ []) ≡ (name.now, Err e) ∷ []) }
{
    if let Some(row) = file_of(alloc, name, fields)? {
        files.push((name.copy()?, row))?;
    }
    Ok(())
}

/// The files of the content, by name.
///
/// `Incomplete` and `BadPath` are answered exactly for the first file by name that is incomplete or
/// has a bad path. `Memory` may come at any place.
pub(crate) fn files_in(alloc: Global, content: &Content) -> Result<NameMap<FileRow>, ManifestError>
    ensures ok { IfOk result (λ files. map (λ e. (e.0, Ok e.1)) (entries files) ≡ files_in content.now) }
    ensures err { IfErr result (λ e. e ≢ Memory → first_of (faults_in (files_in content.now)) ≡ Some e) }
{
    let found = fields_below(
        alloc,
        content,
        "configuration-files",
        "path",
        "template-path",
    )?;
    let mut files = Vec::new(alloc);
    for (name, fields) in found.iter() {
        push_file(alloc, &mut files, name, fields)?;
    }
    Ok(NameMap::of(files))
}
