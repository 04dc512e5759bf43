//! The metadata that says which services a key affects.
ghost use Rattle.std.specs.Prelude.{◌≡◌, ◌≢◌, ◌++◌, [], Some, Ok, Err, map, IfOk, IfErr, OnOk};
ghost use Rattle.std.specs.List.{flat_map};
ghost use Rattle.std.specs.Option.{option_copied};
ghost use Rattle.metadata_links.specs.Faults.{first_of, list_faults, is_among};
ghost use Rattle.metadata_links.specs.Lists.{list_of, lists_at, lists_in, IsIndexOf};
ghost use Rattle.metadata_links.specs.declared.manifest_error.ManifestError.TheVariants.{Memory};

use crate::index::Index;
use crate::manifest_error::ManifestError;
use crate::name_map::NameMap;
use crate::service::Service;
use crate::texts::{Texts, texts_in};
use json_trees::Scalar;
use key_names::{Key, Text};
use settings_tree::Content;
use std::alloc::Global;

// Whether the service is among those given, if any are.
fn is_among(services: Option<&NameMap<Service>>, name: &Text) -> bool
    ensures { result ≡ is_among (option_copied services.entry) name.now }
{
    match services {
        Some(services) => services.get(name.as_str().as_bytes()).is_some(),
        None => true,
    }
}

// Refuses the first service that isn't among those given.
fn check_known(
    services: Option<&NameMap<Service>>,
    key: &Key,
    names: &[Text],
) -> Result<(), ManifestError>
    ensures ok { OnOk result (list_faults (is_among (option_copied services.entry)) (key.now, Ok names.now) ≡ []) }
    ensures err { IfErr result (λ e. e ≢ Memory
        → first_of (list_faults (is_among (option_copied services.entry)) (key.now, Ok names.now)) ≡ Some e) }
{
    for name in names {
        if !is_among(services, name) {
            return Err(ManifestError::UnknownService {
                key: key.copy()?,
                service: name.copy()?,
            });
        }
    }
    Ok(())
}

// The list of services that the value is.
fn list_of(alloc: Global, key: &Key, value: &Scalar) -> Result<Texts, ManifestError>
    ensures ok { IfOk result (λ list. list_of key.now value.now ≡ Ok list) }
    ensures err { IfErr result (λ e. e ≢ Memory → list_of key.now value.now ≡ Err e) }
{
    match texts_in(alloc, value)? {
        Some(list) => Ok(list),
        None => Err(ManifestError::BadMeta { key: key.copy()? }),
    }
}

// The list of services that the value is, each of them among those given.
fn known_list(
    alloc: Global,
    services: Option<&NameMap<Service>>,
    key: &Key,
    value: &Scalar,
) -> Result<Texts, ManifestError>
    ensures ok { IfOk result (λ list. list_of key.now value.now ≡ Ok list) }
    ensures sound { OnOk result
        (list_faults (is_among (option_copied services.entry)) (key.now, list_of key.now value.now) ≡ []) }
    ensures err { IfErr result (λ e. e ≢ Memory → first_of
        (list_faults (is_among (option_copied services.entry)) (key.now, list_of key.now value.now)) ≡ Some e) }
{
    let list = list_of(alloc, key, value)?;
    check_known(services, key, list.as_slice())?;
    Ok(list)
}

// Puts the list of services that the value is, if there is one, at the end.
fn push_list(
    alloc: Global,
    lists: &mut Vec<(Key, Texts)>,
    services: Option<&NameMap<Service>>,
    key: &Key,
    value: Option<&Scalar>,
) -> Result<(), ManifestError>
    ensures read { OnOk result (map (λ e. (e.0, Ok e.1)) lists.new.items
        ≡ map (λ e. (e.0, Ok e.1)) lists.old.items ++ lists_at key.now (option_copied value.entry)) }
    ensures sound { OnOk result (flat_map (list_faults (is_among (option_copied services.entry)))
        (lists_at key.now (option_copied value.entry)) ≡ []) }
    ensures err { IfErr result (λ e. e ≢ Memory
        → first_of (flat_map (list_faults (is_among (option_copied services.entry)))
        (lists_at key.now (option_copied value.entry))) ≡ Some e) }
{
    let Some(value) = value else {
        return Ok(());
    };
    let list = known_list(alloc, services, key, value)?;
    lists.push((key.copy()?, list))?;
    Ok(())
}

/// The lists of the content's metadata, by key.
///
/// The first fault by key is answered: `BadMeta`, or, where services are given, `UnknownService` for
/// the first service of a list that isn't among them. `Memory` may come at any place. It takes one
/// pass over the keys with metadata, and a search among the names of each.
pub(crate) fn lists_in(
    alloc: Global,
    content: &Content,
    services: Option<&NameMap<Service>>,
) -> Result<Index, ManifestError>
    ensures ok { IfOk result (IsIndexOf content.now.metadata) }
    ensures sound { OnOk result (flat_map (list_faults (is_among (option_copied services.entry)))
        (lists_in content.now.metadata) ≡ []) }
    ensures err { IfErr result (λ e. e ≢ Memory → first_of (flat_map
        (list_faults (is_among (option_copied services.entry))) (lists_in content.now.metadata)) ≡ Some e) }
{
    let mut lists = Vec::new(alloc);
    for (key, names) in content.metadata().iter() {
        let value = names.get(b"affected-services");
        push_list(alloc, &mut lists, services, key, value)?;
    }
    Ok(Index::of_rising(lists))
}
