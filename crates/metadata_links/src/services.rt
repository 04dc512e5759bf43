//! The services of a content.
ghost use Rattle.std.specs.Prelude.{◌≡◌, ◌++◌, [], ◌∷◌, option_and_then, IfOk, OnOk};
ghost use Rattle.std.specs.Option.{option_copied};
ghost use Rattle.std.specs.FinMap.{entries};
ghost use Rattle.metadata_links.specs.Services.{service_with, service_of, services_from, services_in};
ghost use Rattle.metadata_links.specs.Texts.{texts_in};

use crate::fields::{Fields, fields_below};
use crate::name_map::NameMap;
use crate::service::Service;
use crate::texts::{Texts, texts_in};
use json_trees::Scalar;
use key_names::Text;
use settings_tree::Content;
use std::alloc::{AllocError, Global};

// The list of texts that the value is, if there is one and it is one.
fn list_in(alloc: Global, value: Option<&Scalar>) -> Result<Option<Texts>, AllocError>
    ensures { IfOk result (λ list. list ≡ option_and_then texts_in (option_copied value.entry)) }
{
    match value {
        Some(value) => texts_in(alloc, value),
        None => Ok(None),
    }
}

// The service with these lists, if there is one of them.
fn service_with(alloc: Global, files: Option<Texts>, commands: Option<Texts>) -> Option<Service>
    ensures { result ≡ service_with files commands }
{
    if files.is_none() && commands.is_none() {
        return None;
    }
    Some(Service {
        files: files.unwrap_or(Texts::of(Vec::new(alloc))),
        commands: commands.unwrap_or(Texts::of(Vec::new(alloc))),
    })
}

fn service_of(alloc: Global, fields: &Fields) -> Result<Option<Service>, AllocError>
    ensures { IfOk result (λ service. service ≡ service_of fields.now) }
{
    let files = list_in(alloc, fields.one.as_ref())?;
    let commands = list_in(alloc, fields.other.as_ref())?;
    Ok(service_with(alloc, files, commands))
}

// Puts the service that the fields make, if they make one, at the end.
fn push_service(
    alloc: Global,
    services: &mut Vec<(Text, Service)>,
    name: &Text,
    fields: &Fields,
) -> Result<(), AllocError>
    ensures { OnOk result (services.new.items
        ≡ services.old.items ++ services_from ((name.now, fields.now) ∷ [])) }
{
    if let Some(service) = service_of(alloc, fields)? {
        services.push((name.copy()?, service))?;
    }
    Ok(())
}

/// The services of the content, by name. The only error is out of memory.
pub(crate) fn services_in(alloc: Global, content: &Content) -> Result<NameMap<Service>, AllocError>
    ensures { IfOk result (λ services. entries services ≡ services_in content.now) }
{
    let found = fields_below(
        alloc,
        content,
        "services",
        "configuration-files",
        "restart-commands",
    )?;
    let mut services = Vec::new(alloc);
    for (name, fields) in found.iter() {
        push_service(alloc, &mut services, name, fields)?;
    }
    Ok(NameMap::of(services))
}
